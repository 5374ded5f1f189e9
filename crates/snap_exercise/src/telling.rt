// What an exercise tells.
ghost use Rattle.std.specs.Prelude.{◌≡◌, ◌<◌, ◌≤◌};
ghost use Rattle.snap_exercise.specs.Exercise as exercise;
ghost use Rattle.snap_exercise.specs.Exercised.{summary_of};
ghost use Rattle.snap_report.specs.State.{Puts, state_of};
ghost use Rattle.snap_report.specs.Telling.{Settled};

use crate::files::{DISKS, files_of, size_of};
use disk_model::Sink;
use snap_fix::FixEnd;
use snap_report::{Lines, Piece};
use snap_sync::SyncEnd;

// How many bytes the files of a column have.
fn column_bytes(n: u32, column: u32) -> u64
    requires { column < 8 }
    ensures sum { result ≡ exercise.bytes_in n column }
    ensures few { result ≤ 2100000 }
{
    let mut bytes: u64 = 0;
    for file in 0..files_of(n) {
        bytes += size_of(column, file) as u64;
    }
    bytes
}

// How many bytes the files of the array have.
fn all_bytes(n: u32) -> u64
    ensures { result ≡ exercise.all_bytes n }
{
    let mut bytes: u64 = 0;
    for column in 0..DISKS {
        bytes += column_bytes(n, column);
    }
    bytes
}

// The line of the array: its files, their bytes and its stripes.
fn tell_array<W: Sink>(n: u32, stripes: u32, lines: &mut Lines<'_, W>)
    ensures { Puts W.view (exercise.array_line n stripes) lines.old lines.new }
{
    lines.put_all(&[
        Piece::Text("exercise "),
        Piece::Number(u128::from(n)),
        Piece::Text(": "),
        Piece::Number(u128::from(DISKS * files_of(n))),
        Piece::Text(" files, "),
        Piece::Number(u128::from(all_bytes(n))),
        Piece::Text(" bytes, "),
        Piece::Number(u128::from(stripes)),
        Piece::Text(" stripes\n"),
    ]);
}

// Whether the trees are those of before.
fn tell_trees<W: Sink>(same: bool, lines: &mut Lines<'_, W>)
    ensures { Puts W.view (exercise.trees_line same) lines.old lines.new }
{
    if same {
        lines.put_all(&[Piece::Text("trees equal\n")]);
    } else {
        lines.put_all(&[Piece::Text("trees differ\n")]);
    }
}

/// Tells the five lines of an exercise.
pub(crate) fn tell<W: Sink>(
    n: u32,
    synced: &SyncEnd,
    fixed: FixEnd,
    checked: FixEnd,
    same: bool,
    lines: &mut Lines<'_, W>,
)
    ensures puts { Puts W.view (exercise.exercise_text n (summary_of synced.now fixed checked same)) lines.old lines.new }
    ensures settled { Settled (state_of W.view lines.new) }
{
    tell_array(n, synced.table.length(), lines);
    lines.end_sync(synced.synced, synced.pending);
    lines.end_fix(fixed.blocks, fixed.parities, fixed.left);
    lines.end_check(checked.findings);
    tell_trees(same, lines);
    lines.hand_on();
}
