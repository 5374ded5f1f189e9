// Which files of a table hold the same.
ghost use Rattle.std.specs.Prelude.{◌≡◌, ◌≤◌, ◌^◌, length, All, false};
ghost use Rattle.hash_index.specs.Duplicates.{IsPairOf, pairs_of};
ghost use Rattle.snap_report.specs.State.{Puts, state_of};
ghost use Rattle.snap_report.specs.Telling.{Settled, Tells, between};
ghost use Rattle.snap_top.specs.Dup.{ListsPairs, count_line, dup_text, pair_line, pair_lines};

use disk_model::Sink;
use file_table::Table;
use hash_index::{Pair, Pairs};
use snap_report::{Answer, Lines, Piece, RunFault};
use std::alloc::Global;

// Tells the line of a pair.
fn put_pair<W: Sink>(lines: &mut Lines<'_, W>, table: &Table, pair: Pair)
    requires { IsPairOf table.now.columns pair }
    ensures { Puts W.view (pair_line table.now.columns pair) lines.old lines.new }
{
    lines.put_all(&[
        Piece::Text("dup "),
        Piece::Number(u128::from(table.meta(pair.disk, pair.rec).size)),
        Piece::Text(" "),
        Piece::File(
            table.name(pair.disk),
            table.path(pair.disk, pair.rec).as_str(),
        ),
        Piece::Text(" "),
        Piece::File(
            table.name(pair.other_disk),
            table.path(pair.other_disk, pair.other_rec).as_str(),
        ),
        Piece::Text("\n"),
    ]);
}

// Tells a line for each pair, and answers how many there are. Pairs may be as many as the square of the files: so
// it ends where a write failed, and then the number means nothing.
fn put_pairs<W: Sink>(lines: &mut Lines<'_, W>, table: &Table, pairs: &mut Pairs<'_>) -> u64
    requires within { All (IsPairOf table.now.columns) pairs.old }
    requires few { length pairs.old ≤ 2 ^ 48 }
    ensures puts { Puts W.view (pair_lines table.now.columns pairs.old) lines.old lines.new }
    ensures count { (state_of W.view lines.new).failed ≡ false → result ≡ length pairs.old }
{
    let mut count: u64 = 0;
    while let Some(pair) = pairs.next() {
        put_pair(lines, table, pair);
        count += 1;
        if lines.failed() {
            break;
        }
    }
    count
}

// Tells how many pairs there are.
fn put_count<W: Sink>(lines: &mut Lines<'_, W>, count: u64)
    ensures { Puts W.view (count_line count) lines.old lines.new }
{
    lines.put_all(&[
        Piece::Text("dup: "),
        Piece::Number(u128::from(count)),
        Piece::Text(" pairs\n"),
    ]);
}

fn tell_pairs<W: Sink>(lines: &mut Lines<'_, W>, table: &Table, pairs: &mut Pairs<'_>)
    requires all { pairs.old ≡ pairs_of table.now }
    requires within { All (IsPairOf table.now.columns) pairs.old }
    requires few { length pairs.old ≤ 2 ^ 48 }
    ensures puts { Puts W.view (dup_text table.now) lines.old lines.new }
    ensures settled { Settled (state_of W.view lines.new) }
{
    let count = put_pairs(lines, table, pairs);
    put_count(lines, count);
    lines.hand_on();
}

// Prints the pairs of a table, and answers whether a write failed.
fn print_pairs<W: Sink>(table: &Table, pairs: &mut Pairs<'_>, out: &mut W) -> bool
    requires all { pairs.old ≡ pairs_of table.now }
    requires within { All (IsPairOf table.now.columns) pairs.old }
    requires few { length pairs.old ≤ 2 ^ 48 }
    ensures { Tells (dup_text table.now) (between false (W.view out.old)) (between result (W.view out.new)) }
{
    let mut lines = Lines::over(out);
    tell_pairs(&mut lines, table, pairs);
    lines.failed()
}

/// Lists which files of a table hold the same. Memory is taken before the first line.
pub(crate) fn list_pairs<W: Sink>(alloc: Global, table: &Table, out: &mut W) -> Answer
    ensures { ListsPairs table.now (W.view out.old) (W.view out.new) result }
{
    match Pairs::new(alloc, table) {
        Ok(mut pairs) => {
            let failed = print_pairs(table, &mut pairs, out);
            Answer::done(0, failed)
        }
        Err(_) => Answer::Broken(RunFault::Memory),
    }
}
