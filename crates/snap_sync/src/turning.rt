// One window is hashed, judged, summed and written while the next one is fetched.
ghost use Rattle.std.specs.Prelude.{◌≡◌, All, length, map, take};
ghost use Rattle.std.specs.Thread.{IsSend, IsSync};
ghost use Rattle.parity_writer.specs.Summing.{AreSumsOf, HaveSize};
ghost use Rattle.stripe_reader.specs.Fetched.{FetchesWindow, IsUnhashedWindow, hashed_window};
ghost use Rattle.stripe_reader.specs.Held.{CanRead, HoldsStripes};
ghost use Rattle.stripe_reader.specs.WindowValue.{Fits};
ghost use Rattle.snap_sync.specs.Window.{CanSync, CanWrite, SumsAndSyncs, SyncsWindow, WritesWindow, choice_of, scene};
ghost use Rattle.snap_sync.specs.Work.{AreSumsFor};

use crate::judging::{Counts, look_over};
use disk_model::{Failed, Folder, Sink, Vault};
use file_table::Table;
use parity_writer::{Sums, sum_window, write_sums};
use snap_report::{Lines, Report};
use std::thread::{Threads, join_mut};
use stripe_reader::{Starts, Window, fetch_window, hash_window};

/// A window that was judged: its stripes, and which of them are chosen.
#[derive(Clone, Copy)]
pub(crate) struct Judged<'w, 's, 'c> {
    pub window: &'w Window,
    pub stripes: &'s [u32],
    pub chosen: &'c [bool],
}

/// Stripes of a table: those that were fetched last, and those that are fetched ahead, by where the table's files stood.
#[derive(Clone, Copy)]
pub(crate) struct Round<'t, 'p, 's> {
    pub table: &'t Table,
    pub starts: &'p Starts,
    pub stripes: &'s [u32],
    pub ahead: &'s [u32],
    /// How many threads hash and sum at most.
    pub threads: u32,
}

// Writes the chosen stripes of a window of a table to parity, whose sums were made.
fn write_chosen<V: Vault>(
    vault: &mut V,
    table: &Table,
    near: &Judged<'_, '_, '_>,
    sums: &[Sums],
) -> Result<(), Failed>
    requires { CanWrite table.now near.now sums.now (V.view vault.old) }
    ensures { WritesWindow near.now.window.now (choice_of near.now) result (V.view vault.old) (V.view vault.new) }
{
    // Its levels and block size are within the limits of a table.
    let _shape = table.shape();
    write_sums(vault, near.window, near.stripes, near.chosen, sums)
}

// Hashes the blocks of a window that was fetched.
fn hash_near<R: Threads + Sync>(rt: &R, round: &Round<'_, '_, '_>, window: &mut Window)
    requires holds { HoldsStripes round.now.table.now round.now.stripes.now window.old }
    requires unhashed { IsUnhashedWindow window.old }
    ensures hashed { window.new ≡ hashed_window round.now.table.now.shape window.old }
    ensures holds { HoldsStripes round.now.table.now round.now.stripes.now window.new }
{
    hash_window(rt, round.table.shape(), round.threads, window);
}

// Makes the sums of the stripes of a window that holds them.
fn sum_near<R: Threads + Sync>(
    rt: &R,
    round: &Round<'_, '_, '_>,
    window: &Window,
    sums: &mut [Sums],
)
    requires holds { HoldsStripes round.now.table.now round.now.stripes.now window.now }
    requires room { All (HaveSize round.now.table.now.shape.block_size) sums.old }
    ensures room { AreSumsFor round.now.table.now (length sums.old) sums.new }
    ensures sums { AreSumsOf window.now round.now.table.now.shape.levels sums.new }
{
    let levels = round.table.shape().levels;
    sum_window(rt, window, levels, round.threads, sums);
}

// Hashes a window that was fetched, tells what is found in its stripes, and writes those to parity in which nothing is.
fn sync_window<R: Threads + Sync, V: Vault, W: Sink>(
    rt: &R,
    round: &Round<'_, '_, '_>,
    window: &mut Window,
    vault: &mut V,
    lines: &mut Lines<'_, W>,
    reports: &mut Vec<Box<dyn Report>>,
    chosen: &mut [bool],
    sums: &mut [Sums],
) -> Result<Counts, Failed>
    requires { CanSync round.now.table.now round.now.stripes.now window.old (length chosen.old) sums.old
        (V.view vault.old) }
    ensures sums { AreSumsFor round.now.table.now (length sums.old) sums.new }
    ensures syncs { SyncsWindow W.view standing stands round.now.table.now round.now.stripes.now window.old window.new
        (take window.old.count chosen.new) result
        (scene (V.view vault.old) lines.old reports.old.items) (scene (V.view vault.new) lines.new reports.new.items) }
{
    let (table, stripes) = (round.table, round.stripes);
    let count = window.count() as usize;
    hash_near(rt, round, window);
    let counts = look_over(table, stripes, window, &mut chosen[..count], lines, reports);
    sum_near(rt, round, window, sums);
    let judged = Judged {
        window,
        stripes,
        chosen: &chosen[..count],
    };
    match write_chosen(vault, table, &judged, sums) {
        Ok(()) => Ok(counts),
        Err(fault) => Err(fault),
    }
}

/// Hashes, judges, sums and writes the stripes of the near window, and meanwhile fetches the stripes ahead into the far one. All
/// that reports stays in this thread.
pub(crate) fn turn<R: Threads + Sync, F: Folder, V: Vault, W: Sink>(
    rt: &R,
    round: &Round<'_, '_, '_>,
    near: &mut Window,
    far: &mut Window,
    folders: &mut [F],
    vault: &mut V,
    lines: &mut Lines<'_, W>,
    reports: &mut Vec<Box<dyn Report>>,
    chosen: &mut [bool],
    sums: &mut [Sums],
) -> Result<Counts, Failed>
    requires near { CanSync round.now.table.now round.now.stripes.now near.old (length chosen.old) sums.old
        (V.view vault.old) }
    requires far { CanRead round.now.table.now round.now.starts.now round.now.ahead.now far.old (length folders.old) }
    ensures sums { AreSumsFor round.now.table.now (length sums.old) sums.new }
    ensures near { SyncsWindow W.view standing stands round.now.table.now round.now.stripes.now near.old near.new
        (take near.old.count chosen.new) result
        (scene (V.view vault.old) lines.old reports.old.items) (scene (V.view vault.new) lines.new reports.new.items) }
    ensures fits { Fits round.now.table.now far.new }
    ensures fetched { FetchesWindow round.now.table.now round.now.starts.now round.now.ahead.now far.old far.new
        (map F.view folders.old) (map F.view folders.new) }
{
    let (table, starts, ahead) = (round.table, round.starts, round.ahead);
    let mut fetching = ||
        requires { IsSync R.row × IsSend F.row × CanRead table.now starts.now ahead.now far.now (length folders.now) }
    { fetch_window(rt, folders, table, starts, ahead, far) };
    let mut syncing = || -> Result<Counts, Failed>
        requires { IsSync R.row × CanSync round.now.table.now round.now.stripes.now near.now (length chosen.now)
            sums.now (V.view vault.now) }
        ensures { SumsAndSyncs W.view standing stands round.entry.now.table.now round.entry.now.stripes.now
            near.entry.now near.exit.now (take near.entry.now.count chosen.exit.now) sums.entry.now sums.exit.now result
            (scene (V.view vault.entry.now) lines.entry.now reports.entry.now.items)
            (scene (V.view vault.exit.now) lines.exit.now reports.exit.now.items) }
    { sync_window(rt, round, near, vault, lines, reports, chosen, sums) };
    let ((), synced) = join_mut(rt, &mut fetching, &mut syncing);
    synced
}
