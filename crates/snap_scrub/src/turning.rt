// One window is hashed and looked at while the next one is fetched, with the levels of its stripes.
ghost use Rattle.std.specs.Prelude.{◌≡◌, length, map, take};
ghost use Rattle.std.specs.Thread.{IsSend, IsSync};
ghost use Rattle.stripe_reader.specs.Fetched.{FetchesWindow};
ghost use Rattle.stripe_reader.specs.Held.{CanRead};
ghost use Rattle.snap_scrub.specs.Looking.{LooksInto, scene};
ghost use Rattle.snap_scrub.specs.Room.{UsesRoom};
ghost use Rattle.snap_scrub.specs.Windows.{CanLook, UsesAndLooks};

use crate::room::Room;
use crate::verdict::Verdict;
use crate::windows::look_window;
use disk_model::{Folder, Sink, Vault};
use file_table::Table;
use parity_writer::{fetch_beside, put_ahead, take_ahead};
use snap_report::{Lines, Report};
use std::thread::{Threads, join_mut};

/// One round of a scrub: the stripes that are looked at, those that are fetched ahead meanwhile, and how many threads
/// hash and sum at most.
#[derive(Clone, Copy)]
pub(crate) struct Round<'a> {
    pub table: &'a Table,
    pub stripes: &'a [u32],
    pub ahead: &'a [u32],
    pub threads: u32,
}

/// Hashes and looks at the stripes of the near window, and meanwhile fetches the stripes ahead into the far one, and reads
/// what the levels hold of them ahead of the calls of the next round.
pub(crate) fn turn<R: Threads + Sync, F: Folder, V: Vault, W: Sink>(
    rt: &R,
    round: &Round<'_>,
    room: &mut Room,
    folders: &mut [F],
    vault: &mut V,
    lines: &mut Lines<'_, W>,
    reports: &mut Vec<Box<dyn Report>>,
    verdicts: &mut [Verdict],
) -> u64
    requires near { CanLook round.now.table.now round.now.stripes.now room.old.near room.old.check verdicts.old }
    requires far { CanRead round.now.table.now room.old.starts round.now.ahead.now room.old.far (length folders.old) }
    requires levels { (V.view vault.old).levels ≡ round.now.table.now.shape.levels }
    ensures room { UsesRoom round.now.table.now room.old room.new }
    ensures fetched { FetchesWindow round.now.table.now room.old.starts round.now.ahead.now room.old.far room.new.far
        (map F.view folders.old) (map F.view folders.new) }
    ensures looks { LooksInto W.view standing stands round.now.table.now round.now.stripes.now room.new.near
        (length round.now.stripes.now) (take (length round.now.stripes.now) verdicts.new) result
        (scene (V.view vault.old) lines.old reports.old.items) (scene (V.view vault.new) lines.new reports.new.items) }
{
    let (table, starts, ahead) = (round.table, &room.starts, round.ahead);
    let (near, far, check) = (&mut room.near, &mut room.far, &mut room.check);
    let mut levels = take_ahead(vault, ahead, table.shape().block_size);
    let mut fetching = ||
        requires { IsSync R.row × IsSend F.row × IsSend V.Ahead.row ×
            CanRead table.now starts.now ahead.now far.now (length folders.now) }
    { fetch_beside(rt, folders, table, starts, ahead, far, &mut levels) };
    let mut looking = || -> u64
        requires { IsSync R.row × CanLook round.now.table.now round.now.stripes.now near.now check.now verdicts.now ×
            ((V.view vault.now).levels ≡ round.now.table.now.shape.levels) }
        ensures { UsesAndLooks W.view standing stands round.entry.now.table.now round.entry.now.stripes.now
            near.entry.now near.exit.now check.entry.now check.exit.now verdicts.exit.now result
            (scene (V.view vault.entry.now) lines.entry.now reports.entry.now.items)
            (scene (V.view vault.exit.now) lines.exit.now reports.exit.now.items) }
    { look_window(rt, round, near, check, vault, lines, reports, verdicts) };
    let ((), findings) = join_mut(rt, &mut fetching, &mut looking);
    put_ahead(vault, levels);
    findings
}
