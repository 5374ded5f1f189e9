// The stripes of a scrub, window after window.
ghost use Rattle.std.specs.Prelude.{◌≡◌, length, map};
ghost use Rattle.disk_model.specs.Vault.{IsUntouched};
ghost use Rattle.stripe_reader.specs.Fetched.{FetchesWindow, IsUnhashedWindow};
ghost use Rattle.stripe_reader.specs.Held.{HoldsCells};
ghost use Rattle.stripe_reader.specs.Starts.{recorded_starts};
ghost use Rattle.snap_scrub.specs.Looking.{LooksOver, scene};
ghost use Rattle.snap_scrub.specs.Room.{IsEnoughFor, IsWorkFor};
ghost use Rattle.snap_scrub.specs.Windows.{IsReady, KeepsWork, LooksNear, Turns, stripes_near, stripes_next};

use crate::beginning::Work;
use crate::turning::{Round, turn};
use disk_model::{Folder, Sink, Vault};
use file_table::Table;
use parity_writer::{fetch_beside, put_ahead, take_ahead};
use snap_report::{Lines, Report};
use std::mem::swap;
use std::thread::Threads;

// Fetches the first window into the near room, and reads what the levels hold of its stripes ahead.
fn fetch_first<R: Threads + Sync, F: Folder, V: Vault>(
    rt: &R,
    table: &Table,
    work: &mut Work,
    folders: &mut [F],
    vault: &mut V,
)
    requires work { IsWorkFor table.now work.old }
    requires enough { IsEnoughFor (length work.old.stripes.items) work.old.room }
    requires folders { length folders.old ≡ length table.now.columns }
    ensures ready { IsReady table.now work.new 0 }
    ensures rest { work.new ≡ record work.old { room = record work.old.room { near = work.new.room.near } } }
    ensures fetched { FetchesWindow table.now (recorded_starts table.now)
        (stripes_near work.new 0) work.old.room.near work.new.room.near
        (map F.view folders.old) (map F.view folders.new) }
    ensures vault { IsUntouched (V.view vault.old) (V.view vault.new) }
{
    let room = &mut work.room;
    let count = work.stripes.len().min(room.near.room() as usize);
    let stripes = &work.stripes[..count];
    let mut levels = take_ahead(vault, stripes, table.shape().block_size);
    let (starts, near) = (&room.starts, &mut room.near);
    fetch_beside(rt, folders, table, starts, stripes, near, &mut levels);
    put_ahead(vault, levels);
}

// Hashes and looks at the stripes of the near window, which stands after so many, and meanwhile fetches the next ones
// into the far window.
fn turn_window<R: Threads + Sync, F: Folder, V: Vault, W: Sink>(
    rt: &R,
    table: &Table,
    work: &mut Work,
    done: usize,
    folders: &mut [F],
    vault: &mut V,
    lines: &mut Lines<'_, W>,
    reports: &mut Vec<Box<dyn Report>>,
) -> u64
    requires ready { IsReady table.now work.old done }
    requires unhashed { IsUnhashedWindow work.old.room.near }
    requires cells { HoldsCells table.now (stripes_near work.old done) work.old.room.near }
    requires folders { length folders.old ≡ length table.now.columns }
    requires levels { (V.view vault.old).levels ≡ table.now.shape.levels }
    ensures work { Turns table.now work.old work.new }
    ensures fetched { FetchesWindow table.now (recorded_starts table.now) (stripes_next work.old done)
        work.old.room.far work.new.room.far (map F.view folders.old) (map F.view folders.new) }
    ensures looks { LooksNear W.view standing stands table.now work.old work.new done result
        (scene (V.view vault.old) lines.old reports.old.items) (scene (V.view vault.new) lines.new reports.new.items) }
{
    let next = done + work.room.near.count() as usize;
    let more = (work.stripes.len() - next).min(work.room.far.room() as usize);
    let round = Round {
        table,
        stripes: &work.stripes[done..next],
        ahead: &work.stripes[next..next + more],
        threads: work.readers,
    };
    let verdicts = &mut work.verdicts[done..next];
    turn(
        rt,
        &round,
        &mut work.room,
        folders,
        vault,
        lines,
        reports,
        verdicts,
    )
}

// The window that was fetched is the next to be looked at.
fn swap_windows(work: &mut Work)
    ensures { work.new ≡ record work.old {
      room = record work.old.room {
        near = work.old.room.far;
        far = work.old.room.near;
      };
    } }
{
    let room = &mut work.room;
    swap(&mut room.near, &mut room.far);
}

/// Looks at all stripes of a scrub: a window of them is fetched, and then its blocks are hashed and each stripe is
/// looked at, while the next window is fetched.
pub(crate) fn look_over<R: Threads + Sync, F: Folder, V: Vault, W: Sink>(
    rt: &R,
    table: &Table,
    work: &mut Work,
    folders: &mut [F],
    vault: &mut V,
    lines: &mut Lines<'_, W>,
    reports: &mut Vec<Box<dyn Report>>,
) -> u64
    requires work { IsWorkFor table.now work.old }
    requires enough { IsEnoughFor (length work.old.stripes.items) work.old.room }
    requires folders { length folders.old ≡ length table.now.columns }
    requires levels { (V.view vault.old).levels ≡ table.now.shape.levels }
    ensures work { KeepsWork table.now work.old work.new }
    ensures looks { LooksOver W.view standing stands table.now work.old.stripes.items work.new.verdicts.items result
        (map F.view folders.old) (map F.view folders.new)
        (scene (V.view vault.old) lines.old reports.old.items) (scene (V.view vault.new) lines.new reports.new.items) }
{
    fetch_first(rt, table, work, folders, vault);
    let mut findings = 0u64;
    let mut done = 0;
    while done < work.stripes.len() {
        let count = work.room.near.count();
        let more = turn_window(rt, table, work, done, folders, vault, lines, reports);
        findings = findings.saturating_add(more);
        done += count as usize;
        swap_windows(work);
    }
    findings
}
