// The pending stripes of a sync, window by window.
ghost use Rattle.std.specs.Prelude.{◌≡◌, ◌<◌, ◌≤◌, ◌+◌, ◌^◌, IfSome, IfOk, OnErr, IsOk, IsTrue, length, map, take, false};
ghost use Rattle.content_file.specs.Encoding.{IsDigestOf};
ghost use Rattle.snap_sync.specs.Closing.{closed};
ghost use Rattle.snap_sync.specs.Course.{outside, Breaks};
ghost use Rattle.stripe_findings.specs.Reading.{is_verified};
ghost use Rattle.snap_sync.specs.Run.{all_of, near_hashed, stripes_near, stripes_next, readings_near, plan_for, IsWork, IsBegun, IsReady, Turns, KeepsWork, Saves, HasSynced, saves_behind};
ghost use Rattle.stripe_reader.specs.Fetched.{FetchesWindow, IsUnhashedWindow};
ghost use Rattle.stripe_reader.specs.Held.{AreDisksOf, HoldsCells};
ghost use Rattle.snap_sync.specs.Window.{SyncsWindow, scene};
ghost use Rattle.snap_sync.specs.Work.{more_findings};

use crate::beginning::Work;
use crate::judging::{Counts, close_chosen};
use crate::opening::{checkpoint, open};
use crate::schedule::{is_checkpoint, window_count};
use crate::turning::{Round, turn};
use content_file::TableDigest;
use disk_model::{Failed, Folder, Sink, Vault};
use file_table::Table;
use snap_report::{Lines, Report};
use std::mem::swap;
use std::thread::Threads;
use stripe_reader::fetch_window;

/// How a sync goes through its stripes.
#[derive(Clone, Copy)]
pub(crate) struct Pace {
    /// After how many pending stripes it saves besides at its end.
    pub every: Option<u64>,
    pub readers: u32,
    /// In seconds since 1970.
    pub now: u64,
}

/// How far a sync came: how many pending stripes it read and wrote, how many of them are verified, and how many findings
/// it told.
#[derive(Clone, Copy)]
pub(crate) struct Progress {
    pub done: u32,
    pub synced: u32,
    /// It stays at the greatest u64.
    pub findings: u64,
}

impl Progress {
    // After a window of so many stripes.
    fn with(self, count: u32, counts: Counts) -> Progress
        requires done { self.done + count < 2 ^ 32 }
        requires synced { self.synced + counts.synced < 2 ^ 32 }
        ensures done { result.done ≡ self.done + count }
        ensures synced { result.synced ≡ self.synced + counts.synced }
        ensures findings { result.findings ≡ more_findings self.findings counts.findings }
    {
        Progress {
            done: self.done + count,
            synced: self.synced + counts.synced,
            findings: self.findings.saturating_add(counts.findings),
        }
    }
}

// Hashes, judges and writes the window in the near room, which stands after so many stripes, and meanwhile fetches the
// next one into the far room.
fn turn_window<R: Threads + Sync, F: Folder, V: Vault, W: Sink>(
    rt: &R,
    work: &mut Work,
    pace: Pace,
    done: u32,
    vault: &mut V,
    folders: &mut [F],
    lines: &mut Lines<'_, W>,
    reports: &mut Vec<Box<dyn Report>>,
) -> Result<Counts, Failed>
    requires ready { IsReady pace.every work.old done }
    requires unhashed { IsUnhashedWindow work.old.room.near }
    requires cells { HoldsCells work.old.table (stripes_near work.old done) work.old.room.near }
    requires every { IfSome pace.every (λ every. 0 < every) }
    requires disks { AreDisksOf work.old.table (length folders.old) (V.view vault.old) }
    ensures turns { Turns work.old work.new }
    ensures fetched { FetchesWindow work.old.table work.old.room.starts
        (stripes_next pace.every work.old done) work.old.room.far work.new.room.far
        (map F.view folders.old) (map F.view folders.new) }
    ensures syncs { SyncsWindow W.view standing stands work.old.table (stripes_near work.old done)
        work.old.room.near work.new.room.near (take work.old.room.near.count work.new.room.chosen.items) result
        (scene (V.view vault.old) lines.old reports.old.items) (scene (V.view vault.new) lines.new reports.new.items) }
{
    let room = &mut work.room;
    let count = room.near.count();
    let (first, next) = (done as usize, (done + count) as usize);
    let all = work.pending.len() as u32;
    let more = window_count(pace.every, room.near.room(), all, done + count);
    let round = Round {
        table: &work.table,
        starts: &room.starts,
        stripes: &work.pending[first..next],
        ahead: &work.pending[next..next + more as usize],
        threads: pace.readers,
    };
    turn(
        rt,
        &round,
        &mut room.near,
        &mut room.far,
        folders,
        vault,
        lines,
        reports,
        room.chosen.as_mut_slice(),
        room.sums.as_mut_slice(),
    )
}

// Closes the chosen stripes of the window in the near room, which stands after so many stripes, in the table in hand.
fn close_window(work: &mut Work, pace: Pace, done: u32)
    requires ready { IsReady pace.every work.old done }
    requires cells { HoldsCells work.old.table (stripes_near work.old done) work.old.room.near }
    requires chosen { take work.old.room.near.count work.old.room.chosen.items ≡
        map (is_verified work.old.table) (readings_near work.old done) }
    ensures { work.new ≡ record work.old { table = closed pace.now work.old.table (readings_near work.old done) } }
{
    let first = done as usize;
    let count = work.room.near.count() as usize;
    close_chosen(
        &mut work.table,
        &work.pending[first..first + count],
        &work.room.near,
        &work.room.chosen[..count],
        pace.now,
    );
}

// Fetches the first window into the near room.
fn fetch_first<R: Threads + Sync, F: Folder>(rt: &R, work: &mut Work, pace: Pace, folders: &mut [F])
    requires work { IsWork work.old }
    requires every { IfSome pace.every (λ every. 0 < every) }
    requires folders { length folders.old ≡ length work.old.table.columns }
    ensures ready { IsReady pace.every work.new 0 }
    ensures rest { work.new ≡ record work.old { room = record work.old.room { near = work.new.room.near } } }
    ensures fetched { FetchesWindow work.old.table work.old.room.starts
        (stripes_near work.new 0) work.old.room.near work.new.room.near
        (map F.view folders.old) (map F.view folders.new) }
{
    let room = &mut work.room;
    let all = work.pending.len() as u32;
    let count = window_count(pace.every, room.near.room(), all, 0);
    let stripes = &work.pending[..count as usize];
    fetch_window(
        rt,
        folders,
        &work.table,
        &room.starts,
        stripes,
        &mut room.near,
    );
}

// The checkpoint behind so many stripes, if one stands there.
fn save_behind<V: Vault>(
    work: &mut Work,
    pace: Pace,
    done: u32,
    vault: &mut V,
) -> Result<(), Failed>
    requires work { IsWork work.old }
    requires every { IfSome pace.every (λ every. 0 < every) }
    ensures rest { KeepsWork work.old work.new }
    ensures saves { IsTrue (saves_behind pace.every (all_of work.old) done) →
        Saves work.old.table result (V.view vault.old) (V.view vault.new) }
    ensures rests { saves_behind pace.every (all_of work.old) done ≡ false →
        IsOk result × (vault.new ≡ vault.old) }
{
    if is_checkpoint(pace.every, done) && done as usize != work.pending.len() {
        let digest = TableDigest::of(&work.table);
        checkpoint(vault, &work.table, digest, work.room.piece.as_mut_slice())
    } else {
        Ok(())
    }
}

// The window that was fetched is the next to be judged.
fn swap_windows(work: &mut Work)
    ensures { work.new ≡ record work.old {
      room = record work.old.room {
        near = work.old.room.far;
        far = work.old.room.near;
      };
    } }
{
    let room = &mut work.room;
    swap(&mut room.near, &mut room.far);
}

/// Saves the laid out table, whose digest this is, gives the levels their lengths, and goes through all pending stripes, window by window: each
/// is hashed, judged and written while the next one is fetched.
pub(crate) fn sync_stripes<R: Threads + Sync, F: Folder, V: Vault, W: Sink>(
    rt: &R,
    work: &mut Work,
    digest: TableDigest,
    pace: Pace,
    folders: &mut [F],
    vault: &mut V,
    lines: &mut Lines<'_, W>,
    reports: &mut Vec<Box<dyn Report>>,
) -> Result<Progress, Failed>
    requires begun { IsBegun pace.every work.old }
    requires digest { IsDigestOf work.old.table digest }
    requires disks { AreDisksOf work.old.table (length folders.old) (V.view vault.old) }
    ensures all { IfOk result (λ progress. progress.done ≡ all_of work.old) }
    ensures synced { IfOk result (λ progress. HasSynced W.view standing stands
        (plan_for work.old pace (V.view vault.old)) progress (near_hashed work.new)
        (outside (map F.view folders.old) (V.view vault.old) lines.old reports.old.items)
        (outside (map F.view folders.new) (V.view vault.new) lines.new reports.new.items)) }
    ensures broke { OnErr result (Breaks W.view standing stands (plan_for work.old pace (V.view vault.old))
        (outside (map F.view folders.old) (V.view vault.old) lines.old reports.old.items)
        (outside (map F.view folders.new) (V.view vault.new) lines.new reports.new.items)) }
{
    open(vault, &work.table, digest, work.room.piece.as_mut_slice())?;
    fetch_first(rt, work, pace, folders);
    let all = work.pending.len() as u32;
    let mut progress = Progress {
        done: 0,
        synced: 0,
        findings: 0,
    };
    while progress.done < all {
        let done = progress.done;
        let counts = turn_window(rt, work, pace, done, vault, folders, lines, reports)?;
        close_window(work, pace, done);
        progress = progress.with(work.room.near.count(), counts);
        save_behind(work, pace, progress.done, vault)?;
        swap_windows(work);
    }
    Ok(progress)
}
