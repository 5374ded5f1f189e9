// The stripes of a check, window by window: one is examined while the next one is fetched, with what the levels hold of its
// stripes, and told behind both.
ghost use Rattle.std.specs.Prelude.{◌≡◌, ℕ, ◌<◌, ◌≤◌, List, length, map, take, min, get_or, slice_index_or};
ghost use Rattle.std.specs.Thread.{IsSend, IsSync};
ghost use Rattle.disk_model.specs.Vault.{IsUntouched};
ghost use Rattle.snap_report.specs.Told.{Told};
ghost use Rattle.snap_fix.specs.Checking.{AreShown, IsWorkFor, KeepsWork, ChecksStripes, plan_for};
ghost use Rattle.snap_fix.specs.CheckWindows.{IsReady, UsesRoom, stripes_near, stripes_next};
ghost use Rattle.stripe_examiner.specs.declared.room.StripeRoom.{StripeRoom};
ghost use Rattle.stripe_examiner.specs.Counts.{AreCounts};
ghost use Rattle.stripe_examiner.specs.Facts.{StripeFacts};
ghost use Rattle.stripe_examiner.specs.Findings.{events_of};
ghost use Rattle.stripe_examiner.specs.Looking.{LooksInto, scene};
ghost use Rattle.repair_scope.specs.Plan.{seen};
ghost use Rattle.stripe_examiner.specs.Shown.{CanTell};
ghost use Rattle.stripe_examiner.specs.Spare.{IsSpareFor};
ghost use Rattle.stripe_examiner.specs.Surveyed.{plan_in};
ghost use Rattle.stripe_examiner.specs.WindowExamined.{CanExamineFetched, ExaminesFetched};
ghost use Rattle.stripe_reader.specs.Fetched.{FetchesWindow, hashed_window};
ghost use Rattle.stripe_reader.specs.Held.{CanRead, HoldsCells};
ghost use Rattle.stripe_reader.specs.WindowValue.{Fits, WindowValue};

use crate::beginning::Work;
use crate::plan::Task;
use disk_model::{Folder, Sink, Vault};
use file_table::Table;
use parity_writer::{fetch_beside, put_ahead};
use repair_scope::Plan;
use snap_report::{Lines, Report};
use std::mem::swap;
use std::thread::{Threads, join_mut};
use stripe_examiner::{
    Counts, Room, Spare, StripeRoom, Survey, examine_fetched, take_levels_ahead, tell_stripe,
};
use stripe_reader::{Starts, Window};

// Tells what is found in the stripes of a window that was examined, one stripe after another.
fn tell_window<W: Sink>(
    plan: &Plan<'_>,
    stripes: &[u32],
    rooms: &[StripeRoom],
    lines: &mut Lines<'_, W>,
    reports: &mut Vec<Box<dyn Report>>,
) -> Counts
    requires count { length stripes.now ≤ length rooms.now }
    requires can { (k : ℕ) (other : StripeRoom) → k < length stripes.now →
        CanTell (seen plan.now) (get_or stripes.now k 0) (slice_index_or rooms.now k other) }
    ensures told { (all : List StripeFacts) (window : WindowValue) →
        AreShown (seen plan.now) all stripes.now window rooms.now →
        Told W.view standing stands plan.now.table.now.columns (events_of (seen plan.now) all)
        lines.old lines.new reports.old.items reports.new.items }
    ensures counts { (all : List StripeFacts) (window : WindowValue) →
        AreShown (seen plan.now) all stripes.now window rooms.now →
        AreCounts (events_of (seen plan.now) all) result }
{
    let mut counts = Counts::NONE;
    for k in 0..stripes.len() {
        let more = tell_stripe(plan, stripes[k], &rooms[k], lines, reports);
        counts = counts.and(more);
    }
    counts
}

// Examines stripes that were fetched into the window of a room, and meanwhile fetches the stripes ahead into the far window, and
// reads their levels ahead of the calls that take them.
fn turn<R: Threads + Sync, F: Folder, V: Vault, P: Spare>(
    rt: &R,
    survey: &Survey<'_>,
    starts: &Starts,
    ahead: &[u32],
    room: &mut Room,
    far: &mut Window,
    folders: &mut [F],
    vault: &mut V,
    spare: &mut P,
)
    requires near { CanExamineFetched (seen survey.now.plan) survey.now.stripes.now room.old }
    requires far { CanRead survey.now.plan.table.now starts.now ahead.now far.old (length folders.old) }
    requires levels { (V.view vault.old).levels ≡ survey.now.plan.table.now.shape.levels }
    requires spare { IsSpareFor survey.now.plan.table.now.shape (P.holding spare.old) }
    ensures far { Fits survey.now.plan.table.now far.new }
    ensures cells { HoldsCells survey.now.plan.table.now ahead.now far.new }
    ensures fetched { FetchesWindow survey.now.plan.table.now starts.now ahead.now far.old far.new
        (map F.view folders.old) (map F.view folders.new) }
    ensures examined { ExaminesFetched (seen survey.now.plan) survey.now.stripes.now room.old room.new
        (V.view vault.old) (V.view vault.new) (P.holding spare.old) (P.holding spare.new) }
{
    let table = survey.plan.table;
    let mut levels = take_levels_ahead(&survey.plan, ahead, vault);
    let mut fetching = ||
        requires { IsSync R.row × IsSend F.row × IsSend V.Ahead.row ×
            CanRead table.now starts.now ahead.now far.now (length folders.now) }
    { fetch_beside(rt, folders, table, starts, ahead, far, &mut levels) };
    let mut examining = ||
        requires { IsSync R.row × CanExamineFetched (plan_in survey.now) survey.now.stripes.now room.now ×
            ((V.view vault.now).levels ≡ survey.now.plan.table.now.shape.levels) ×
            IsSpareFor survey.now.plan.table.now.shape (P.holding spare.now) }
        ensures { ExaminesFetched (plan_in survey.entry.now) survey.entry.now.stripes.now room.entry.now room.exit.now
            (V.view vault.entry.now) (V.view vault.exit.now) (P.holding spare.entry.now) (P.holding spare.exit.now) }
    { examine_fetched(rt, survey, room, vault, spare) };
    join_mut(rt, &mut fetching, &mut examining);
    put_ahead(vault, levels);
}

// Looks at stripes that were fetched into the window of a room: they are examined, while the stripes ahead are fetched into the far
// window, and then what is found in them is told.
fn look_at<R: Threads + Sync, F: Folder, V: Vault, P: Spare, W: Sink>(
    rt: &R,
    survey: &Survey<'_>,
    starts: &Starts,
    ahead: &[u32],
    room: &mut Room,
    far: &mut Window,
    folders: &mut [F],
    vault: &mut V,
    spare: &mut P,
    lines: &mut Lines<'_, W>,
    reports: &mut Vec<Box<dyn Report>>,
) -> Counts
    requires near { CanExamineFetched (seen survey.now.plan) survey.now.stripes.now room.old }
    requires far { CanRead survey.now.plan.table.now starts.now ahead.now far.old (length folders.old) }
    requires levels { (V.view vault.old).levels ≡ survey.now.plan.table.now.shape.levels }
    requires spare { IsSpareFor survey.now.plan.table.now.shape (P.holding spare.old) }
    ensures room { UsesRoom survey.now.plan.table.now room.old room.new }
    ensures far { Fits survey.now.plan.table.now far.new }
    ensures cells { HoldsCells survey.now.plan.table.now ahead.now far.new }
    ensures fetched { FetchesWindow survey.now.plan.table.now starts.now ahead.now far.old far.new
        (map F.view folders.old) (map F.view folders.new) }
    ensures looks { LooksInto W.view standing stands (seen survey.now.plan) survey.now.stripes.now
        (hashed_window survey.now.plan.table.now.shape room.old.window) result
        (scene (V.view vault.old) (P.holding spare.old) lines.old reports.old.items)
        (scene (V.view vault.new) (P.holding spare.new) lines.new reports.new.items) }
{
    turn(rt, survey, starts, ahead, room, far, folders, vault, spare);
    let (plan, stripes) = (&survey.plan, survey.stripes);
    tell_window(plan, stripes, &room.stripes, lines, reports)
}

// Fetches the first window, and reads the levels of its stripes ahead.
fn fetch_first<R: Threads + Sync, F: Folder, V: Vault>(
    rt: &R,
    table: &Table,
    work: &mut Work,
    folders: &mut [F],
    vault: &mut V,
)
    requires work { IsWorkFor table.now work.old }
    requires folders { length folders.old ≡ length table.now.columns }
    ensures rest { work.new ≡ record work.old { room = record work.old.room { window = work.new.room.window } } }
    ensures cells { HoldsCells table.now (take (min (length work.old.stripes.items) work.old.room.window.room) work.old.stripes.items)
        work.new.room.window }
    ensures fetched { FetchesWindow table.now work.old.starts (take (min (length work.old.stripes.items) work.old.room.window.room) work.old.stripes.items)
        work.old.room.window work.new.room.window (map F.view folders.old) (map F.view folders.new) }
    ensures vault { IsUntouched (V.view vault.old) (V.view vault.new) }
{
    let count = work.stripes.len().min(work.room.window.room() as usize);
    let stripes = &work.stripes[..count];
    let plan = Plan {
        scope: work.scope,
        table,
        entries: &work.entries,
    };
    let mut levels = take_levels_ahead(&plan, stripes, vault);
    let (starts, window) = (&work.starts, &mut work.room.window);
    fetch_beside(rt, folders, table, starts, stripes, window, &mut levels);
    put_ahead(vault, levels);
}

// Examines the stripes of the window that was fetched, which stands after so many, and meanwhile fetches the next ones. Then what is
// found is told.
fn check_window<R: Threads + Sync, F: Folder, V: Vault, P: Spare, W: Sink>(
    rt: &R,
    task: &Task<'_>,
    work: &mut Work,
    far: &mut Window,
    done: usize,
    folders: &mut [F],
    vault: &mut V,
    spare: &mut P,
    lines: &mut Lines<'_, W>,
    reports: &mut Vec<Box<dyn Report>>,
) -> Counts
    requires ready { IsReady task.now.table.now work.old far.old done }
    requires folders { length folders.old ≡ length task.now.table.now.columns }
    requires levels { (V.view vault.old).levels ≡ task.now.table.now.shape.levels }
    requires spare { IsSpareFor task.now.table.now.shape (P.holding spare.old) }
    ensures rest { work.new ≡ record work.old { room = work.new.room } }
    ensures room { UsesRoom task.now.table.now work.old.room work.new.room }
    ensures far { Fits task.now.table.now far.new }
    ensures cells { HoldsCells task.now.table.now (stripes_next work.old far.old done) far.new }
    ensures fetched { FetchesWindow task.now.table.now work.old.starts (stripes_next work.old far.old done) far.old far.new
        (map F.view folders.old) (map F.view folders.new) }
    ensures looks { LooksInto W.view standing stands (plan_for task.now.table.now work.old) (stripes_near work.old done)
        (hashed_window task.now.table.now.shape work.old.room.window) result
        (scene (V.view vault.old) (P.holding spare.old) lines.old reports.old.items)
        (scene (V.view vault.new) (P.holding spare.new) lines.new reports.new.items) }
{
    let next = done + work.room.window.count() as usize;
    let more = (work.stripes.len() - next).min(far.room() as usize);
    let plan = Plan {
        scope: work.scope,
        table: task.table,
        entries: &work.entries,
    };
    let survey = Survey {
        plan,
        stripes: &work.stripes[done..next],
        threads: task.readers,
    };
    let ahead = &work.stripes[next..next + more];
    let (starts, room) = (&work.starts, &mut work.room);
    look_at(
        rt, &survey, starts, ahead, room, far, folders, vault, spare, lines, reports,
    )
}

// The window that was fetched is the next to be looked at.
fn swap_windows(work: &mut Work, far: &mut Window)
    ensures near { work.new ≡ record work.old { room = record work.old.room { window = far.old } } }
    ensures far { far.new ≡ work.old.room.window }
{
    swap(&mut work.room.window, far);
}

/// Looks at all stripes that a run is for: a window of them is fetched, and then examined while the next one is fetched. What is found
/// is told behind both.
pub(crate) fn check_stripes<R: Threads + Sync, F: Folder, V: Vault, P: Spare, W: Sink>(
    rt: &R,
    task: &Task<'_>,
    work: &mut Work,
    far: &mut Window,
    folders: &mut [F],
    vault: &mut V,
    spare: &mut P,
    lines: &mut Lines<'_, W>,
    reports: &mut Vec<Box<dyn Report>>,
) -> Counts
    requires work { IsWorkFor task.now.table.now work.old }
    requires far { Fits task.now.table.now far.old × (far.old.room ≡ work.old.room.window.room) }
    requires folders { length folders.old ≡ length task.now.table.now.columns }
    requires levels { (V.view vault.old).levels ≡ task.now.table.now.shape.levels }
    requires spare { IsSpareFor task.now.table.now.shape (P.holding spare.old) }
    ensures work { KeepsWork task.now.table.now work.old work.new }
    ensures checks { ChecksStripes W.view standing stands task.now.table.now work.old result
        (map F.view folders.old) (map F.view folders.new)
        (scene (V.view vault.old) (P.holding spare.old) lines.old reports.old.items)
        (scene (V.view vault.new) (P.holding spare.new) lines.new reports.new.items) }
{
    fetch_first(rt, task.table, work, folders, vault);
    let mut counts = Counts::NONE;
    let mut done = 0;
    while done < work.stripes.len() {
        let count = work.room.window.count();
        let more = check_window(
            rt, task, work, far, done, folders, vault, spare, lines, reports,
        );
        counts = counts.and(more);
        done += count as usize;
        swap_windows(work, far);
    }
    counts
}
