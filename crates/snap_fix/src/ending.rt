// The end of a fix: the levels that were written are synced, and the files of the selected records are finished.
ghost use Rattle.std.specs.Prelude.{◌≡◌, ◌<◌, ◌&&◌, not, true, length, map, IfOk, IfErr};
ghost use Rattle.std.specs.Option.{option_to_list};
ghost use Rattle.file_table.specs.Table.{column_at};
ghost use Rattle.snap_report.specs.Told.{Told};
ghost use Rattle.stripe_examiner.specs.Counts.{AreCounts};
ghost use Rattle.snap_fix.specs.Ending.{CanFinishAll, FinishesAll, FinishesNotAll, IsLevelSettled, SyncsWritten, SyncsNot, Syncs, finish_news, sync_if, written_syncs};
ghost use Rattle.snap_fix.specs.EndingSteps.{CanEndRecord, EndsRecord, EndsNotRecord, CanEndColumn, EndsColumn, EndsNotColumn, column_outside, done_news, unstamped_news};
ghost use Rattle.repair_scope.specs.Plan.{EntriesFit, seen};
ghost use Rattle.snap_fix.specs.Repairing.{outside};

use crate::plan::Progress;
use disk_model::{Failed, Folder, Sink, Vault};
use file_restorer::{Finish, States, finish_record};
use file_table::Table;
use repair_scope::{Entry, Plan};
use snap_report::events::Event;
use snap_report::{Lines, Report};
use stripe_examiner::{Counts, tell_found};
use stripe_reader::Starts;

// Syncs a level, if it was written.
fn sync_level<V: Vault>(written: bool, level: u32, vault: &mut V) -> Result<(), Failed>
    requires { level < (V.view vault.old).levels }
    ensures synced { IfOk result (λ _. Syncs (sync_if written level) (V.view vault.old) (V.view vault.new)) }
    ensures settled { IfOk result (λ _. written ≡ true → IsLevelSettled level (V.view vault.old) (V.view vault.new)) }
    ensures failed { IfErr result (λ _. SyncsNot (sync_if written level) (V.view vault.old) (V.view vault.new)) }
{
    if written {
        vault.parity_sync(level)
    } else {
        Ok(())
    }
}

/// Syncs each level that was written, in order.
pub(crate) fn sync_levels<V: Vault>(written: &[bool], vault: &mut V) -> Result<(), Failed>
    requires { length written.now ≡ (V.view vault.old).levels }
    ensures synced { IfOk result (λ _. SyncsWritten written.now (V.view vault.old) (V.view vault.new)) }
    ensures failed { IfErr result (λ _. SyncsNot (written_syncs written.now) (V.view vault.old) (V.view vault.new)) }
{
    for level in 0..vault.levels() {
        sync_level(written[level as usize], level, vault)?;
    }
    Ok(())
}

// What is told first of a file that was finished.
fn done_event(d: u32, i: u32, finish: Finish) -> Option<Event>
    ensures { option_to_list result ≡ done_news d i finish }
{
    match finish {
        Finish::Kept => None,
        Finish::Restored { .. } => Some(Event::Restored { disk: d, rec: i }),
        Finish::Unstamped => Some(Event::NoStamp { disk: d, rec: i }),
        Finish::Renamed => Some(Event::Renamed { disk: d, rec: i }),
        Finish::Gone => Some(Event::Blocked { disk: d, rec: i }),
    }
}

// That it is as it was recorded, but for its stamp.
fn unstamped_event(d: u32, i: u32, finish: Finish) -> Option<Event>
    ensures { option_to_list result ≡ unstamped_news d i finish }
{
    match finish {
        Finish::Restored { stamped: false } => Some(Event::NoStamp { disk: d, rec: i }),
        _ => None,
    }
}

// Tells what was done to the file of a record.
fn tell_finish<W: Sink>(
    table: &Table,
    d: u32,
    i: u32,
    finish: Finish,
    lines: &mut Lines<'_, W>,
    reports: &mut Vec<Box<dyn Report>>,
) -> Counts
    requires column { d < length table.now.columns }
    requires rec { i < length (column_at table.now.columns d).records }
    ensures told { Told W.view standing stands table.now.columns (finish_news d i finish)
        lines.old lines.new reports.old.items reports.new.items }
    ensures counts { AreCounts (finish_news d i finish) result }
{
    let first = tell_found(table, done_event(d, i, finish), lines, reports);
    let second = tell_found(table, unstamped_event(d, i, finish), lines, reports);
    first.and(second)
}

// Whether the file of a record is finished: it is selected, and isn't blocked.
fn is_finished(entry: Entry) -> bool
    ensures { result ≡ (entry.selected && not entry.blocked) }
{
    entry.selected && !entry.blocked
}

// Finishes the file of a record, if it is selected and isn't blocked, and tells what was done.
fn end_record<F: Folder, W: Sink>(
    plan: &Plan<'_>,
    d: u32,
    i: u32,
    starts: &mut Starts,
    states: &mut States,
    folder: &mut F,
    lines: &mut Lines<'_, W>,
    reports: &mut Vec<Box<dyn Report>>,
) -> Result<Counts, Failed>
    requires entries { EntriesFit plan.now.table.now plan.now.entries.now }
    requires can { CanEndRecord (seen plan.now) d i starts.old states.old (F.view folder.old) }
    ensures ended { IfOk result (EndsRecord W.view standing stands (seen plan.now) d i
        (column_outside starts.old states.old (F.view folder.old) lines.old reports.old.items)
        (column_outside starts.new states.new (F.view folder.new) lines.new reports.new.items)) }
    ensures failed { IfErr result (λ _. EndsNotRecord W.view standing stands (seen plan.now) d i
        (column_outside starts.old states.old (F.view folder.old) lines.old reports.old.items)
        (column_outside starts.new states.new (F.view folder.new) lines.new reports.new.items)) }
{
    let entry = plan.entries.at(d, i);
    if !is_finished(entry) {
        return Ok(Counts::NONE);
    }
    let finish = finish_record(plan.table, d, i, entry.listed, starts, states, folder)?;
    Ok(tell_finish(plan.table, d, i, finish, lines, reports))
}

// Finishes the files of the selected records of a column that aren't blocked, in order, and tells what was done.
fn end_column<F: Folder, W: Sink>(
    plan: &Plan<'_>,
    d: u32,
    starts: &mut Starts,
    states: &mut States,
    folder: &mut F,
    lines: &mut Lines<'_, W>,
    reports: &mut Vec<Box<dyn Report>>,
) -> Result<Counts, Failed>
    requires { CanEndColumn (seen plan.now) d starts.old states.old (F.view folder.old) }
    ensures ended { IfOk result (EndsColumn W.view standing stands (seen plan.now) d
        (column_outside starts.old states.old (F.view folder.old) lines.old reports.old.items)
        (column_outside starts.new states.new (F.view folder.new) lines.new reports.new.items)) }
    ensures failed { IfErr result (λ _. EndsNotColumn W.view standing stands (seen plan.now) d
        (column_outside starts.old states.old (F.view folder.old) lines.old reports.old.items)
        (column_outside starts.new states.new (F.view folder.new) lines.new reports.new.items)) }
{
    let mut counts = Counts::NONE;
    for i in 0..plan.table.records(d) {
        let more = end_record(plan, d, i, starts, states, folder, lines, reports)?;
        counts = counts.and(more);
    }
    Ok(counts)
}

/// Finishes the file of each selected record that isn't blocked, in order of column and record, and tells what was done. It fails
/// by the folder of a column, which is answered.
pub(crate) fn finish_all<F: Folder, W: Sink>(
    plan: &Plan<'_>,
    progress: &mut Progress,
    folders: &mut [F],
    lines: &mut Lines<'_, W>,
    reports: &mut Vec<Box<dyn Report>>,
) -> Result<Counts, u32>
    requires { CanFinishAll (seen plan.now) progress.old.starts progress.old.states (map F.view folders.old) }
    ensures finished { IfOk result (FinishesAll W.view standing stands (seen plan.now)
        (outside progress.old.starts progress.old.states (map F.view folders.old) lines.old reports.old.items)
        (outside progress.new.starts progress.new.states (map F.view folders.new) lines.new reports.new.items)) }
    ensures failed { IfErr result (FinishesNotAll W.view standing stands (seen plan.now)
        (outside progress.old.starts progress.old.states (map F.view folders.old) lines.old reports.old.items)
        (outside progress.new.starts progress.new.states (map F.view folders.new) lines.new reports.new.items)) }
{
    let starts = &mut progress.starts;
    let states = &mut progress.states;
    let mut counts = Counts::NONE;
    for d in 0..plan.table.disks() {
        let folder = &mut folders[d as usize];
        let Ok(more) = end_column(plan, d, starts, states, folder, lines, reports) else {
            return Err(d);
        };
        counts = counts.and(more);
    }
    Ok(counts)
}
