// A fix.
ghost use Rattle.std.specs.Prelude.{◌≡◌, IfOk, IfErr, length, map};
ghost use Rattle.array_setup.specs.Setup.{setup_value};
ghost use Rattle.snap_fix.specs.Course.{IsArray, outside};
ghost use Rattle.snap_report.specs.EndLines.{fix_text};
ghost use Rattle.snap_report.specs.State.{Puts, state_of};
ghost use Rattle.snap_report.specs.Telling.{Settled};
ghost use Rattle.snap_fix.specs.Beginning.{BeginsNot};
ghost use Rattle.snap_fix.specs.FixBegun.{BeginsFix, BreaksBegun, FixesBegun, HasBegun, IsFirst};
ghost use Rattle.snap_fix.specs.FixBreaking.{FixesNot};
ghost use Rattle.snap_fix.specs.FixCourse.{AreOpen, Fixes};
ghost use Rattle.repair_scope.specs.Plan.{names_of};
ghost use Rattle.file_restorer.specs.State.{first_state, first_states};

use crate::beginning::{Work, begin};
use crate::checks::FixEnd;
use crate::ending::{finish_all, sync_levels};
use crate::fixes::fix_stripes;
use crate::fixing::Totals;
use crate::plan::{Progress, Stretch, Task, Workspace};
use array_setup::{Selection, Setup};
use disk_model::{Folder, NoMemory, Sink, Vault};
use file_restorer::{FileState, States};
use file_table::Table;
use repair_scope::{Entries, Mode, Plan, Scope};
use snap_report::{Lines, Report, RunFault};
use std::alloc::Global;
use std::thread::Threads;
use stripe_examiner::{Counts, Spare, tell_opening};
use stripe_reader::{Start, Starts};

/// What a fix works with: what it is for, what is known of the files, the stripes that are looked at, and what it works in.
#[derive(Drop)]
pub(crate) struct Begun {
    pub scope: Scope,
    pub entries: Entries,
    pub stripes: Vec<u32>,
    pub space: Workspace,
}

// The states of the files of a column when a fix begins.
fn states_of_column(alloc: Global, starts: &[Start]) -> Result<Vec<FileState>, NoMemory>
    ensures { IfOk result (λ states. states.items ≡ map first_state starts.now) }
{
    let mut states = Vec::with_capacity(alloc, starts.len())?;
    for i in 0..starts.len() {
        states.push(FileState {
            lost: false,
            touched: false,
            size: starts[i].size,
        })?;
    }
    Ok(states)
}

// The same of columns.
fn states_of_columns(alloc: Global, starts: &[Vec<Start>]) -> Result<Vec<Vec<FileState>>, NoMemory>
    ensures { IfOk result (λ states. map (λ column. column.items) states.items
        ≡ map (λ column. map first_state column.items) starts.now) }
{
    let mut states = Vec::with_capacity(alloc, starts.len())?;
    for d in 0..starts.len() {
        states.push(states_of_column(alloc, starts[d].as_slice())?)?;
    }
    Ok(states)
}

// The states of all files when a fix begins.
fn states_before(alloc: Global, starts: &Starts) -> Result<States, NoMemory>
    ensures { IfOk result (λ states. states ≡ first_states starts.now) }
{
    let columns = states_of_columns(alloc, starts.columns.as_slice())?;
    Ok(States { columns })
}

// How far a fix is when it begins: no file and no level was written.
fn progress_before(alloc: Global, table: &Table, starts: Starts) -> Result<Progress, NoMemory>
    ensures starts { IfOk result (λ progress. progress.starts ≡ starts) }
    ensures first { IfOk result (IsFirst table.now) }
{
    let states = states_before(alloc, &starts)?;
    let written = vec![in alloc; false; table.shape().levels as usize]?;
    Ok(Progress {
        starts,
        states,
        written,
    })
}

// Lists each folder once, and takes all that a fix works with.
fn begin_fix<R: Threads + Sync, F: Folder>(
    rt: &R,
    alloc: Global,
    selection: &Selection,
    setup: &Setup,
    folders: &mut [F],
    table: &Table,
    readers: u32,
) -> Result<Begun, RunFault>
    requires { (length folders.old ≡ length table.now.columns) × (length setup.now.disks ≡ length table.now.columns) }
    ensures begun { IfOk result (λ begun. BeginsFix selection.now (names_of (setup_value setup.now)) table.now begun
        (map F.view folders.old) (map F.view folders.new)) }
    ensures failed { IfErr result (BeginsNot (map F.view folders.old) (map F.view folders.new)) }
{
    let work = begin(rt, alloc, Mode::Fix, selection, setup, folders, table)?;
    let Work {
        scope,
        entries,
        starts,
        stripes,
        room,
    } = work;
    let Ok(progress) = progress_before(alloc, table, starts) else {
        return Err(RunFault::Memory);
    };
    Ok(Begun {
        scope,
        entries,
        stripes,
        space: Workspace {
            room,
            progress,
            readers,
        },
    })
}

// The end of a fix: the last line is written, which counts what was done.
fn end_with<W: Sink>(totals: Totals, counts: Counts, lines: &mut Lines<'_, W>) -> FixEnd
    ensures puts { Puts W.view (fix_text totals.blocks totals.parities counts.left) lines.old lines.new }
    ensures settled { Settled (state_of W.view lines.new) }
    ensures end { result ≡ record {
      blocks = totals.blocks;
      parities = totals.parities;
      findings = counts.found;
      left = counts.left;
    } }
{
    lines.end_fix(totals.blocks, totals.parities, counts.left);
    FixEnd {
        blocks: totals.blocks,
        parities: totals.parities,
        findings: counts.found,
        left: counts.left,
    }
}

// Tells and writes anew what a fix that began is for, syncs the levels that were written, and only then finishes files.
fn fix_begun<R: Threads + Sync, F: Folder, V: Vault, P: Spare, W: Sink>(
    rt: &R,
    table: &Table,
    begun: &mut Begun,
    folders: &mut [F],
    vault: &mut V,
    spare: &mut P,
    lines: &mut Lines<'_, W>,
    reports: &mut Vec<Box<dyn Report>>,
) -> Result<FixEnd, RunFault>
    requires { HasBegun table.now begun.old (map F.view folders.old) (V.view vault.old) (P.holding spare.old) }
    ensures fixes { IfOk result (FixesBegun W.view standing stands table.now begun.old
        (outside (map F.view folders.old) (V.view vault.old) (P.holding spare.old) lines.old reports.old.items)
        (outside (map F.view folders.new) (V.view vault.new) (P.holding spare.new) lines.new reports.new.items)) }
    ensures broke { IfErr result (BreaksBegun W.view standing stands table.now begun.old
        (outside (map F.view folders.old) (V.view vault.old) (P.holding spare.old) lines.old reports.old.items)
        (outside (map F.view folders.new) (V.view vault.new) (P.holding spare.new) lines.new reports.new.items)) }
{
    let plan = Plan {
        scope: begun.scope,
        table,
        entries: &begun.entries,
    };
    let stripes = begun.stripes.as_slice();
    let stretch = Stretch { plan, stripes };
    let space = &mut begun.space;
    let opening = tell_opening(&plan, lines, reports);
    let totals = fix_stripes(rt, &stretch, space, folders, vault, spare, lines, reports)?;
    if sync_levels(space.progress.written.as_slice(), vault).is_err() {
        return Err(RunFault::Vault);
    }
    let news = match finish_all(&plan, &mut space.progress, folders, lines, reports) {
        Ok(news) => news,
        Err(disk) => return Err(RunFault::Folder { disk }),
    };
    let counts = opening.and(totals.counts.and(news));
    Ok(end_with(totals, counts, lines))
}

/// Writes what is damaged and known anew, and tells it. It fails where a folder can't be listed or memory runs out, and
/// then no parity was read and nothing written; and where a folder or parity can't be written. At the end the levels that
/// were written are synced, and only then files are finished.
pub(crate) fn fix<R: Threads + Sync, F: Folder, V: Vault, P: Spare, W: Sink>(
    rt: &R,
    alloc: Global,
    task: &Task<'_>,
    folders: &mut [F],
    vault: &mut V,
    spare: &mut P,
    lines: &mut Lines<'_, W>,
    reports: &mut Vec<Box<dyn Report>>,
) -> Result<FixEnd, RunFault>
    requires array { IsArray task.now.table.now (length task.now.setup.now.disks)
        (map F.view folders.old) (V.view vault.old) (P.holding spare.old) }
    requires open { AreOpen task.now.table.now (map F.view folders.old) }
    ensures fixes { IfOk result (Fixes W.view standing stands
        Mode.Fix task.now.selection.now (names_of (setup_value task.now.setup.now)) task.now.table.now
        (outside (map F.view folders.old) (V.view vault.old) (P.holding spare.old) lines.old reports.old.items)
        (outside (map F.view folders.new) (V.view vault.new) (P.holding spare.new) lines.new reports.new.items)) }
    ensures failed { IfErr result (FixesNot W.view standing stands
        Mode.Fix task.now.selection.now (names_of (setup_value task.now.setup.now)) task.now.table.now
        (outside (map F.view folders.old) (V.view vault.old) (P.holding spare.old) lines.old reports.old.items)
        (outside (map F.view folders.new) (V.view vault.new) (P.holding spare.new) lines.new reports.new.items)
        ((vault.new ≡ vault.old) × (spare.new ≡ spare.old) × (lines.new ≡ lines.old) × (reports.new ≡ reports.old))) }
{
    let (selection, setup, table) = (task.selection, task.setup, task.table);
    let mut begun = begin_fix(rt, alloc, selection, setup, folders, table, task.readers)?;
    fix_begun(rt, table, &mut begun, folders, vault, spare, lines, reports)
}
