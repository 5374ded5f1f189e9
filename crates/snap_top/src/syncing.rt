// The sync of a run.
ghost use Rattle.std.specs.Prelude.{◌≡◌, map};
ghost use Rattle.array_setup.specs.Setup.{setup_value};
ghost use Rattle.snap_config.specs.Words.{IsWay};
ghost use Rattle.snap_config.specs.declared.options.Command.TheVariants.{Sync as SyncCommand};
ghost use Rattle.file_table.specs.Table.{TableValue};
ghost use Rattle.snap_sync.specs.declared.fault.SyncFault.TheVariants.{Scan};
ghost use Rattle.snap_top.specs.Does.{IsDone};
ghost use Rattle.snap_top.specs.Syncing.{IsOpened, answer_of, named_of};
ghost use Rattle.snap_top.specs.Task.{task_of};
ghost use Rattle.snap_top.specs.Views.{world_view};

use crate::job::{Done, Job};
use array_scan::ScanFault;
use array_setup::SyncWay;
use disk_model::{Folder, Sink, Vault};
use file_table::Table;
use snap_report::{Answer, Lines, Report, RunFault};
use snap_sync::{SyncFault, sync};
use std::alloc::Global;
use std::thread::Threads;

// What is left to be said of a sync that did not end.
fn fault_done(fault: SyncFault) -> Done
    ensures answer { result.answer ≡ answer_of fault }
    ensures named { result.named ≡ named_of fault }
{
    match fault {
        SyncFault::Scan(scan, table) => Done {
            answer: scan_answer(scan),
            named: Some(table),
        },
        SyncFault::Run(fault) => Done {
            answer: Answer::from(fault),
            named: None,
        },
    }
}

fn scan_answer(fault: ScanFault) -> Answer
    ensures { (table : TableValue) → result ≡ answer_of (Scan fault table) }
{
    match fault {
        ScanFault::Zeroed { disk, rec } => Answer::Zeroed { disk, rec },
        ScanFault::Emptied { disk } => Answer::Emptied { disk },
        ScanFault::Full { blocks, files } => Answer::Full { blocks, files },
        ScanFault::Memory => Answer::Broken(RunFault::Memory),
    }
}

/// Syncs the array of a job over the table of its last sync.
pub(crate) fn sync_array<R: Threads + Sync, F: Folder, V: Vault, W: Sink>(
    rt: &R,
    alloc: Global,
    job: &Job,
    way: &SyncWay,
    table: Table,
    folders: &mut [F],
    vault: &mut V,
    reports: &mut Vec<Box<dyn Report>>,
    out: &mut W,
) -> Done
    requires command { job.now.command ≡ SyncCommand way.now }
    requires way { IsWay job.now.command }
    requires array { IsOpened (setup_value job.now.setup) table (map F.view folders.old) (V.view vault.old) }
    ensures { IsDone standing stands (task_of job.now) table
        (world_view (map F.view folders.old) (V.view vault.old) (W.view out.old))
        (world_view (map F.view folders.new) (V.view vault.new) (W.view out.new))
        reports.old.items reports.new.items result.answer result.named }
{
    let mut lines = Lines::over(out);
    match sync(
        rt,
        alloc,
        folders,
        vault,
        &job.setup,
        way,
        job.readers,
        table,
        job.moment,
        reports,
        &mut lines,
    ) {
        Ok(end) => Done {
            answer: Answer::done(end.findings, lines.failed()),
            named: None,
        },
        Err(fault) => fault_done(fault),
    }
}
