// The fix of a run.
ghost use Rattle.std.specs.Prelude.{◌≡◌, map};
ghost use Rattle.array_setup.specs.Setup.{setup_value};
ghost use Rattle.snap_config.specs.declared.options.Command.TheVariants.{Fix as FixCommand};
ghost use Rattle.snap_top.specs.Does.{IsDone};
ghost use Rattle.snap_top.specs.Syncing.{IsOpened};
ghost use Rattle.snap_top.specs.Task.{task_of};
ghost use Rattle.snap_top.specs.Views.{world_view};

use crate::job::{Done, Job};
use array_setup::Selection;
use disk_model::{Folder, Sink, Vault};
use file_table::Table;
use snap_fix::{Mode, NoSpare, repair};
use snap_report::{Answer, Lines, Report};
use std::alloc::Global;
use std::thread::Threads;

/// Fixes what is selected of the array of a job, by the table of its last sync.
pub(crate) fn fix_array<R: Threads + Sync, F: Folder, V: Vault, W: Sink>(
    rt: &R,
    alloc: Global,
    job: &Job,
    selection: &Selection,
    table: &Table,
    folders: &mut [F],
    vault: &mut V,
    reports: &mut Vec<Box<dyn Report>>,
    out: &mut W,
) -> Done
    requires command { job.now.command ≡ FixCommand selection.now }
    requires array { IsOpened (setup_value job.now.setup) table.now (map F.view folders.old) (V.view vault.old) }
    ensures { IsDone standing stands (task_of job.now) table.now
        (world_view (map F.view folders.old) (V.view vault.old) (W.view out.old))
        (world_view (map F.view folders.new) (V.view vault.new) (W.view out.new))
        reports.old.items reports.new.items result.answer result.named }
{
    let mut lines = Lines::over(out);
    match repair(
        rt,
        alloc,
        Mode::Fix,
        selection,
        &job.setup,
        folders,
        vault,
        &mut NoSpare,
        job.readers,
        table,
        reports,
        &mut lines,
    ) {
        Ok(end) => Done {
            answer: Answer::done(end.left, lines.failed()),
            named: None,
        },
        Err(fault) => Done {
            answer: Answer::from(fault),
            named: None,
        },
    }
}
