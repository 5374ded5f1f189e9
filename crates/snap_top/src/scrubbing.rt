// The scrub of a run.
ghost use Rattle.std.specs.Prelude.{◌≡◌, map};
ghost use Rattle.array_setup.specs.Setup.{setup_value};
ghost use Rattle.snap_config.specs.declared.options.Command.TheVariants.{Scrub as ScrubCommand};
ghost use Rattle.snap_top.specs.Does.{IsDone};
ghost use Rattle.snap_top.specs.Syncing.{IsOpened};
ghost use Rattle.snap_top.specs.Task.{task_of};
ghost use Rattle.snap_top.specs.Views.{world_view};

use crate::job::{Done, Job};
use array_setup::ScrubWay;
use disk_model::{Folder, Sink, Vault};
use file_table::Table;
use snap_report::{Answer, Lines, Report};
use snap_scrub::laws::each_unread_level_is_told;
use snap_scrub::scrub;
use std::alloc::Global;
use std::thread::Threads;

/// Scrubs the array of a job by the table of its last sync.
pub(crate) fn scrub_array<R: Threads + Sync, F: Folder, V: Vault, W: Sink>(
    rt: &R,
    alloc: Global,
    job: &Job,
    way: &ScrubWay,
    table: Table,
    folders: &mut [F],
    vault: &mut V,
    reports: &mut Vec<Box<dyn Report>>,
    out: &mut W,
) -> Done
    requires command { job.now.command ≡ ScrubCommand way.now }
    requires array { IsOpened (setup_value job.now.setup) table (map F.view folders.old) (V.view vault.old) }
    ensures { IsDone standing stands (task_of job.now) table
        (world_view (map F.view folders.old) (V.view vault.old) (W.view out.old))
        (world_view (map F.view folders.new) (V.view vault.new) (W.view out.new))
        reports.old.items reports.new.items result.answer result.named }
{
    each_unread_level_is_told();
    let mut lines = Lines::over(out);
    match scrub(
        rt,
        alloc,
        folders,
        vault,
        way,
        job.readers,
        table,
        job.moment,
        reports,
        &mut lines,
    ) {
        Ok(end) => Done {
            answer: Answer::done(end.findings, lines.failed()),
            named: None,
        },
        Err(fault) => Done {
            answer: Answer::from(fault),
            named: None,
        },
    }
}
