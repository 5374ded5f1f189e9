// The commands, over the table that was loaded.
ghost use Rattle.std.specs.Prelude.{◌≡◌, length, map, false};
ghost use Rattle.array_setup.specs.Setup.{setup_value};
ghost use Rattle.snap_config.specs.Words.{IsWay};
ghost use Rattle.snap_report.specs.ListText.{list_text};
ghost use Rattle.snap_report.specs.StatusText.{bad_in, status_text};
ghost use Rattle.snap_report.specs.Telling.{Tells, between};
ghost use Rattle.snap_top.specs.Does.{IsDone};
ghost use Rattle.snap_top.specs.Task.{Prints, task_of};
ghost use Rattle.snap_top.specs.Asked.{WorksOnArray};
ghost use Rattle.snap_top.specs.Syncing.{IsOpened};
ghost use Rattle.snap_top.specs.Views.{world_view};

use crate::checking::check_array;
use crate::dup::list_pairs;
use crate::fixing::fix_array;
use crate::job::{Done, Job};
use crate::scrubbing::scrub_array;
use crate::syncing::sync_array;
use disk_model::{Folder, Sink, Vault};
use file_table::Table;
use snap_config::{BUILT_COMMANDS, Command, CommandName};
use snap_fix::Mode;
use snap_report::{Answer, Lines, Report, list_text, status_text};
use std::alloc::Global;
use std::thread::Threads;

/// The commands that are built.
pub const COMMANDS: [CommandName; 8] = BUILT_COMMANDS;

// Prints the files of a table, and answers whether a write failed.
fn print_list<W: Sink>(table: &Table, out: &mut W) -> bool
    ensures { Tells (list_text table.now.columns) (between false (W.view out.old)) (between result (W.view out.new)) }
{
    let mut lines = Lines::over(out);
    list_text(&mut lines, table);
    lines.failed()
}

// Prints how much a table holds and what is known of its stripes, and answers whether a write failed.
fn print_status<W: Sink>(table: &Table, out: &mut W) -> bool
    ensures { Tells (status_text table.now) (between false (W.view out.old)) (between result (W.view out.new)) }
{
    let mut lines = Lines::over(out);
    status_text(&mut lines, table);
    lines.failed()
}

// How many stripes are known to be bad.
fn bad_stripes(table: &Table) -> u64
    ensures { result ≡ bad_in table.now.infos }
{
    let mut bad: u64 = 0;
    for stripe in 0..table.length() {
        bad += u64::from(table.info(stripe).bad);
    }
    bad
}

// Lists the files of a table.
fn list<W: Sink>(table: &Table, out: &mut W) -> Answer
    ensures { Prints (list_text table.now.columns) 0 (W.view out.old) (W.view out.new) result }
{
    let failed = print_list(table, out);
    Answer::done(0, failed)
}

// Says what is known of the stripes of a table.
fn status<W: Sink>(table: &Table, out: &mut W) -> Answer
    ensures { Prints (status_text table.now) (bad_in table.now.infos) (W.view out.old) (W.view out.new) result }
{
    let failed = print_status(table, out);
    Answer::done(bad_stripes(table), failed)
}

/// Carries a command out.
#[tactic(auto, using(crate::proofs::DoneLemmas::done))]
pub(crate) fn carry_out<R: Threads + Sync, F: Folder, V: Vault, W: Sink>(
    rt: &R,
    alloc: Global,
    job: &Job,
    table: Table,
    folders: &mut [F],
    vault: &mut V,
    reports: &mut Vec<Box<dyn Report>>,
    out: &mut W,
) -> Done
    requires works { WorksOnArray job.now.command }
    requires way { IsWay job.now.command }
    requires array { IsOpened (setup_value job.now.setup) table (map F.view folders.old) (V.view vault.old) }
    ensures { IsDone standing stands (task_of job.now) table
        (world_view (map F.view folders.old) (V.view vault.old) (W.view out.old))
        (world_view (map F.view folders.new) (V.view vault.new) (W.view out.new))
        reports.old.items reports.new.items result.answer result.named }
{
    match &job.command {
        Command::List => Done {
            answer: list(&table, out),
            named: None,
        },
        Command::Status => Done {
            answer: status(&table, out),
            named: None,
        },
        Command::Dup => Done {
            answer: list_pairs(alloc, &table, out),
            named: None,
        },
        Command::Sync(way) => {
            sync_array(rt, alloc, job, way, table, folders, vault, reports, out)
        }
        Command::Scrub(way) => {
            scrub_array(rt, alloc, job, way, table, folders, vault, reports, out)
        }
        Command::Check(selection) => check_array(
            rt,
            alloc,
            job,
            Mode::Check,
            selection,
            &table,
            folders,
            vault,
            reports,
            out,
        ),
        Command::Audit(selection) => check_array(
            rt,
            alloc,
            job,
            Mode::Audit,
            selection,
            &table,
            folders,
            vault,
            reports,
            out,
        ),
        Command::Fix(selection) => fix_array(
            rt, alloc, job, selection, &table, folders, vault, reports, out,
        ),
        Command::Exercise(_) => unreachable!(),
    }
}
