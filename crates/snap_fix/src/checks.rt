// A check.
ghost use Rattle.std.specs.Prelude.{◌≡◌, IfOk, IfErr, length, map};
ghost use Rattle.array_setup.specs.Setup.{setup_value};
ghost use Rattle.snap_fix.specs.Beginning.{BeginsNot};
ghost use Rattle.snap_fix.specs.Course.{Checks, IsArray, outside};
ghost use Rattle.repair_scope.specs.Plan.{names_of};

use crate::beginning::begin;
use crate::checking::check_stripes;
use crate::plan::Task;
use disk_model::{Folder, Sink, Vault};
use repair_scope::Plan;
use snap_report::{Lines, Report, RunFault};
use std::alloc::Global;
use std::thread::Threads;
use stripe_examiner::{Spare, tell_opening};
use stripe_reader::Window;

/// How a check or a fix ended. Each number stays at the greatest u64.
#[derive(Clone, Copy, Debug, PartialEq, Eq)]
pub struct FixEnd {
    /// How many blocks of files were written anew.
    pub blocks: u64,
    /// How many blocks of levels were.
    pub parities: u64,
    /// How many findings were told.
    pub findings: u64,
    /// How many of them are left by a fix: blocks that are lost or not synced, and files that are blocked.
    pub left: u64,
}

/// Tells what is damaged, and writes nothing. It fails only where a folder can't be listed or memory runs out, and then no
/// parity was read.
pub(crate) fn check<R: Threads + Sync, F: Folder, V: Vault, P: Spare, W: Sink>(
    rt: &R,
    alloc: Global,
    task: &Task<'_>,
    folders: &mut [F],
    vault: &mut V,
    spare: &mut P,
    lines: &mut Lines<'_, W>,
    reports: &mut Vec<Box<dyn Report>>,
) -> Result<FixEnd, RunFault>
    requires { IsArray task.now.table.now (length task.now.setup.now.disks)
        (map F.view folders.old) (V.view vault.old) (P.holding spare.old) }
    ensures checks { IfOk result (Checks W.view standing stands
        task.now.mode task.now.selection.now (names_of (setup_value task.now.setup.now)) task.now.table.now
        (outside (map F.view folders.old) (V.view vault.old) (P.holding spare.old) lines.old reports.old.items)
        (outside (map F.view folders.new) (V.view vault.new) (P.holding spare.new) lines.new reports.new.items)) }
    ensures failed { IfErr result (λ fault. BeginsNot (map F.view folders.old) (map F.view folders.new) fault ×
        (vault.new ≡ vault.old) × (spare.new ≡ spare.old) × (lines.new ≡ lines.old) × (reports.new ≡ reports.old)) }
{
    let (selection, setup, table) = (task.selection, task.setup, task.table);
    let mut work = begin(rt, alloc, task.mode, selection, setup, folders, table)?;
    let (most, block_size) = (work.room.window.room(), table.shape().block_size);
    let Ok(mut far) = Window::make(alloc, table.disks(), most, block_size) else {
        return Err(RunFault::Memory);
    };
    let plan = Plan {
        scope: work.scope,
        table,
        entries: &work.entries,
    };
    let opening = tell_opening(&plan, lines, reports);
    let stripes = check_stripes(
        rt, task, &mut work, &mut far, folders, vault, spare, lines, reports,
    );
    let counts = opening.and(stripes);
    lines.end_check(counts.found);
    Ok(FixEnd {
        blocks: 0,
        parities: 0,
        findings: counts.found,
        left: counts.left,
    })
}
