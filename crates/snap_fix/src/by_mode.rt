// A check or a fix, by the mode.
ghost use Rattle.std.specs.Prelude.{◌≡◌, IfOk, IfErr, length, map};
ghost use Rattle.array_setup.specs.Setup.{setup_value};
ghost use Rattle.snap_fix.specs.ByMode.{AreOpenFor, LeavesFor, MayFailBy, Repairs, RepairsNot};
ghost use Rattle.snap_fix.specs.Course.{IsArray, outside};
ghost use Rattle.repair_scope.specs.Plan.{names_of};

use crate::checks::{FixEnd, check};
use crate::plan::Task;
use crate::repairs::fix;
use array_setup::{Selection, Setup};
use disk_model::{Folder, Sink, Vault};
use file_table::Table;
use repair_scope::Mode;
use snap_report::{Lines, Report, RunFault};
use std::alloc::Global;
use std::thread::Threads;
use stripe_examiner::Spare;

/// Tells what is damaged of an array by its table and, in the mode `Fix`, writes what is known of it anew. A check or an
/// audit fails only where a folder can't be listed or memory runs out. So does a fix, before anything is written; and it
/// fails where a folder or parity can't be written: then blocks may have been written already.
pub fn repair<R: Threads + Sync, F: Folder, V: Vault, P: Spare, W: Sink>(
    rt: &R,
    alloc: Global,
    mode: Mode,
    selection: &Selection,
    setup: &Setup,
    folders: &mut [F],
    vault: &mut V,
    spare: &mut P,
    readers: u32,
    table: &Table,
    reports: &mut Vec<Box<dyn Report>>,
    lines: &mut Lines<'_, W>,
) -> Result<FixEnd, RunFault>
    requires array { IsArray table.now (length setup.now.disks)
        (map F.view folders.old) (V.view vault.old) (P.holding spare.old) }
    requires open { AreOpenFor mode table.now (map F.view folders.old) }
    ensures repairs { IfOk result (Repairs W.view standing stands
        mode selection.now (names_of (setup_value setup.now)) table.now
        (outside (map F.view folders.old) (V.view vault.old) (P.holding spare.old) lines.old reports.old.items)
        (outside (map F.view folders.new) (V.view vault.new) (P.holding spare.new) lines.new reports.new.items)) }
    ensures failed { IfErr result (RepairsNot W.view standing stands
        mode selection.now (names_of (setup_value setup.now)) table.now
        (outside (map F.view folders.old) (V.view vault.old) (P.holding spare.old) lines.old reports.old.items)
        (outside (map F.view folders.new) (V.view vault.new) (P.holding spare.new) lines.new reports.new.items)
        ((vault.new ≡ vault.old) × (spare.new ≡ spare.old) × (lines.new ≡ lines.old) × (reports.new ≡ reports.old))) }
    ensures leaves { LeavesFor mode
        (map F.view folders.old) (map F.view folders.new) (V.view vault.old) (V.view vault.new) }
    ensures cause { IfErr result (MayFailBy mode) }
{
    let task = Task {
        mode,
        selection,
        setup,
        table,
        readers,
    };
    match mode {
        Mode::Check | Mode::Audit => check(rt, alloc, &task, folders, vault, spare, lines, reports),
        Mode::Fix => fix(rt, alloc, &task, folders, vault, spare, lines, reports),
    }
}
