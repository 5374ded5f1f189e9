// The damaged cells of a stripe of the window, written anew.
ghost use Rattle.std.specs.Prelude.{◌≡◌, ◌<◌, ◌≤◌, length, map, IfOk, IfErr};
ghost use Rattle.repair_scope.specs.Plan.{seen};
ghost use Rattle.snap_fix.specs.Handed.{CanExamineOne, CanMendOne, MendsNotOne, MendsOne};
ghost use Rattle.snap_fix.specs.Repairing.{outside};

use super::Repaired;
use super::cells::mend_column;
use crate::plan::Examined;
use disk_model::{Folder, Sink};
use file_restorer::States;
use repair_scope::Plan;
use snap_report::{Lines, Report};
use stripe_reader::Starts;

/// Writes the damaged blocks of the selected cells of a stripe that are known, column by column, each to the file of its
/// record. Of a cell whose block is not known, its record has a lost block then. It fails by the folder of a column, which
/// is answered.
pub(crate) fn mend_files<F: Folder, W: Sink>(
    plan: &Plan<'_>,
    one: &Examined<'_>,
    starts: &mut Starts,
    states: &mut States,
    folders: &mut [F],
    lines: &mut Lines<'_, W>,
    reports: &mut Vec<Box<dyn Report>>,
) -> Result<Repaired, u32>
    requires can { CanExamineOne (seen plan.now) one.now }
    requires mend { CanMendOne (seen plan.now) one.now starts.old states.old (map F.view folders.old) }
    ensures mended { IfOk result (MendsOne W.view standing stands (seen plan.now) one.now
        (outside starts.old states.old (map F.view folders.old) lines.old reports.old.items)
        (outside starts.new states.new (map F.view folders.new) lines.new reports.new.items)) }
    ensures failed { IfErr result (MendsNotOne W.view standing stands (seen plan.now) one.now
        (outside starts.old states.old (map F.view folders.old) lines.old reports.old.items)
        (outside starts.new states.new (map F.view folders.new) lines.new reports.new.items)) }
{
    let mut repaired = Repaired::NONE;
    for d in 0..plan.table.disks() {
        let folder = &mut folders[d as usize];
        let column = mend_column(plan, one, d, starts, states, folder, lines, reports);
        let Ok(more) = column else {
            return Err(d);
        };
        repaired = Repaired {
            blocks: repaired.blocks + more.blocks,
            counts: repaired.counts.and(more.counts),
        };
    }
    Ok(repaired)
}
