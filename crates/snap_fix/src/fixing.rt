// The stripes of a fix.
ghost use Rattle.std.specs.Prelude.{◌≡◌, IfOk, IfErr, length, map};
ghost use Rattle.stripe_examiner.specs.Facts.{StripeFacts};
ghost use Rattle.snap_fix.specs.Fixing.{SceneFits};
ghost use Rattle.repair_scope.specs.Plan.{seen};
ghost use Rattle.snap_fix.specs.Handed.{beside, BreaksOne, CanExamineOne, CanMendRow, FixesOne, IfSearched, MendsNotRowTried, MendsRowTried, ShowsOne, TellsWrongOne};
ghost use Rattle.snap_fix.specs.Repairing.{levels_outside};
ghost use Rattle.snap_fix.specs.Underway.{FixUnderway};

use crate::plan::{Examined, Progress};
use crate::repairing::{mend_files, mend_levels};
use disk_model::{Failed, Folder, Sink, Vault};
use repair_scope::{Plan, is_searched};
use snap_report::{Lines, Report, RunFault};
use stripe_examiner::{Counts, tell_stripe};

/// How much was found, and how many blocks of files and of levels were written anew. Each number stays at the greatest u64.
#[derive(Clone, Copy, Debug, PartialEq, Eq)]
pub(crate) struct Totals {
    pub counts: Counts,
    pub blocks: u64,
    pub parities: u64,
}

// Writes the wrong levels of a stripe of the window anew, where a recovery of its blocks is tried: else none is read, and none is
// wrong.
fn mend_parity<V: Vault, W: Sink>(
    plan: &Plan<'_>,
    one: &Examined<'_>,
    block: &mut [u8],
    written: &mut [bool],
    vault: &mut V,
    lines: &mut Lines<'_, W>,
    reports: &mut Vec<Box<dyn Report>>,
) -> Result<u32, Failed>
    requires can { CanExamineOne (seen plan.now) one.now }
    requires mend { IfSearched (seen plan.now) one.now (CanMendRow (seen plan.now) one.now block.old (V.view vault.old)) }
    requires wrong { IfSearched (seen plan.now) one.now (TellsWrongOne (seen plan.now) one.now) }
    requires written { length written.old ≡ plan.now.table.now.shape.levels }
    ensures mended { IfOk result (MendsRowTried W.view standing stands (seen plan.now) one.now written.old written.new
        (levels_outside (V.view vault.old) lines.old reports.old.items)
        (levels_outside (V.view vault.new) lines.new reports.new.items)) }
    ensures failed { IfErr result (λ _. MendsNotRowTried W.view standing stands (seen plan.now) one.now
        (levels_outside (V.view vault.old) lines.old reports.old.items)
        (levels_outside (V.view vault.new) lines.new reports.new.items)) }
{
    if !is_searched(plan, one.stripe) {
        return Ok(0);
    }
    mend_levels(plan, one, block, written, vault, lines, reports)
}

/// Tells what is found in a stripe of a window that was examined, and writes its damaged blocks and its wrong levels anew.
pub(crate) fn fix_stripe<F: Folder, V: Vault, W: Sink>(
    plan: &Plan<'_>,
    one: &Examined<'_>,
    block: &mut [u8],
    progress: &mut Progress,
    folders: &mut [F],
    vault: &mut V,
    lines: &mut Lines<'_, W>,
    reports: &mut Vec<Box<dyn Report>>,
) -> Result<Totals, RunFault>
    requires can { CanExamineOne (seen plan.now) one.now }
    requires shown { (facts : StripeFacts) × ShowsOne (seen plan.now) facts one.now }
    requires block { length block.old ≡ plan.now.table.now.shape.block_size }
    requires fits { SceneFits (seen plan.now)
        (beside F.view V.view progress.old folders.old vault.old lines.old reports.old.items) }
    requires underway { FixUnderway (seen plan.now) (map F.view folders.old) progress.old.starts progress.old.states }
    ensures fixed { IfOk result (FixesOne W.view standing stands (seen plan.now) one.now
        (beside F.view V.view progress.old folders.old vault.old lines.old reports.old.items)
        (beside F.view V.view progress.new folders.new vault.new lines.new reports.new.items)) }
    ensures broke { IfErr result (BreaksOne W.view standing stands (seen plan.now) one.now
        (beside F.view V.view progress.old folders.old vault.old lines.old reports.old.items)
        (beside F.view V.view progress.new folders.new vault.new lines.new reports.new.items)) }
{
    let (starts, states) = (&mut progress.starts, &mut progress.states);
    let found = tell_stripe(plan, one.stripe, one.own, lines, reports);
    let repaired = match mend_files(plan, one, starts, states, folders, lines, reports) {
        Ok(repaired) => repaired,
        Err(disk) => return Err(RunFault::Folder { disk }),
    };
    let written = progress.written.as_mut_slice();
    let Ok(parities) = mend_parity(plan, one, block, written, vault, lines, reports) else {
        return Err(RunFault::Vault);
    };
    Ok(Totals {
        counts: found.and(repaired.counts),
        blocks: u64::from(repaired.blocks),
        parities: u64::from(parities),
    })
}
