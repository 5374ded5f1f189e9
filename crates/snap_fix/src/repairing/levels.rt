// The wrong levels of a stripe of the window, written anew.
ghost use Rattle.std.specs.Prelude.{◌≡◌, ◌<◌, ◌≤◌, [], ◌∷◌, length, IfOk, IfErr};
ghost use Rattle.parity_writer.specs.WindowRow.{row_at};
ghost use Rattle.repair_scope.specs.Plan.{seen};
ghost use Rattle.snap_fix.specs.Handed.{CanExamineOne, CanMendRow, FlagsOne, MendsNotRow, MendsRow, TellsWrongOne};
ghost use Rattle.snap_fix.specs.Repairing.{levels_outside};
ghost use Rattle.snap_fix.specs.RepairSteps.{WritesLevel, WritesNotLevel};

use crate::plan::Examined;
use disk_model::{Failed, Sink, Vault};
use file_table::Table;
use parity_writer::sum_row;
use repair_scope::Plan;
use snap_report::events::Event;
use snap_report::{Lines, Report, tell};

// Writes a level of the row of a stripe of the window, and tells it.
fn write_level<V: Vault, W: Sink>(
    table: &Table,
    one: &Examined<'_>,
    r: u32,
    block: &mut [u8],
    vault: &mut V,
    lines: &mut Lines<'_, W>,
    reports: &mut Vec<Box<dyn Report>>,
) -> Result<(), Failed>
    requires slot { one.now.slot < one.now.window.now.count }
    requires columns { length one.now.window.now.lanes ≤ 251 }
    requires level { (r < 6) × (r < (V.view vault.old).levels) }
    requires block { length block.old ≡ one.now.window.now.block_size }
    requires size { length block.old ≤ 4194304 }
    ensures written { IfOk result (λ _. WritesLevel W.view standing stands table.now.columns
        one.now.window.now.block_size one.now.stripe r (row_at one.now.window.now one.now.slot)
        (levels_outside (V.view vault.old) lines.old reports.old.items)
        (levels_outside (V.view vault.new) lines.new reports.new.items)) }
    ensures failed { IfErr result (λ _. WritesNotLevel W.view standing stands table.now.columns
        one.now.window.now.block_size one.now.stripe r (row_at one.now.window.now one.now.slot)
        (levels_outside (V.view vault.old) lines.old reports.old.items)
        (levels_outside (V.view vault.new) lines.new reports.new.items)) }
{
    let at = u64::from(one.stripe) * block.len() as u64;
    sum_row(one.window, one.slot, r, block);
    vault.parity_write(r, at, block)?;
    let stripe = one.stripe;
    tell(
        reports,
        lines,
        table,
        &Event::FixedParity { stripe, level: r },
    );
    Ok(())
}

/// Writes the selected levels of a stripe anew that are short or not the sum of its row, where that is known, in order, sets
/// their flags, and answers how many.
pub(crate) fn mend_levels<V: Vault, W: Sink>(
    plan: &Plan<'_>,
    one: &Examined<'_>,
    block: &mut [u8],
    written: &mut [bool],
    vault: &mut V,
    lines: &mut Lines<'_, W>,
    reports: &mut Vec<Box<dyn Report>>,
) -> Result<u32, Failed>
    requires can { CanExamineOne (seen plan.now) one.now }
    requires mend { CanMendRow (seen plan.now) one.now block.old (V.view vault.old) }
    requires wrong { TellsWrongOne (seen plan.now) one.now }
    requires written { length written.old ≡ plan.now.table.now.shape.levels }
    ensures mended { IfOk result (MendsRow W.view standing stands (seen plan.now) one.now
        (levels_outside (V.view vault.old) lines.old reports.old.items)
        (levels_outside (V.view vault.new) lines.new reports.new.items)) }
    ensures written { IfOk result (λ _. FlagsOne (seen plan.now) one.now written.old written.new) }
    ensures failed { IfErr result (λ _. MendsNotRow W.view standing stands (seen plan.now) one.now
        (levels_outside (V.view vault.old) lines.old reports.old.items)
        (levels_outside (V.view vault.new) lines.new reports.new.items)) }
{
    let mut count = 0;
    for r in 0..plan.table.shape().levels {
        if !one.own.wrong[r as usize] {
            continue;
        }
        write_level(plan.table, one, r, block, vault, lines, reports)?;
        written[r as usize] = true;
        count += 1;
    }
    Ok(count)
}
