// The cell of one column of a stripe of the window, written anew where it is damaged and known.
ghost use Rattle.std.specs.Prelude.{◌≡◌, ◌<◌, [], length, get_or, IfOk, IfErr, Some, true};
ghost use Rattle.parity_writer.specs.WindowRow.{bytes_of};
ghost use Rattle.stripe_reader.specs.WindowValue.{slot_at};
ghost use Rattle.stripe_examiner.specs.Marks.{mark_in};
ghost use Rattle.file_restorer.specs.Mending.{CanWrite, with_state};
ghost use Rattle.repair_scope.specs.Plan.{EntriesFit, cell_at, seen};
ghost use Rattle.snap_fix.specs.Handed.{CanExamineOne, CanMendIn, MendsIn, MendsNotIn};
ghost use Rattle.snap_fix.specs.RepairSteps.{column_outside, WritesBlockOf, WritesNotBlockOf, is_repaired_by};
ghost use Rattle.stripe_examiner.specs.Findings.{is_lost_by};
ghost use Rattle.file_restorer.specs.State.{state_in};
ghost use Rattle.stripe_examiner.specs.Showing.{is_damaged_mark};

use super::Repaired;
use crate::plan::Examined;
use disk_model::{Failed, Folder, Sink};
use file_restorer::{States, mend_cell};
use file_table::{Cell, Table};
use repair_scope::{Plan, is_synced, selects_cell};
use snap_report::events::Event;
use snap_report::{Lines, Report, tell};
use stripe_examiner::{CellMark, SlotMark};
use stripe_reader::{Found, Starts, Window};

// The bytes of a cell, without the zeros behind them.
fn cell_bytes(window: &Window, i: u32, d: u32) -> &[u8]
    requires stripe { i < window.now.count }
    requires column { d < length window.now.lanes }
    ensures { result.now ≡ bytes_of (slot_at window.now i d) }
{
    let cell = window.cell(i, d);
    let block = window.block(i, d);
    match cell.found {
        Found::Bytes => &block[..block.len().min(cell.got as usize)],
        _ => &block[..0],
    }
}

// Keeps that a block of the file of a record is lost.
fn lose(states: &mut States, d: u32, i: u32)
    requires column { d < length states.old }
    requires rec { i < length (get_or states.old d []) }
    ensures { states.new ≡ with_state states.old d i
        (record (state_in states.old d i) { lost = true }) }
{
    let state = &mut states.columns[d as usize][i as usize];
    state.lost = true;
}

// Whether a cell is damaged, by its mark.
fn is_damaged(mark: CellMark) -> bool
    ensures { result ≡ is_damaged_mark mark }
{
    !matches!(mark, CellMark::Whole)
}

// What became of a column of a stripe and of its cell.
fn mark_of(one: &Examined<'_>, d: u32) -> SlotMark
    requires { d < length one.now.own.now.marks.items }
    ensures { result ≡ mark_in one.now.own.now.marks.items d }
{
    one.own.marks[d as usize]
}

// Whether a selected cell is lost, by its marks.
fn is_lost(plan: &Plan<'_>, one: &Examined<'_>, d: u32, mark: SlotMark) -> bool
    requires entries { EntriesFit plan.now.table.now plan.now.entries.now }
    requires stripe { one.now.stripe < length plan.now.table.now.infos }
    requires column { d < length plan.now.table.now.columns }
    ensures { result ≡ is_lost_by (seen plan.now) one.now.stripe mark one.now.own.now.known d }
{
    let synced = is_synced(plan, one.stripe);
    selects_cell(plan, one.stripe, d) && mark.is_unknown(synced, one.own.known)
}

// Whether a cell is to be written, by its marks.
fn is_repaired(plan: &Plan<'_>, one: &Examined<'_>, d: u32, cell: Cell, mark: SlotMark) -> bool
    requires entries { EntriesFit plan.now.table.now plan.now.entries.now }
    requires stripe { one.now.stripe < length plan.now.table.now.infos }
    requires column { d < length plan.now.table.now.columns }
    requires cell { cell_at (seen plan.now) one.now.stripe d ≡ Some cell }
    ensures { result ≡ is_repaired_by (seen plan.now) one.now.stripe mark one.now.own.now.known d }
{
    selects_cell(plan, one.stripe, d)
        && is_damaged(mark.cell)
        && mark.is_known(is_synced(plan, one.stripe), one.own.known)
        && !plan.entries.at(d, cell.rec).blocked
}

// A cell, and the stripe and the column where it stands.
#[derive(Clone, Copy)]
struct Spot {
    stripe: u32,
    disk: u32,
    cell: Cell,
}

// Writes the block of a cell and tells it. Where its file is gone, the cell is lost, and that is told.
fn write_cell<F: Folder, W: Sink>(
    table: &Table,
    at: Spot,
    bytes: &[u8],
    starts: &mut Starts,
    states: &mut States,
    folder: &mut F,
    lines: &mut Lines<'_, W>,
    reports: &mut Vec<Box<dyn Report>>,
) -> Result<Repaired, Failed>
    requires can { CanWrite table.now at.disk at.cell bytes.now starts.old states.old (F.view folder.old) }
    ensures written { IfOk result (WritesBlockOf W.view standing stands table.now at.stripe at.disk at.cell bytes.now
        (column_outside starts.old states.old (F.view folder.old) lines.old reports.old.items)
        (column_outside starts.new states.new (F.view folder.new) lines.new reports.new.items)) }
    ensures failed { IfErr result (λ _. WritesNotBlockOf W.view standing stands table.now at.disk at.cell bytes.now
        (column_outside starts.old states.old (F.view folder.old) lines.old reports.old.items)
        (column_outside starts.new states.new (F.view folder.new) lines.new reports.new.items)) }
{
    let (stripe, disk, cell) = (at.stripe, at.disk, at.cell);
    let written = mend_cell(table, disk, cell, bytes, starts, states, folder)?;
    if written {
        let event = Event::Fixed {
            stripe,
            disk,
            rec: cell.rec,
            index: cell.index,
        };
        tell(reports, lines, table, &event);
        return Ok(Repaired::WRITTEN);
    }
    lose(states, disk, cell.rec);
    let event = Event::Lost {
        stripe,
        disk,
        rec: cell.rec,
        index: cell.index,
    };
    tell(reports, lines, table, &event);
    Ok(Repaired::GONE)
}

/// Writes the cell of a column where it is selected, damaged and known, and its file isn't blocked. Where it is selected,
/// damaged and not known, its record has a lost block then.
pub(super) fn mend_column<F: Folder, W: Sink>(
    plan: &Plan<'_>,
    one: &Examined<'_>,
    d: u32,
    starts: &mut Starts,
    states: &mut States,
    folder: &mut F,
    lines: &mut Lines<'_, W>,
    reports: &mut Vec<Box<dyn Report>>,
) -> Result<Repaired, Failed>
    requires can { CanExamineOne (seen plan.now) one.now }
    requires mend { CanMendIn (seen plan.now) one.now d starts.old states.old (F.view folder.old) }
    ensures mended { IfOk result (MendsIn W.view standing stands (seen plan.now) one.now d
        (column_outside starts.old states.old (F.view folder.old) lines.old reports.old.items)
        (column_outside starts.new states.new (F.view folder.new) lines.new reports.new.items)) }
    ensures failed { IfErr result (λ _. MendsNotIn W.view standing stands (seen plan.now) one.now d
        (column_outside starts.old states.old (F.view folder.old) lines.old reports.old.items)
        (column_outside starts.new states.new (F.view folder.new) lines.new reports.new.items)) }
{
    let mark = mark_of(one, d);
    if !is_damaged(mark.cell) {
        return Ok(Repaired::NONE);
    }
    let Some(cell) = one.window.table_cell(one.slot, d) else {
        return Ok(Repaired::NONE);
    };
    if is_lost(plan, one, d, mark) {
        lose(states, d, cell.rec);
        return Ok(Repaired::NONE);
    }
    if !is_repaired(plan, one, d, cell, mark) {
        return Ok(Repaired::NONE);
    }
    let bytes = cell_bytes(one.window, one.slot, d);
    let (stripe, disk) = (one.stripe, d);
    let at = Spot { stripe, disk, cell };
    write_cell(
        plan.table, at, bytes, starts, states, folder, lines, reports,
    )
}
