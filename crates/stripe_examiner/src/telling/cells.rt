// What is found in the cells of a stripe, told.
ghost use Rattle.std.specs.Prelude.{◌≡◌, ◌<◌, List, [], length, IfSome};
ghost use Rattle.std.specs.Option.{option_to_list};
ghost use Rattle.file_table.specs.Cells.{cell_seen};
ghost use Rattle.file_table.specs.Table.{Column, column_at, record_at};
ghost use Rattle.snap_report.specs.EventFits.{Fits as EventFits, IsRecordOf};
ghost use Rattle.snap_report.specs.Told.{Told};
ghost use Rattle.stripe_reader.specs.WindowValue.{slot_at};
ghost use Rattle.stripe_examiner.specs.Counts.{AreCounts};
ghost use Rattle.stripe_examiner.specs.Findings.{read_event, silent_event, cell_events, is_lost_by, lost_events, unsynced_events, all_lost_events};
ghost use Rattle.stripe_examiner.specs.MarkedCell.{IsCellAt};
ghost use Rattle.stripe_examiner.specs.Marks.{CanExamine, mark_in};
ghost use Rattle.repair_scope.specs.Plan.{EntriesFit, seen};

use super::{entry_of, tell_found};
use crate::counts::Counts;
use crate::marking::SlotMark;
use block_hash::Digest16;
use disk_model::Sink;
use file_table::{Cell, Table};
use repair_scope::{
    Entry, Plan, has_selected_cell, is_as_recorded, is_audit, is_synced, selected_cell,
    selects_record,
};
use snap_report::events::Event;
use snap_report::{Lines, Report};
use stripe_reader::{CellRead, Found, Window};

// That a stripe with a selected cell is pending, where parity is looked at.
fn unsynced(plan: &Plan<'_>, stripe: u32) -> Option<Event>
    requires entries { EntriesFit plan.now.table.now plan.now.entries.now }
    requires within { stripe < length plan.now.table.now.infos }
    ensures value { option_to_list result
        ≡ unsynced_events (seen plan.now) stripe }
    ensures fits { IfSome result (λ event. EventFits plan.now.table.now.columns event) }
{
    let is_pending = !is_audit(plan.scope.mode) && !is_synced(plan, stripe);
    if is_pending && has_selected_cell(plan, stripe) {
        Some(Event::Unsynced { stripe })
    } else {
        None
    }
}

/// Tells that a stripe with a selected cell is pending.
pub fn tell_unsynced<W: Sink>(
    plan: &Plan<'_>,
    stripe: u32,
    lines: &mut Lines<'_, W>,
    reports: &mut Vec<Box<dyn Report>>,
) -> Counts
    requires entries { EntriesFit plan.now.table.now plan.now.entries.now }
    requires within { stripe < length plan.now.table.now.infos }
    ensures told { Told W.view standing stands plan.now.table.now.columns
        (unsynced_events (seen plan.now) stripe)
        lines.old lines.new reports.old.items reports.new.items }
    ensures counts { AreCounts (unsynced_events (seen plan.now) stripe) result }
{
    tell_found(plan.table, unsynced(plan, stripe), lines, reports)
}

// That the block that came of a cell has another hash than the recorded one.
fn silent(
    stripe: u32,
    d: u32,
    cell: Cell,
    recorded: Option<Digest16>,
    came: Option<Digest16>,
) -> Option<Event>
    ensures value { option_to_list result ≡ silent_event stripe d cell recorded came }
    ensures fits { (columns : List Column) → IsRecordOf columns d cell.rec →
        IfSome result (λ event. EventFits columns event) }
{
    let (Some(recorded), Some(found)) = (recorded, came) else {
        return None;
    };
    if recorded == found {
        return None;
    }
    Some(Event::Silent {
        stripe,
        disk: d,
        rec: cell.rec,
        index: cell.index,
        recorded,
        found,
    })
}

// What is found in the reading of a cell.
fn read_finding(
    table: &Table,
    stripe: u32,
    d: u32,
    cell: Cell,
    entry: Entry,
    read: CellRead,
    digest: Option<Digest16>,
) -> Option<Event>
    requires column { d < length table.now.columns }
    requires rec { cell.rec < length (column_at table.now.columns d).records }
    requires block { cell.index < length (record_at table.now.columns d cell.rec).blocks }
    ensures value { option_to_list result
        ≡ read_event stripe d cell (cell_seen (column_at table.now.columns d) cell) entry
        (record { cell = read; digest = digest; block = [] }) }
    ensures fits { IfSome result (λ event. EventFits table.now.columns event) }
{
    let Cell { rec, index } = cell;
    if read.found == Found::Unread {
        return Some(Event::Io {
            stripe,
            disk: d,
            rec,
            index,
        });
    }
    if !is_as_recorded(table.meta(d, rec), entry.listed) {
        return None;
    }
    silent(
        stripe,
        d,
        cell,
        table.blocks(d, rec)[index as usize].hash,
        digest,
    )
}

/// What is found in the reading of this cell of a column, if it is selected.
pub fn cell_finding(
    plan: &Plan<'_>,
    stripe: u32,
    i: u32,
    window: &Window,
    d: u32,
    cell: Cell,
) -> Option<Event>
    requires can { CanExamine (seen plan.now) stripe i window.now }
    requires column { d < length plan.now.table.now.columns }
    requires cell { IsCellAt plan.now.table.now stripe d cell }
    ensures value { option_to_list result
        ≡ cell_events (seen plan.now) stripe (slot_at window.now i d) d }
    ensures fits { IfSome result (λ event. EventFits plan.now.table.now.columns event) }
{
    if !selects_record(plan, stripe, d, cell.rec) {
        return None;
    }
    let entry = entry_of(plan, d, cell.rec);
    read_finding(
        plan.table,
        stripe,
        d,
        cell,
        entry,
        window.cell(i, d),
        window.digest(i, d),
    )
}

// That the cell of a column is lost: it is selected and damaged, and its block is not known.
fn lost(plan: &Plan<'_>, stripe: u32, mark: SlotMark, known: bool, d: u32) -> Option<Event>
    requires entries { EntriesFit plan.now.table.now plan.now.entries.now }
    requires within { stripe < length plan.now.table.now.infos }
    requires column { d < length plan.now.table.now.columns }
    ensures value { option_to_list result
        ≡ lost_events (seen plan.now) stripe (is_lost_by (seen plan.now) stripe mark known d) d }
    ensures fits { IfSome result (λ event. EventFits plan.now.table.now.columns event) }
{
    if is_audit(plan.scope.mode) || !mark.is_unknown(is_synced(plan, stripe), known) {
        return None;
    }
    let Cell { rec, index } = selected_cell(plan, stripe, d)?;
    Some(Event::Lost {
        stripe,
        disk: d,
        rec,
        index,
    })
}

/// Tells which of the selected cells are lost, column by column.
pub fn tell_lost<W: Sink>(
    plan: &Plan<'_>,
    stripe: u32,
    marks: &[SlotMark],
    known: bool,
    lines: &mut Lines<'_, W>,
    reports: &mut Vec<Box<dyn Report>>,
) -> Counts
    requires entries { EntriesFit plan.now.table.now plan.now.entries.now }
    requires within { stripe < length plan.now.table.now.infos }
    requires marks { length marks.now ≡ length plan.now.table.now.columns }
    ensures told { Told W.view standing stands plan.now.table.now.columns
        (all_lost_events (seen plan.now) stripe
        (λ d. is_lost_by (seen plan.now) stripe (mark_in marks.now d) known d))
        lines.old lines.new reports.old.items reports.new.items }
    ensures counts { AreCounts (all_lost_events (seen plan.now) stripe
        (λ d. is_lost_by (seen plan.now) stripe (mark_in marks.now d) known d)) result }
{
    let mut counts = Counts::NONE;
    for d in 0..plan.table.disks() {
        let found = lost(plan, stripe, marks[d as usize], known, d);
        counts = counts.and(tell_found(plan.table, found, lines, reports));
    }
    counts
}
