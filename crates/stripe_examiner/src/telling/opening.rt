// What is found of files before any block is read, told.
ghost use Rattle.std.specs.Prelude.{◌≡◌, ◌<◌, length, IfSome};
ghost use Rattle.std.specs.Option.{option_to_list};
ghost use Rattle.file_table.specs.Table.{column_at, record_at};
ghost use Rattle.snap_report.specs.EventFits.{Fits as EventFits};
ghost use Rattle.snap_report.specs.Told.{Told};
ghost use Rattle.stripe_examiner.specs.Counts.{AreCounts};
ghost use Rattle.stripe_examiner.specs.Findings.{changed_event, blocked_event, record_events, column_events, opening_events};
ghost use Rattle.repair_scope.specs.Plan.{EntriesFit, seen, is_audit as is_audit_mode};

use super::{entry_of, tell_found};
use crate::counts::Counts;
use disk_model::Sink;
use file_table::Table;
use repair_scope::{Entry, Mode, Plan, is_as_recorded, is_audit};
use snap_report::events::Event;
use snap_report::{Lines, Report};

// That the file of a record is not listed as it was recorded.
fn changed(table: &Table, d: u32, i: u32, entry: Entry) -> Option<Event>
    requires column { d < length table.now.columns }
    requires rec { i < length (column_at table.now.columns d).records }
    ensures value { option_to_list result
        ≡ changed_event d i (record_at table.now.columns d i).meta entry }
    ensures fits { IfSome result (λ event. EventFits table.now.columns event) }
{
    if is_as_recorded(table.meta(d, i), entry.listed) {
        None
    } else {
        Some(Event::Changed {
            disk: d,
            rec: i,
            found: entry.listed,
        })
    }
}

// That the file of a record can't be written, where parity is looked at.
fn blocked(mode: Mode, table: &Table, d: u32, i: u32, entry: Entry) -> Option<Event>
    requires column { d < length table.now.columns }
    requires rec { i < length (column_at table.now.columns d).records }
    ensures value { option_to_list result ≡ blocked_event (is_audit_mode mode) d i entry }
    ensures fits { IfSome result (λ event. EventFits table.now.columns event) }
{
    if entry.blocked && !is_audit(mode) {
        Some(Event::Blocked { disk: d, rec: i })
    } else {
        None
    }
}

// Tells of a record, if it is selected.
fn tell_record<W: Sink>(
    plan: &Plan<'_>,
    d: u32,
    i: u32,
    lines: &mut Lines<'_, W>,
    reports: &mut Vec<Box<dyn Report>>,
) -> Counts
    requires entries { EntriesFit plan.now.table.now plan.now.entries.now }
    requires column { d < length plan.now.table.now.columns }
    requires rec { i < length (column_at plan.now.table.now.columns d).records }
    ensures told { Told W.view standing stands plan.now.table.now.columns
        (record_events (seen plan.now) d i)
        lines.old lines.new reports.old.items reports.new.items }
    ensures counts { AreCounts (record_events (seen plan.now) d i) result }
{
    let entry = entry_of(plan, d, i);
    if !entry.selected {
        return Counts::NONE;
    }
    let first = tell_found(plan.table, changed(plan.table, d, i, entry), lines, reports);
    let second = tell_found(
        plan.table,
        blocked(plan.scope.mode, plan.table, d, i, entry),
        lines,
        reports,
    );
    first.and(second)
}

// Tells of each selected record of a column.
fn tell_column<W: Sink>(
    plan: &Plan<'_>,
    d: u32,
    lines: &mut Lines<'_, W>,
    reports: &mut Vec<Box<dyn Report>>,
) -> Counts
    requires entries { EntriesFit plan.now.table.now plan.now.entries.now }
    requires column { d < length plan.now.table.now.columns }
    ensures told { Told W.view standing stands plan.now.table.now.columns
        (column_events (seen plan.now) d)
        lines.old lines.new reports.old.items reports.new.items }
    ensures counts { AreCounts (column_events (seen plan.now) d) result }
{
    let mut counts = Counts::NONE;
    for i in 0..plan.table.records(d) {
        counts = counts.and(tell_record(plan, d, i, lines, reports));
    }
    counts
}

/// Tells of each selected record, in order, whether its file is not listed as it was recorded, and whether it is blocked.
pub fn tell_opening<W: Sink>(
    plan: &Plan<'_>,
    lines: &mut Lines<'_, W>,
    reports: &mut Vec<Box<dyn Report>>,
) -> Counts
    requires { EntriesFit plan.now.table.now plan.now.entries.now }
    ensures told { Told W.view standing stands plan.now.table.now.columns (opening_events (seen plan.now))
        lines.old lines.new reports.old.items reports.new.items }
    ensures counts { AreCounts (opening_events (seen plan.now)) result }
{
    let mut counts = Counts::NONE;
    for d in 0..plan.table.disks() {
        counts = counts.and(tell_column(plan, d, lines, reports));
    }
    counts
}
