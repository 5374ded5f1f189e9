// Those who are told of events.
ghost use Rattle.std.specs.Prelude.{◌≡◌, ◌∷◌, [], All, false, List};
ghost use Rattle.snap_report.specs.EventFits.{Fits};
ghost use Rattle.snap_report.specs.EventLines.{event_line};
ghost use Rattle.snap_report.specs.Told.{Told};
ghost use Rattle.snap_report.specs.Report.{ReportView, IsTake, Given, AllGiven};

use crate::Lines;
use crate::events::Event;
use disk_model::{Failed, Sink};
use file_table::Table;

/// Is told of events, one after another, until a call fails. `faults` rises in each call that answers `Failed`,
/// and in no other.
pub trait Report: Drop {
    ghost use Rattle.snap_report.specs.declared.events.Event.{Event};

    /// What is known of it. A report that writes text may tell in this what it has written: each event's line.
    ghost standing: { Self → ReportView };

    /// The lists of events that it stands for, where it tells that.
    ghost stands: { Self → List Event → Type 0 };

    /// How many of its calls failed.
    fn faults(&self) -> u64
        ensures { result ≡ (standing self.now).faults };

    /// Whether a call failed.
    fn failed(&self) -> bool
        ensures { result ≡ (standing self.now).failed };

    /// Takes the next event.
    fn take(&mut self, table: &Table, event: &Event) -> Result<(), Failed>
        requires unfailed { (standing self.old).failed ≡ false }
        requires fits { Fits table.now.columns event.now }
        ensures { IsTake (event_line table.now.columns event.now) event.now result
            (standing self.old) (stands self.old) (standing self.new) (stands self.new) };
}

// Gives one event to a report that has not failed.
fn give(report: &mut Box<dyn Report>, table: &Table, event: &Event)
    requires { Fits table.now.columns event.now }
    ensures { Given standing stands (event_line table.now.columns event.now) (event.now ∷ []) report.old report.new }
{
    if !report.failed() {
        let _ = report.take(table, event);
    }
}

// Gives one event to each report that has not failed, in order.
fn give_all(reports: &mut Vec<Box<dyn Report>>, table: &Table, event: &Event)
    requires { Fits table.now.columns event.now }
    ensures { AllGiven standing stands (event_line table.now.columns event.now) (event.now ∷ [])
        reports.old.items reports.new.items }
{
    for report in reports.iter_mut() {
        give(report, table, event);
    }
}

/// Tells an event: its line, and then the event to each report that has not failed, in order. A failed one
/// stays in its place.
pub fn tell<W: Sink>(
    reports: &mut Vec<Box<dyn Report>>,
    lines: &mut Lines<'_, W>,
    table: &Table,
    event: &Event,
)
    requires { Fits table.now.columns event.now }
    ensures { Told W.view standing stands table.now.columns (event.now ∷ [])
        lines.old lines.new reports.old.items reports.new.items }
{
    lines.tell(table, event);
    give_all(reports, table, event);
}

/// Tells events in order.
pub fn tell_all<W: Sink>(
    reports: &mut Vec<Box<dyn Report>>,
    lines: &mut Lines<'_, W>,
    table: &Table,
    events: &[Event],
)
    requires { All (λ event. Fits table.now.columns event) events.now }
    ensures { Told W.view standing stands table.now.columns events.now
        lines.old lines.new reports.old.items reports.new.items }
{
    for event in events {
        tell(reports, lines, table, event);
    }
}
