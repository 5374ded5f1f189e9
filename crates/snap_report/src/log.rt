// Events written as lines.
ghost use Rattle.std.specs.Prelude.{◌≡◌, false};
ghost use Rattle.snap_report.specs.EventFits.{Fits};
ghost use Rattle.snap_report.specs.Report.{IsTake, of_sink};
ghost use Rattle.snap_report.specs.Telling.{Tells, between};
ghost use Rattle.snap_report.specs.EventLines.{event_line};

use crate::events::Event;
use crate::{Lines, Report};
use disk_model::{Failed, Sink};
use file_table::Table;

/// Writes each event's line to a sink of its own.
#[derive(Drop)]
pub struct LogReport<S: Sink + Drop> {
    sink: S,
    failed: bool,
}

impl<S: Sink + Drop> LogReport<S> {
    pub fn new(sink: S) -> LogReport<S>
        ensures sink { result.sink ≡ sink }
        ensures unfailed { result.failed ≡ false }
    {
        LogReport {
            sink,
            failed: false,
        }
    }

    /// Where the lines go.
    pub fn sink(&self) -> &S
        ensures { result.now ≡ self.now.sink }
    {
        &self.sink
    }
}

// Writes the line of an event to a sink, and answers whether the write failed.
fn write_line<S: Sink>(sink: &mut S, table: &Table, event: &Event) -> bool
    requires { Fits table.now.columns event.now }
    ensures { Tells (event_line table.now.columns event.now)
        (between false (S.view sink.old))
        (between result (S.view sink.new)) }
{
    let mut lines = Lines::over(sink);
    lines.tell(table, event);
    lines.failed()
}

impl<S: Sink + Drop> Report for LogReport<S> {
    ghost standing = { λ report. of_sink report.failed (S.view report.sink) };

    ghost stands = { λ _ _. ⊥ };

    fn faults(&self) -> u64 {
        self.sink.faults()
    }

    fn failed(&self) -> bool {
        self.failed
    }

    fn take(&mut self, table: &Table, event: &Event) -> Result<(), Failed>
        requires unfailed { self.old.failed ≡ false }
        requires fits { Fits table.now.columns event.now }
        ensures taken { IsTake (event_line table.now.columns event.now) event.now result
            (of_sink self.old.failed (S.view self.old.sink)) (λ _. ⊥)
            (of_sink self.new.failed (S.view self.new.sink)) (λ _. ⊥) }
        ensures tells { Tells (event_line table.now.columns event.now)
            (between self.old.failed (S.view self.old.sink))
            (between self.new.failed (S.view self.new.sink)) }
    {
        self.failed = write_line(&mut self.sink, table, event);
        if self.failed { Err(Failed) } else { Ok(()) }
    }
}
