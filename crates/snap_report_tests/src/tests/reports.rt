// Reports that are told the events of a run, of which one fails.
ghost use Rattle.std.specs.Prelude.{All};
ghost use Rattle.snap_report.specs.EventFits.{Fits};

use crate::tests::table;
use disk_memory::MemSink;
use disk_model::Failed;
use file_table::Table;
use snap_report::events::Event;
use snap_report::{Lines, LogReport, Report, TallyReport, tell, tell_all};
use std::alloc::Global;
use std::str;
use std::test::Fail;

// Takes so many events, and fails at the next one, and at each that it is asked for after that.
#[derive(Drop)]
struct Brittle {
    room: u64,
    taken: u64,
    faults: u64,
}

impl Brittle {
    fn new(room: u64) -> Brittle {
        Brittle {
            room,
            taken: 0,
            faults: 0,
        }
    }
}

impl Report for Brittle {
    ghost use Rattle.std.specs.Prelude.{nat_lt, [], false};

    ghost standing = { λ report. record {
      faults = report.faults;
      failed = nat_lt 0 report.faults;
      steady = false;
      tells = false;
      written = [];
    } };

    ghost stands = { λ _ _. ⊥ };

    fn faults(&self) -> u64 {
        self.faults
    }

    fn failed(&self) -> bool {
        self.faults > 0
    }

    fn take(&mut self, _table: &Table, _event: &Event) -> Result<(), Failed> {
        if self.taken >= self.room {
            self.faults = self.faults.saturating_add(1);
            return Err(Failed);
        }
        self.taken = self.taken.saturating_add(1);
        Ok(())
    }
}

// What a fix tells that restores two files of three, by two of the three levels.
const RESTORES: [Event; 8] = [
    Event::Changed {
        disk: 0,
        rec: 0,
        found: None,
    },
    Event::Changed {
        disk: 1,
        rec: 0,
        found: None,
    },
    Event::Parity {
        stripe: 0,
        level: 0,
    },
    Event::Fixed {
        stripe: 0,
        disk: 0,
        rec: 0,
        index: 0,
    },
    Event::Fixed {
        stripe: 0,
        disk: 1,
        rec: 0,
        index: 0,
    },
    Event::FixedParity {
        stripe: 0,
        level: 0,
    },
    Event::Restored { disk: 0, rec: 0 },
    Event::Restored { disk: 1, rec: 0 },
];

const THEIR_LINES: &str = "changed d1:a recorded 10 1.000000005 found nothing
changed d2:a recorded 10 1.000000005 found nothing
wrong-parity 0 parity
fixed 0 d1:a 0
fixed 0 d2:a 0
fixed-parity 0 parity
restored d1:a
restored d2:a
";

// The second report fails at its third event. It is asked for no other, stays in its place, and the others have
// all eight events: they have no room for a ninth.
#[test]
fn a_failed_report_is_passed_over(rt: HostRuntime) -> Result<(), Fail> {
    let alloc = rt.alloc();
    let table = table(alloc)?;
    assert!(rt; table.disks() == 3);
    assert!(rt; table.records(0) == 1);
    assert!(rt; table.records(1) == 1);
    let mut reports: Vec<Box<dyn Report>> = Vec::new(alloc);
    reports.push(Box::new(alloc, Brittle::new(8))?)?;
    reports.push(Box::new(alloc, Brittle::new(2))?)?;
    reports.push(Box::new(alloc, Brittle::new(8))?)?;
    let mut out = MemSink::new(alloc);
    let mut lines = Lines::over(&mut out);
    tell_all(&mut reports, &mut lines, &table, &RESTORES);
    assert!(rt; !lines.failed());
    assert_eq!(rt; str::from_utf8(out.bytes())?, THEIR_LINES);
    assert!(rt; reports.len() == 3);
    assert!(rt; reports[0].faults() == 0 && !reports[0].failed());
    assert!(rt; reports[1].faults() == 1 && reports[1].failed());
    assert!(rt; reports[2].faults() == 0 && !reports[2].failed());
    let mut lines = Lines::over(&mut out);
    tell(
        &mut reports,
        &mut lines,
        &table,
        &Event::Unsynced { stripe: 0 },
    );
    assert!(rt; reports.len() == 3);
    assert!(rt; reports[0].faults() == 1 && reports[1].faults() == 1 && reports[2].faults() == 1);
    Ok(())
}

const THEIR_KINDS: [u64; 14] = [2, 0, 0, 0, 0, 1, 0, 0, 0, 2, 1, 2, 0, 0];

// A tally of these events.
fn tally_of(table: &Table, events: &[Event]) -> TallyReport
    requires { All (λ event. Fits table.now.columns event) events.now }
{
    let mut tally = TallyReport::new();
    for event in events {
        let _ = tally.take(table, event);
    }
    tally
}

// A log of these events, in memory.
pub(super) fn log_of(alloc: Global, table: &Table, events: &[Event]) -> LogReport<MemSink>
    requires { All (λ event. Fits table.now.columns event) events.now }
{
    let mut log = LogReport::new(MemSink::new(alloc));
    for event in events {
        if !log.failed() {
            let _ = log.take(table, event);
        }
    }
    log
}

#[test]
fn a_tally_counts_and_a_log_writes(rt: HostRuntime) -> Result<(), Fail> {
    let alloc = rt.alloc();
    let table = table(alloc)?;
    assert!(rt; table.disks() == 3);
    assert!(rt; table.records(0) == 1);
    assert!(rt; table.records(1) == 1);
    let tally = tally_of(&table, &RESTORES);
    for kind in 0..14u32 {
        assert_eq!(rt; tally.count(kind), THEIR_KINDS[kind as usize]);
    }
    let log = log_of(alloc, &table, &RESTORES);
    assert!(rt; !log.failed());
    assert_eq!(rt; str::from_utf8(log.sink().bytes())?, THEIR_LINES);
    Ok(())
}
