// Events counted by kind.
ghost use Rattle.std.specs.Prelude.{◌≡◌, ◌<◌, ◌-◌, ◌^◌, [], false, true, min, slice_index, IsOk};
ghost use Rattle.snap_report.specs.EventFits.{Fits};
ghost use Rattle.snap_report.specs.Kind.{Counts};
ghost use Rattle.snap_report.specs.Report.{IsTake};

use crate::Report;
use crate::events::Event;
use disk_model::Failed;
use file_table::Table;

/// Counts events by kind. It stands for each list of events with these counts; a count stays at the greatest
/// u64 once there.
#[derive(Drop)]
pub struct TallyReport {
    counts: [u64; 14],
}

impl TallyReport {
    pub fn new() -> TallyReport
        ensures { Counts result.counts [] }
    {
        TallyReport { counts: [0; 14] }
    }

    /// How many events of a kind came.
    pub fn count(&self, kind: u32) -> u64
        requires { kind < 14 }
        ensures { result ≡ slice_index self.now.counts kind }
    {
        self.counts[kind as usize]
    }
}

impl Report for TallyReport {
    ghost standing = { λ _. record { faults = 0; failed = false; steady = true; tells = false; written = [] } };

    ghost stands = { λ report. Counts report.counts };

    fn faults(&self) -> u64 {
        0
    }

    fn failed(&self) -> bool {
        false
    }

    fn take(&mut self, _table: &Table, event: &Event) -> Result<(), Failed> {
        let kind = event.kind();
        self.counts[kind] = self.counts[kind].saturating_add(1);
        Ok(())
    }
}
