// A window that was hashed: what is found in it, and which of its stripes are verified.
ghost use Rattle.std.specs.Prelude.{◌≡◌, ◌<◌, ◌+◌, ◌^◌, ◌==◌, if◌then◌else◌, length, map};
ghost use Rattle.snap_report.specs.Told.{Told};
ghost use Rattle.stripe_findings.specs.Findings.{events_of};
ghost use Rattle.stripe_findings.specs.Reading.{readings_in, is_verified};
ghost use Rattle.snap_sync.specs.Run.{AreCounts};
ghost use Rattle.stripe_reader.specs.Held.{HoldsStripes};
ghost use Rattle.snap_sync.specs.Work.{more_findings};

mod closing;
mod telling;

pub(crate) use closing::close_chosen;
use disk_model::Sink;
use file_table::Table;
use snap_report::{Lines, Report};
use stripe_reader::Window;
use telling::tell_stripe;

/// How many stripes are verified, and how many findings were told.
#[derive(Clone, Copy)]
pub(crate) struct Counts {
    pub synced: u32,
    /// It stays at the greatest u64.
    pub findings: u64,
}

impl Counts {
    // With one stripe more, in which so much was found.
    fn with(self, found: u32) -> Counts
        requires few { self.synced + 1 < 2 ^ 32 }
        ensures synced { result.synced ≡ self.synced + (if found == 0 then 1 else 0) }
        ensures findings { result.findings ≡ more_findings self.findings found }
    {
        let synced = if found == 0 {
            self.synced + 1
        } else {
            self.synced
        };
        Counts {
            synced,
            findings: self.findings.saturating_add(u64::from(found)),
        }
    }
}

/// Tells what is found in the stripes of a window, and chooses those in which nothing is: they are verified.
pub(crate) fn look_over<W: Sink>(
    table: &Table,
    stripes: &[u32],
    window: &Window,
    chosen: &mut [bool],
    lines: &mut Lines<'_, W>,
    reports: &mut Vec<Box<dyn Report>>,
) -> Counts
    requires holds { HoldsStripes table.now stripes.now window.now }
    requires chosen { length chosen.old ≡ length stripes.now }
    ensures chosen { chosen.new ≡ map (is_verified table.now) (readings_in stripes.now window.now) }
    ensures told { Told W.view standing stands table.now.columns
        (events_of table.now (readings_in stripes.now window.now))
        lines.old lines.new reports.old.items reports.new.items }
    ensures counts { AreCounts table.now (readings_in stripes.now window.now) result }
{
    let mut counts = Counts {
        synced: 0,
        findings: 0,
    };
    for i in 0..window.count() {
        let found = tell_stripe(table, stripes, window, i, lines, reports);
        chosen[i as usize] = found == 0;
        counts = counts.with(found);
    }
    counts
}
