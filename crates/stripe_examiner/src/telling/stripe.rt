// What is found in a stripe of a window that was examined, told.
ghost use Rattle.std.specs.Prelude.{◌≡◌, ◌<◌, ℕ, All, length, IfSome};
ghost use Rattle.snap_report.specs.EventFits.{Fits as EventFits};
ghost use Rattle.snap_report.specs.Told.{Told};
ghost use Rattle.stripe_reader.specs.WindowValue.{WindowValue};
ghost use Rattle.stripe_examiner.specs.Counts.{AreCounts};
ghost use Rattle.stripe_examiner.specs.Facts.{StripeFacts};
ghost use Rattle.stripe_examiner.specs.Findings.{stripe_events};
ghost use Rattle.repair_scope.specs.Plan.{seen};
ghost use Rattle.stripe_examiner.specs.Shown.{CanTell, ShowsStripe, found_at, noted_events, level_events_shown};

use super::{tell_found, tell_lost, tell_unread_levels, tell_unsynced, tell_wrong_levels};
use crate::counts::Counts;
use crate::knowing::see_levels;
use crate::room::StripeRoom;
use disk_model::Sink;
use file_table::Table;
use repair_scope::{Plan, is_searched};
use snap_report::events::Event;
use snap_report::{Lines, Report};

// Tells what was noted of the cells of a stripe, column by column.
fn tell_noted<W: Sink>(
    table: &Table,
    found: &[Option<Event>],
    lines: &mut Lines<'_, W>,
    reports: &mut Vec<Box<dyn Report>>,
) -> Counts
    requires count { length found.now ≡ length table.now.columns }
    requires fits { (d : ℕ) → d < length table.now.columns →
        IfSome (found_at found.now d) (EventFits table.now.columns) }
    ensures told { Told W.view standing stands table.now.columns (noted_events found.now (length table.now.columns))
        lines.old lines.new reports.old.items reports.new.items }
    ensures counts { AreCounts (noted_events found.now (length table.now.columns)) result }
{
    let mut counts = Counts::NONE;
    for d in 0..table.disks() {
        counts = counts.and(tell_found(table, found[d as usize], lines, reports));
    }
    counts
}

// Tells what is found in the levels of a stripe, where they were read.
fn tell_levels<W: Sink>(
    plan: &Plan<'_>,
    stripe: u32,
    own: &StripeRoom,
    lines: &mut Lines<'_, W>,
    reports: &mut Vec<Box<dyn Report>>,
) -> Counts
    requires can { CanTell (seen plan.now) stripe own.now }
    ensures told { Told W.view standing stands plan.now.table.now.columns
        (level_events_shown (seen plan.now) stripe own.now)
        lines.old lines.new reports.old.items reports.new.items }
    ensures counts { AreCounts (level_events_shown (seen plan.now) stripe own.now) result }
{
    if !is_searched(plan, stripe) {
        return Counts::NONE;
    }
    see_levels(&own.levels, plan.table.shape().levels);
    let unread = tell_unread_levels(plan, stripe, &own.levels, lines, reports);
    let wrong = tell_wrong_levels(plan.table, stripe, &own.wrong, lines, reports);
    unread.and(wrong)
}

/// Tells what is found in a stripe, by what its room shows.
pub fn tell_stripe<W: Sink>(
    plan: &Plan<'_>,
    stripe: u32,
    own: &StripeRoom,
    lines: &mut Lines<'_, W>,
    reports: &mut Vec<Box<dyn Report>>,
) -> Counts
    requires { CanTell (seen plan.now) stripe own.now }
    ensures told { (facts : StripeFacts) (i : ℕ) (window : WindowValue) →
        ShowsStripe (seen plan.now) facts i window own.now → facts.stripe ≡ stripe →
        Told W.view standing stands plan.now.table.now.columns (stripe_events (seen plan.now) facts)
        lines.old lines.new reports.old.items reports.new.items }
    ensures counts { (facts : StripeFacts) (i : ℕ) (window : WindowValue) →
        ShowsStripe (seen plan.now) facts i window own.now → facts.stripe ≡ stripe →
        AreCounts (stripe_events (seen plan.now) facts) result }
{
    let unsynced = tell_unsynced(plan, stripe, lines, reports);
    let noted = tell_noted(plan.table, &own.found, lines, reports);
    let levels = tell_levels(plan, stripe, own, lines, reports);
    let lost = tell_lost(plan, stripe, &own.marks, own.known, lines, reports);
    unsynced.and(noted.and(levels.and(lost)))
}
