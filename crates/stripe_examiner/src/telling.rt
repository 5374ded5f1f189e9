// What is found, told.
ghost use Rattle.std.specs.Prelude.{◌≡◌, ◌<◌, length, IfSome};
ghost use Rattle.std.specs.Option.{option_to_list};
ghost use Rattle.file_table.specs.Table.{column_at};
ghost use Rattle.snap_report.specs.EventFits.{Fits as EventFits};
ghost use Rattle.snap_report.specs.Told.{Told};
ghost use Rattle.stripe_examiner.specs.Counts.{AreCounts};
ghost use Rattle.repair_scope.specs.Plan.{EntriesFit, entry_in};

mod cells;
mod levels;
mod opening;
mod stripe;

use crate::counts::Counts;
pub use cells::{cell_finding, tell_lost, tell_unsynced};
use disk_model::Sink;
use file_table::Table;
pub use levels::{tell_unread_levels, tell_wrong_levels};
pub use opening::tell_opening;
use repair_scope::{Entry, Plan};
use snap_report::events::Event;
use snap_report::{Lines, Report, tell};
pub use stripe::tell_stripe;

// Tells a finding, if there is one.
pub fn tell_found<W: Sink>(
    table: &Table,
    found: Option<Event>,
    lines: &mut Lines<'_, W>,
    reports: &mut Vec<Box<dyn Report>>,
) -> Counts
    requires { IfSome found (λ event. EventFits table.now.columns event) }
    ensures told { Told W.view standing stands table.now.columns (option_to_list found)
        lines.old lines.new reports.old.items reports.new.items }
    ensures counts { AreCounts (option_to_list found) result }
{
    let Some(event) = found else {
        return Counts::NONE;
    };
    tell(reports, lines, table, &event);
    Counts {
        found: u64::from(event.is_finding()),
        left: u64::from(event.is_left()),
    }
}

// What is known of the file of a record.
fn entry_of(plan: &Plan<'_>, d: u32, i: u32) -> Entry
    requires entries { EntriesFit plan.now.table.now plan.now.entries.now }
    requires column { d < length plan.now.table.now.columns }
    requires rec { i < length (column_at plan.now.table.now.columns d).records }
    ensures { result ≡ entry_in plan.now.entries.now d i }
{
    plan.entries.at(d, i)
}
