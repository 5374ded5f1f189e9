// What is found in a stripe, told.
ghost use Rattle.std.specs.Prelude.{◌≡◌, ◌<◌, length};
ghost use Rattle.std.specs.Option.{option_to_list};
ghost use Rattle.snap_report.specs.Told.{Told};
ghost use Rattle.stripe_findings.specs.Findings.{stripe_events};
ghost use Rattle.stripe_findings.specs.Reading.{reading_at};
ghost use Rattle.stripe_reader.specs.Held.{HoldsStripes};

use disk_model::Sink;
use file_table::Table;
use snap_report::events::Event;
use snap_report::{Lines, Report};
use stripe_findings::tell_cell;
use stripe_reader::Window;

// How many findings are in one place.
fn count_of(found: Option<Event>) -> u32
    ensures value { result ≡ length (option_to_list found) }
    ensures most { result < 2 }
{
    match found {
        None => 0,
        Some(_) => 1,
    }
}

/// Tells what is found in a stripe of a window, column by column, and how many findings that are.
pub(super) fn tell_stripe<W: Sink>(
    table: &Table,
    stripes: &[u32],
    window: &Window,
    i: u32,
    lines: &mut Lines<'_, W>,
    reports: &mut Vec<Box<dyn Report>>,
) -> u32
    requires holds { HoldsStripes table.now stripes.now window.now }
    requires stripe { i < length stripes.now }
    ensures told { Told W.view standing stands table.now.columns
        (stripe_events table.now (reading_at stripes.now window.now i))
        lines.old lines.new reports.old.items reports.new.items }
    ensures count { result ≡ length (stripe_events table.now (reading_at stripes.now window.now i)) }
{
    let mut count = 0;
    for d in 0..table.disks() {
        count += count_of(tell_cell(table, stripes, window, i, d, lines, reports));
    }
    count
}
