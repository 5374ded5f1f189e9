// What is found in a cell of a window, told.
ghost use Rattle.std.specs.Prelude.{◌≡◌, ◌<◌, length};
ghost use Rattle.std.specs.Option.{option_to_list};
ghost use Rattle.snap_report.specs.Told.{Told};
ghost use Rattle.stripe_findings.specs.Findings.{events_at};
ghost use Rattle.stripe_findings.specs.Reading.{reading_at};
ghost use Rattle.stripe_reader.specs.Held.{HoldsStripes};

use crate::cells::finding;
use disk_model::Sink;
use file_table::Table;
use snap_report::events::Event;
use snap_report::{Lines, Report, tell};
use stripe_reader::Window;

/// Tells what is found in the cell of a column at a stripe of a window, if anything is, and answers it.
pub fn tell_cell<W: Sink>(
    table: &Table,
    stripes: &[u32],
    window: &Window,
    i: u32,
    d: u32,
    lines: &mut Lines<'_, W>,
    reports: &mut Vec<Box<dyn Report>>,
) -> Option<Event>
    requires holds { HoldsStripes table.now stripes.now window.now }
    requires stripe { i < length stripes.now }
    requires column { d < length table.now.columns }
    ensures value { option_to_list result ≡ events_at table.now (reading_at stripes.now window.now i) d }
    ensures told { Told W.view standing stands table.now.columns
        (events_at table.now (reading_at stripes.now window.now i) d)
        lines.old lines.new reports.old.items reports.new.items }
{
    let stripe = stripes[i as usize];
    let Some(cell) = window.table_cell(i, d) else {
        return None;
    };
    match finding(
        table,
        stripe,
        d,
        cell,
        window.cell(i, d),
        window.digest(i, d),
    ) {
        None => None,
        Some(event) => {
            tell(reports, lines, table, &event);
            Some(event)
        }
    }
}
