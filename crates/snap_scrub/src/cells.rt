// What is found in the cells of a stripe, told.
ghost use Rattle.std.specs.Prelude.{◌<◌, length};
ghost use Rattle.snap_report.specs.Told.{Told};
ghost use Rattle.stripe_findings.specs.Findings.{stripe_events};
ghost use Rattle.stripe_findings.specs.Reading.{reading_at};
ghost use Rattle.stripe_reader.specs.Held.{HoldsStripes};
ghost use Rattle.snap_scrub.specs.Looking.{AreFound};

use crate::found::{both, found_of, nothing};
use crate::verdict::Found;
use disk_model::Sink;
use file_table::Table;
use snap_report::{Lines, Report};
use stripe_findings::tell_cell;
use stripe_reader::Window;

/// Tells what is found in the cells of a stripe of a window, column by column.
pub(crate) fn tell_cells<W: Sink>(
    table: &Table,
    stripes: &[u32],
    window: &Window,
    i: u32,
    lines: &mut Lines<'_, W>,
    reports: &mut Vec<Box<dyn Report>>,
) -> Found
    requires holds { HoldsStripes table.now stripes.now window.now }
    requires stripe { i < length stripes.now }
    ensures told { Told W.view standing stands table.now.columns
        (stripe_events table.now (reading_at stripes.now window.now i))
        lines.old lines.new reports.old.items reports.new.items }
    ensures found { AreFound (stripe_events table.now (reading_at stripes.now window.now i)) result }
{
    let mut found = nothing();
    for d in 0..table.disks() {
        let here = tell_cell(table, stripes, window, i, d, lines, reports);
        found = both(found, found_of(here));
    }
    found
}
