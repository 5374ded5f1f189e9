// What is found in the levels of a stripe whose cells are all right, told.
ghost use Rattle.std.specs.Prelude.{◌≡◌, ◌*◌, ◌<◌, ◌≤◌, IfSome, List, length};
ghost use Rattle.std.specs.Option.{option_to_list};
ghost use Rattle.cauchy.specs.Matrix.{parity_of as level_of};
ghost use Rattle.file_table.specs.Table.{Column};
ghost use Rattle.parity_writer.specs.LevelsValue.{level_at};
ghost use Rattle.parity_writer.specs.Parity.{Row};
ghost use Rattle.snap_report.specs.EventFits.{Fits as EventFits};
ghost use Rattle.snap_report.specs.Told.{Told};
ghost use Rattle.parity_writer.specs.Summing.{HoldSums};
ghost use Rattle.snap_scrub.specs.Levels.{kept_event, kept_events_at, kept_events};
ghost use Rattle.snap_scrub.specs.Looking.{AreFound};

use crate::found::{both, nothing, one};
use crate::verdict::Found;
use disk_model::Sink;
use file_table::Table;
use parity_writer::{LevelRead, Levels};
use snap_report::events::Event;
use snap_report::{Lines, Report, tell};

// What is wrong with a level of a stripe, if anything is: it has to be this sum.
fn level_finding(levels: &Levels, stripe: u32, r: u32, sum: &[u8]) -> Option<Event>
    requires most { r < 6 }
    requires level { r < levels.now.count }
    ensures value { (row : Row) → sum.now ≡ level_of r levels.now.block_size row →
        option_to_list result ≡ kept_event levels.now.block_size stripe r row
        (level_at levels.now r).state (level_at levels.now r).block }
    ensures fits { (columns : List Column) → IfSome result (λ event. EventFits columns event) }
{
    match levels.state(r) {
        LevelRead::Unread => Some(Event::ParityIo { stripe, level: r }),
        LevelRead::Short => Some(Event::Parity { stripe, level: r }),
        LevelRead::Bytes => {
            if levels.block(r) == sum {
                None
            } else {
                Some(Event::Parity { stripe, level: r })
            }
        }
    }
}

// Tells what is found in a level of a stripe, which has to be this sum.
fn tell_level<W: Sink>(
    table: &Table,
    levels: &Levels,
    stripe: u32,
    r: u32,
    sum: &[u8],
    lines: &mut Lines<'_, W>,
    reports: &mut Vec<Box<dyn Report>>,
) -> Found
    requires most { r < 6 }
    requires level { r < levels.now.count }
    ensures told { (row : Row) → sum.now ≡ level_of r levels.now.block_size row →
        Told W.view standing stands table.now.columns
        (kept_events_at levels.now.block_size stripe row levels.now r)
        lines.old lines.new reports.old.items reports.new.items }
    ensures found { (row : Row) → sum.now ≡ level_of r levels.now.block_size row →
        AreFound (kept_events_at levels.now.block_size stripe row levels.now r) result }
    ensures few { result.count ≤ 1 }
{
    match level_finding(levels, stripe, r, sum) {
        None => nothing(),
        Some(event) => {
            tell(reports, lines, table, &event);
            one(&event)
        }
    }
}

/// Tells what is found in the levels of a stripe, which were read, level by level: they have to be these sums of its row.
pub(crate) fn tell_levels<W: Sink>(
    table: &Table,
    levels: &Levels,
    stripe: u32,
    sums: &[u8],
    lines: &mut Lines<'_, W>,
    reports: &mut Vec<Box<dyn Report>>,
) -> Found
    requires count { levels.now.count ≡ table.now.shape.levels }
    requires sums { length sums.now ≡ 6 * levels.now.block_size }
    ensures told { (row : Row) → HoldSums levels.now.block_size row table.now.shape.levels sums.now →
        Told W.view standing stands table.now.columns
        (kept_events levels.now.block_size stripe row levels.now table.now.shape.levels)
        lines.old lines.new reports.old.items reports.new.items }
    ensures found { (row : Row) → HoldSums levels.now.block_size row table.now.shape.levels sums.now →
        AreFound (kept_events levels.now.block_size stripe row levels.now table.now.shape.levels) result }
{
    let mut found = nothing();
    let size = sums.len() / 6;
    for r in 0..table.shape().levels {
        let start = r as usize * size;
        let sum = &sums[start..start + size];
        let here = tell_level(table, levels, stripe, r, sum, lines, reports);
        found = both(found, here);
    }
    found
}
