// What is found in the levels of a stripe, told.
ghost use Rattle.std.specs.Prelude.{◌≡◌, ◌<◌, ◌≤◌, List, length, take, IfSome};
ghost use Rattle.std.specs.Option.{option_to_list};
ghost use Rattle.file_table.specs.Table.{Column};
ghost use Rattle.parity_writer.specs.LevelsValue.{level_at};
ghost use Rattle.snap_report.specs.EventFits.{Fits as EventFits};
ghost use Rattle.snap_report.specs.Told.{Told};
ghost use Rattle.stripe_examiner.specs.Counts.{AreCounts};
ghost use Rattle.stripe_examiner.specs.Findings.{all_level_io_events, level_io_events};
ghost use Rattle.stripe_examiner.specs.Judging.{flagged_event, flagged_events};
ghost use Rattle.repair_scope.specs.Plan.{EntriesFit, seen};

use super::tell_found;
use crate::counts::Counts;
use disk_model::Sink;
use file_table::Table;
use parity_writer::{LevelRead, Levels};
use repair_scope::{Plan, selects_level};
use snap_report::events::Event;
use snap_report::{Lines, Report};

// That a selected level could not be read.
fn unread(plan: &Plan<'_>, stripe: u32, levels: &Levels, r: u32) -> Option<Event>
    requires within { stripe < length plan.now.table.now.infos }
    requires level { r < levels.now.count }
    requires most { r < 6 }
    ensures value { option_to_list result
        ≡ level_io_events (seen plan.now) stripe (level_at levels.now r) r }
    ensures fits { IfSome result (λ event. EventFits plan.now.table.now.columns event) }
{
    if selects_level(plan, stripe, r) && levels.state(r) == LevelRead::Unread {
        Some(Event::ParityIo { stripe, level: r })
    } else {
        None
    }
}

/// Tells which of the selected levels could not be read.
pub fn tell_unread_levels<W: Sink>(
    plan: &Plan<'_>,
    stripe: u32,
    levels: &Levels,
    lines: &mut Lines<'_, W>,
    reports: &mut Vec<Box<dyn Report>>,
) -> Counts
    requires entries { EntriesFit plan.now.table.now plan.now.entries.now }
    requires within { stripe < length plan.now.table.now.infos }
    requires count { levels.now.count ≡ plan.now.table.now.shape.levels }
    requires room { levels.now.count ≤ length levels.now.levels }
    ensures told { Told W.view standing stands plan.now.table.now.columns
        (all_level_io_events (seen plan.now) stripe (take levels.now.count levels.now.levels))
        lines.old lines.new reports.old.items reports.new.items }
    ensures counts { AreCounts (all_level_io_events (seen plan.now) stripe
        (take levels.now.count levels.now.levels)) result }
{
    let mut counts = Counts::NONE;
    for r in 0..plan.table.shape().levels {
        let found = unread(plan, stripe, levels, r);
        counts = counts.and(tell_found(plan.table, found, lines, reports));
    }
    counts
}

// That a level with a flag is wrong.
fn wrong(stripe: u32, flags: &[bool; 6], r: u32) -> Option<Event>
    requires most { r < 6 }
    ensures value { option_to_list result ≡ flagged_event stripe flags.now r }
    ensures fits { (columns : List Column) → IfSome result (EventFits columns) }
{
    if flags[r as usize] {
        Some(Event::Parity { stripe, level: r })
    } else {
        None
    }
}

/// Tells which levels are wrong, by their flags.
pub fn tell_wrong_levels<W: Sink>(
    table: &Table,
    stripe: u32,
    flags: &[bool; 6],
    lines: &mut Lines<'_, W>,
    reports: &mut Vec<Box<dyn Report>>,
) -> Counts
    ensures told { Told W.view standing stands table.now.columns
        (flagged_events stripe flags.now table.now.shape.levels)
        lines.old lines.new reports.old.items reports.new.items }
    ensures counts { AreCounts (flagged_events stripe flags.now table.now.shape.levels) result }
{
    let mut counts = Counts::NONE;
    for r in 0..table.shape().levels {
        let found = wrong(stripe, flags, r);
        counts = counts.and(tell_found(table, found, lines, reports));
    }
    counts
}
