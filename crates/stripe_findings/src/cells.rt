// What is found in one cell.
ghost use Rattle.std.specs.Prelude.{◌≡◌, ◌<◌, ◌&&◌, [], is_some, length, IfSome};
ghost use Rattle.std.specs.Option.{option_to_list};
ghost use Rattle.file_table.specs.Cells.{cell_seen};
ghost use Rattle.file_table.specs.Table.{column_at, record_at};
ghost use Rattle.snap_report.specs.EventFits.{Fits as EventFits};
ghost use Rattle.stripe_findings.specs.Findings.{block_events};
ghost use Rattle.stripe_findings.specs.Reading.{is_seen};

use block_hash::Digest16;
use disk_model::Meta;
use file_table::{Cell, Table};
use snap_report::events::Event;
use stripe_reader::{CellRead, Found, matches_digest};

// Whether the whole block came, so that it has a digest, of a file that is as it was recorded.
fn is_recorded(meta: Meta, seen: Option<Meta>, digest: Option<Digest16>) -> bool
    ensures { result ≡ (is_some digest && is_seen meta seen) }
{
    digest.is_some() && seen == Some(meta)
}

/// What is wrong with the block of a cell, if anything is.
pub fn finding(
    table: &Table,
    stripe: u32,
    d: u32,
    cell: Cell,
    read: CellRead,
    digest: Option<Digest16>,
) -> Option<Event>
    requires column { d < length table.now.columns }
    requires rec { cell.rec < length (column_at table.now.columns d).records }
    requires block { cell.index < length (record_at table.now.columns d cell.rec).blocks }
    ensures value { option_to_list result ≡ block_events stripe d cell (cell_seen (column_at table.now.columns d) cell)
        (record { cell = read; digest = digest; block = [] }) }
    ensures fits { IfSome result (λ event. EventFits table.now.columns event) }
{
    let Cell { rec, index } = cell;
    let recorded = table.blocks(d, rec)[index as usize].hash;
    let is_recorded = is_recorded(table.meta(d, rec), read.seen, digest);
    if is_recorded && matches_digest(recorded, digest) {
        return None;
    }
    if read.found == Found::Unread {
        return Some(Event::Io {
            stripe,
            disk: d,
            rec,
            index,
        });
    }
    if !is_recorded {
        return Some(Event::ChangedBlock {
            stripe,
            disk: d,
            rec,
            index,
            found: read.seen,
            got: read.got,
        });
    }
    match (recorded, digest) {
        (Some(recorded), Some(found)) => Some(Event::Silent {
            stripe,
            disk: d,
            rec,
            index,
            recorded,
            found,
        }),
        _ => None,
    }
}
