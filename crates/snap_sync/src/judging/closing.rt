// Stripes that are verified, closed in a table.
ghost use Rattle.std.specs.Prelude.{◌≡◌, ℕ, ◌<◌, length, map, slice_set, IfSome};
ghost use Rattle.file_table.specs.Cells.{cell_in, column_closed};
ghost use Rattle.file_table.specs.Table.{column_at, record_at};
ghost use Rattle.snap_sync.specs.Closing.{HasDigests, closed, with_closed};
ghost use Rattle.stripe_reader.specs.Held.{HoldsStripes};
ghost use Rattle.stripe_findings.specs.Reading.{is_verified, reading_at, readings_in};

use block_hash::Digest16;
use file_table::{Cell, Info, Mark, Table};
use stripe_reader::Window;

// Gives a cell of a column a hash, where there are both.
fn hash_cell(table: &mut Table, d: u32, found: Option<Cell>, hash: Option<Digest16>)
    requires column { d < length table.old.columns }
    requires rec { IfSome found (λ cell. cell.rec < length (column_at table.old.columns d).records) }
    requires block { IfSome found (λ cell. cell.index < length (record_at table.old.columns d cell.rec).blocks) }
    ensures { (stripe : ℕ) → found ≡ cell_in (column_at table.old.columns d) stripe → table.new ≡ record table.old {
      columns = slice_set table.old.columns d (column_closed stripe hash (column_at table.old.columns d));
    } }
{
    if let (Some(cell), Some(hash)) = (found, hash) {
        table.set_hash(d, cell.rec, cell.index, hash);
    }
}

// Closes a stripe whose blocks came whole: its cells get the digests of these blocks.
fn close_stripe(table: &mut Table, stripes: &[u32], window: &Window, i: u32, now: u64)
    requires holds { HoldsStripes table.old stripes.now window.now }
    requires stripe { i < length stripes.now }
    requires digests { HasDigests table.old (reading_at stripes.now window.now i) }
    ensures { table.new ≡ with_closed now (reading_at stripes.now window.now i) table.old }
{
    for d in 0..table.disks() {
        hash_cell(table, d, window.table_cell(i, d), window.digest(i, d));
    }
    let info = Info {
        mark: Mark::Synced,
        last: now,
        bad: false,
        fresh: true,
    };
    table.set_info(stripes[i as usize], info);
}

/// Closes the chosen stripes of a window.
pub(crate) fn close_chosen(
    table: &mut Table,
    stripes: &[u32],
    window: &Window,
    chosen: &[bool],
    now: u64,
)
    requires holds { HoldsStripes table.old stripes.now window.now }
    requires chosen { chosen.now ≡ map (is_verified table.old) (readings_in stripes.now window.now) }
    ensures { table.new ≡ closed now table.old (readings_in stripes.now window.now) }
{
    for i in 0..window.count() {
        if chosen[i as usize] {
            close_stripe(table, stripes, window, i, now);
        }
    }
}
