// The row of a stripe, as far as it can be known: by its cells, by the spare, and by its levels.
ghost use Rattle.std.specs.Prelude.{◌≡◌, ◌<◌, ◌≤◌, MatchOption, is_some, length, slice_set, take, true};
ghost use Rattle.file_table.specs.Cells.{cell_view};
ghost use Rattle.file_table.specs.Table.{column_at, info_at};
ghost use Rattle.file_table.specs.declared.info.Mark.TheVariants.{Synced};
ghost use Rattle.file_table.specs.Valid.{IsValid};
ghost use Rattle.parity_writer.specs.WindowRow.{row_at};
ghost use Rattle.stripe_examiner.specs.Facts.{wanted_by};
ghost use Rattle.stripe_examiner.specs.Known.{whole_levels as whole_levels_of};
ghost use Rattle.stripe_examiner.specs.Restorable.{filled};
ghost use Rattle.stripe_examiner.specs.Knowing.{CanPutFound, HaveCells, KeepsOtherColumns};
ghost use Rattle.stripe_examiner.specs.MarkedCell.{ChangesSlot};
ghost use Rattle.stripe_examiner.specs.Marks.{ChangesStripe, wanted_marked, is_marked_missing};
ghost use Rattle.repair_scope.specs.Plan.{is_synced};
ghost use Rattle.stripe_examiner.specs.Surveyed.{plan_in};

use crate::marking::{ColumnMark, SlotMark, cell_hash, cell_length};
use crate::remainders::is_whole;
use crate::search::Wanted;
use crate::survey::Survey;
use arrayvec::ArrayVec;
use block_hash::Digest16;
use file_table::Table;
use parity_writer::Levels;
use parity_writer::laws::a_put_block_stands_in_its_row;
use stripe_reader::Window;

impl Default for Wanted {
    // What stands in the free places of a list of them.
    fn default() -> Wanted {
        Wanted {
            column: 0,
            length: 0,
            hash: Digest16([0; 16]),
        }
    }
}

// Whether the block of a column is missing.
fn is_missing(mark: ColumnMark) -> bool
    ensures { result ≡ is_marked_missing mark }
{
    mark == ColumnMark::Missing
}

// The block of the cell of a column, as it is searched for. In a synced stripe each block has its
// hash.
fn wanted_cell(table: &Table, stripe: u32, d: u32) -> Wanted
    requires valid { IsValid table.now }
    requires within { stripe < length table.now.infos }
    requires column { d < length table.now.columns }
    requires synced { (info_at table.now.infos stripe).mark ≡ Synced }
    requires cell { is_some (cell_view (column_at table.now.columns d) stripe) ≡ true }
    ensures value { result
        ≡ wanted_by table.now.shape d (cell_view (column_at table.now.columns d) stripe) }
    ensures most { result.length ≤ table.now.shape.block_size }
{
    let Some(cell) = table.cell(stripe, d) else {
        unreachable!()
    };
    let Some(hash) = cell_hash(table, d, cell) else {
        unreachable!()
    };
    Wanted {
        column: d,
        length: cell_length(table, d, cell),
        hash,
    }
}

/// The blocks that are searched for, where there are at most six.
pub fn wanted_blocks(
    survey: &Survey<'_>,
    stripe: u32,
    marks: &[SlotMark],
) -> Option<ArrayVec<Wanted, 6>>
    requires within { stripe < length survey.now.plan.table.now.infos }
    requires marks { length marks.now ≡ length survey.now.plan.table.now.columns }
    requires synced { is_synced (plan_in survey.now) stripe ≡ true }
    requires cells { HaveCells (plan_in survey.now) stripe marks.now }
    ensures value { MatchOption result
        (6 < length (wanted_marked (plan_in survey.now) stripe marks.now))
        (λ wanted. wanted.items
        ≡ wanted_marked (plan_in survey.now) stripe marks.now) }
{
    let table = survey.plan.table;
    let mut wanted = ArrayVec::new();
    for d in 0..table.disks() {
        if is_missing(marks[d as usize].column) {
            if wanted.is_full() {
                return None;
            }
            wanted.push(wanted_cell(table, stripe, d));
        }
    }
    Some(wanted)
}

/// There is a place for each level that was read last, since its block is not empty.
pub fn see_levels(levels: &Levels, count: u32)
    requires count { count ≡ levels.now.count }
    requires size { 0 < levels.now.block_size }
    ensures { count ≤ length levels.now.levels }
{
    if count > 0 {
        let _last = levels.block(count - 1);
    }
}

/// The levels that were read whole, of so many.
pub fn whole_levels(levels: &Levels, count: u32) -> ArrayVec<u32, 6>
    requires count { count ≡ levels.now.count }
    requires room { count ≤ length levels.now.levels }
    requires most { count ≤ 6 }
    ensures { result.items ≡ whole_levels_of (take levels.now.count levels.now.levels) }
{
    let mut whole = ArrayVec::new();
    for r in 0..count {
        if is_whole(levels.state(r)) {
            whole.push(r);
        }
    }
    whole
}

// Puts the bytes of a block into a column of a stripe of the window.
fn put_block(window: &mut Window, i: u32, d: u32, bytes: &[u8])
    requires stripe { i < window.old.count }
    requires column { d < length window.old.lanes }
    requires size { length bytes.now ≤ window.old.block_size }
    ensures row { row_at window.new i ≡ slice_set (row_at window.old i) d bytes.now }
    ensures changes { ChangesSlot i d window.old window.new }
{
    a_put_block_stands_in_its_row();
    window.put(i, d, bytes);
}

/// Puts the blocks that were found into a stripe of the window, each at its real length.
pub fn put_found(window: &mut Window, i: u32, size: usize, wanted: &[Wanted], blocks: &[u8])
    requires stripe { i < window.old.count }
    requires can { CanPutFound size wanted.now blocks.now window.old }
    ensures row { row_at window.new i ≡ filled size blocks.now wanted.now (row_at window.old i) }
    ensures changes { ChangesStripe i window.old window.new }
    ensures others { KeepsOtherColumns i wanted.now window.old window.new }
{
    for j in 0..wanted.len() {
        let one = wanted[j];
        let start = j * size;
        put_block(
            window,
            i,
            one.column,
            &blocks[start..start + one.length as usize],
        );
    }
}
