// What is found in the cells of a stripe, which of them are damaged, and what the spare gives of these.
ghost use Rattle.std.specs.Prelude.{◌≡◌, ◌<◌, ◌≤◌, ◌&&◌, ℕ, Some, IsTrue, is_some, length, true};
ghost use Rattle.block_hash.specs.Hash.{hash as hash_of};
ghost use Rattle.file_table.specs.Cells.{cell_seen};
ghost use Rattle.file_table.specs.Table.{column_at, record_at};
ghost use Rattle.parity_writer.specs.Sound.{real_length};
ghost use Rattle.stripe_reader.specs.WindowValue.{slot_at};
ghost use Rattle.stripe_examiner.specs.AskedCell.{AsksBlock, AsksCell, AsksMarked, is_marked_given};
ghost use Rattle.stripe_examiner.specs.Facts.{hash_or_none, is_damaged as is_damaged_by, is_sought as is_sought_at};
ghost use Rattle.stripe_examiner.specs.MarkedCell.{CanMarkCell, CanPut, ChangesSlot, IsCellAt, ShowsAnswer};
ghost use Rattle.stripe_examiner.specs.Marks.{CanExamine, IsMarked, MarksCells, mark_of_cell};
ghost use Rattle.repair_scope.specs.Plan.{seen, seen_in};
ghost use Rattle.stripe_examiner.specs.Showing.{is_damaged_mark, is_known_mark, is_unknown_mark};
ghost use Rattle.stripe_examiner.specs.Shown.{IsFound, found_at};
ghost use Rattle.stripe_examiner.specs.Spare.{IsSpareFor, holds_block};
ghost use Rattle.stripe_examiner.specs.Surveyed.{plan_in};

use crate::spare::Spare;
use crate::survey::Survey;
use crate::telling::cell_finding;
use block_hash::{Digest16, digest};
use file_table::{Cell, Shape, Table};
use repair_scope::{Plan, is_searched, is_synced};
use snap_report::events::Event;
use stripe_reader::{Window, matches_digest};

/// What became of a column in the row that is searched for.
#[derive(Clone, Copy, Debug, PartialEq, Eq)]
pub enum ColumnMark {
    /// Its block came, or it has none.
    Right,
    /// Its block did not come, and the spare gave it.
    Given,
    /// Its block did not come.
    Missing,
}

/// What became of the cell of a column.
#[derive(Clone, Copy, Debug, PartialEq, Eq)]
pub enum CellMark {
    /// It is not damaged, or the column has none.
    Whole,
    /// It is damaged, and the row that is searched for has its block.
    Sought,
    /// It is damaged, and no such row has its block.
    Damaged,
}

/// What became of a column and of its cell.
#[derive(Clone, Copy, Debug, PartialEq, Eq)]
pub struct SlotMark {
    pub column: ColumnMark,
    pub cell: CellMark,
}

impl SlotMark {
    /// Nothing is damaged.
    pub const RIGHT: SlotMark = SlotMark {
        column: ColumnMark::Right,
        cell: CellMark::Whole,
    };

    /// Whether the block of a damaged cell is known, by whether its stripe is synced, and by whether the row is known. What the spare
    /// gave counts in a synced stripe alone.
    pub fn is_known(self, synced: bool, known: bool) -> bool
        ensures { result ≡ is_known_mark synced self known }
    {
        self.cell == CellMark::Sought && (known || (synced && self.column == ColumnMark::Given))
    }

    /// Whether a cell is damaged, and its block not known.
    pub fn is_unknown(self, synced: bool, known: bool) -> bool
        ensures { result ≡ is_unknown_mark synced self known }
    {
        is_damaged_cell(self.cell) && !self.is_known(synced, known)
    }
}

// Whether a cell is damaged, by its mark.
fn is_damaged_cell(mark: CellMark) -> bool
    ensures { result ≡ is_damaged_mark mark }
{
    !matches!(mark, CellMark::Whole)
}

/// The real length of the block of a cell.
pub fn cell_length(table: &Table, d: u32, cell: Cell) -> u32
    requires column { d < length table.now.columns }
    requires rec { cell.rec < length (column_at table.now.columns d).records }
    ensures value { result
        ≡ real_length table.now.shape (cell_seen (column_at table.now.columns d) cell) }
    ensures most { result ≤ table.now.shape.block_size }
{
    let block_size = u64::from(table.shape().block_size);
    let before = u64::from(cell.index) * block_size;
    let left = table.meta(d, cell.rec).size.saturating_sub(before);
    left.min(block_size) as u32
}

/// The recorded hash of the block of a cell.
pub fn cell_hash(table: &Table, d: u32, cell: Cell) -> Option<Digest16>
    requires column { d < length table.now.columns }
    requires rec { cell.rec < length (column_at table.now.columns d).records }
    requires block { cell.index < length (record_at table.now.columns d cell.rec).blocks }
    ensures { result ≡ (cell_seen (column_at table.now.columns d) cell).hash }
{
    table.blocks(d, cell.rec)[cell.index as usize].hash
}

// Whether the spare gave the block of this hash, which is not taken on its word.
fn ask<P: Spare>(spare: &mut P, shape: Shape, hash: Digest16, out: &mut [u8]) -> bool
    requires size { length out.old ≤ 4194304 }
    requires spare { IsSpareFor shape (P.holding spare.old) }
    ensures size { length out.new ≡ length out.old }
    ensures given { IsTrue result → hash ≡ record { 0 = hash_of shape.kind shape.seed out.new } }
    ensures asks { AsksBlock true (holds_block (P.holding spare.old) hash.0 (length out.old)) result
        (P.holding spare.old) (P.holding spare.new) }
{
    match spare.block(hash, out) {
        Ok(held) => held && digest(shape.kind, &shape.seed, out) == hash,
        Err(_) => false,
    }
}

// Marks a damaged cell. The spare is asked for its block where that has a hash and is searched for.
fn mark_damaged<P: Spare>(
    asked: Option<Digest16>,
    shape: Shape,
    i: u32,
    d: u32,
    window: &mut Window,
    spare: &mut P,
    block: &mut [u8],
) -> ColumnMark
    requires can { CanPut i d (length block.old) window.old }
    requires spare { IsSpareFor shape (P.holding spare.old) }
    ensures block { length block.new ≡ length block.old }
    ensures mark { ShowsAnswer asked shape window.old.block_size (length block.old)
        (slot_at window.old i d) result (slot_at window.new i d) }
    ensures changes { ChangesSlot i d window.old window.new }
    ensures asks { AsksBlock (is_some asked)
        (holds_block (P.holding spare.old) (hash_or_none asked).0 (length block.old))
        (is_marked_given result) (P.holding spare.old) (P.holding spare.new) }
{
    if let Some(hash) = asked {
        if ask(spare, shape, hash, block) {
            window.put(i, d, block);
            return ColumnMark::Given;
        }
    }
    window.put(i, d, &[]);
    ColumnMark::Missing
}

// Whether the row that is searched for at a stripe has the blocks of its cells.
fn is_sought(plan: &Plan<'_>, stripe: u32) -> bool
    requires { stripe < length plan.now.table.now.infos }
    ensures { (d : ℕ) → result ≡ is_sought_at (seen plan.now) stripe d }
{
    is_synced(plan, stripe)
}

// The mark of a cell.
fn mark_cell(damaged: bool, sought: bool) -> CellMark
    ensures { result ≡ mark_of_cell damaged sought }
{
    match (damaged, sought) {
        (false, _) => CellMark::Whole,
        (true, true) => CellMark::Sought,
        (true, false) => CellMark::Damaged,
    }
}

// Whether this cell of a column is damaged.
fn is_damaged(table: &Table, stripe: u32, i: u32, d: u32, cell: Cell, window: &Window) -> bool
    requires can { CanMarkCell table.now stripe i d window.now }
    requires cell { IsCellAt table.now stripe d cell }
    ensures { result ≡ is_damaged_by table.now.shape.kind (seen_in table.now stripe d) (slot_at window.now i d) }
{
    let recorded = cell_hash(table, d, cell);
    let came = window.digest(i, d);
    !(came.is_some() && matches_digest(recorded, came))
}

// Marks the column of this cell.
fn mark_column<P: Spare>(
    searched: bool,
    damaged: bool,
    table: &Table,
    stripe: u32,
    i: u32,
    d: u32,
    cell: Cell,
    window: &mut Window,
    spare: &mut P,
    block: &mut [u8],
) -> ColumnMark
    requires can { CanMarkCell table.now stripe i d window.old }
    requires cell { IsCellAt table.now stripe d cell }
    requires damaged { damaged ≡ is_damaged_by table.now.shape.kind (seen_in table.now stripe d) (slot_at window.old i d) }
    requires block { length block.old ≡ table.now.shape.block_size }
    requires spare { IsSpareFor table.now.shape (P.holding spare.old) }
    ensures block { length block.new ≡ length block.old }
    ensures mark { IsMarked searched table.now.shape (seen_in table.now stripe d)
        (slot_at window.old i d) result (slot_at window.new i d) }
    ensures changes { ChangesSlot i d window.old window.new }
    ensures asks { AsksCell searched table.now stripe d (slot_at window.old i d)
        (is_marked_given result) (P.holding spare.old) (P.holding spare.new) }
{
    if !damaged {
        return ColumnMark::Right;
    }
    let recorded = cell_hash(table, d, cell);
    let asked = if searched { recorded } else { None };
    let block = &mut block[..cell_length(table, d, cell) as usize];
    mark_damaged(asked, table.shape(), i, d, window, spare, block)
}

// Notes what is found in the cell of a column, and marks both: which it is, was looked up when the window was read.
fn mark_slot<P: Spare>(
    survey: &Survey<'_>,
    searched: bool,
    stripe: u32,
    i: u32,
    d: u32,
    window: &mut Window,
    found: &mut Option<Event>,
    spare: &mut P,
    block: &mut [u8],
) -> SlotMark
    requires can { CanExamine (plan_in survey.now) stripe i window.old }
    requires column { d < length survey.now.plan.table.now.columns }
    requires block { length block.old ≡ survey.now.plan.table.now.shape.block_size }
    requires spare { IsSpareFor survey.now.plan.table.now.shape (P.holding spare.old) }
    ensures block { length block.new ≡ length block.old }
    ensures found { IsFound (plan_in survey.now) stripe (slot_at window.old i d) d found.new }
    ensures mark { IsMarked searched survey.now.plan.table.now.shape (seen_in survey.now.plan.table.now stripe d)
        (slot_at window.old i d) result.column (slot_at window.new i d) }
    ensures cell { result.cell ≡ mark_of_cell
        (is_damaged_by survey.now.plan.table.now.shape.kind (seen_in survey.now.plan.table.now stripe d) (slot_at window.old i d))
        (is_sought_at (plan_in survey.now) stripe d) }
    ensures changes { ChangesSlot i d window.old window.new }
    ensures asks { AsksCell searched survey.now.plan.table.now stripe d (slot_at window.old i d)
        (is_marked_given result.column) (P.holding spare.old) (P.holding spare.new) }
{
    let table = survey.plan.table;
    let Some(cell) = window.table_cell(i, d) else {
        *found = None;
        return SlotMark {
            column: ColumnMark::Right,
            cell: CellMark::Whole,
        };
    };
    *found = cell_finding(&survey.plan, stripe, i, window, d, cell);
    let damaged = is_damaged(table, stripe, i, d, cell, window);
    let mark = mark_cell(damaged, is_sought(&survey.plan, stripe));
    let column = mark_column(
        searched, damaged, table, stripe, i, d, cell, window, spare, block,
    );
    SlotMark { column, cell: mark }
}

/// Notes of the cells of a stripe of a window that was read what is found in them, and marks them and their columns: a missing one
/// has no bytes then, and one whose block the spare gave has that. The spare is asked where the stripe's damaged blocks are searched for.
pub fn mark_cells<P: Spare>(
    survey: &Survey<'_>,
    stripe: u32,
    i: u32,
    window: &mut Window,
    found: &mut [Option<Event>],
    marks: &mut [SlotMark],
    spare: &mut P,
    block: &mut [u8],
)
    requires can { CanExamine (plan_in survey.now) stripe i window.old }
    requires found { length found.old ≡ length survey.now.plan.table.now.columns }
    requires marks { length marks.old ≡ length survey.now.plan.table.now.columns }
    requires block { length block.old ≡ survey.now.plan.table.now.shape.block_size }
    requires spare { IsSpareFor survey.now.plan.table.now.shape (P.holding spare.old) }
    ensures block { length block.new ≡ length block.old }
    ensures count { length found.new ≡ length found.old }
    ensures found { (d : ℕ) → d < length survey.now.plan.table.now.columns →
        IsFound (plan_in survey.now) stripe (slot_at window.old i d) d (found_at found.new d) }
    ensures marked { MarksCells (plan_in survey.now) stripe i window.old marks.new window.new }
    ensures asks { AsksMarked (plan_in survey.now) stripe i
        window.old marks.new (P.holding spare.old) (P.holding spare.new) }
{
    let table = survey.plan.table;
    let searched = is_searched(&survey.plan, stripe);
    for d in 0..table.disks() {
        let k = d as usize;
        marks[k] = mark_slot(
            survey,
            searched,
            stripe,
            i,
            d,
            window,
            &mut found[k],
            spare,
            block,
        );
    }
}
