// Which cells of a table stand at the stripes of a window. They are looked up before the stripes are read, and kept, so that
// whoever reads, judges or mends a cell looks up none.
ghost use Rattle.std.specs.Prelude.{◌≡◌, ◌<◌, ◌≤◌, All, length, IfOk, IfSome, [], None, slice_index_or};
ghost use Rattle.file_table.specs.Cells.{cell_in};
ghost use Rattle.file_table.specs.Table.{IsAt, column_at};
ghost use Rattle.stripe_reader.specs.LookedUp.{AreLookedUp, IsLookedUp, IsOfRecord};
ghost use Rattle.stripe_reader.specs.WindowValue.{HasCellRoom, IsCellLane};

use disk_model::NoMemory;
use file_table::{Cell, Table};
use std::alloc::Global;
use std::marker::Model;

/// The cells of one column, stripe after stripe.
#[derive(Drop)]
pub(crate) struct CellLane {
    cells: Vec<Option<Cell>>,
}

impl Model for CellLane {
    ghost use Rattle.std.specs.Prelude.{List, Option};
    ghost use Rattle.file_table.specs.declared.block.Cell.{Cell};

    ghost Value = { List (Option Cell) };

    ghost view = { λ lane. lane.cells.items };
}

impl CellLane {
    // Room for the cells of so many stripes.
    pub(crate) fn make(alloc: Global, stripes: u32) -> Result<CellLane, NoMemory>
        ensures { IfOk result (IsCellLane stripes) }
    {
        Ok(CellLane {
            cells: vec![in alloc; None; stripes as usize]?,
        })
    }

    // The cell of the stripe of this number.
    pub(crate) fn at(&self, i: usize) -> Option<Cell>
        requires { i < length self.now }
        ensures { result ≡ slice_index_or self.now i None }
    {
        self.cells[i]
    }

    // Looks up the cells of a column at these stripes.
    fn look_up(&mut self, table: &Table, d: u32, stripes: &[u32])
        requires column { d < length table.now.columns }
        requires stripes { All (λ stripe. stripe < length table.now.infos) stripes.now }
        requires room { length stripes.now ≤ length self.old }
        ensures room { length self.new ≡ length self.old }
        ensures cells { IsLookedUp table.now d stripes.now self.new }
    {
        look_up_cells(table, d, stripes, &mut self.cells);
    }
}

// The block behind that of a cell, if it stands at a stripe.
fn next_block(table: &Table, d: u32, before: Option<Cell>, stripe: u32) -> Option<Cell>
    requires column { d < length table.now.columns }
    requires before { IsOfRecord table.now d before }
    ensures { IfSome result (λ cell. IsAt (column_at table.now.columns d) stripe cell.rec cell.index) }
{
    let Cell { rec, index } = before?;
    let next = index.checked_add(1)?;
    let block = table.blocks(d, rec).get(next as usize)?;
    if block.position == stripe {
        Some(Cell { rec, index: next })
    } else {
        None
    }
}

// The cell of a column at a stripe. The blocks of a file mostly stand at stripes in a row, so that the one behind the cell
// before is tried first, and a search is made only where a run of them begins.
fn cell_after(table: &Table, d: u32, before: Option<Cell>, stripe: u32) -> Option<Cell>
    requires column { d < length table.now.columns }
    requires stripe { stripe < length table.now.infos }
    requires before { IsOfRecord table.now d before }
    ensures { result ≡ cell_in (column_at table.now.columns d) stripe }
{
    // No two blocks of a column stand at one stripe.
    let _disks = table.disks();
    match next_block(table, d, before, stripe) {
        Some(cell) => Some(cell),
        None => table.cell(stripe, d),
    }
}

// Looks up the cells of a column at these stripes.
fn look_up_cells(table: &Table, d: u32, stripes: &[u32], cells: &mut [Option<Cell>])
    requires column { d < length table.now.columns }
    requires stripes { All (λ stripe. stripe < length table.now.infos) stripes.now }
    requires room { length stripes.now ≤ length cells.old }
    ensures { IsLookedUp table.now d stripes.now cells.new }
{
    let mut before = None;
    for i in 0..stripes.len() {
        let found = cell_after(table, d, before, stripes[i]);
        cells[i] = found;
        before = found;
    }
}

/// Looks up the cells of all columns at these stripes.
pub(crate) fn look_up(table: &Table, stripes: &[u32], room: u32, cells: &mut [CellLane])
    requires stripes { All (λ stripe. stripe < length table.now.infos) stripes.now }
    requires enough { length stripes.now ≤ room }
    requires room { HasCellRoom (length table.now.columns) room cells.old }
    ensures room { HasCellRoom (length table.now.columns) room cells.new }
    ensures cells { AreLookedUp table.now stripes.now cells.new }
{
    for d in 0..table.disks() {
        let column = &mut cells[d as usize];
        column.look_up(table, d, stripes);
    }
}

/// The cells of a column.
pub(crate) fn cells_of(cells: &[CellLane], d: u32) -> &[Option<Cell>]
    requires { d < length cells.now }
    ensures { result.now ≡ slice_index_or cells.now d [] }
{
    let column = &cells[d as usize];
    column.cells.as_slice()
}
