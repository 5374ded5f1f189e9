// The sums of a stripe that was read into a window.
ghost use Rattle.std.specs.Prelude.{◌≡◌, ℕ, ◌*◌, ◌<◌, ◌≤◌, List, [], ◌∷◌, ◌++◌, length};
ghost use Rattle.cauchy.specs.Levels.{HoldsLevel};
ghost use Rattle.cauchy.specs.Matrix.{parity_of as level_of};
ghost use Rattle.stripe_reader.specs.WindowValue.{slot_at};
ghost use Rattle.parity_writer.specs.WindowRow.{bytes_of, row_at};

use cauchy::laws::{empty_row, no_block};
use cauchy::{add_column, fill_levels};
use stripe_reader::{Found, Window};

// The bytes of a cell, without the zeros behind them.
fn cell_bytes(window: &Window, i: u32, d: u32) -> &[u8]
    requires stripe { i < window.now.count }
    requires column { d < length window.now.lanes }
    ensures value { result.now ≡ bytes_of (slot_at window.now i d) }
    ensures size { length result.now ≤ window.now.block_size }
{
    let cell = window.cell(i, d);
    let block = window.block(i, d);
    match cell.found {
        Found::Bytes => &block[..block.len().min(cell.got as usize)],
        _ => &block[..0],
    }
}

// Adds the bytes of a column to a level. No product is taken of the zeros behind them.
fn add_bytes(level: u32, column: u32, bytes: &[u8], out: &mut [u8])
    requires level { level < 6 }
    requires column { column < 251 }
    requires short { length bytes.now ≤ length out.old }
    ensures { (row : List (List ℕ)) → length row ≡ column → out.old ≡ level_of level (length out.old) row →
        out.new ≡ level_of level (length out.old) (row ++ bytes.now ∷ []) }
{
    // Behind its bytes a column adds nothing.
    no_block();
    add_column(level, column, bytes, &mut out[..bytes.len()]);
}

/// A level of the row of the stripe of this number among those that were read last, into a block of its size.
pub fn sum_row(window: &Window, i: u32, level: u32, out: &mut [u8])
    requires stripe { i < window.now.count }
    requires columns { length window.now.lanes ≤ 251 }
    requires level { level < 6 }
    requires out { length out.old ≡ window.now.block_size }
    ensures { out.new ≡ level_of level (length out.old) (row_at window.now i) }
{
    // The sums of no columns are zeros.
    empty_row();
    out.fill(0);
    for d in 0..window.columns() {
        add_bytes(level, d as u32, cell_bytes(window, i, d as u32), out);
    }
}

// How many columns a row may have.
const COLUMNS: usize = 251;

/// The first levels of the row of the stripe of this number among those that were read last, one after another, each of
/// them a block. There is room for six. Each byte of the row is read once.
pub fn sum_levels(window: &Window, i: u32, levels: u32, sums: &mut [u8])
    requires stripe { i < window.now.count }
    requires columns { length window.now.lanes ≤ 251 }
    requires levels { levels ≤ 6 }
    requires sums { length sums.old ≡ 6 * window.now.block_size }
    ensures { (r : ℕ) → r < levels → HoldsLevel window.now.block_size (row_at window.now i) r sums.new }
{
    let none: &[u8] = &[];
    let mut row = [none; COLUMNS];
    for d in 0..window.columns() {
        row[d] = cell_bytes(window, i, d as u32);
    }
    let size = sums.len() / 6;
    fill_levels(levels, &row[..window.columns()], size, sums);
}
