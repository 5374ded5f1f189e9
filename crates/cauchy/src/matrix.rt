//! The entries of the matrix, and one column's part of a level.

ghost use Rattle.std.specs.Prelude.{◌≡◌, ◌+◌, ◌<◌, ◌++◌, ◌∷◌, [], ℕ, List, length};
ghost use Rattle.cauchy.specs.Matrix.{entry_of, parity_of, AddsTerm};

use crate::products::add_products;
use gf256::{div, inv, pow2};

/// The entry of the matrix at a level and a column.
pub fn entry(r: u32, c: u32) -> u8
    requires level { r < 6 }
    requires column { c < 251 }
    ensures { result ≡ entry_of r c }
{
    match r {
        0 => 1,
        1 => pow2(c),
        _ => div(1 ^ pow2(r - 1), inv(pow2(c)) ^ pow2(r - 1)),
    }
}

/// Adds a column's part of a level to `out`: the entry there times the block.
pub fn add_column(level: u32, column: u32, block: &[u8], out: &mut [u8])
    requires level { level < 6 }
    requires column { column < 251 }
    requires same_length { length block.now ≡ length out.old }
    ensures added { AddsTerm level column block.now out.old out.new }
    // So the levels of a row grow by a block, where columns are added in order.
    ensures next_block { (row : List (List ℕ)) → length row ≡ column → out.old ≡ parity_of level (length out.old) row →
        out.new ≡ parity_of level (length out.old) (row ++ block.now ∷ []) }
{
    add_products(entry(level, column), block, out);
}
