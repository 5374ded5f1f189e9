//! The inverse of the entries at chosen levels and columns.

ghost use Rattle.std.specs.Prelude.{◌≡◌, ◌<◌, ◌≤◌, ℕ, length, slice_index};
ghost use Rattle.arrayvec.specs.ArrayVec.{array_vec_len};
ghost use Rattle.cauchy.specs.Matrix.{entry_of};
ghost use Rattle.cauchy.specs.Elimination.{entries, unit, HasShape, IsMatrix, Solves};
ghost use Rattle.cauchy.specs.System.{chosen, IsChoice};

use crate::elimination::{Matrix, Row, solve_system};
use crate::matrix::entry;

/// The entries of a level in the chosen columns.
fn level_entries(level: u32, columns: &[u32]) -> Row
    requires level { level < 6 }
    requires count { length columns.now ≤ 6 }
    requires columns { (j : ℕ) → j < length columns.now → slice_index columns.now j < 251 }
    ensures long { array_vec_len result ≡ length columns.now }
    ensures made { (j : ℕ) → j < length columns.now →
        slice_index result.items j ≡ entry_of level (slice_index columns.now j) }
{
    let mut row = Row::new();
    for j in 0..columns.len() {
        row.push(entry(level, columns[j]));
    }
    row
}

/// The entries at the chosen levels and columns.
fn chosen_entries(columns: &[u32], levels: &[u32]) -> Matrix
    requires { IsChoice columns.now levels.now }
    ensures shape { HasShape (length levels.now) (length columns.now) result }
    ensures made { (i j : ℕ) → i < length levels.now → j < length columns.now →
        entries result i j ≡ chosen columns.now levels.now i j }
{
    let mut rows = Matrix::new();
    for i in 0..levels.len() {
        rows.push(level_entries(levels[i], columns));
    }
    rows
}

/// `count` elements: 1 at `i`, and 0 elsewhere.
fn unit_vector(count: usize, i: usize) -> Row
    requires { count ≤ 6 }
    ensures long { array_vec_len result ≡ count }
    ensures made { (k : ℕ) → k < count → slice_index result.items k ≡ unit i k }
{
    let mut values = Row::new();
    for k in 0..count {
        values.push(if k == i { 1 } else { 0 });
    }
    values
}

/// The inverse of the entries at the chosen levels and columns, column by column: row i of the result has the bytes of the
/// chosen columns for which level i is 1, and every other level 0.
pub fn inverse_columns(columns: &[u32], levels: &[u32]) -> Matrix
    requires { IsChoice columns.now levels.now }
    ensures shape { HasShape (length levels.now) (length levels.now) result }
    ensures elements { IsMatrix (length levels.now) (entries result) }
    ensures units { (i : ℕ) → i < length levels.now →
        Solves (length levels.now) (chosen columns.now levels.now) (unit i) (entries result i) }
{
    let matrix = chosen_entries(columns, levels);
    let mut rows = Matrix::new();
    for i in 0..levels.len() {
        rows.push(solve_system(&matrix, &unit_vector(levels.len(), i)));
    }
    rows
}
