//! Small systems of linear equations over the field, solved by elimination.

ghost use Rattle.std.specs.Prelude.{◌≡◌, ◌+◌, ◌<◌, ◌≤◌, ℕ, [], length, slice_index, slice_index_or};
ghost use Rattle.arrayvec.specs.ArrayVec.{array_vec_len};
ghost use Rattle.cauchy.specs.Elimination.{entries, reduced, reduced_given, row_sum, rows_of};
ghost use Rattle.cauchy.specs.Elimination.{HasShape, IsEliminable, IsMatrix, IsVector, Solves};

use arrayvec::ArrayVec;
use gf256::{div, mul};

/// How many equations and unknowns there are at most.
pub const MOST: usize = 6;

/// An element for each unknown or for each equation.
pub type Row = ArrayVec<u8, MOST>;

/// The coefficients of a system: a row for each equation.
pub type Matrix = ArrayVec<Row, MOST>;

/// The coefficient at a row and a column.
pub fn coefficient(matrix: &Matrix, row: usize, column: usize) -> u8
    requires row { row < array_vec_len matrix.now }
    requires column { column < length (slice_index_or (rows_of matrix.now) row []) }
    ensures { result ≡ entries matrix.now row column }
{
    matrix[row][column]
}

/// One side of equation `i`, as far as there are values.
fn sum_of_products(matrix: &Matrix, i: usize, values: &Row) -> u8
    requires row { i < array_vec_len matrix.now }
    requires columns { array_vec_len values.now
        ≤ length (slice_index_or (rows_of matrix.now) i []) }
    ensures { result
        ≡ row_sum (entries matrix.now) (array_vec_len values.now) (slice_index values.now.items) i }
{
    let mut sum = 0;
    for j in 0..values.len() {
        sum ^= mul(coefficient(matrix, i, j), values[j]);
    }
    sum
}

/// Equation `i` without the unknown `n`.
fn reduced_row(matrix: &Matrix, n: usize, i: usize) -> Row
    requires shape { HasShape (n + 1) (n + 1) matrix.now }
    requires last { n < 6 }
    requires row { i < n }
    ensures long { array_vec_len result ≡ n }
    ensures made { (j : ℕ) → j < n →
        slice_index result.items j ≡ reduced (entries matrix.now) n i j }
{
    let mut row = Row::new();
    for j in 0..n {
        let kept = mul(coefficient(matrix, n, n), coefficient(matrix, i, j));
        row.push(kept ^ mul(coefficient(matrix, i, n), coefficient(matrix, n, j)));
    }
    row
}

/// The equations before `n`, without the unknown `n`.
fn reduced_matrix(matrix: &Matrix, n: usize) -> Matrix
    requires shape { HasShape (n + 1) (n + 1) matrix.now }
    requires last { n < 6 }
    ensures shape { HasShape n n result }
    ensures made { (i j : ℕ) → i < n → j < n →
        entries result i j ≡ reduced (entries matrix.now) n i j }
{
    let mut rows = Matrix::new();
    for i in 0..n {
        rows.push(reduced_row(matrix, n, i));
    }
    rows
}

/// What the equations before `n` are to give, without the unknown `n`.
fn reduced_sums(matrix: &Matrix, given: &Row, n: usize) -> Row
    requires shape { HasShape (n + 1) (n + 1) matrix.now }
    requires given { array_vec_len given.now ≡ n + 1 }
    requires last { n < 6 }
    ensures long { array_vec_len result ≡ n }
    ensures made { (i : ℕ) → i < n →
        slice_index result.items i
        ≡ reduced_given (entries matrix.now) n (slice_index given.now.items) i }
{
    let mut sums = Row::new();
    for i in 0..n {
        let kept = mul(coefficient(matrix, n, n), given[i]);
        sums.push(kept ^ mul(coefficient(matrix, i, n), given[n]));
    }
    sums
}

/// The solution of the equations.
pub fn solve_system(matrix: &Matrix, given: &Row) -> Row
    requires shape { HasShape (array_vec_len given.now) (array_vec_len given.now) matrix.now }
    requires size { array_vec_len given.now ≤ 6 }
    requires elements { IsMatrix (array_vec_len given.now) (entries matrix.now) }
    requires pivots { IsEliminable (array_vec_len given.now) (entries matrix.now) }
    requires sums { IsVector (array_vec_len given.now) (slice_index given.now.items) }
    ensures long { array_vec_len result ≡ array_vec_len given.now }
    ensures elements { IsVector (array_vec_len given.now) (slice_index result.items) }
    ensures solves { Solves (array_vec_len given.now) (entries matrix.now)
        (slice_index given.now.items) (slice_index result.items) }
{
    if given.is_empty() {
        return Row::new();
    }
    let last = given.len() - 1;
    let rest = reduced_matrix(matrix, last);
    let rest_given = reduced_sums(matrix, given, last);
    let mut values = solve_system(&rest, &rest_given);
    let others = sum_of_products(matrix, last, &values);
    let value = div(given[last] ^ others, coefficient(matrix, last, last));
    values.push(value);
    values
}
