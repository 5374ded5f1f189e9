//! The laws of the matrix, each the contract of a function that does nothing.

ghost use Rattle.std.specs.Prelude.{◌≡◌, ℕ, ◌+◌, ◌-◌, ◌<◌, ◌≤◌, List, [], ◌∷◌, ◌++◌, length, replicate};
ghost use Rattle.gf256.specs.Field.{field_sum, power, inverse};
ghost use Rattle.cauchy.specs.Matrix.{byte_of, parity_of};
ghost use Rattle.cauchy.specs.Recovery.{CanRecover, IsRecovered, GrowsByColumn};
ghost use Rattle.cauchy.specs.System.{IsChoice, IsSolution};

/// No entry of the matrix is divided by 0. Column 251 would be, in row 5.
pub fn denominators()
    ensures { (r c : ℕ) → 2 ≤ r → r < 6 → c < 251 → 0 < field_sum (inverse (power c)) (power (r - 1)) }
{}

/// The levels of a row without columns are zeros.
pub fn empty_row()
    ensures { (level size : ℕ) → parity_of level size [] ≡ replicate size 0 }
{}

/// Rows of the same bytes have the same levels, so a block may be padded with zeros.
pub fn same_bytes()
    ensures { (level size : ℕ) (one other : List (List ℕ)) → length one ≡ length other →
        ((c p : ℕ) → c < length one → p < size → byte_of one c p ≡ byte_of other c p) →
        parity_of level size one ≡ parity_of level size other }
{}

/// A column without a block leaves the levels of a row as they are.
pub fn no_block()
    ensures { (level size : ℕ) (row : List (List ℕ)) → parity_of level size (row ++ [] ∷ []) ≡ parity_of level size row }
{}

/// The sum over all columns but the missing ones grows by a column's term, or stays where the column is missing.
pub fn next_column()
    ensures { (level : ℕ) (missing : List ℕ) (row : List (List ℕ)) (block : List ℕ) (p : ℕ) →
        GrowsByColumn level missing row block p }
{}

/// Whichever levels and as many columns are chosen, the bytes of these columns are determined by the levels: for any sums
/// that are given there is exactly one solution.
pub fn one_solution()
    ensures exists { (columns levels : List ℕ) → IsChoice columns levels →
        (given : ℕ → ℕ) → ((i : ℕ) → i < length levels → given i < 256) →
        (bytes : ℕ → ℕ) × IsSolution columns levels given bytes }
    ensures only { (columns levels : List ℕ) → IsChoice columns levels →
        (given one other : ℕ → ℕ) → IsSolution columns levels given one → IsSolution columns levels given other →
        (j : ℕ) → j < length columns → one j ≡ other j }
{}

/// Where some columns of a row are missing, and a block is given for each of as many levels, there is exactly one row that
/// has these levels and agrees with the row in all other columns.
pub fn one_recovered_row()
    ensures exists { (size : ℕ) (row : List (List ℕ)) (missing levels : List ℕ) (given : List (List ℕ)) →
        CanRecover size row missing levels given →
        (recovered : List (List ℕ)) × IsRecovered size row missing levels given recovered }
    ensures only { (size : ℕ) (row : List (List ℕ)) (missing levels : List ℕ) (given one other : List (List ℕ)) →
        CanRecover size row missing levels given →
        IsRecovered size row missing levels given one → IsRecovered size row missing levels given other →
        one ≡ other }
{}
