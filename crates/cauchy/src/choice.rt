//! Whether columns and levels may be chosen together.

ghost use Rattle.std.specs.Prelude.{◌≡◌, ◌≢◌, ◌↔◌, ◌<◌, ℕ, IsTrue, length, slice_index};
ghost use Rattle.cauchy.specs.System.{AreDistinctBelow, IsChoice};

/// Whether number `k` differs from each before it.
fn is_new(numbers: &[u32], k: usize) -> bool
    requires { k < length numbers.now }
    ensures { IsTrue result ↔ ((j : ℕ) → j < k → slice_index numbers.now j ≢ slice_index numbers.now k) }
{
    for j in 0..k {
        if numbers[j] == numbers[k] {
            return false;
        }
    }
    true
}

/// Whether the numbers are below the bound, and none of them stands twice.
fn are_distinct_below(bound: u32, numbers: &[u32]) -> bool
    ensures { IsTrue result ↔ AreDistinctBelow bound numbers.now }
{
    for k in 0..numbers.len() {
        if numbers[k] >= bound || !is_new(numbers, k) {
            return false;
        }
    }
    true
}

/// Whether `solve` takes these columns and levels: as many of the one as of the other, from 1 to 6, each within the matrix
/// and none twice.
pub fn is_choice(missing: &[u32], levels: &[u32]) -> bool
    ensures { IsTrue result ↔ IsChoice missing.now levels.now }
{
    missing.len() == levels.len()
        && !levels.is_empty()
        && levels.len() <= 6
        && are_distinct_below(251, missing)
        && are_distinct_below(6, levels)
}
