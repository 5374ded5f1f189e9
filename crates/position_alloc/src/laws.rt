//! The laws of the lowest free position, as the contract of a function that does nothing.

ghost use Rattle.std.specs.Prelude.{◌≡◌, ◌≤◌, ℕ};
ghost use Rattle.std.specs.Ordering.{nat_cmp};
ghost use Rattle.std.specs.FinSet as set;
ghost use Rattle.position_alloc.specs.Lowest.{lowest_free, IsLowestFree};

/// The lowest free position isn't taken, all before it are, it is the only such one, and no greater than the count of the
/// taken ones.
pub fn lowest()
    ensures is_lowest { (taken : set.FinSet nat_cmp) → IsLowestFree taken (lowest_free taken) }
    ensures only { (taken : set.FinSet nat_cmp) (p : ℕ) →
        IsLowestFree taken p → p ≡ lowest_free taken }
    ensures at_most { (taken : set.FinSet nat_cmp) → lowest_free taken ≤ set.len taken }
{}
