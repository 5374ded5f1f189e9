//! Tests of `stripe_reader` over folders in memory. They stand in a crate of their own, since a crate's tests prove the crate
//! once more.
//!
//! Start at `tests/cases.rt`, a table of what may be found of a cell. `tests/scene.rt` makes the array of each test.
#![tactic(auto)]

#[cfg(test)]
mod tests;
