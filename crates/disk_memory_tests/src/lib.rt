//! Tests of `disk_memory`: what objects in memory hold and give, and which of their calls fail.
//! They stand in a crate of their own, since a crate's tests prove the crate once more.
//!
//! Start at `tests/steps.rt`: most tests are lists of steps with what each answers, which `tests/play.rt` makes.
#![tactic(auto)]

#[cfg(test)]
mod tests;
