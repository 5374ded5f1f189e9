//! Tests of `snap_scrub`. They stand in a crate of their own, since a crate's tests prove the crate once more.
//!
//! Start at `tests.rt`: it is a table of what is asked for and the stripes that are planned.
#![tactic(auto)]

#[cfg(test)]
mod tests;
