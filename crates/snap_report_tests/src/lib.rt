//! Tests of `snap_report` over sinks in memory. They stand in a crate of their own, since a crate's tests prove
//! the crate once more.
//!
//! Start at `tests/lines.rt`: each test is a table of what is told and the text that it leaves.
#![tactic(auto)]

#[cfg(test)]
mod tests;
