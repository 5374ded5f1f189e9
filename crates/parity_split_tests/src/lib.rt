//! Tests of `parity_split`: levels of several parts over a vault in memory.
//! They stand in a crate of their own, since a crate's tests prove the crate once more.
//!
//! Start at `tests/calls.rt`: most tests make calls at random, of a split level and of a plain one, and compare what they answer.
//! `caller.rt` shows how a program takes a vault, splits its levels for a while, and gets it back.
#![tactic(auto)]

pub mod caller;
#[cfg(test)]
mod tests;
