//! Tests of `check` and `fix` through `snap_top::run`, over objects in memory. Most are tables for
//! `snap_top_memory::cases`, over the arrays of `tests/arrays.rt`.
#![tactic(auto)]

#[cfg(test)]
mod tests;
