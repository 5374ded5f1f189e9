//! Tests of `scrub` through `snap_top::run`, over objects in memory, and of what `status` and `fix -e` make of what it
//! found. Most are tables for `snap_top_memory::cases`, over the arrays of `tests/arrays.rt`.
#![tactic(auto)]

#[cfg(test)]
mod tests;
