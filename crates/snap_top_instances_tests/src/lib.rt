//! Tests of `snap_top_instances` and of the crates of instances above it: each instance is met.
#![tactic(auto)]

#[cfg(test)]
mod tests;
