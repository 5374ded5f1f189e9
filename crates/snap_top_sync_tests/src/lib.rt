//! Tests of `sync` through `snap_top::run`, over objects in memory: first and later ones, refusals, copies and reports.
#![tactic(auto)]

#[cfg(test)]
mod tests;
