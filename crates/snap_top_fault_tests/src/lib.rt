//! Tests of `sync` through `snap_top::run`, over objects in memory that fail at one call, that are stopped after
//! some, or that are read by several threads; the first also of `check` and `fix`, the last of `scrub` and `check`. A
//! level in two parts is synced, stopped, damaged and fixed, and one in three parts is filled.
#![tactic(auto)]

#[cfg(test)]
mod tests;
