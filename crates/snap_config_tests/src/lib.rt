//! Tests of `snap_config`. They stand in a crate of their own, since a crate's tests prove the crate once more.
//!
//! Each test is a table of cases, with what comes of each: `tests/config.rt` of configurations, `tests/words.rt` of
//! command lines, with the refused ones in `tests/refused_words.rt`, `tests/patterns.rt` and `tests/filter.rt` of
//! patterns and rules.
#![tactic(auto)]

#[cfg(test)]
mod tests;
