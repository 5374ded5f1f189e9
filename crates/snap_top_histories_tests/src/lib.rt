//! Tests of `snap_top_histories`: each history is met.
#![tactic(auto)]

#[cfg(test)]
mod tests;
