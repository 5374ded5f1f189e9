//! Tests of `snap_top`: whole runs over objects in memory, as tables for `snap_top_memory::cases`.
//! They stand in a crate of their own, since a crate's tests prove the crate once more.
#![tactic(auto)]

#[cfg(test)]
mod tests;
