//! Tests of `hash_index`: the pairs of a table, and what an index finds. They stand in a crate of
//! their own, since a crate's tests prove the crate once more.
#![tactic(auto)]

#[cfg(test)]
mod tests;
