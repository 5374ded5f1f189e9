//! Tests of `parity_writer` over a vault in memory.
//! They stand in a crate of their own, since a crate's tests prove the crate once more.
#![tactic(auto)]

#[cfg(test)]
mod tests;
