//! Tests of `file_table`: a table from its first call to its last, and what a builder refuses.
//! They stand in a crate of their own, since a crate's tests prove the crate once more.
#![tactic(auto)]

#[cfg(test)]
mod tests;
