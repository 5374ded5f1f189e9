//! Tests of `sync`, `scrub`, `check` and `fix` through `snap_top::run`, over files in memory that change while they are
//! read.
//! Start at `tests/cases.rt`: a test is a table of runs, each with what happens to the files of the first disk before
//! which of that disk's calls.
//! The first call lists the disk, but for a scrub, which lists nothing. Then each cell has a look and a reading, stripe
//! by stripe.
#![tactic(auto)]

#[cfg(test)]
mod tests;
