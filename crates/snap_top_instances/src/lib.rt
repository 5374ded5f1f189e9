//! Instances of what the laws of `snap_top` and clauses of its `run` suppose: arrays in memory that meet these premises.
//!
//! Each call makes runs over an array and answers nothing unless all went as it says. Its contract gives the runs, with all
//! that a law supposes of them and what then follows, and shows that there was something: a file, a record, a stripe that was
//! read, a line that was printed. Tests beside the crates call each once.
//! Start at `told.rt`: a run with what it says of itself. `resumed.rt` has a sync that ends as the full one, and `smooth.rt`
//! a run that surely ends well, if memory does not run out. The crates above have more: `snap_top_pairs`, `snap_top_breaks`, `snap_top_stops`,
//! `snap_top_restores` and `snap_top_refusals`.
//! Proved: what is supposed there is met. What a run does is `snap_top`'s.
#![tactic(auto)]

pub mod asked;
pub mod resumed;
pub mod smooth;
pub mod told;
