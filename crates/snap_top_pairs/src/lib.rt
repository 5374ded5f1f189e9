//! Instances of what the laws of `snap_top` suppose of two runs over one array.
//!
//! Each call makes runs over an array and answers nothing unless all went as it says. Its contract gives the two runs, with
//! what a law supposes of them and what then follows, and shows that there was something to print or to find.
//! Start at `twice.rt`: two syncs, scrubs and fixes of one array. `lost.rt` has two runs over an array that lost a disk: lists
//! (`listed.rt`), checks and a fix (`found.rt`). In `audited.rt` an audit finds something.
//! Proved: none of these laws is empty.
#![tactic(auto)]

pub mod audited;
pub mod found;
pub mod listed;
pub mod lost;
pub mod twice;
