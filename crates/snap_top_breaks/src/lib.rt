//! Instances of what the laws of `snap_top` suppose of runs that break off.
//!
//! Each call makes runs over an array, in one of which a call fails. It answers nothing unless all went as it says. Its
//! contract gives the runs, with what a law supposes of them and what then follows, and shows that something was printed, or that
//! a call failed.
//! Start at `broken.rt`: a fix that breaks off. `broken_scrub.rt` and `front_of_sync.rt` have a scrub and a sync, and `broken_sync.rt`
//! a sync of an array without content.
//! Proved: none of these laws is empty.
#![tactic(auto)]

pub mod broken;
pub mod broken_scrub;
pub mod broken_sync;
pub mod front_of_sync;
