//! Arrays in memory with all that happened to them: what the headline and the laws of `snap_top` suppose of runs is met.
//!
//! Start at `lived.rt`: an array, its vault, and the history of the runs over it. `changed.rt` has what happens between two
//! runs, `resumed.rt` a sync that is resumed, a sync and a fix, and `taken.rt` a fix of which no premise is left;
//! `repeated.rt` has two checks of one array, and a fix after one that was stopped.
//! Proved: the runs of these files are such as `snap_top::laws::headline` speaks of. What a run does is `snap_top`'s.
#![tactic(auto)]

pub mod changed;
pub mod lived;
pub mod repeated;
pub mod resumed;
pub mod taken;
