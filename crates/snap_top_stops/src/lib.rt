//! Instances of what the laws of `snap_top` suppose of runs that are stopped.
//!
//! Each call makes runs over an array and stops some. It answers nothing unless all went as it says. Its contract gives the
//! runs, with what a law supposes of them and what then follows, and shows that there was something to spare or to resume.
//! Start at `stopped.rt`: a fix that is stopped. In `stopped_runs.rt` stopped syncs and other runs are resumed, in
//! `stays_sound.rt` copies stay sound, and in `kept.rt` a sync keeps the files of the disks.
//! Proved: none of these laws is empty.
#![tactic(auto)]

pub mod kept;
pub mod stays_sound;
pub mod stopped;
pub mod stopped_runs;
