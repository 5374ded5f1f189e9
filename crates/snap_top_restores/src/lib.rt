//! Instances of what the laws of `snap_top` suppose of a fix that restores, and of a check that names what is lost.
//!
//! The calls make runs over an array and answer nothing unless all went as they say. The contract of `reached.rt` gives a fix, a
//! damaged block that its levels reach, and the bytes of the last sync in its file. That of `named.rt` gives a check, and a
//! damaged block that it tells to be lost, since more are missing than levels are intact.
//! Proved: none of these laws is empty.
#![tactic(auto)]

pub mod named;
pub mod reached;
