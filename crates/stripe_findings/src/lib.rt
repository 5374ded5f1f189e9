//! What is found in the cells of stripes that were read, by what a sync and a scrub ask of them: that each block came
//! whole, of a file that is as it was recorded, with the recorded hash.
//!
//! Begin with `tell_cell` in `telling.rt`, with `finding` in `cells.rt`, and with `stripe_events` in `specs/Findings.antt`.
//! Proved: the finding of a cell is the one that its reading means, there is none exactly where the cell is right, and just
//! that is told.
//! For the crates above: what was read of stripes (`specs/Reading.antt`, `proofs/ReadLemmas.antt`), and that nothing is
//! found in a stripe exactly where it is verified (`proofs/FindingLemmas.antt`).
#![tactic(auto)]

mod cells;
mod telling;

pub use cells::finding;
pub use telling::tell_cell;
