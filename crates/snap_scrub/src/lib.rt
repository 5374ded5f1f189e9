//! A scrub: some of the synced stripes are read and compared with their hashes and their parity, and what was found is
//! kept in the table.
//!
//! Begin with `plan` in `planning.rt`, and with `plan_of` in `specs/Plan.antt`; then with `scrub` in `scrubbing.rt`,
//! and with `Scrubs` and `ScrubsNot` in `specs/Course.antt`.
//! Proved: `plan` gives exactly the stripes that its definition names, ascending. A scrub reads these, tells just what
//! it finds in them, marks just these in the table, and saves the table once; each image of the vault keeps parity, and
//! has in each copy what it had, or the new table; a scrub breaks off only where memory runs out, before anything was
//! touched, or where a call of the vault that saves fails. Nothing of this depends on how many readers there are.
//! Not here: what a cell's finding is (`stripe_findings`), and how blocks are read.
#![tactic(auto)]

mod beginning;
mod cells;
mod found;
pub mod laws;
mod levels;
mod looking;
mod marking;
mod order;
mod passing;
mod planning;
mod room;
mod scrubbing;
mod turning;
mod verdict;
mod windows;

pub use planning::plan;
pub use scrubbing::{ScrubEnd, scrub};
