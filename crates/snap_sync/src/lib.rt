//! `sync`: lays the files of the folders out over the table of the last sync, and closes the pending stripes.
//!
//! Start at `sync` in `syncing.rt`: `begin` (`beginning.rt`) lists the folders, lays out and takes all memory; `carry_out`
//! (`carrying.rt`) saves the laid out table, goes through the pending stripes window by window (`stripes.rt`), and ends with a
//! checkpoint. A window is hashed and judged (`judging.rt`): its findings are told and its verified stripes are chosen. Then
//! the sums of its stripes are made, and those of the verified ones are written; meanwhile the next window is fetched
//! (`turning.rt`). The verified stripes are closed in the table in hand. `opening.rt` has what is done to the vault at its
//! beginning and at a checkpoint.
//! Its definitions: what was read and what is verified by it (`specs/Reading.antt`), what is found (`specs/Findings.antt`), the
//! table and the rows after it (`specs/Closing.antt`), when it is saved (`specs/Schedule.antt`), by which calls
//! (`specs/Calls.antt`), what stands at each moment (`specs/Images.antt`), and all of it together (`specs/Course.antt`).
//! Proved: whatever it answers and wherever it is stopped, each copy is as before, or a table whose synced stripes have their
//! sums in parity.
//! What follows of a sync as a whole stands in `laws.rt`: that it is the part sync of what the folders hold, that each image is
//! sound, and that a stopped sync is gone on with.
//! Not here: what the files hold, and which files are kept.
#![tactic(auto)]

mod beginning;
mod carrying;
mod fault;
mod judging;
pub mod laws;
mod opening;
mod room;
mod schedule;
mod stripes;
mod syncing;
mod turning;

pub use fault::SyncFault;
pub use syncing::{SyncEnd, sync};
