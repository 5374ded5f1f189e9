//! `repair` tells what is damaged of an array, by the table of its last sync. In the mode `Fix` it writes that anew where its
//! blocks are known.
//!
//! Start at `by_mode.rt`, and go on with `checks.rt` and `repairs.rt`. Both go from window to window and look at each stripe, which
//! is the crate `stripe_examiner`. `fixing.rt` writes the damaged blocks and the wrong levels of the stripe, and `ending.rt`
//! has each file finished: what is done to one file is the crate `file_restorer`.
#![tactic(auto)]

mod beginning;
mod by_mode;
mod checking;
mod checks;
mod ending;
mod fixes;
mod fixing;
pub mod laws;
mod plan;
mod repairing;
mod repairs;

pub use by_mode::repair;
pub use checks::FixEnd;
pub use repair_scope::Mode;
pub use stripe_examiner::{NoSpare, Spare};
