//! The file of one record, written anew: block after block under its path (`mending.rt`), and then given its name, size and stamp
//! (`finishing.rt`). `state.rt` has what was done to it so far.
#![tactic(auto)]

mod finishing;
mod mending;
mod state;

pub use finishing::{Finish, finish_record};
pub use mending::mend_cell;
pub use state::{FileState, States};
