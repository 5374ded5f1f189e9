//! What a check or a fix is for: what its table's records are known by when it begins, and what of the array is selected.
//!
//! - `scope.rt`: what is done, whether only what is known to be bad is meant, and which levels are.
//! - `entry.rt`: what is known of the file of each record. `entries.rt` makes that of what the folders list, by the look-ups of
//!   `finding.rt`: what was listed under its path, whether it is selected, and whether other files stand in its way.
//! - `plan.rt`: these two and the table as one value, a plan.
//! - `selecting.rt`: which cells and levels are selected, and the stripes that have one.
//! - `trying.rt`: at which stripes a recovery of damaged blocks is tried.
//!
//! `specs/Plan.antt` says what is selected, and where a recovery is tried, of what is seen of a plan.
#![tactic(auto)]

mod entries;
mod entry;
mod finding;
mod plan;
mod scope;
mod selecting;
mod trying;

pub use entries::entries_of;
pub use entry::{Entries, Entry};
pub use finding::{find_listed, find_lost};
pub use plan::Plan;
pub use scope::{Mode, Scope};
pub use selecting::{
    has_selected_cell, has_selected_level, is_as_recorded, scope_of, selected_cell, selects_cell,
    selects_level, selects_record, stripes_to_look_at,
};
pub use trying::{is_audit, is_searched, is_synced};
