//! The layout: from the files that are listed and the table of the last sync, the table that a sync works on.
//!
//! Start at `lay_out` in `layout.rt` with `specs/Layout.antt`. The kept files of each column are unchanged, changed,
//! moved or new (`sorting.rt`, `specs/Fates.antt`). Blocks of unchanged and moved files stay where they are, and the
//! others take the lowest free positions (`placing.rt`, `specs/Laying.antt`).
//! Proved: `lay_out` gives that table, and refuses exactly what `specs/Refusals.antt` says, in that order; `laws.rt`:
//! the layout of a table whose records are just the kept files is that table, and so is that of a layout over the same
//! files. `lay_out_in_place` gives that table itself then (`unchanged.rt`). A layout is valid, so that its builder refuses it for memory alone.
//! Not here: what the files hold.
#![tactic(auto)]

mod building;
mod fault;
pub mod laws;
mod layout;
mod lost;
mod placing;
mod refusing;
mod sorting;
mod unchanged;

pub use fault::ScanFault;
pub use layout::{Plan, Unlaid, lay_out, lay_out_in_place};
