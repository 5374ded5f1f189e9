//! Stripes: which of their cells are damaged, which of their blocks are known, and which of their levels are wrong.
//!
//! Start at `surveying.rt`: a window of stripes is examined, by what `survey.rt` holds, and the room of each of them (`room.rt`) shows
//! then what is found in it.
//! 1. Its cells are read beside the levels of its stripes, which are read ahead of the calls that take them (`beside.rt`); or
//!    the cells were fetched, and the levels read ahead meanwhile by what `take_levels_ahead` gives.
//! 2. Stripe after stripe it is noted what is found in the cells, and they and their columns are marked (`marking_window.rt`,
//!    `marking.rt`, which asks the spare for the blocks of damaged ones). The row is searched for by the marks of the columns; what is
//!    lost, and what a fix writes, is told by those of the cells.
//! 3. The stripes are judged side by side (`judging_window.rt`): the missing blocks are searched for by what is left of the levels
//!    less the sums of the row (`finding.rt`, `remainders.rt`, `search.rt`), and what is left then tells which levels are wrong
//!    (`judging.rt`). The blocks of the first choice of levels are made before (`first_choice.rt`), and those of several stripes
//!    are hashed together (`hashing.rt`).
//! 4. What was found is put into the window (`putting.rt`).
//!
//! Then each stripe is told by its room (`telling/stripe.rt`). That what was read determines what is found is a law (`laws.rt`).
//! What all this is for is said by the crate `repair_scope`: what is selected, and what is known of the files of the table's records.
//! `places.rt` makes the latter of what their folders list, and says where these files stand.
#![tactic(auto)]

mod beside;
mod counts;
mod finding;
mod first_choice;
mod hashing;
mod judging;
mod judging_window;
mod knowing;
pub mod laws;
mod marking;
mod marking_window;
mod places;
mod putting;
mod remainders;
mod room;
mod search;
mod spare;
mod survey;
mod surveying;
mod telling;

pub use beside::take_levels_ahead;
pub use counts::Counts;
pub use marking::{CellMark, ColumnMark, SlotMark};
pub use places::place_all;
pub use room::{FirstChoice, Room, StripeRoom};
pub use spare::{NoSpare, Spare};
pub use survey::Survey;
pub use surveying::{examine_fetched, examine_window};
pub use telling::{tell_found, tell_opening, tell_stripe};
