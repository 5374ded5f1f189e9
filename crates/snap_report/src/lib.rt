//! What a command prints: the lines of its events, the texts of `list` and `status`, its last line and
//! its answer, and the reports that are told its events. None of it takes memory.
//!
//! Start at `Lines` in `pages.rt` and at `tell` in `report.rt`. A line is a list of pieces, `put_all` in
//! `piece.rt`; the texts are `specs/Text.antt` and `specs/EventLines.antt`.
//! Proved: what was told is on the sink or held in the page, each byte of it (`Puts` in
//! `specs/State.antt`), a prefix of it after a write that failed, and nothing after that; each report in
//! its place was given each event in order up to its own first failure (`Told` in `specs/Told.antt`).
//! Not here: which events a command tells, and in which order.
#![tactic(auto)]

mod answer;
mod ends;
mod event_lines;
pub mod events;
pub mod laws;
mod list;
mod log;
mod pages;
mod piece;
mod printing;
mod report;
mod status;
mod stripes;
mod tally;
mod totals;

pub use answer::{Answer, RunFault};
pub use events::Event;
pub use list::list_text;
pub use log::LogReport;
pub use pages::Lines;
pub use piece::Piece;
pub use report::{Report, tell, tell_all};
pub use status::status_text;
pub use tally::TallyReport;
