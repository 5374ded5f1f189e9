//! How far long work has come, on one line of the terminal, while the work goes on.
//!
//! Start at `meter.rt`: a `Meter` is told of the bytes that are read and of the place in parity, and draws the line at most
//! twice a second. `MeteredFolder`, `MeteredVault` and `MeteredOpener` hand each call on and tell the meter; where a
//! `ClearingSink` writes, the line is cleared before. `line.rt` is what the line says, `pace.rt` how fast the work goes, and
//! `extent.rt` where it is in a level of several files.
//! Proved: the objects meet their traits by what the objects under them tell, call by call, so that whatever is proved of
//! a run holds of a run with a line; the sums of `pace.rt`. Not proved: what the terminal shows.
#![tactic(auto)]

mod extent;
mod folder;
mod line;
mod meter;
mod opener;
mod pace;
mod screen;
mod sink;
mod tally;
#[cfg(test)]
mod tests;
mod vault;

pub use folder::MeteredFolder;
pub use meter::Meter;
pub use opener::MeteredOpener;
pub use sink::ClearingSink;
pub use vault::MeteredVault;
