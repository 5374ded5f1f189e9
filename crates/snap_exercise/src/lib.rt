//! `exercise`: an array in memory that a number makes is synced, damaged, fixed and checked, and five lines tell how that went.
//!
//! Start at `exercise` in `exercising.rt`. The array is `array.rt`, its files are `files.rt`, what befalls it is `damage.rt`, the
//! engines are called in `engines.rt`, and `telling.rt` tells. `specs/Generated.antt` defines the array as a function of the
//! number, `specs/Exercise.antt` the text, `specs/Exercised.antt` what an exercise comes to.
//! Not here: the engines, and the words that ask for it, which `run` of snap_top reads.
#![tactic(auto)]

mod array;
mod damage;
mod engines;
mod exercising;
mod files;
pub mod laws;
mod telling;
#[cfg(test)]
mod tests;

pub use exercising::exercise;
