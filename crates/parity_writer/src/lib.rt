//! Writes parity: the lengths of the levels, the sums of a row of blocks, and the sync that settles them on the disks.
//!
//! 1. `set_lengths` keeps all bytes below the new length (clause `changes`).
//! 2. `sum_row` is a level of a stripe that was read into a window, and `sum_levels` all of its levels at once, where
//!    each byte is read once; `write_window` writes the levels of the chosen stripes of one, by just these calls, and
//!    keeps all other bytes. Then parity holds their rows, with zeros in what was added besides (`ran`, `changes`,
//!    `written`, `elsewhere`). `sum_window` makes the sums of all stripes of a window side by side, and `write_sums`
//!    writes those of the chosen ones by the same calls (`summing.rt`).
//! 3. After `settle` a stop leaves parity as it reads (`settled`).
//! 4. `read_levels` reads each level's block of a stripe by one call, and keeps what came (`read`). `read_ahead` reads the
//!    levels of several stripes before these calls, where the vault can, and they answer the same (`ahead.rt`). Where
//!    windows overlap, `take_ahead` takes what reads them, `fetch_beside` lets it read beside the cells of a window, and
//!    `put_ahead` gives it back.
//!
//! What is kept, is kept in each image at each moment within the call too, where the vault tells its images.
//! What parity holds is a row for each stripe that has one (`specs/Parity.antt`); when a table is sound is said in
//! `specs/Sound.antt`, and which rows close a stripe in `specs/Closing.antt`. Their laws are in `laws.rt`: from what
//! was read into a window, over the rows that were written, to a table that is sound with these stripes closed.
//! Not here: which stripes are written, and when they may be called synced.
#![tactic(auto)]

mod ahead;
pub mod laws;
mod lengths;
mod levels;
mod settling;
mod summing;
mod sums;
mod writing;

pub use ahead::{fetch_beside, put_ahead, read_ahead, take_ahead};
pub use lengths::set_lengths;
pub use levels::{LevelRead, Levels, read_levels};
pub use settling::settle;
pub use summing::{Sums, make_sums, sum_window, write_sums};
pub use sums::{sum_levels, sum_row};
pub use writing::write_window;
