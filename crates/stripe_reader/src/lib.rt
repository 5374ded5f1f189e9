//! Reads windows of stripes, a thread for each column, and hashes their blocks by several threads.
//!
//! Start at `read_window` in `readers.rt`: it is `fetch_window` and then `hash_window` (`hashers.rt`). A `Window`
//! (`window.rt`) has a lane for each column, a lane has a slot for each stripe, and a slot keeps what was read of one
//! cell, with its digest (`slot.rt`). So the columns of a window are split as the folders are, by `split_at_mut`, and
//! one column is read by one thread, stripe after stripe (`reading.rt`). To be hashed, the slots of all lanes are
//! numbered, lane after lane, and threads have even shares of the numbers; blocks of about one length are hashed eight
//! at a time (`batch.rt`, `hashing.rt`). The current thread starts all others (`parts.rt`). What is asked of a folder
//! depends on where its files stood when the run began (`Starts`, `starts.rt`).
//! Its definitions: what is asked for a cell and what is read of it (`specs/Reading.antt`), by which calls
//! (`specs/FolderCalls.antt`), what a slot keeps of it (`specs/Slot.antt`), and what a window then holds, column by
//! column (`specs/Column.antt`, `specs/Columns.antt`) and stripe by stripe (`specs/Readings.antt`), and before it is
//! hashed (`specs/Fetched.antt`). None of them speaks of threads. What has to hold before stripes are read, and what a
//! window has then, is `specs/Held.antt`.
//! Proved: a window that was fetched and hashed holds that reading, for any number of threads; no more cells are unread
//! than a folder failed, and where it did not fail, the reading is what its files give (`laws.rt`). A block that is put
//! into a window changes its slot alone (`Window::put`).
//! Not here: what a reading means for a stripe, and any writing.
#![tactic(auto)]

mod agreeing;
mod batch;
mod cells;
mod hashers;
mod hashing;
pub mod laws;
mod parts;
mod readers;
mod reading;
mod slot;
mod starts;
mod window;

pub use agreeing::matches_digest;
pub use hashers::hash_window;
pub use parts::{for_each_chunk_mut, for_each_mut};
pub use readers::{fetch_window, read_window};
pub use slot::{CellRead, Found};
pub use starts::{Place, Start, Starts};
pub use window::{COLUMN_BYTES, WINDOW_BYTES, WINDOW_STRIPES, Window, stripe_count};
