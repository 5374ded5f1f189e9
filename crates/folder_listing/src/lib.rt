//! The files of the folders of an array, listed side by side, and which of them are kept.
//!
//! Proved: `listings` asks each folder once, and gives the files of each or the first fault in the order of the columns
//! (`specs/Listings.antt`); `kept` gives the kept files of a column in the order of its listing (`specs/Kept.antt`).
//! Not here: what the files hold, and what becomes of their records (`array_scan`).
#![tactic(auto)]

mod keeping;
mod listing;

pub use keeping::kept;
pub use listing::{Listing, ListingFault, listings};
