//! Which files of a table hold the same, and blocks by their hashes.
//!
//! Start at `Pairs` in `pairs.rt`, which gives the pairs of `specs/Duplicates.antt` one by one, and
//! at `BlockIndex` in `block_index.rt`, which finds the first block of a hash and a length.
//! Proved: `Pairs` gives exactly these pairs, each once and in their order, and the index the first
//! entry that was added. A refused `add` changes nothing.
//! Of a pair nothing is kept: each record has a link to the next one that is the same
//! (`specs/Linking.antt`), and following links is the list (`specs/Listing.antt`).
//! Not here: how pairs are printed, and whose blocks an index holds.
#![tactic(auto)]

mod block_index;
mod links;
mod marks;
mod pair;
mod pairs;
mod records;

pub use block_index::{BlockIndex, Entry, Hash};
pub use pair::Pair;
pub use pairs::Pairs;
