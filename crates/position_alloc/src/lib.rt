//! The free positions of a column: which is the lowest, and which are taken.
//!
//! Begin with `FreeList` in `free_list.rt`, which contracts see as the finite set of the taken positions, and with
//! `lowest_free` in `specs/Lowest.antt`. A position is one bit, and a tree over the words of 64 bits has in each node the
//! lowest free position below it. So `mark`, `take` and `give` take time in proportion to the tree's height, and all of it
//! 16 bytes for 64 positions. Memory grows by doubling, up to the greatest position that was ever taken.
//! Proved: `take` takes the least free position, and each call leaves exactly the stated set; out of memory nothing changes.
#![tactic(auto)]

mod free_list;
pub mod laws;
mod tree;

pub use free_list::FreeList;

#[cfg(test)]
mod tests;
