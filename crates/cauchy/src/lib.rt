//! The extended Cauchy matrix, the parity that it gives, and the recovery of lost blocks.
//!
//! Entry A(0,c) is 1, A(1,c) is 2^c, and A(r,c) is (1 + 2^(r-1)) / (2^(-c) + 2^(r-1)) for r from 2 to 5, over the field of
//! the crate gf256, for columns c up to 250. Level r of a row of blocks is, byte by byte, the sum over the columns of A(r,c)
//! times the byte of column c. Begin with `specs/Matrix.antt`, then with `add_column` in `matrix.rt` and `solve` in
//! `recovery.rt`.
//!
//! Why it can always be solved: each entry is u / (q x + p), with x for its column and u, q and p for its row, and such a
//! matrix keeps this form when an unknown is eliminated (`proofs/CauchyForm.antt`).
//! Products are looked up 32 bytes at a time, by two tables of sixteen for each coefficient (`lanes.rt`), and what is left of
//! a block is done byte by byte. `fill_levels` does so for all levels of a row at once: it reads each byte once, and keeps the
//! sums of 32 bytes of each level at hand until all columns are added (`levels.rt`).
//! Proved: `entry`, `add_column` and `fill_levels` give the entries and the levels; `solve` gives back the blocks of up to six
//! columns from as many levels; for every choice of these the solution exists and is the only one (module `laws`).
#![tactic(auto)]

mod choice;
mod elimination;
mod inverse;
mod lanes;
pub mod laws;
mod levels;
mod matrix;
mod products;
mod recovery;

pub use choice::is_choice;
pub use levels::fill_levels;
pub use matrix::{add_column, entry};
pub use recovery::solve;

#[cfg(test)]
mod tests;
