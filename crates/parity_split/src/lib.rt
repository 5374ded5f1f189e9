//! Several files as one level of a vault.
//!
//! `SplitVault` in `vault.rt` meets `Vault`, also in what a stop may leave. Start at `specs/Joined.antt`, which says what a
//! level of several parts holds, and `specs/Parts.antt`, which says how what a stop leaves of the parts keeps in step with
//! what is read. A `Shape` says how levels are split: it is a type, so that who hands a split vault out and gets it back
//! knows that its levels are split as before.
//!
//! `parts.rt` finds where a level ends, `growth.rt` fills parts, `cutting.rt` empties them, `lengths.rt` changes the length
//! of a level, `reading.rt` and `writing.rt` read and write its bytes over the edges of parts, and `ahead.rt` plans what of
//! them is read ahead. `base.rt` says why they stand on a trait of their own.
#![tactic(auto)]

mod ahead;
mod base;
mod cutting;
mod growth;
mod lengths;
mod making;
mod parts;
mod reading;
mod vault;
mod writing;

pub use vault::{Shape, SplitVault};
