//! What is kept of an array between runs: the files of each column with the positions and hashes
//! of their blocks, and what is known of each stripe.
//!
//! Start at `Table` in `table.rt`, and at `Builder` in `builder.rt`, the only way to make one.
//! Proved: a table is valid (`specs/Valid.antt`), the builder refuses exactly what would break
//! that and says so beforehand (`specs/Building.antt`), each query reads what was pushed, and
//! closing stripes, one after another, changes their hashes and infos alone and leaves what is
//! seen of the others (`laws.rt`, `specs/Closing.antt`).
//! For the crates above: what was pushed so far, and one part more (`specs/Pushing.antt`,
//! `proofs/PushingLemmas.antt`); the loop that closes a stripe (`proofs/ClosingLemmas.antt`).
//! How large a table may be stands in `limits.rt` alone.
//! Not here: how a table is spelled in a content file.
#![tactic(auto)]

mod block;
mod builder;
mod count;
mod disk;
mod fault;
mod index;
mod info;
pub mod laws;
pub mod limits;
mod name;
mod shape;
mod stripes;
mod table;

pub use block::{Block, Cell};
pub use builder::Builder;
pub use count::blocks_for;
pub use fault::BuildFault;
pub use info::{Info, Mark};
pub use shape::Shape;
pub use table::Table;
