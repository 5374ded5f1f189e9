//! The content file: a table as bytes and back, and its copies in a vault.
//!
//! Start at `Decoder` in `decoder.rt`, `Encoder` in `encoder.rt`, `load` in `loading.rt` and `save` in
//! `saving.rt`; the format is `specs/Spelling.antt`, and the first wrong field of bytes `specs/FirstFlaw.antt`.
//! Proved: a `Decoder`, and `decode` by it, gives the table that its pieces spell, however they are cut, and refuses
//! exactly the bytes that spell none, with their first wrong field; the pieces of an `Encoder` are the spelling of a
//! table with its `TableDigest`. `load` gives the table of the first copy that can be read and spells one. `save` leaves
//! each copy as it was or whole, at every moment. Each other answer has its cause.
//! A table has one spelling, no spelling begins another, and bytes have a first wrong field exactly where they spell
//! none (module `laws`).
//! Not here: what a table may say, and how a vault keeps its files.
#![tactic(auto)]

mod body;
mod checked;
mod damages;
mod decoder;
mod decoding;
mod digest;
mod encoder;
mod ending;
mod fault;
mod field;
mod head;
pub mod laws;
mod loading;
mod place;
mod reader;
mod remaining;
mod saving;

pub use damages::Damages;
pub use decoder::Decoder;
pub use decoding::decode;
pub use digest::TableDigest;
pub use encoder::Encoder;
pub use fault::{Damage, DecodeFault, Flaw};
pub use loading::{LoadFault, PIECE, load};
pub use saving::save;
