// What the whole of a table has in common.
use block_hash::Kind;

/// What all blocks of an array have in common.
#[derive(Clone, Copy, Debug, PartialEq, Eq)]
pub struct Shape {
    /// In bytes: 1 to 4,096 KiB.
    pub block_size: u32,
    /// How many parity files there are: 1 to 6.
    pub levels: u32,
    /// The function that blocks are hashed by.
    pub kind: Kind,
    /// What is hashed before each block.
    pub seed: [u8; 16],
}
