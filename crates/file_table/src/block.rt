// A file's blocks.
use block_hash::Digest16;

/// A block of a file.
#[derive(Clone, Copy, Debug, PartialEq, Eq)]
pub struct Block {
    /// Its stripe.
    pub position: u32,
    /// The hash of its bytes as of the last sync of that stripe; `None` before the first.
    pub hash: Option<Digest16>,
}

/// Which block of a column it is that a stripe holds.
#[derive(Clone, Copy, Debug, PartialEq, Eq)]
pub struct Cell {
    /// The number of its record in the column.
    pub rec: u32,
    /// The number of the block in the record.
    pub index: u32,
}

impl Block {
    ghost use Rattle.std.specs.Prelude.{◌≡◌, None, Some};
    ghost use Rattle.file_table.specs.Valid.{HasDigest};

    // A block of these parts.
    pub(crate) fn new(position: u32, hash: Option<Digest16>) -> Block
        ensures value { result ≡ record { position = position; hash = hash } }
        ensures digest { HasDigest result }
    {
        match hash {
            Some(digest) => Block::hashed(position, digest),
            None => Block {
                position,
                hash: None,
            },
        }
    }

    // A block whose bytes have this hash.
    fn hashed(position: u32, digest: Digest16) -> Block
        ensures value { result ≡ record { position = position; hash = Some digest } }
        ensures digest { HasDigest result }
    {
        Block {
            position,
            hash: Some(digest),
        }
    }
}
