//! The hash of a block of a file: 16 bytes, of MD5 or of SHA-256, over a seed and the block.
//!
//! Start at `digest`: it returns `hash` of `specs/Hash.antt`, which says what RFC 1321 and
//! FIPS 180-4 make of the seed followed by the block.
//! Proved: `digest` is that definition, and a `Digest16` prints as lower-case hexadecimal.
//! Neither takes memory, and the block is not copied.
//! Not here: which kind and seed an array has, and where a block of a file ends.
#![tactic(auto)]

ghost use Rattle.std.specs.Prelude.{◌≡◌, ◌≤◌, Some, length};
ghost use Rattle.block_hash.specs.Hash.{hash};
ghost use Rattle.hex.specs.Hex.{encode_lower};

use md5::{Digest as _, Md5};
use sha2::{Digest as _, Sha256};
use std::{fmt, str};

#[cfg(test)]
mod tests;

/// The function that an array's blocks are hashed by.
#[derive(Clone, Copy, Debug, PartialEq, Eq, PartialOrd, Ord, Hash)]
pub enum Kind {
    /// MD5 (RFC 1321).
    Md5,
    /// SHA-256 (FIPS 180-4), of which the first 16 bytes are kept.
    Sha256,
}

/// The hash of a block. It prints as 32 lower-case hexadecimal digits.
#[derive(Clone, Copy, Debug, PartialEq, Eq, PartialOrd, Ord, Hash)]
pub struct Digest16(pub [u8; 16]);

impl fmt::Display for Digest16 {
    ghost output = { λ digest. Some (encode_lower digest.0) };

    fn fmt<W: fmt::Write>(&self, f: &mut fmt::Formatter<W>) -> fmt::Result {
        let mut digits = [0u8; 32];
        let Ok(()) = hex::encode_to_slice(self.0, &mut digits) else {
            unreachable!();
        };
        let Ok(text) = str::from_utf8(&digits) else {
            unreachable!();
        };
        f.write_str(text)
    }
}

/// The hash of a block's bytes behind an array's seed. The last block of a file is hashed at its
/// real length.
#[tactic(auto, unfolding(crate::specs::Hash::hash))]
pub fn digest(kind: Kind, seed: &[u8; 16], bytes: &[u8]) -> Digest16
    requires { length bytes.now ≤ 4194304 }
    ensures { result.0 ≡ hash kind seed.now bytes.now }
{
    match kind {
        Kind::Md5 => Digest16(Md5::new_with_prefix(seed).chain_update(bytes).finalize()),
        Kind::Sha256 => {
            let whole = Sha256::new_with_prefix(seed).chain_update(bytes).finalize();
            let mut first = [0u8; 16];
            first.copy_from_slice(&whole[..16]);
            Digest16(first)
        }
    }
}
