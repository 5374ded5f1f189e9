// From the head to the digest: one reading of bytes, as far as they go.
ghost use Rattle.std.specs.Prelude.{◌≡◌, ◌⊎◌, ◌+◌, ◌≤◌, ℕ, List, [], ◌++◌, length, IsSome, IsTrue, ◌↔◌, Some, None};
ghost use Rattle.sha2.specs.Sha256.{sha256};
ghost use Rattle.sha2.specs.Hashers.{Holds256};
ghost use Rattle.content_file.specs.Body.{GoesOn};
ghost use Rattle.content_file.specs.Decoding.{StopsOn, EndsWith, told};

use crate::body::Body;
use crate::fault::Refusal;
use crate::fault::Refusal::Flawed;
use crate::reader::piece_of;
use crate::{Damage, DecodeFault, Flaw};
use sha2::{Digest, Sha256};
use std::alloc::Global;

// How many bytes stand before the length of a table.
const BEFORE_LENGTH: u64 = 30;

/// Reads on from a place as far as the bytes go, up to the digest.
pub(crate) fn read_on<'a>(
    alloc: Global,
    place: &mut Option<Body>,
    bytes: &'a [u8],
) -> (&'a [u8], Result<(), Refusal<'a>>)
    ensures goes { GoesOn place.old bytes.now place.new result.0.now }
    ensures stops { StopsOn place.new result.0.now result.1 }
    ensures long { IsSome place.new → IsSome place.old ⊎ (length result.0.now + 30 ≤ length bytes.now) }
{
    match place {
        Some(body) => body.read(alloc, bytes),
        None => match Body::start(alloc, bytes) {
            Err(refusal) => (bytes, Err(refusal)),
            Ok((started, rest)) => {
                let mut body = started;
                let answer = body.read(alloc, rest);
                *place = Some(body);
                answer
            }
        },
    }
}

// Whether the bytes are the digest of what the hasher holds.
fn is_digest(hasher: Sha256, bytes: &[u8]) -> bool
    ensures { (before : List ℕ) → Holds256 hasher before → IsTrue result ↔ (bytes.now ≡ sha256 before) }
{
    bytes == hasher.finalize().as_slice()
}

/// Whether the last bytes are the digest of those before, which the hasher holds, and nothing else.
pub(crate) fn end_of(hasher: Sha256, last: &[u8]) -> Result<(), Refusal<'_>>
    ensures { (whole before : List ℕ) → Holds256 hasher before → whole ≡ before ++ last.now → EndsWith whole last.now result }
{
    let (digest, rest) = piece_of(32, last)?;
    if !is_digest(hasher, digest) {
        return Err(Flawed(Flaw::Digest, last));
    }
    if !rest.is_empty() {
        return Err(Flawed(Flaw::Extra, rest));
    }
    Ok(())
}

/// What a refusal among the last bytes of so many is to one who sees them all.
pub(crate) fn told(fed: u64, stop: Result<(), Refusal<'_>>) -> Result<(), DecodeFault>
    ensures { result ≡ told fed stop.entry }
{
    match stop {
        Ok(()) => Ok(()),
        Err(Flawed(why, field)) => Err(DecodeFault::Damaged(Damage {
            offset: fed.saturating_sub(field.len() as u64),
            why,
        })),
        Err(Refusal::Length) => Err(DecodeFault::Damaged(Damage {
            offset: BEFORE_LENGTH,
            why: Flaw::Length,
        })),
        Err(Refusal::Memory) => Err(DecodeFault::Memory),
    }
}
