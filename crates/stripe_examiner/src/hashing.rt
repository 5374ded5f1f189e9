// The blocks of the first choices of stripes, hashed eight at a time.
ghost use Rattle.std.specs.Prelude.{◌≡◌, ℕ, ◌*◌, ◌/◌, ◌%◌, ◌<◌, ◌≤◌, All, IfSome, Some, length, slice_index, slice_index_or, slice_set};
ghost use Rattle.block_hash.specs.Hash.{hash};
ghost use Rattle.block_hash.specs.declared.Digest16.{Digest16};
ghost use Rattle.block_hash.specs.declared.Kind.TheVariants.{Md5};
ghost use Rattle.stripe_examiner.specs.declared.room.StripeRoom.{StripeRoom};
ghost use Rattle.stripe_examiner.specs.FirstChoice.{HashesRooms, HaveSixBlocks};
ghost use Rattle.stripe_examiner.specs.Search.{block_in};

use crate::room::StripeRoom;
use block_hash::{Digest16, Kind};
use file_table::Shape;
use md5_lanes::digest_eight;

// The numbers of up to eight of the blocks that are hashed together, six numbers for each room, from one on. Where there are
// fewer, others stand for the rest. One alone is hashed as soon by itself.
fn next_eight(rooms: &[StripeRoom], from: usize) -> Option<[usize; 8]>
    ensures within { IfSome result (All (λ at. at < length rooms.now * 6)) }
    ensures later { IfSome result (λ eight. from ≤ slice_index eight 7) }
{
    let end = rooms.len().saturating_mul(6);
    if from >= end {
        return None;
    }
    let mut eight = [from; 8];
    let mut count = 0;
    for at in from..end {
        if rooms[at / 6].first.full[at % 6] {
            eight[count] = at;
            eight[7] = at;
            count += 1;
            if count == 8 {
                return Some(eight);
            }
        }
    }
    if count < 2 {
        return None;
    }
    Some(eight)
}

// The block of a number.
fn block_at(rooms: &[StripeRoom], size: usize, at: usize) -> &[u8]
    requires most { size ≤ 4194304 }
    requires rooms { HaveSixBlocks size rooms.now }
    requires within { at < length rooms.now * 6 }
    ensures size { length result.now ≡ size }
    ensures value { (other : StripeRoom) →
        result.now ≡ block_in size (slice_index_or rooms.now (at / 6) other).blocks.items (at % 6) }
{
    let start = at % 6 * size;
    &rooms[at / 6].blocks[start..start + size]
}

// The MD5 of eight blocks.
fn digests_of(
    seed: &[u8; 16],
    size: usize,
    rooms: &[StripeRoom],
    eight: &[usize; 8],
) -> [Digest16; 8]
    requires most { size ≤ 4194304 }
    requires rooms { HaveSixBlocks size rooms.now }
    requires within { All (λ at. at < length rooms.now * 6) eight.now }
    ensures { (k : ℕ) (digest : Digest16) (other : StripeRoom) → k < 8 →
        (slice_index_or result k digest).0 ≡ hash Md5 seed.now
        (block_in size (slice_index_or rooms.now (slice_index eight.now k / 6) other).blocks.items
        (slice_index eight.now k % 6)) }
{
    let none: &[u8] = &[];
    let mut bytes = [none; 8];
    for k in 0..8 {
        bytes[k] = block_at(rooms, size, eight[k]);
    }
    digest_eight(seed, &bytes)
}

// Gives a block of a room its digest.
fn give_digest(own: &mut StripeRoom, j: usize, digest: Digest16)
    requires { j < 6 }
    ensures { own.new ≡ record own.old {
      first = record own.old.first {
        digests = slice_set own.old.first.digests j (Some digest);
      };
    } }
{
    own.first.digests[j] = Some(digest);
}

// Gives eight blocks their digests.
fn hash_eight(shape: Shape, rooms: &mut [StripeRoom], eight: &[usize; 8])
    requires kind { shape.kind ≡ Md5 }
    requires most { shape.block_size ≤ 4194304 }
    requires rooms { HaveSixBlocks shape.block_size rooms.old }
    requires within { All (λ at. at < length rooms.old * 6) eight.now }
    ensures { HashesRooms shape rooms.old rooms.new }
{
    let digests = digests_of(&shape.seed, shape.block_size as usize, rooms, eight);
    for k in 0..8 {
        give_digest(&mut rooms[eight[k] / 6], eight[k] % 6, digests[k]);
    }
}

// Hashes blocks by MD5, as long as there are more.
fn hash_in_lanes(shape: Shape, rooms: &mut [StripeRoom])
    requires kind { shape.kind ≡ Md5 }
    requires most { shape.block_size ≤ 4194304 }
    requires rooms { HaveSixBlocks shape.block_size rooms.old }
    ensures { HashesRooms shape rooms.old rooms.new }
{
    let mut from = 0;
    while let Some(eight) = next_eight(rooms, from) {
        hash_eight(shape, rooms, &eight);
        from = eight[7] + 1;
    }
}

/// Hashes the full blocks of the first choices of stripes eight at a time, over all of these rooms, where the kind has lanes.
pub(crate) fn hash_together(shape: Shape, rooms: &mut [StripeRoom])
    requires most { shape.block_size ≤ 4194304 }
    requires rooms { HaveSixBlocks shape.block_size rooms.old }
    ensures { HashesRooms shape rooms.old rooms.new }
{
    match shape.kind {
        Kind::Md5 => hash_in_lanes(shape, rooms),
        Kind::Sha256 => {}
    }
}
