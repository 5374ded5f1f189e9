// The hashes of blocks: a mark of all of them in a row, and whether they are the same.
ghost use Rattle.std.specs.Prelude.{◌≡◌};
ghost use Rattle.hash_index.specs.Duplicates.{hashes_of, same_hash, same_hashes};
ghost use Rattle.hash_index.specs.Marking.{mark_in, mixed_with};

use block_hash::Digest16;
use file_table::Block;

// It is odd, so that no hash is lost on the way.
const FACTOR: u64 = 0x9e37_79b9_7f4a_7c15;

/// The mark of blocks that all have their hashes. It is a function of these, and may be the same
/// for others: that costs time, and never an answer.
pub fn mark_of_blocks(blocks: &[Block]) -> Option<u64>
    ensures { result ≡ mark_in (hashes_of blocks.now) }
{
    let mut mark = 0;
    for block in blocks {
        let Some(digest) = block.hash else {
            return None;
        };
        mark = mixed(mark, digest);
    }
    Some(mark)
}

// A mark after one more hash. The hashes are spread evenly by themselves.
#[tactic(auto, unfolding(crate::specs::Marking::mixed_with))]
fn mixed(mark: u64, digest: Digest16) -> u64
    ensures { result ≡ mixed_with mark digest }
{
    let half = (u128::from_le_bytes(digest.0) >> 64) as u64;
    mark.wrapping_mul(FACTOR).wrapping_add(half)
}

/// Whether blocks have all their hashes, and the same in the same places.
pub fn have_same_hashes(first: &[Block], other: &[Block]) -> bool
    ensures { result ≡ same_hashes (hashes_of first.now) (hashes_of other.now) }
{
    if first.len() != other.len() {
        return false;
    }
    for at in 0..first.len() {
        if !is_same_hash(first[at].hash, other[at].hash) {
            return false;
        }
    }
    true
}

fn is_same_hash(first: Option<Digest16>, other: Option<Digest16>) -> bool
    ensures { result ≡ same_hash first other }
{
    match (first, other) {
        (Some(one), Some(second)) => one == second,
        _ => false,
    }
}
