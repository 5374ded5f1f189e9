//! MD5 of eight blocks at once, each behind the same seed, in the lanes of vectors.
//!
//! Start at `digest_eight`: each digest is `hash` of block_hash, which is RFC 1321's through the kit's `md5`. A message
//! is a seed, a block and their padding. It is taken in 64 bytes at a time (`padding.rt`), which are loaded as the
//! words of eight blocks (`load.rt`) and go through the 64 steps (`rounds.rt`) by functions on vectors (`lanes.rt`). A
//! lane whose message has ended gives its digest, and is shown the longest block from then on (`stages.rt`): all eight
//! take as long as the longest.
//! Proved: lane i is what the kit's definitions make of state i and block i. No memory is taken, no block is copied.
//! Not here: fewer than eight blocks.
#![tactic(auto)]

ghost use Rattle.std.specs.Prelude.{◌≡◌, ◌<◌, ◌≤◌, All, length, slice_index_or};
ghost use Rattle.std.specs.List.{AllZip};
ghost use Rattle.md5.specs.Md5.{initial_hash, hash_after, digest_bytes};
ghost use Rattle.block_hash.specs.Hash.{hash};
ghost use Rattle.block_hash.specs.declared.Digest16.{Digest16};
ghost use Rattle.block_hash.specs.declared.Kind.TheVariants.{Md5};
ghost use Rattle.md5_lanes.specs.Ended.{IsDigestAfter};
ghost use Rattle.md5_lanes.specs.Lanes.{EachLane, bytes_of, lane};
ghost use Rattle.md5_lanes.specs.Message.{chunk_count, message};

mod lanes;
mod load;
mod padding;
mod rounds;
mod stages;
mod state;
#[cfg(test)]
mod tests;

use block_hash::Digest16;
use padding::advance;
use stages::{chunk_count, has_chunks, least_length, longest, shown};
use state::State;
use std::simd::prelude::*;

fn start() -> State
    ensures { EachLane (λ i. lane result i ≡ initial_hash) }
{
    State {
        a: u32x8::splat(0x67452301),
        b: u32x8::splat(0xefcdab89),
        c: u32x8::splat(0x98badcfe),
        d: u32x8::splat(0x10325476),
    }
}

fn digest(s: &State, i: usize) -> Digest16
    requires { i < 8 }
    ensures { result.0 ≡ digest_bytes (lane s.now i) 4 }
{
    let a = s.a.to_array()[i].to_le_bytes();
    let b = s.b.to_array()[i].to_le_bytes();
    let c = s.c.to_array()[i].to_le_bytes();
    let d = s.d.to_array()[i].to_le_bytes();
    Digest16([
        a[0], a[1], a[2], a[3], b[0], b[1], b[2], b[3], c[0], c[1], c[2], c[3], d[0], d[1], d[2],
        d[3],
    ])
}

// Takes in chunks up to `end`, with which the message of the shortest block ends.
fn advance_to(
    state: State,
    seed: &[u8; 16],
    blocks: &[&[u8]; 8],
    len: usize,
    from: usize,
    end: usize,
) -> State
    requires length { All (λ block. len ≤ length block.now) blocks.now }
    requires short { All (λ block. length block.now ≤ 4194304) blocks.now }
    requires from { from ≤ end }
    requires end { end ≡ chunk_count len }
    ensures { EachLane (λ i. lane state i ≡ hash_after (message seed.now (bytes_of blocks.now i)) from →
        lane result i ≡ hash_after (message seed.now (bytes_of blocks.now i)) end) }
{
    let mut s = state;
    'chunks: for k in from..end {
        s = advance(s, seed, blocks, len, 64 * k);
    }
    s
}

// The digest in lane i after `end` chunks: of the state, where the block has so many, else the one that was there.
fn digest_after(
    s: &State,
    blocks: &[&[u8]; 8],
    digests: &[Digest16; 8],
    end: usize,
    i: usize,
) -> Digest16
    requires lane { i < 8 }
    requires short { All (λ block. length block.now ≤ 4194304) blocks.now }
    ensures { IsDigestAfter s.now blocks.now digests.now end i result }
{
    if has_chunks(blocks, i, end) {
        digest(s, i)
    } else {
        digests[i]
    }
}

// The digests after `end` chunks.
fn digests_after(
    s: &State,
    blocks: &[&[u8]; 8],
    digests: &[Digest16; 8],
    end: usize,
) -> [Digest16; 8]
    requires { All (λ block. length block.now ≤ 4194304) blocks.now }
    ensures long { length result ≡ 8 }
    ensures each { EachLane (λ i. (other : Digest16) →
        IsDigestAfter s.now blocks.now digests.now end i (slice_index_or result i other)) }
{
    [
        digest_after(s, blocks, digests, end, 0),
        digest_after(s, blocks, digests, end, 1),
        digest_after(s, blocks, digests, end, 2),
        digest_after(s, blocks, digests, end, 3),
        digest_after(s, blocks, digests, end, 4),
        digest_after(s, blocks, digests, end, 5),
        digest_after(s, blocks, digests, end, 6),
        digest_after(s, blocks, digests, end, 7),
    ]
}

/// The MD5 of each block behind the seed, all eight at once, in the time of the longest.
pub fn digest_eight(seed: &[u8; 16], blocks: &[&[u8]; 8]) -> [Digest16; 8]
    requires short { All (λ block. length block.now ≤ 4194304) blocks.now }
    ensures { AllZip (λ block digest. digest.0 ≡ hash Md5 seed.now block.now) blocks.now result }
{
    let longest = longest(blocks);
    let count = chunk_count(longest.len());
    let mut digests = [Digest16([0; 16]); 8];
    let mut s = start();
    let mut k = 0;
    'stages: while k < count {
        let lanes = shown(blocks, longest, k);
        let len = least_length(&lanes);
        let end = chunk_count(len);
        s = advance_to(s, seed, &lanes, len, k, end);
        digests = digests_after(&s, blocks, &digests, end);
        k = end;
    }
    digests
}
