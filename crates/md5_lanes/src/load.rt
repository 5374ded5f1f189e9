// The words of eight blocks: word j of block i in lane i of vector j.
ghost use Rattle.std.specs.Prelude.{◌≡◌, ℕ, ◌+◌, ◌*◌, ◌<◌, ◌≤◌, ◌++◌, All, [], ◌∷◌, length, slice_index, slice_index_or};
ghost use Rattle.md5.specs.Md5.{word_at, block_words};
ghost use Rattle.md5_lanes.specs.Lanes.{EachLane, lane_words, bytes_of};
ghost use Rattle.md5_lanes.specs.Message.{bytes_at};

use std::simd::ToBytes;
use std::simd::prelude::*;

// Four words of a block.
#[inline(always)]
fn four(bytes: &[u8], at: usize) -> u32x4
    requires { at + 16 ≤ length bytes.now }
    ensures { (j : ℕ) → j < 4 → slice_index result j ≡ word_at bytes.now (at + 4 * j) }
{
    u32x4::from_le_bytes(u8x16::from_slice(&bytes[at..]))
}

// Rows as columns.
#[inline(always)]
fn turned(a: u32x4, b: u32x4, c: u32x4, d: u32x4) -> [u32x4; 4]
    ensures { (j : ℕ) → j < 4 → slice_index_or result j []
        ≡ slice_index a j ∷ slice_index b j ∷ slice_index c j ∷ slice_index d j ∷ [] }
{
    let (t0, t1) = a.interleave(c);
    let (u0, u1) = b.interleave(d);
    let (r0, r1) = t0.interleave(u0);
    let (r2, r3) = t1.interleave(u1);
    [r0, r1, r2, r3]
}

#[inline(always)]
fn joined(a: u32x4, b: u32x4) -> u32x8
    ensures { result ≡ a ++ b }
{
    a.shuffle::<8>(b, [0, 1, 2, 3, 4, 5, 6, 7])
}

// Four words of each block.
#[inline(always)]
fn words(blocks: &[&[u8]; 8], at: usize) -> [u32x8; 4]
    requires { All (λ block. at + 16 ≤ length block.now) blocks.now }
    ensures { (j i : ℕ) → j < 4 → i < 8 →
        slice_index (slice_index_or result j []) i ≡ word_at (bytes_of blocks.now i) (at + 4 * j) }
{
    let [b0, b1, b2, b3, b4, b5, b6, b7] = *blocks;
    let [p0, p1, p2, p3] = turned(four(b0, at), four(b1, at), four(b2, at), four(b3, at));
    let [q0, q1, q2, q3] = turned(four(b4, at), four(b5, at), four(b6, at), four(b7, at));
    [
        joined(p0, q0),
        joined(p1, q1),
        joined(p2, q2),
        joined(p3, q3),
    ]
}

/// The words of the 64 bytes at `at` of each block.
#[inline(always)]
pub(crate) fn load(blocks: &[&[u8]; 8], at: usize) -> [u32x8; 16]
    requires within { All (λ block. at + 64 ≤ length block.now) blocks.now }
    requires near { at ≤ 4194304 }
    ensures { EachLane (λ i. lane_words result i ≡ block_words (bytes_at at (bytes_of blocks.now i)) 16) }
{
    let [w0, w1, w2, w3] = words(blocks, at);
    let [w4, w5, w6, w7] = words(blocks, at + 16);
    let [w8, w9, w10, w11] = words(blocks, at + 32);
    let [w12, w13, w14, w15] = words(blocks, at + 48);
    [
        w0, w1, w2, w3, w4, w5, w6, w7, w8, w9, w10, w11, w12, w13, w14, w15,
    ]
}
