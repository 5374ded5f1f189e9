// The 64 bytes at a place of a seed, a block and the padding of both (RFC 1321, 3.1 and 3.2).
ghost use Rattle.std.specs.Prelude.{◌≡◌, ◌+◌, ◌*◌, ◌/◌, ◌≤◌, All, length, slice_index};
ghost use Rattle.md5.specs.Md5.{compress};
ghost use Rattle.md5_lanes.specs.Lanes.{EachLane, lane, bytes_of};
ghost use Rattle.md5_lanes.specs.Message.{bytes_at, message};

use crate::rounds::compress;
use crate::state::State;

// Byte `at` of the padded message.
#[inline(always)]
fn byte(seed: &[u8; 16], block: &[u8], at: usize) -> u8
    requires { length block.now ≤ 4194304 }
    ensures { result ≡ slice_index (message seed.now block.now) at }
{
    let end = 16 + block.len();
    if at < 16 {
        seed[at]
    } else if at < end {
        block[at - 16]
    } else if at == end {
        0x80
    } else {
        let zeros = (119 - end % 64) % 64;
        let start = end + 1 + zeros;
        if at >= start && at < start + 8 {
            let bits = (end as u64 * 8).to_le_bytes();
            bits[at - start]
        } else {
            0
        }
    }
}

// The 64 bytes at `at` of the padded message.
fn edge(seed: &[u8; 16], block: &[u8], at: usize) -> [u8; 64]
    requires short { length block.now ≤ 4194304 }
    requires within { at + 64 ≤ length (message seed.now block.now) }
    ensures { result ≡ bytes_at at (message seed.now block.now) }
{
    let mut out = [0u8; 64];
    'bytes: for i in 0..64 {
        out[i] = byte(seed, block, at + i);
    }
    out
}

// The 64 bytes at `at` of the padded message: of the block itself, where all lie in it.
fn part(seed: &[u8; 16], block: &[u8], at: usize) -> [u8; 64]
    requires short { length block.now ≤ 4194304 }
    requires within { at + 64 ≤ length (message seed.now block.now) }
    ensures { result ≡ bytes_at at (message seed.now block.now) }
{
    if at >= 16 && at + 48 <= block.len() {
        let mut out = [0u8; 64];
        out.copy_from_slice(&block[at - 16..at + 48]);
        out
    } else {
        edge(seed, block, at)
    }
}

// Takes in 64 bytes that hold some of the seed or of the padding of some lane.
fn compress_edge(state: State, seed: &[u8; 16], blocks: &[&[u8]; 8], at: usize) -> State
    requires short { All (λ block. length block.now ≤ 4194304) blocks.now }
    requires within { All (λ block. at + 64 ≤ length (message seed.now block.now)) blocks.now }
    ensures { EachLane (λ i.
        lane result i ≡ compress (lane state i) (bytes_at at (message seed.now (bytes_of blocks.now i)))) }
{
    let [b0, b1, b2, b3, b4, b5, b6, b7] = *blocks;
    let e0 = part(seed, b0, at);
    let e1 = part(seed, b1, at);
    let e2 = part(seed, b2, at);
    let e3 = part(seed, b3, at);
    let e4 = part(seed, b4, at);
    let e5 = part(seed, b5, at);
    let e6 = part(seed, b6, at);
    let e7 = part(seed, b7, at);
    compress(state, &[&e0, &e1, &e2, &e3, &e4, &e5, &e6, &e7], 0)
}

/// Takes in the 64 bytes at `at` of each padded message: of the blocks themselves, where all 64 lie in each of them.
/// `len` is the length of the shortest block, or less.
#[inline(always)]
pub(crate) fn advance(
    state: State,
    seed: &[u8; 16],
    blocks: &[&[u8]; 8],
    len: usize,
    at: usize,
) -> State
    requires length { All (λ block. len ≤ length block.now) blocks.now }
    requires short { All (λ block. length block.now ≤ 4194304) blocks.now }
    requires within { at ≤ (len + 24) / 64 * 64 }
    ensures { EachLane (λ i.
        lane result i ≡ compress (lane state i) (bytes_at at (message seed.now (bytes_of blocks.now i)))) }
{
    if at >= 16 && at + 48 <= len {
        compress(state, blocks, at - 16)
    } else {
        compress_edge(state, seed, blocks, at)
    }
}
