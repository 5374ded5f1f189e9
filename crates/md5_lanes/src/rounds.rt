// The compression function of MD5 (RFC 1321, 3.4) on eight states at once: lane i of each vector is a word of state i.
ghost use Rattle.std.specs.Prelude.{◌≡◌, ℕ, ◌+◌, ◌<◌, ◌≤◌, List, All, length, slice_index};
ghost use Rattle.md5.specs.Md5.{round, rounds, compress};
ghost use Rattle.md5_lanes.specs.Lanes.{EachLane, lane, lane_words, bytes_of};
ghost use Rattle.md5_lanes.specs.Message.{bytes_at};
ghost use Rattle.md5_lanes.specs.Rounds.{Advances};

use crate::lanes::{f_lanes, g_lanes, h_lanes, i_lanes, rotated};
use crate::load::load;
use crate::state::State;
use std::simd::prelude::*;

// T, the constant of each step.
const CONSTANTS: [u32; 64] = [
    0xd76aa478, 0xe8c7b756, 0x242070db, 0xc1bdceee, 0xf57c0faf, 0x4787c62a, 0xa8304613, 0xfd469501,
    0x698098d8, 0x8b44f7af, 0xffff5bb1, 0x895cd7be, 0x6b901122, 0xfd987193, 0xa679438e, 0x49b40821,
    0xf61e2562, 0xc040b340, 0x265e5a51, 0xe9b6c7aa, 0xd62f105d, 0x02441453, 0xd8a1e681, 0xe7d3fbc8,
    0x21e1cde6, 0xc33707d6, 0xf4d50d87, 0x455a14ed, 0xa9e3e905, 0xfcefa3f8, 0x676f02d9, 0x8d2a4c8a,
    0xfffa3942, 0x8771f681, 0x6d9d6122, 0xfde5380c, 0xa4beea44, 0x4bdecfa9, 0xf6bb4b60, 0xbebfbc70,
    0x289b7ec6, 0xeaa127fa, 0xd4ef3085, 0x04881d05, 0xd9d4d039, 0xe6db99e5, 0x1fa27cf8, 0xc4ac5665,
    0xf4292244, 0x432aff97, 0xab9423a7, 0xfc93a039, 0x655b59c3, 0x8f0ccc92, 0xffeff47d, 0x85845dd1,
    0x6fa87e4f, 0xfe2ce6e0, 0xa3014314, 0x4e0811a1, 0xf7537e82, 0xbd3af235, 0x2ad7d2bb, 0xeb86d391,
];

// The shift of each step.
const SHIFTS: [u32; 64] = [
    7, 12, 17, 22, 7, 12, 17, 22, 7, 12, 17, 22, 7, 12, 17, 22, 5, 9, 14, 20, 5, 9, 14, 20, 5, 9,
    14, 20, 5, 9, 14, 20, 4, 11, 16, 23, 4, 11, 16, 23, 4, 11, 16, 23, 4, 11, 16, 23, 6, 10, 15,
    21, 6, 10, 15, 21, 6, 10, 15, 21, 6, 10, 15, 21,
];

// One step, from what it reads.
#[inline(always)]
fn round(v: State, f: u32x8, constant: u32, word: u32x8, shift: u32) -> State
    requires some { 0 < shift }
    requires few { shift < 32 }
    ensures { EachLane (λ i.
        lane result i ≡ round (lane v i) (slice_index f i) constant (slice_index word i) shift) }
{
    let State { a, b, c, d } = v;
    // `f` depends on the step before, so adding it last shortens the chain.
    let sum = a + word + u32x8::splat(constant) + f;
    State {
        a: d,
        b: b + rotated(sum, shift),
        c: b,
        d: c,
    }
}

// Step t.
#[inline(always)]
fn step(words: &[u32x8; 16], v: State, t: usize) -> State
    requires { t < 64 }
    ensures { Advances words.now v result t (t + 1) }
{
    let constant = CONSTANTS[t];
    let shift = SHIFTS[t];
    if t < 16 {
        round(v, f_lanes(v.b, v.c, v.d), constant, words[t], shift)
    } else if t < 32 {
        round(
            v,
            g_lanes(v.b, v.c, v.d),
            constant,
            words[(5 * t + 1) % 16],
            shift,
        )
    } else if t < 48 {
        round(
            v,
            h_lanes(v.b, v.c, v.d),
            constant,
            words[(3 * t + 5) % 16],
            shift,
        )
    } else {
        round(
            v,
            i_lanes(v.b, v.c, v.d),
            constant,
            words[7 * t % 16],
            shift,
        )
    }
}

#[inline(always)]
fn four_steps(words: &[u32x8; 16], v: State, t: usize) -> State
    requires { t + 4 ≤ 64 }
    ensures { Advances words.now v result t (t + 4) }
{
    let v = step(words, v, t);
    let v = step(words, v, t + 1);
    let v = step(words, v, t + 2);
    step(words, v, t + 3)
}

// The 64 steps. They are written out, so that each has its place as a constant.
#[inline(always)]
fn all_steps(words: &[u32x8; 16], state: State) -> State
    ensures { Advances words.now state result 0 64 }
{
    let v = four_steps(words, state, 0);
    let v = four_steps(words, v, 4);
    let v = four_steps(words, v, 8);
    let v = four_steps(words, v, 12);
    let v = four_steps(words, v, 16);
    let v = four_steps(words, v, 20);
    let v = four_steps(words, v, 24);
    let v = four_steps(words, v, 28);
    let v = four_steps(words, v, 32);
    let v = four_steps(words, v, 36);
    let v = four_steps(words, v, 40);
    let v = four_steps(words, v, 44);
    let v = four_steps(words, v, 48);
    let v = four_steps(words, v, 52);
    let v = four_steps(words, v, 56);
    four_steps(words, v, 60)
}

/// Runs the 64 steps over the 64 bytes at `at` of each block, and adds the result to the state.
#[inline(never)]
pub(crate) fn compress(state: State, blocks: &[&[u8]; 8], at: usize) -> State
    requires within { All (λ block. at + 64 ≤ length block.now) blocks.now }
    requires near { at ≤ 4194304 }
    ensures { EachLane (λ i. lane result i ≡ compress (lane state i) (bytes_at at (bytes_of blocks.now i))) }
{
    let words = load(blocks, at);
    let v = all_steps(&words, state);
    State {
        a: state.a + v.a,
        b: state.b + v.b,
        c: state.c + v.c,
        d: state.d + v.d,
    }
}
