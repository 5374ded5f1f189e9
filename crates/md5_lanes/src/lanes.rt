// The functions of the rounds (RFC 1321, 3.4) and a rotation, on eight words at once.
ghost use Rattle.std.specs.Prelude.{◌≡◌, ◌<◌, length, slice_index};
ghost use Rattle.std.specs.Int.{rotate_left, w32};
ghost use Rattle.md5.specs.Md5.{f_fn, g_fn, h_fn, i_fn};
ghost use Rattle.md5_lanes.specs.Lanes.{EachLane};

use std::simd::prelude::*;

#[inline(always)]
pub(crate) fn f_lanes(x: u32x8, y: u32x8, z: u32x8) -> u32x8
    ensures { EachLane (λ i. slice_index result i ≡ f_fn (slice_index x i) (slice_index y i) (slice_index z i)) }
{
    (x & y) | (!x & z)
}

#[inline(always)]
pub(crate) fn g_lanes(x: u32x8, y: u32x8, z: u32x8) -> u32x8
    ensures { EachLane (λ i. slice_index result i ≡ g_fn (slice_index x i) (slice_index y i) (slice_index z i)) }
{
    (x & z) | (y & !z)
}

#[inline(always)]
pub(crate) fn h_lanes(x: u32x8, y: u32x8, z: u32x8) -> u32x8
    ensures { EachLane (λ i. slice_index result i ≡ h_fn (slice_index x i) (slice_index y i) (slice_index z i)) }
{
    x ^ y ^ z
}

#[inline(always)]
pub(crate) fn i_lanes(x: u32x8, y: u32x8, z: u32x8) -> u32x8
    ensures { EachLane (λ i. slice_index result i ≡ i_fn (slice_index x i) (slice_index y i) (slice_index z i)) }
{
    y ^ (x | !z)
}

#[inline(always)]
pub(crate) fn rotated(x: u32x8, shift: u32) -> u32x8
    requires some { 0 < shift }
    requires few { shift < 32 }
    ensures long { length result ≡ 8 }
    ensures lanes { EachLane (λ i. slice_index result i ≡ rotate_left w32 (slice_index x i) shift) }
{
    (x << u32x8::splat(shift)) | (x >> u32x8::splat(32 - shift))
}
