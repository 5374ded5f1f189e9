//! Vectors of 32 bytes, and their products with one coefficient.

ghost use Rattle.std.specs.Prelude.{◌≡◌, ℕ, ◌+◌, ◌%◌, ◌<◌, ◌≤◌, length, slice_index};
ghost use Rattle.std.specs.Int.Bits.{bit_xor};
ghost use Rattle.gf256.specs.Field.{product};
ghost use Rattle.cauchy.specs.Lanes.{HasLanes, AreLaneTables, StoresFrom};

use gf256::halves;
use std::simd::prelude::*;

/// How many bytes a vector has.
pub const LANES: usize = 32;

/// For one coefficient the products with each low half of a byte, and with each high half, for `products`.
pub type LaneTables = [u8x32; 2];

/// The bytes from `start` on.
#[inline(always)]
pub fn load(bytes: &[u8], start: usize) -> u8x32
    requires { start + 32 ≤ length bytes.now }
    ensures { HasLanes result (λ k. slice_index bytes.now (start + k)) }
{
    u8x32::from_slice(&bytes[start..])
}

/// Puts the lanes in place of the bytes from `start` on.
#[inline(always)]
pub fn store(lanes: u8x32, start: usize, out: &mut [u8])
    requires { start + 32 ≤ length out.old }
    ensures { StoresFrom start 32 (λ k. slice_index lanes k) out.old out.new }
{
    lanes.copy_to_slice(&mut out[start..]);
}

// The bytes from `start` on, where fewer than 32 are left, with zeros behind them.
#[cold]
fn load_end(bytes: &[u8], start: usize) -> u8x32
    requires some { start ≤ length bytes.now }
    requires few { length bytes.now < start + 32 }
    ensures { HasLanes result (λ k. slice_index bytes.now (start + k)) }
{
    let mut end = [0; LANES];
    for k in 0..bytes.len() - start {
        end[k] = bytes[start + k];
    }
    u8x32::from_array(end)
}

/// The bytes from `start` on, with zeros behind their end.
#[inline(always)]
pub fn load_padded(bytes: &[u8], start: usize) -> u8x32
    requires { start ≤ length bytes.now }
    ensures { HasLanes result (λ k. slice_index bytes.now (start + k)) }
{
    if bytes.len() - start < LANES {
        return load_end(bytes, start);
    }
    load(bytes, start)
}

// Puts the first lanes in place of as many bytes from `start` on, one by one.
#[cold]
fn store_few(lanes: u8x32, width: usize, start: usize, out: &mut [u8])
    requires width { width ≤ 32 }
    requires place { start + width ≤ length out.old }
    ensures { StoresFrom start width (λ k. slice_index lanes k) out.old out.new }
{
    let bytes = lanes.to_array();
    for k in 0..width {
        out[start + k] = bytes[k];
    }
}

/// Puts the first lanes in place of as many bytes from `start` on.
#[inline(always)]
pub fn store_some(lanes: u8x32, width: usize, start: usize, out: &mut [u8])
    requires width { width ≤ 32 }
    requires place { start + width ≤ length out.old }
    ensures { StoresFrom start width (λ k. slice_index lanes k) out.old out.new }
{
    if width < LANES {
        store_few(lanes, width, start, out);
        return;
    }
    store(lanes, start, out);
}

/// The sums of the lanes of two vectors.
#[inline(always)]
pub fn sums(a: u8x32, b: u8x32) -> u8x32
    ensures { HasLanes result (λ k. bit_xor (slice_index a k) (slice_index b k)) }
{
    a ^ b
}

/// A table of sixteen bytes, twice.
fn twice(table: [u8; 16]) -> u8x32
    ensures { HasLanes result (λ k. slice_index table (k % 16)) }
{
    let half = u8x16::from_array(table);
    half.shuffle::<32>(
        half,
        [
            0, 1, 2, 3, 4, 5, 6, 7, 8, 9, 10, 11, 12, 13, 14, 15, 16, 17, 18, 19, 20, 21, 22, 23,
            24, 25, 26, 27, 28, 29, 30, 31,
        ],
    )
}

/// The tables of a coefficient.
pub fn lane_tables(coefficient: u8) -> LaneTables
    ensures { AreLaneTables coefficient result }
{
    let [low, high] = halves(coefficient);
    [twice(low), twice(high)]
}

/// The products of the tables' coefficient with each lane.
#[inline(always)]
pub fn products(tables: &LaneTables, bytes: u8x32) -> u8x32
    ensures { (k : ℕ) → AreLaneTables k tables.now →
        HasLanes result (λ i. product k (slice_index bytes i)) }
{
    let low = tables[0].swizzle_dyn_within::<16>(bytes & u8x32::splat(15));
    let high = tables[1].swizzle_dyn_within::<16>(bytes >> u8x32::splat(4));
    low ^ high
}

/// Twice each lane.
#[inline(always)]
pub fn doubled(bytes: u8x32) -> u8x32
    ensures { HasLanes result (λ k. product 2 (slice_index bytes k)) }
{
    let reduction = bytes
        .simd_ge(u8x32::splat(0x80))
        .select(u8x32::splat(0x1d), u8x32::splat(0));
    (bytes + bytes) ^ reduction
}
