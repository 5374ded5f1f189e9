//! The bytes of lost columns, 32 bytes of each block at a time.

ghost use Rattle.std.specs.Prelude.{◌≡◌, ◌+◌, ◌*◌, ◌/◌, ◌<◌, ◌≤◌, [], ℕ, length, slice_index, slice_index_or};
ghost use Rattle.cauchy.specs.Elimination.{cell, entries, HasShape};
ghost use Rattle.cauchy.specs.Lanes.{HasLanes, AreLaneTables};
ghost use Rattle.cauchy.specs.Solving.{recovered, AreTablesOf, RecoversWithin};
ghost use Rattle.cauchy.specs.System.{byte_in};

use crate::elimination::{MOST, Matrix, coefficient};
use crate::lanes::{LANES, LaneTables, lane_tables, load, products, store, sums};
use std::simd::prelude::*;

/// For each level and column of the inverse the tables of its coefficient.
type Tables = [[LaneTables; MOST]; MOST];

fn row_tables(inverse: &Matrix, i: usize, count: usize) -> [LaneTables; MOST]
    requires shape { HasShape count count inverse.now }
    requires row { i < count }
    requires count { count ≤ 6 }
    ensures { (j : ℕ) → j < count →
        AreLaneTables (entries inverse.now i j) (slice_index_or result j []) }
{
    let mut tables = [[u8x32::splat(0); 2]; MOST];
    for j in 0..count {
        tables[j] = lane_tables(coefficient(inverse, i, j));
    }
    tables
}

fn tables_of(inverse: &Matrix, count: usize) -> Tables
    requires shape { HasShape count count inverse.now }
    requires count { count ≤ 6 }
    ensures { AreTablesOf count (entries inverse.now) result }
{
    let mut tables = [[[u8x32::splat(0); 2]; MOST]; MOST];
    for i in 0..count {
        tables[i] = row_tables(inverse, i, count);
    }
    tables
}

/// 32 bytes of each block, from byte `p` on.
fn lanes_at(work: &[u8], block: usize, p: usize, count: usize) -> [u8x32; MOST]
    requires count { count ≤ 6 }
    requires size { length work.now ≡ count * block }
    requires place { p + 32 ≤ block }
    ensures { (i : ℕ) → i < count →
        HasLanes (slice_index_or result i []) (λ k. byte_in block work.now (p + k) i) }
{
    let mut lanes = [u8x32::splat(0); MOST];
    for i in 0..count {
        lanes[i] = load(work, i * block + p);
    }
    lanes
}

/// The bytes of column `j`, from the bytes of the levels.
fn recovered_lanes(tables: &Tables, given: &[u8x32; MOST], count: usize, j: usize) -> u8x32
    requires count { count ≤ 6 }
    requires column { j < count }
    ensures { (m : ℕ → ℕ → ℕ) → AreTablesOf count m tables.now →
        HasLanes result (λ k. recovered m count (λ i. cell given.now i k) j) }
{
    let mut sum = u8x32::splat(0);
    for i in 0..count {
        sum = sums(sum, products(&tables[i][j], given[i]));
    }
    sum
}

/// Puts the bytes of the columns in place of those of the levels, at 32 bytes of each block from `p` on.
fn recover_group(tables: &Tables, block: usize, p: usize, count: usize, work: &mut [u8])
    requires count { count ≤ 6 }
    requires size { length work.old ≡ count * block }
    requires place { p + 32 ≤ block }
    ensures { (m : ℕ → ℕ → ℕ) → AreTablesOf count m tables.now →
        RecoversWithin p (p + 32) count block count m work.old work.new }
{
    let given = lanes_at(work, block, p, count);
    for j in 0..count {
        store(
            recovered_lanes(tables, &given, count, j),
            j * block + p,
            work,
        );
    }
}

/// Recovers the bytes of each block as far as whole vectors go.
pub fn recover_groups(inverse: &Matrix, block: usize, count: usize, work: &mut [u8])
    requires count { count ≤ 6 }
    requires shape { HasShape count count inverse.now }
    requires size { length work.old ≡ count * block }
    ensures recovered { RecoversWithin 0 (32 * (block / 32)) count block count
        (entries inverse.now) work.old work.new }
    ensures given { (k : ℕ) → slice_index work.old k < 256 }
{
    let tables = tables_of(inverse, count);
    for group in 0..block / LANES {
        recover_group(&tables, block, LANES * group, count, work);
    }
}
