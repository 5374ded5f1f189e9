//! The levels of a row, 32 bytes of each block at a time.

ghost use Rattle.std.specs.Prelude.{◌+◌, ◌*◌, ◌<◌, ◌≤◌, [], ◌∷◌, ◌++◌, ℕ, List, length, slice_index};
ghost use Rattle.cauchy.specs.Lanes.{HasLanes};
ghost use Rattle.cauchy.specs.Levels.{blocks_of, AreColumnTables, AreEntryTables, HoldLanes, HoldsLevel, FillsWithin};

use crate::lanes::{LANES, LaneTables, load_padded, products, store_some, sums};
use std::simd::prelude::*;

/// Adds the terms of one column, from the lanes of its block, to the lanes of each level.
#[inline(always)]
fn add_lanes<const N: usize>(tables: &[LaneTables; N], bytes: u8x32, levels: &mut [u8x32; N])
    requires { 0 < N }
    ensures { (row : List (List ℕ)) (block : List ℕ) (start : ℕ) → AreColumnTables N (length row) tables.now →
        HasLanes bytes (λ k. slice_index block (start + k)) → HoldLanes N start row levels.old →
        HoldLanes N start (row ++ block ∷ []) levels.new }
{
    // The entries of level 0 are 1.
    levels[0] = sums(levels[0], bytes);
    for r in 1..N {
        levels[r] = sums(levels[r], products(&tables[r], bytes));
    }
}

/// The lanes of each level of the row, from byte `start` on.
#[inline(always)]
fn row_lanes<const N: usize>(
    tables: &[[LaneTables; N]],
    blocks: &[&[u8]],
    start: usize,
) -> [u8x32; N]
    requires some { 0 < N }
    requires columns { length blocks.now ≤ length tables.now }
    ensures { AreEntryTables N (length blocks.now) tables.now → HoldLanes N start (blocks_of blocks.now) result }
{
    let mut levels = [u8x32::splat(0); N];
    for c in 0..blocks.len() {
        let block = blocks[c];
        if start < block.len() {
            add_lanes(&tables[c], load_padded(block, start), &mut levels);
        }
    }
    levels
}

/// Puts so many lanes of each level into its place in `out`.
#[inline(always)]
fn put_lanes<const N: usize>(
    lanes: &[u8x32; N],
    start: usize,
    width: usize,
    size: usize,
    out: &mut [u8],
)
    requires width { width ≤ 32 }
    requires place { start + width ≤ size }
    requires out { N * size ≤ length out.old }
    ensures { (row : List (List ℕ)) → HoldLanes N start row lanes.now →
        FillsWithin start (start + width) N N size row out.old out.new }
{
    for r in 0..N {
        store_some(lanes[r], width, r * size + start, out);
    }
}

/// Fills each level with the sums of the row's blocks.
pub fn fill_groups<const N: usize>(
    tables: &[[LaneTables; N]],
    blocks: &[&[u8]],
    size: usize,
    out: &mut [u8],
)
    requires some { 0 < N }
    requires columns { length blocks.now ≤ length tables.now }
    requires tables { AreEntryTables N (length blocks.now) tables.now }
    requires out { N * size ≤ length out.old }
    ensures { (r : ℕ) → r < N → HoldsLevel size (blocks_of blocks.now) r out.new }
{
    for group in 0..size.div_ceil(LANES) {
        let start = LANES * group;
        let width = LANES.min(size - start);
        put_lanes(&row_lanes(tables, blocks, start), start, width, size, out);
    }
}
