//! All levels of a row of blocks at once, 32 bytes of each block at a time: each byte of a block is read once, and the sums
//! of all columns are put into the levels at the end.

ghost use Rattle.std.specs.Prelude.{◌*◌, ◌<◌, ◌≤◌, ℕ, length};
ghost use Rattle.cauchy.specs.Levels.{blocks_of, AreColumnTables, AreEntryTables, HoldsLevel};

use crate::lanes::{LaneTables, lane_tables};
use crate::matrix::entry;
use groups::fill_groups;
use std::simd::prelude::*;

mod groups;

/// How many columns the matrix has.
const COLUMNS: usize = 251;

/// The tables of a column's entries at the first levels.
fn column_tables<const N: usize>(column: u32) -> [LaneTables; N]
    requires levels { N ≤ 6 }
    requires column { column < 251 }
    ensures { AreColumnTables N column result }
{
    let mut tables = [[u8x32::splat(0); 2]; N];
    for r in 0..N {
        tables[r] = lane_tables(entry(r as u32, column));
    }
    tables
}

/// The tables of so many columns.
fn entry_tables<const N: usize>(count: usize) -> [[LaneTables; N]; COLUMNS]
    requires levels { N ≤ 6 }
    requires columns { count ≤ 251 }
    ensures { AreEntryTables N count result }
{
    let mut tables = [[[u8x32::splat(0); 2]; N]; COLUMNS];
    for c in 0..count {
        tables[c] = column_tables(c as u32);
    }
    tables
}

/// The levels of a row, as many as N says.
fn fill_some<const N: usize>(blocks: &[&[u8]], size: usize, out: &mut [u8])
    requires some { 0 < N }
    requires levels { N ≤ 6 }
    requires columns { length blocks.now ≤ 251 }
    requires out { N * size ≤ length out.old }
    ensures { (r : ℕ) → r < N → HoldsLevel size (blocks_of blocks.now) r out.new }
{
    let tables = entry_tables::<N>(blocks.len());
    fill_groups(&tables, blocks, size, out);
}

/// Puts the first levels of a row of blocks into `out`, one after another, each of so many bytes. A block that is shorter
/// counts as if zeros stood behind it, and no product is taken of these.
pub fn fill_levels(levels: u32, blocks: &[&[u8]], size: usize, out: &mut [u8])
    requires levels { levels ≤ 6 }
    requires columns { length blocks.now ≤ 251 }
    requires out { levels * size ≤ length out.old }
    ensures { (r : ℕ) → r < levels → HoldsLevel size (blocks_of blocks.now) r out.new }
{
    match levels {
        0 => {}
        1 => fill_some::<1>(blocks, size, out),
        2 => fill_some::<2>(blocks, size, out),
        3 => fill_some::<3>(blocks, size, out),
        4 => fill_some::<4>(blocks, size, out),
        5 => fill_some::<5>(blocks, size, out),
        _ => fill_some::<6>(blocks, size, out),
    }
}
