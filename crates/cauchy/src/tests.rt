//! Values of the published code, every choice of levels at a handful of columns, and the lanes beside the plain sum.

ghost use Rattle.std.specs.Prelude.{◌<◌, ◌≤◌};
ghost use Rattle.cauchy.specs.System.{IsChoice};

use crate::products::{add_bytes, add_products};
use crate::{add_column, entry, fill_levels, is_choice, solve};
use std::test::Fail;

/// Columns at both ends of the matrix.
const COLUMNS: [u32; 6] = [0, 1, 2, 100, 249, 250];

#[test]
fn entries_of_the_published_code(rt: HostRuntime) -> Result<(), Fail> {
    let second = [
        entry(0, 1),
        entry(1, 1),
        entry(2, 1),
        entry(3, 1),
        entry(4, 1),
        entry(5, 1),
    ];
    assert_eq!(rt; second, [0x01, 0x02, 0xf5, 0xbb, 0x97, 0x2b]);
    let third = [
        entry(0, 2),
        entry(1, 2),
        entry(2, 2),
        entry(3, 2),
        entry(4, 2),
        entry(5, 2),
    ];
    assert_eq!(rt; third, [0x01, 0x04, 0xd2, 0xa6, 0x7f, 0x3f]);
    assert_eq!(rt; [entry(5, 0), entry(1, 250)], [0x01, 0x6c]);
    Ok(())
}

#[test]
fn six_levels_of_three_bytes(rt: HostRuntime) -> Result<(), Fail> {
    let sums = [0x07, 0x15, 0x99, 0xc8, 0xd3, 0xab];
    for level in 0..6usize {
        let mut sum = [0];
        for column in 0..3u32 {
            add_column(level as u32, column, &[1 << column], &mut sum);
        }
        assert_eq!(rt; sum[0], sums[level]);
    }
    Ok(())
}

#[test]
fn two_lost_columns_from_levels_one_and_two(rt: HostRuntime) -> Result<(), Fail> {
    let mut work = [0x05, 0xf6];
    assert!(rt; is_choice(&[0, 1], &[1, 2]));
    solve(&[0, 1], &[1, 2], 1, &mut work);
    assert_eq!(rt; work, [0x01, 0x02]);
    assert!(rt; !is_choice(&[0, 251], &[1, 2]));
    assert!(rt; !is_choice(&[0, 1], &[1, 1]));
    Ok(())
}

/// The numbers at the places of the mask's ones, and how many there are.
fn picked(numbers: &[u32; 6], mask: u32) -> ([u32; 6], usize)
    ensures { result.1 ≤ 6 }
{
    let mut picks = [0; 6];
    let mut count = 0;
    for i in 0..6usize {
        if mask >> i as u32 & 1 == 1 {
            picks[count] = numbers[i];
            count += 1;
        }
    }
    (picks, count)
}

/// How many bytes the blocks below have: a group of 32, and one more.
const SIZE: usize = 33;

/// A block of a column.
fn block_of(column: u32) -> [u8; SIZE] {
    let mut block = [0; SIZE];
    for i in 0..SIZE {
        block[i] = ((column as usize + 7) * (i + 36) % 256) as u8;
    }
    block
}

/// The chosen levels of the chosen columns' blocks.
fn levels_of(columns: &[u32], levels: &[u32]) -> [u8; 6 * SIZE]
    requires { IsChoice columns.now levels.now }
{
    let mut work = [0; 6 * SIZE];
    for i in 0..levels.len() {
        for column in columns {
            add_column(
                levels[i],
                *column,
                &block_of(*column),
                &mut work[SIZE * i..SIZE * i + SIZE],
            );
        }
    }
    work
}

/// Whether the columns come back from the levels.
fn come_back(columns: &[u32], levels: &[u32]) -> bool
    requires { IsChoice columns.now levels.now }
{
    let mut work = levels_of(columns, levels);
    solve(columns, levels, SIZE, &mut work[..SIZE * columns.len()]);
    for j in 0..columns.len() {
        if work[SIZE * j..SIZE * j + SIZE] != block_of(columns[j])[..] {
            return false;
        }
    }
    true
}

#[test]
fn every_choice_of_levels_comes_back(rt: HostRuntime) -> Result<(), Fail> {
    let mut choices = 0u32;
    for lost in 1..64 {
        let (columns, count) = picked(&COLUMNS, lost);
        for kept in 1..64 {
            let (levels, level_count) = picked(&[0, 1, 2, 3, 4, 5], kept);
            if is_choice(&columns[..count], &levels[..level_count]) {
                assert!(rt; come_back(&columns[..count], &levels[..level_count]));
                choices = choices.wrapping_add(1);
            }
        }
    }
    assert_eq!(rt; choices, 923);
    Ok(())
}

/// Lengths around one, two and three groups of 32.
const LENGTHS: [usize; 9] = [0, 1, 31, 32, 33, 63, 64, 65, 97];

/// Bytes that differ from their neighbours.
fn scattered(factor: usize) -> [u8; 97]
    requires { factor ≤ 256 }
{
    let mut bytes = [0; 97];
    for i in 0..97usize {
        bytes[i] = ((i + 1) * factor % 256) as u8;
    }
    bytes
}

#[test]
fn lanes_add_what_the_plain_sum_adds(rt: HostRuntime) -> Result<(), Fail> {
    let block = scattered(107);
    for coefficient in 0..=255u8 {
        for k in 0..9usize {
            let length = LENGTHS[k].min(97);
            let mut fast = scattered(59);
            let mut slow = scattered(59);
            add_products(coefficient, &block[..length], &mut fast[..length]);
            add_bytes(0, coefficient, &block[..length], &mut slow[..length]);
            assert_eq!(rt; fast, slow);
        }
    }
    Ok(())
}

/// The bytes of three columns whose lengths differ, and of one without any.
fn short_blocks(bytes: &[u8; 97]) -> [&[u8]; 4] {
    [&bytes[..64], &bytes[1..34], &bytes[..0], &bytes[..]]
}

/// A level of them, column by column.
fn level_of(level: u32, bytes: &[u8; 97]) -> [u8; 97]
    requires { level < 6 }
{
    let blocks = short_blocks(bytes);
    let mut sum = [0; 97];
    for c in 0..4usize {
        let length = blocks[c].len().min(97);
        add_column(level, c as u32, &blocks[c][..length], &mut sum[..length]);
    }
    sum
}

#[test]
fn all_levels_at_once_are_each_level(rt: HostRuntime) -> Result<(), Fail> {
    let bytes = scattered(107);
    for levels in 0..7u32 {
        let mut out = [9; 6 * 97];
        fill_levels(levels, &short_blocks(&bytes), 97, &mut out);
        for level in 0..levels {
            let start = 97 * level as usize;
            assert!(rt; out[start..].starts_with(&level_of(level, &bytes)));
        }
        assert!(rt; out[97 * levels as usize..].iter().all(|x| *x == 9));
    }
    Ok(())
}
