// What is not laid out.
ghost use Rattle.std.specs.Prelude.{◌≡◌, ◌≤◌, ◌<◌, length, All};
ghost use Rattle.std.specs.List.{list_all};
ghost use Rattle.std.specs.Option.{is_none};
ghost use Rattle.file_table.specs.Table.{column_at};
ghost use Rattle.array_scan.specs.declared.sorting.Sorted.{Sorted};
ghost use Rattle.array_scan.specs.Fates.{origin, IsSound};
ghost use Rattle.array_scan.specs.Layout.{sorted_of, AreSound};
ghost use Rattle.array_scan.specs.Refusals.{emptied_record, first_zeroed, is_emptied, size_of, blocks_in, files_in, capped, in_columns, zeroed_at, emptied_at, full, refusal};

use crate::ScanFault;
use crate::sorting::{ColumnFiles, Fate, Sorted};
use array_setup::SyncWay;
use file_table::limits::{MOST_BLOCKS, MOST_RECORDS};
use file_table::{Table, blocks_for};

// The record of a file that had bytes and is empty now.
fn emptied_record(old: &Table, d: u32, file: &Sorted) -> Option<u32>
    requires column { d < length old.now.columns }
    requires sound { IsSound (length (column_at old.now.columns d).records) file.now }
    ensures { result ≡ emptied_record (column_at old.now.columns d).records file.now.meta file.now.fate }
{
    match file.fate {
        Fate::Changed(rec) => {
            if file.meta.size == 0 && old.meta(d, rec).size > 0 {
                Some(rec)
            } else {
                None
            }
        }
        _ => None,
    }
}

// The record of the first file of a column that is empty now.
fn first_zeroed(old: &Table, d: u32, files: &[Sorted]) -> Option<u32>
    requires column { d < length old.now.columns }
    requires sound { All (IsSound (length (column_at old.now.columns d).records)) files.now }
    ensures { result ≡ first_zeroed (column_at old.now.columns d).records files.now }
{
    for file in files {
        if let Some(rec) = emptied_record(old, d, file) {
            return Some(rec);
        }
    }
    None
}

// The first file of all columns that is empty now.
fn zeroed(old: &Table, columns: &[ColumnFiles]) -> Option<ScanFault>
    requires { AreSound old.now (sorted_of columns.now) }
    ensures { result ≡ in_columns old.now (zeroed_at old.now (sorted_of columns.now)) }
{
    for d in 0..old.disks() {
        if let Some(rec) = first_zeroed(old, d, &columns[d as usize].files) {
            return Some(ScanFault::Zeroed { disk: d, rec });
        }
    }
    None
}

// Whether a file is neither unchanged nor moved.
fn is_without_record(file: &Sorted) -> bool
    ensures { result ≡ is_none (origin file.now.fate) }
{
    matches!(file.fate, Fate::Changed(_) | Fate::New)
}

// Whether no file is unchanged or moved.
fn are_without_record(files: &[Sorted]) -> bool
    ensures { result ≡ list_all (λ (file : Sorted). is_none (origin file.fate)) files.now }
{
    for file in files {
        if !is_without_record(file) {
            return false;
        }
    }
    true
}

// Whether a column has records, and none of them is unchanged or moved.
fn is_emptied(old: &Table, d: u32, files: &[Sorted]) -> bool
    requires { d < length old.now.columns }
    ensures { result ≡ is_emptied (column_at old.now.columns d).records files.now }
{
    old.records(d) > 0 && are_without_record(files)
}

// The first column that has lost all its files.
fn emptied(old: &Table, columns: &[ColumnFiles]) -> Option<ScanFault>
    requires { AreSound old.now (sorted_of columns.now) }
    ensures { result ≡ in_columns old.now (emptied_at old.now (sorted_of columns.now)) }
{
    for d in 0..old.disks() {
        if is_emptied(old, d, &columns[d as usize].files) {
            return Some(ScanFault::Emptied { disk: d });
        }
    }
    None
}

// How many blocks these files have.
fn size_of(block_size: u32, files: &[Sorted]) -> u64
    requires { 0 < block_size }
    ensures { result ≡ capped (size_of block_size files.now) }
{
    let mut blocks = 0u64;
    for file in files {
        blocks = blocks.saturating_add(blocks_for(block_size, file.meta.size));
    }
    blocks
}

// How many blocks and files all columns have.
fn blocks_in(block_size: u32, columns: &[ColumnFiles]) -> u64
    requires { 0 < block_size }
    ensures { result ≡ capped (blocks_in block_size (sorted_of columns.now)) }
{
    let mut blocks = 0u64;
    for column in columns {
        blocks = blocks.saturating_add(size_of(block_size, &column.files));
    }
    blocks
}

fn files_in(columns: &[ColumnFiles]) -> u64
    ensures { result ≡ capped (files_in (sorted_of columns.now)) }
{
    let mut files = 0u64;
    for column in columns {
        files = files.saturating_add(column.files.len() as u64);
    }
    files
}

// Too many blocks or files.
fn full(old: &Table, columns: &[ColumnFiles]) -> Option<ScanFault>
    ensures { result ≡ full old.now (sorted_of columns.now) }
{
    let blocks = blocks_in(old.shape().block_size, columns);
    let files = files_in(columns);
    if blocks > u64::from(MOST_BLOCKS) || files > u64::from(MOST_RECORDS) {
        Some(ScanFault::Full { blocks, files })
    } else {
        None
    }
}

/// Why these files are not laid out, if they are not.
pub(crate) fn refusal(old: &Table, columns: &[ColumnFiles], way: &SyncWay) -> Option<ScanFault>
    requires { AreSound old.now (sorted_of columns.now) }
    ensures { result ≡ refusal way.now.force_zero way.now.force_empty old.now (sorted_of columns.now) }
{
    if !way.force_zero {
        if let Some(fault) = zeroed(old, columns) {
            return Some(fault);
        }
    }
    if !way.force_empty {
        if let Some(fault) = emptied(old, columns) {
            return Some(fault);
        }
    }
    full(old, columns)
}
