// What is known of the files of a table's records, by what their folders list.
ghost use Rattle.std.specs.Prelude.{◌≡◌, ◌<◌, length, map, IfOk, All};
ghost use Rattle.disk_model.specs.Tree.{IsListing, listed};
ghost use Rattle.file_table.specs.Table.{Record, records_in};
ghost use Rattle.folder_listing.specs.Kept.{lists_of};
ghost use Rattle.array_setup.specs.Setup.{setup_value};
ghost use Rattle.repair_scope.specs.Blocked.{found_in, is_blocked as is_blocked_by};
ghost use Rattle.repair_scope.specs.Plan.{entry_of, entries_of, names_of};

use crate::entry::{Entries, Entry};
use crate::finding::{find_listed, holds_one, is_inside_one};
use crate::selecting::selects;
use array_setup::{Selection, Setup};
use disk_model::{FileInfo, Meta, NoMemory, Path};
use file_table::Table;
use folder_listing::Listing;
use std::alloc::Global;

// Whether files stand in the way of PATH, of which this was listed.
fn is_blocked(
    files: &[FileInfo],
    path: &Path,
    found: Option<Meta>,
    bytes: &mut Vec<u8>,
) -> Result<bool, NoMemory>
    requires order { IsListing (listed files.now) }
    requires found { found ≡ found_in (listed files.now) path.now }
    ensures { IfOk result (λ blocked. blocked ≡ is_blocked_by (listed files.now) path.now) }
{
    if holds_one(files, path, true, bytes)? {
        return Ok(true);
    }
    if found.is_some() {
        return Ok(false);
    }
    if is_inside_one(files, path.as_str().as_bytes()) {
        return Ok(true);
    }
    holds_one(files, path, false, bytes)
}

// What is known of the file of a record.
fn entry_of(
    selection: &Selection,
    name: &str,
    files: &[FileInfo],
    path: &Path,
    meta: Meta,
    bytes: &mut Vec<u8>,
) -> Result<Entry, NoMemory>
    requires { IsListing (listed files.now) }
    ensures { (kept : Record) → kept.path ≡ path.now → kept.meta ≡ meta → IfOk result (λ entry.
        entry ≡ entry_of selection.now name.now (listed files.now) kept) }
{
    let listed = find_listed(files, path.as_str().as_bytes());
    let blocked = is_blocked(files, path, listed, bytes)?;
    let selected = selects(selection, name, path, meta, listed);
    Ok(Entry {
        listed,
        selected,
        blocked,
    })
}

// What is known of the files of a column.
fn entries_of_column(
    alloc: Global,
    selection: &Selection,
    name: &str,
    table: &Table,
    d: u32,
    files: &[FileInfo],
) -> Result<Vec<Entry>, NoMemory>
    requires column { d < length table.now.columns }
    requires order { IsListing (listed files.now) }
    ensures { IfOk result (λ entries. entries.items
        ≡ map (entry_of selection.now name.now (listed files.now)) (records_in table.now d)) }
{
    let records = table.records(d);
    let mut entries = Vec::with_capacity(alloc, records as usize)?;
    let mut bytes = Vec::new(alloc);
    for i in 0..records {
        let path = table.path(d, i);
        let meta = table.meta(d, i);
        entries.push(entry_of(selection, name, files, path, meta, &mut bytes)?)?;
    }
    Ok(entries)
}

/// What is known of the files of all columns.
pub fn entries_of(
    alloc: Global,
    selection: &Selection,
    setup: &Setup,
    table: &Table,
    lists: &[Listing],
) -> Result<Entries, NoMemory>
    requires disks { length setup.now.disks ≡ length table.now.columns }
    requires lists { length lists.now ≡ length table.now.columns }
    requires order { All IsListing (lists_of lists.now) }
    ensures { IfOk result (λ entries. entries ≡ entries_of selection.now
        (names_of (setup_value setup.now)) table.now (lists_of lists.now)) }
{
    let disks = setup.disks.as_slice();
    let mut columns = Vec::with_capacity(alloc, lists.len())?;
    for d in 0..table.disks() {
        let name = disks[d as usize].name.as_str();
        let files = lists[d as usize].files.as_slice();
        columns.push(entries_of_column(alloc, selection, name, table, d, files)?)?;
    }
    Ok(Entries { columns })
}
