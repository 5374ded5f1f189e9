// Where the files of a table's records stand, by what their folders list.
ghost use Rattle.std.specs.Prelude.{◌≡◌, ◌<◌, length, map, IfOk, All};
ghost use Rattle.disk_model.specs.Tree.{IsListing, listed};
ghost use Rattle.file_table.specs.Table.{Record, records_in};
ghost use Rattle.folder_listing.specs.Kept.{lists_of};
ghost use Rattle.array_setup.specs.Setup.{setup_value};
ghost use Rattle.repair_scope.specs.Plan.{entries_of, names_of};
ghost use Rattle.stripe_examiner.specs.Place.{start_of, starts_of};

use array_setup::{Selection, Setup};
use disk_model::{FileInfo, NoMemory, Path};
use file_table::Table;
use folder_listing::Listing;
use repair_scope::{Entries, entries_of, find_listed, find_lost};
use std::alloc::Global;
use stripe_reader::{Place, Start, Starts};

// Where the file of a record stands.
fn start_of(files: &[FileInfo], path: &Path, bytes: &mut Vec<u8>) -> Result<Start, NoMemory>
    requires { IsListing (listed files.now) }
    ensures { IfOk result (λ start. start ≡ start_of (listed files.now) path.now) }
{
    if let Some(meta) = find_listed(files, path.as_str().as_bytes()) {
        return Ok(Start {
            place: Place::Plain,
            size: meta.size,
        });
    }
    let start = match find_lost(files, path, bytes)? {
        Some(meta) => Start {
            place: Place::Lost,
            size: meta.size,
        },
        None => Start {
            place: Place::Nowhere,
            size: 0,
        },
    };
    Ok(start)
}

// Where the files of a column stand.
fn starts_of_column(
    alloc: Global,
    table: &Table,
    d: u32,
    files: &[FileInfo],
) -> Result<Vec<Start>, NoMemory>
    requires column { d < length table.now.columns }
    requires order { IsListing (listed files.now) }
    ensures { IfOk result (λ starts. starts.items
        ≡ map (λ (kept : Record). start_of (listed files.now) kept.path) (records_in table.now d)) }
{
    let records = table.records(d);
    let mut starts = Vec::with_capacity(alloc, records as usize)?;
    let mut bytes = Vec::new(alloc);
    for i in 0..records {
        starts.push(start_of(files, table.path(d, i), &mut bytes)?)?;
    }
    Ok(starts)
}

// Where the files of all columns stand.
fn starts_of(alloc: Global, table: &Table, lists: &[Listing]) -> Result<Starts, NoMemory>
    requires lists { length lists.now ≡ length table.now.columns }
    requires order { All IsListing (lists_of lists.now) }
    ensures { IfOk result (λ starts. starts ≡ starts_of table.now (lists_of lists.now)) }
{
    let mut columns = Vec::with_capacity(alloc, lists.len())?;
    for d in 0..table.disks() {
        let files = lists[d as usize].files.as_slice();
        columns.push(starts_of_column(alloc, table, d, files)?)?;
    }
    Ok(Starts { columns })
}

/// What is known of the files of all records, and where they stand, by what their folders list.
pub fn place_all(
    alloc: Global,
    selection: &Selection,
    setup: &Setup,
    table: &Table,
    lists: &[Listing],
) -> Result<(Entries, Starts), NoMemory>
    requires disks { length setup.now.disks ≡ length table.now.columns }
    requires lists { length lists.now ≡ length table.now.columns }
    requires order { All IsListing (lists_of lists.now) }
    ensures entries { IfOk result (λ made. made.0 ≡ entries_of selection.now
        (names_of (setup_value setup.now)) table.now (lists_of lists.now)) }
    ensures starts { IfOk result (λ made. made.1 ≡ starts_of table.now (lists_of lists.now)) }
{
    let entries = entries_of(alloc, selection, setup, table, lists)?;
    let starts = starts_of(alloc, table, lists)?;
    Ok((entries, starts))
}
