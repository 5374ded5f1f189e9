// Whether the records of a table are just the kept files.
ghost use Rattle.std.specs.Prelude.{◌≡◌, ◌<◌, length, IsTrue};
ghost use Rattle.disk_model.specs.Tree.{listed};
ghost use Rattle.array_setup.specs.Setup.{setup_value};
ghost use Rattle.file_table.specs.Table.{column_at, record_at};
ghost use Rattle.folder_listing.specs.Kept.{kept_files, kept_lists, lists_of};
ghost use Rattle.array_scan.specs.Own.{own_files, HoldsJust};

use array_setup::{Setup, keeps};
use disk_model::FileInfo;
use file_table::Table;
use folder_listing::Listing;

// Whether a file has the path, size and stamp of a record.
fn is_record(table: &Table, d: u32, rec: u32, file: &FileInfo) -> bool
    requires column { d < length table.now.columns }
    requires rec { rec < length (column_at table.now.columns d).records }
    ensures path { IsTrue result → (record_at table.now.columns d rec).path ≡ file.now.path }
    ensures meta { IsTrue result → (record_at table.now.columns d rec).meta ≡ file.now.meta }
{
    table.meta(d, rec) == file.meta && table.path(d, rec).as_str() == file.path.as_str()
}

// Whether the kept files of a column are its records.
fn is_column_unchanged(table: &Table, d: u32, setup: &Setup, files: &[FileInfo]) -> bool
    requires column { d < length table.now.columns }
    requires disk { d < length setup.now.disks }
    ensures { IsTrue result → kept_files (setup_value setup.now) d (listed files.now)
        ≡ own_files (column_at table.now.columns d).records }
{
    let count = table.records(d);
    let mut rec = 0;
    for file in files {
        if keeps(setup, d, &file.path) {
            if rec == count || !is_record(table, d, rec, file) {
                return false;
            }
            rec += 1;
        }
    }
    rec == count
}

/// Whether the kept files of each column are its records. It takes no memory.
pub(crate) fn is_unchanged(table: &Table, lists: &[Listing], setup: &Setup) -> bool
    requires lists { length lists.now ≡ length table.now.columns }
    requires disks { length setup.now.disks ≡ length table.now.columns }
    ensures { IsTrue result → HoldsJust table.now (kept_lists (setup_value setup.now) (lists_of lists.now)) }
{
    for d in 0..table.disks() {
        if !is_column_unchanged(table, d, setup, &lists[d as usize].files) {
            return false;
        }
    }
    true
}
