// How much a table holds.
ghost use Rattle.std.specs.Prelude.{◌≡◌, ◌*◌, ◌^◌, ◌<◌, ◌≤◌, length, sum_by};
ghost use Rattle.file_table.specs.Table.{Record, column_at, records_of};
ghost use Rattle.file_table.specs.Valid.{IsValid};
ghost use Rattle.snap_report.specs.ListText.{bytes_in};

use file_table::Table;

#[derive(Clone, Copy)]
pub(crate) struct Totals {
    pub files: u64,
    pub bytes: u128,
}

// The bytes of the files of a column.
fn column_bytes(table: &Table, d: u32) -> u128
    requires { d < length table.now.columns }
    ensures sum { result ≡ bytes_in (column_at table.now.columns d).records }
    ensures bound { result ≤ length (column_at table.now.columns d).records * 2 ^ 64 }
{
    let mut bytes: u128 = 0;
    for i in 0..table.records(d) {
        bytes += u128::from(table.meta(d, i).size);
    }
    bytes
}

/// How many files there are, and how many bytes they have together.
pub(crate) fn totals_of(table: &Table) -> Totals
    ensures files { result.files ≡ length (records_of table.now.columns) }
    ensures bytes { result.bytes ≡ bytes_in (records_of table.now.columns) }
{
    let mut totals = Totals { files: 0, bytes: 0 };
    for d in 0..table.disks() {
        totals.files += u64::from(table.records(d));
        totals.bytes += column_bytes(table, d);
    }
    totals
}
