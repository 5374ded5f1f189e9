// The fields of a table's spelling, one after another.
ghost use Rattle.std.specs.Prelude.{◌≡◌, ◌≢◌, ◌<◌, ◌++◌, List, ℕ, ◌+◌, length};
ghost use Rattle.content_file.specs.Encoding.{IsPlace, IsBody, field_of, from, blocks_from, records_from, columns_from, stripes_from, most_blocks_at_once, most_stripes_at_once};
ghost use Rattle.file_table.specs.Table.{column_at, record_at};

use file_table::Table;

/// How many blocks, or stripes, one field has at most.
pub(crate) const MOST_BLOCKS_AT_ONCE: usize = 128;

pub(crate) const MOST_STRIPES_AT_ONCE: u32 = 256;

/// Which field comes next, by numbers of the table.
#[derive(Clone, Copy)]
pub(crate) enum Place {
    /// All that stands before the columns.
    Head,
    /// The name of a column, and how many records it has.
    Column(u32),
    /// Path, size and stamp of a record of a column.
    Record(u32, u32),
    /// Blocks of a record of a column, from one on.
    Blocks(u32, u32, usize),
    /// What is known of stripes, from one on.
    Stripes(u32),
    Digest,
    /// None is left.
    End,
}

impl Place {
    /// The place behind the field that stands here.
    pub(crate) fn after(self, table: &Table) -> Place
        requires { IsPlace table.now self }
        ensures place { IsPlace table.now result }
        ensures rest { (end : List ℕ) → from table.now end self ≡ field_of table.now end self ++ from table.now end result }
        ensures more { result ≢ Place.End → IsBody self }
        ensures body { IsBody self → result ≢ Place.End }
    {
        match self {
            Place::Head => first_column(table),
            Place::Column(d) => first_record(table, d),
            Place::Record(d, i) => first_block(table, d, i),
            Place::Blocks(d, i, k) => next_blocks(table, d, i, k),
            Place::Stripes(s) => next_stripes(table, s),
            Place::Digest | Place::End => Place::End,
        }
    }
}

fn first_column(table: &Table) -> Place
    ensures place { IsPlace table.now result }
    ensures more { result ≢ Place.End }
    ensures rest { (end : List ℕ) → from table.now end result ≡ columns_from table.now end 0 }
{
    if table.disks() > 0 {
        return Place::Column(0);
    }
    first_stripe(table)
}

fn next_column(table: &Table, d: u32) -> Place
    requires { d < length table.now.columns }
    ensures place { IsPlace table.now result }
    ensures more { result ≢ Place.End }
    ensures rest { (end : List ℕ) → from table.now end result ≡ columns_from table.now end (d + 1) }
{
    let count = table.disks();
    if d + 1 < count {
        return Place::Column(d + 1);
    }
    first_stripe(table)
}

fn first_record(table: &Table, d: u32) -> Place
    requires { d < length table.now.columns }
    ensures place { IsPlace table.now result }
    ensures more { result ≢ Place.End }
    ensures rest { (end : List ℕ) → from table.now end result ≡ records_from table.now end d 0 }
{
    if table.records(d) > 0 {
        return Place::Record(d, 0);
    }
    next_column(table, d)
}

fn next_record(table: &Table, d: u32, i: u32) -> Place
    requires column { d < length table.now.columns }
    requires rec { i < length (column_at table.now.columns d).records }
    ensures place { IsPlace table.now result }
    ensures more { result ≢ Place.End }
    ensures rest { (end : List ℕ) → from table.now end result ≡ records_from table.now end d (i + 1) }
{
    let count = table.records(d);
    if i + 1 < count {
        return Place::Record(d, i + 1);
    }
    next_column(table, d)
}

fn first_block(table: &Table, d: u32, i: u32) -> Place
    requires column { d < length table.now.columns }
    requires rec { i < length (column_at table.now.columns d).records }
    ensures place { IsPlace table.now result }
    ensures more { result ≢ Place.End }
    ensures rest { (end : List ℕ) → from table.now end result ≡ blocks_from table.now end d i 0 }
{
    if table.blocks(d, i).is_empty() {
        return next_record(table, d, i);
    }
    Place::Blocks(d, i, 0)
}

fn next_blocks(table: &Table, d: u32, i: u32, k: usize) -> Place
    requires column { d < length table.now.columns }
    requires rec { i < length (column_at table.now.columns d).records }
    requires block { k < length (record_at table.now.columns d i).blocks }
    ensures place { IsPlace table.now result }
    ensures more { result ≢ Place.End }
    ensures rest { (end : List ℕ) → from table.now end result ≡ blocks_from table.now end d i (k + most_blocks_at_once) }
{
    let left = table.blocks(d, i).len() - k;
    if left > MOST_BLOCKS_AT_ONCE {
        return Place::Blocks(d, i, k + MOST_BLOCKS_AT_ONCE);
    }
    next_record(table, d, i)
}

fn first_stripe(table: &Table) -> Place
    ensures place { IsPlace table.now result }
    ensures more { result ≢ Place.End }
    ensures rest { (end : List ℕ) → from table.now end result ≡ stripes_from table.now end 0 }
{
    if table.length() > 0 {
        return Place::Stripes(0);
    }
    Place::Digest
}

fn next_stripes(table: &Table, s: u32) -> Place
    requires { s < length table.now.infos }
    ensures place { IsPlace table.now result }
    ensures more { result ≢ Place.End }
    ensures rest { (end : List ℕ) → from table.now end result ≡ stripes_from table.now end (s + most_stripes_at_once) }
{
    let left = table.length() - s;
    if left > MOST_STRIPES_AT_ONCE {
        return Place::Stripes(s + MOST_STRIPES_AT_ONCE);
    }
    Place::Digest
}
