// What a check or a fix goes by, as one value.
use crate::entry::Entries;
use crate::scope::Scope;
use file_table::Table;

/// What a run is to do, the table that it goes by, and what is known of the files of its records.
#[derive(Clone, Copy)]
pub struct Plan<'a> {
    pub scope: Scope,
    pub table: &'a Table,
    pub entries: &'a Entries,
}
