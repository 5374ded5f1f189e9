// What is known of the files of a table's records when a run begins.
ghost use Rattle.std.specs.Prelude.{◌≡◌, ◌<◌, [], length, get_or};
ghost use Rattle.repair_scope.specs.Plan.{entry_in};

use disk_model::Meta;
use std::marker::Model;
use std::mem::size_of;

/// What is known of the file of a record.
#[derive(Clone, Copy, Debug, PartialEq, Eq)]
pub struct Entry {
    /// What was listed under its path.
    pub listed: Option<Meta>,
    /// Whether the run is for it.
    pub selected: bool,
    /// Whether it can't be written, since other files stand in its way.
    pub blocked: bool,
}

// What an entry costs at most, in bytes.
const _: () = prove!(size_of::<Entry>() <= 40);

/// The entries of all records, column by column.
#[derive(Drop)]
pub struct Entries {
    pub columns: Vec<Vec<Entry>>,
}

impl Model for Entries {
    ghost use Rattle.std.specs.Prelude.{List, map};
    ghost use Rattle.repair_scope.specs.declared.entry.Entry.{Entry};

    ghost Value = { List (List Entry) };

    ghost view = { λ entries. map (λ column. column.items) entries.columns.items };
}

impl Entries {
    /// The entry of a record of a column.
    pub fn at(&self, d: u32, i: u32) -> Entry
        requires column { d < length self.now }
        requires rec { i < length (get_or self.now d []) }
        ensures { result ≡ entry_in self.now d i }
    {
        self.columns[d as usize][i as usize]
    }
}
