// Where the files of a table's records stood when a run began.
ghost use Rattle.std.specs.Prelude.{◌≡◌, ◌<◌, ◌↔◌, length, map, IfOk, IsTrue};
ghost use Rattle.file_table.specs.Table.{column_at};
ghost use Rattle.stripe_reader.specs.Starts.{StartsFit, recorded_start, recorded_starts, starts_at, start_in};

use disk_model::NoMemory;
use file_table::Table;
use std::alloc::Global;
use std::marker::Model;

/// Where the file of a record stood.
#[derive(Clone, Copy, Debug, PartialEq, Eq)]
pub enum Place {
    /// Under its own name PATH.
    Plain,
    /// Under PATH`.unrecoverable`.
    Lost,
    /// There was none.
    Nowhere,
}

/// Where the file of a record stood, and how long it was; the size of none isn't looked at.
#[derive(Clone, Copy, Debug, PartialEq, Eq)]
pub struct Start {
    pub place: Place,
    pub size: u64,
}

/// The starts of all records, column by column.
#[derive(Drop)]
pub struct Starts {
    pub columns: Vec<Vec<Start>>,
}

impl Model for Starts {
    ghost use Rattle.std.specs.Prelude.{map};
    ghost use Rattle.stripe_reader.specs.Starts.{StartsValue};

    ghost Value = { StartsValue };

    ghost view = { λ starts. record { columns = map (λ column. column.items) starts.columns.items } };
}

impl Starts {
    /// Each record's file as it was recorded.
    pub fn recorded(alloc: Global, table: &Table) -> Result<Starts, NoMemory>
        ensures value { IfOk result (λ starts. starts ≡ recorded_starts table.now) }
        ensures fits { IfOk result (StartsFit table.now) }
    {
        let mut columns = Vec::with_capacity(alloc, table.disks() as usize)?;
        for d in 0..table.disks() {
            columns.push(recorded_column(alloc, table, d)?)?;
        }
        Ok(Starts { columns })
    }

    /// Whether there is a start for each record of each column of a table.
    pub fn fits(&self, table: &Table) -> bool
        ensures { IsTrue result ↔ StartsFit table.now self.now }
    {
        if self.columns.len() != table.disks() as usize {
            return false;
        }
        for d in 0..table.disks() {
            if self.columns[d as usize].len() != table.records(d) as usize {
                return false;
            }
        }
        true
    }

    /// The start of a record of a column.
    pub fn at(&self, d: u32, rec: u32) -> Start
        requires column { d < length self.now.columns }
        requires rec { rec < length (starts_at self.now.columns d) }
        ensures { result ≡ start_in (starts_at self.now.columns d) rec }
    {
        self.columns[d as usize][rec as usize]
    }
}

// Each file of a column as it was recorded.
fn recorded_column(alloc: Global, table: &Table, d: u32) -> Result<Vec<Start>, NoMemory>
    requires { d < length table.now.columns }
    ensures { IfOk result (λ starts.
        starts.items ≡ map recorded_start (column_at table.now.columns d).records) }
{
    let records = table.records(d);
    let mut starts = Vec::with_capacity(alloc, records as usize)?;
    for i in 0..records {
        starts.push(Start {
            place: Place::Plain,
            size: table.meta(d, i).size,
        })?;
    }
    Ok(starts)
}
