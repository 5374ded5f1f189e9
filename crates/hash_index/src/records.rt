// The records of a table, numbered from 0 on through all columns.
ghost use Rattle.std.specs.Prelude.{◌≡◌, ◌+◌, ◌<◌, ◌≤◌, length, slice_index, IfOk};
ghost use Rattle.std.specs.List.Sorted.{IsNonDecreasing};
ghost use Rattle.file_table.specs.Valid.{most_records};
ghost use Rattle.hash_index.specs.Duplicates.{spots_of, is_same, kept_in};
ghost use Rattle.hash_index.specs.Numbering.{IsPlace};
ghost use Rattle.hash_index.specs.Marking.{mark_of};

use crate::marks::{have_same_hashes, mark_of_blocks};
use disk_model::NoMemory;
use file_table::Table;
use std::alloc::Global;
use std::marker::Model;

/// The column of a record, and its number there.
#[derive(Clone, Copy)]
pub struct Place {
    pub disk: u32,
    pub rec: u32,
}

/// The records of a table, seen as its columns. No call takes memory but `new`.
#[derive(Drop)]
pub struct Records<'a> {
    table: &'a Table,
    // The number of each column's first record.
    starts: Vec<u32>,
    count: u32,
}

impl<'a> Model for Records<'a> {
    ghost use Rattle.std.specs.Prelude.{List};
    ghost use Rattle.file_table.specs.Table.{Column};

    ghost Value = { List Column };

    ghost use Rattle.hash_index.specs.NumberingState.{columns_of, AreNumbered};

    ghost view = { columns_of };

    ghost invariant = { AreNumbered };
}

impl<'a> Records<'a> {
    pub fn new(alloc: Global, table: &'a Table) -> Result<Records<'a>, NoMemory>
        ensures columns { IfOk result (λ records. records ≡ table.now.columns) }
        ensures few { IfOk result (λ records. length (spots_of records) ≤ most_records) }
    {
        let disks = table.disks();
        let mut starts = Vec::with_capacity(alloc, disks as usize)?;
        let mut count = 0;
        for d in 0..disks {
            starts.push(count)?;
            count += table.records(d);
        }
        Ok(Records {
            table,
            starts,
            count,
        })
    }

    /// How many records there are.
    pub fn len(&self) -> u32
        ensures count { result ≡ length (spots_of self.now) }
        ensures few { result ≤ most_records }
    {
        self.count
    }

    pub fn place(&self, number: u32) -> Place
        requires { number < length (spots_of self.now) }
        ensures { IsPlace self.now number result }
    {
        let disk = disk_with(&self.starts, number);
        Place {
            disk: disk as u32,
            rec: number - self.starts[disk],
        }
    }

    /// The mark of a record's content, where it has some and all hashes of it are known.
    pub fn mark(&self, number: u32) -> Option<u64>
        requires { number < length (spots_of self.now) }
        ensures { result ≡ mark_of (kept_in (spots_of self.now) number) }
    {
        let place = self.place(number);
        if self.table.meta(place.disk, place.rec).size == 0 {
            return None;
        }
        mark_of_blocks(self.table.blocks(place.disk, place.rec))
    }

    /// Whether two records hold the same.
    pub fn is_same(&self, first: u32, other: u32) -> bool
        requires first { first < length (spots_of self.now) }
        requires other { other < length (spots_of self.now) }
        ensures { let spots = spots_of self.now in
            result ≡ is_same (kept_in spots first) (kept_in spots other) }
    {
        let one = self.place(first);
        let second = self.place(other);
        let size = self.table.meta(one.disk, one.rec).size;
        if size == 0 || size != self.table.meta(second.disk, second.rec).size {
            return false;
        }
        have_same_hashes(
            self.table.blocks(one.disk, one.rec),
            self.table.blocks(second.disk, second.rec),
        )
    }
}

// The last column whose records begin at this number or before it.
fn disk_with(starts: &[u32], number: u32) -> usize
    requires some { 0 < length starts.now }
    requires start { slice_index starts.now 0 ≤ number }
    requires rise { IsNonDecreasing starts.now }
    ensures within { result < length starts.now }
    ensures begins { slice_index starts.now result ≤ number }
    ensures last { result + 1 < length starts.now → number < slice_index starts.now (result + 1) }
{
    starts.partition_point(|start| *start <= number) - 1
}
