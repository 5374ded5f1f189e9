// A table, and what it answers.
ghost use Rattle.std.specs.Prelude.{◌≡◌, ℕ, ◌<◌, length, slice_set, IfOk, IfSome, Some};
ghost use Rattle.file_table.specs.Table.{column_at, record_at, info_at, blocks_of, HasPath, IsAt, with_hash};
ghost use Rattle.file_table.specs.Cells.{cell_in, holds_block};
ghost use Rattle.file_table.specs.Index.{AreIndexes};
ghost use Rattle.file_table.specs.Valid.{IsValid, IsState, IsHashedAt};
ghost use Rattle.file_table.specs.declared.info.Mark.TheVariants.{Synced};

use crate::disk::Disk;
use crate::index::Index;
use crate::{Block, Cell, Info, Shape};
use block_hash::Digest16;
use disk_model::{Meta, NoMemory, Path};
use std::alloc::Global;
use std::marker::Model;

/// The files of all columns, the positions and hashes of their blocks, and what is known of each stripe.
/// It is valid. No call takes memory, and numbers count from 0.
#[derive(Drop)]
pub struct Table {
    shape: Shape,
    disks: Vec<Disk>,
    // One for each disk.
    indexes: Vec<Index>,
    infos: Vec<Info>,
    total: u32,
}

impl Model for Table {
    ghost use Rattle.file_table.specs.Table.{TableValue};

    ghost Value = { TableValue };

    ghost use Rattle.file_table.specs.Kept.{table_of, IsKept};

    ghost view = { table_of };

    ghost invariant = { IsKept };
}

impl Table {
    // The table of what a builder was given.
    pub(crate) fn new(
        shape: Shape,
        disks: Vec<Disk>,
        infos: Vec<Info>,
        total: u32,
    ) -> Result<Table, NoMemory>
        requires valid { IsValid (record {
          shape = shape;
          columns = disks.items;
          infos = infos.items;
        }) }
        requires total { total ≡ length (blocks_of disks.items) }
        ensures { IfOk result (λ made. made ≡ record {
          shape = shape;
          columns = disks.items;
          infos = infos.items;
        }) }
    {
        let indexes = indexes_of(&disks, *disks.allocator())?;
        Ok(Table {
            shape,
            disks,
            indexes,
            infos,
            total,
        })
    }

    pub fn shape(&self) -> Shape
        ensures shape { result ≡ self.now.shape }
        ensures valid { IsValid self.now }
    {
        self.shape
    }

    /// How many columns there are.
    pub fn disks(&self) -> u32
        ensures count { result ≡ length self.now.columns }
        ensures valid { IsValid self.now }
    {
        self.disks.len() as u32
    }

    /// The name of a column.
    pub fn name(&self, d: u32) -> &str
        requires { d < length self.now.columns }
        ensures { result.now ≡ (column_at self.now.columns d).name }
    {
        self.disks[d as usize].name()
    }

    /// How many stripes there are.
    pub fn length(&self) -> u32
        ensures count { result ≡ length self.now.infos }
        ensures valid { IsValid self.now }
    {
        self.infos.len() as u32
    }

    /// How many records a column has.
    pub fn records(&self, d: u32) -> u32
        requires { d < length self.now.columns }
        ensures { result ≡ length (column_at self.now.columns d).records }
    {
        self.disks[d as usize].len()
    }

    /// The path of a record of a column.
    pub fn path(&self, d: u32, i: u32) -> &Path
        requires column { d < length self.now.columns }
        requires rec { i < length (column_at self.now.columns d).records }
        ensures { result.now ≡ (record_at self.now.columns d i).path }
    {
        self.disks[d as usize].path(i)
    }

    /// Size and stamp of a record, as of the last sync.
    pub fn meta(&self, d: u32, i: u32) -> Meta
        requires column { d < length self.now.columns }
        requires rec { i < length (column_at self.now.columns d).records }
        ensures { result ≡ (record_at self.now.columns d i).meta }
    {
        self.disks[d as usize].meta(i)
    }

    /// The blocks of a record, in order.
    pub fn blocks(&self, d: u32, i: u32) -> &[Block]
        requires column { d < length self.now.columns }
        requires rec { i < length (column_at self.now.columns d).records }
        ensures { result.now ≡ (record_at self.now.columns d i).blocks }
    {
        self.disks[d as usize].blocks(i)
    }

    /// The number of the one record of a column that has this path.
    pub fn find(&self, d: u32, path: &Path) -> Option<u32>
        requires { d < length self.now.columns }
        ensures found { IfSome result (λ i. HasPath (column_at self.now.columns d) i path.now) }
        ensures only { (i : ℕ) →
            HasPath (column_at self.now.columns d) i path.now → result ≡ Some i }
    {
        self.disks[d as usize].find(path.as_str().as_bytes())
    }

    /// The one block of a column that a stripe holds. It is looked up in O(log n) steps.
    pub fn cell(&self, s: u32, d: u32) -> Option<Cell>
        requires stripe { s < length self.now.infos }
        requires column { d < length self.now.columns }
        ensures value { result ≡ cell_in (column_at self.now.columns d) s }
        ensures found { IfSome result (λ cell.
            IsAt (column_at self.now.columns d) s cell.rec cell.index) }
        ensures only { (i index : ℕ) → IsAt (column_at self.now.columns d) s i index →
            result ≡ Some (record { rec = i; index = index }) }
    {
        match self.indexes[d as usize].place(s) {
            Some(place) => Some(self.disks[d as usize].cell_at(place)),
            None => None,
        }
    }

    /// Whether some column has a block at a stripe.
    pub fn has_block(&self, s: u32) -> bool
        requires { s < length self.now.infos }
        ensures { result ≡ holds_block self.now.columns s }
    {
        for d in 0..self.disks() {
            if self.cell(s, d).is_some() {
                return true;
            }
        }
        false
    }

    /// What is known of a stripe.
    pub fn info(&self, s: u32) -> Info
        requires { s < length self.now.infos }
        ensures { result ≡ info_at self.now.infos s }
    {
        self.infos[s as usize]
    }

    /// How many blocks all columns have.
    pub fn total(&self) -> u64
        ensures { result ≡ length (blocks_of self.now.columns) }
    {
        u64::from(self.total)
    }

    /// Gives a block its hash.
    pub fn set_hash(&mut self, d: u32, i: u32, index: u32, hash: Digest16)
        requires column { d < length self.old.columns }
        requires rec { i < length (column_at self.old.columns d).records }
        requires block { index < length (record_at self.old.columns d i).blocks }
        ensures { self.new ≡ record self.old {
          columns = with_hash self.old.columns d i index hash;
        } }
    {
        self.disks[d as usize].set_hash(i, index, hash);
    }

    /// Sets what is known of a stripe.
    pub fn set_info(&mut self, s: u32, info: Info)
        requires stripe { s < length self.old.infos }
        requires state { IsState info }
        requires hashes { info.mark ≡ Synced → IsHashedAt self.old.columns s }
        ensures { self.new ≡ record self.old { infos = slice_set self.old.infos s info } }
    {
        self.infos[s as usize] = info;
    }
}

// The index of each disk.
fn indexes_of(disks: &[Disk], alloc: Global) -> Result<Vec<Index>, NoMemory>
    ensures { IfOk result (λ indexes. AreIndexes disks.now indexes.items) }
{
    let mut indexes = Vec::with_capacity(alloc, disks.len())?;
    for disk in disks {
        indexes.push(Index::new(alloc, disk.all_blocks())?)?;
    }
    Ok(indexes)
}
