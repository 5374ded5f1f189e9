// Building a table: the only way to make one.
ghost use Rattle.std.specs.Prelude.{◌≡◌, ◌<◌, ◌≤◌, [], length, OnOk, OnErr, IfOk, IfErr, IsErrOf, IsTrue, ◌↔◌};
ghost use Rattle.disk_model.specs.Path.{IsRecordPath};
ghost use Rattle.file_table.specs.Valid.{IsBlockSize, IsLevelCount, IsState, IsHashedAt, IsValid, most_blocks};
ghost use Rattle.file_table.specs.Building.{new_building, last_column, IsBuilding, LacksBlock, IsNewName, IsGreatest, IsNested, HasRoom, Uses, IsLength};
ghost use Rattle.file_table.specs.Building.{PushesDisk, PushesRecord, PushesBlock, PushesInfo, Finishes};
ghost use Rattle.file_table.specs.Building.{is_disk_fault, is_record_fault, is_block_fault, is_info_fault, is_finish_fault};
ghost use Rattle.file_table.specs.declared.info.Mark.TheVariants.{Synced};

mod queries;

use crate::count::blocks_for;
use crate::disk::Disk;
use crate::limits::{MOST_COLUMNS, MOST_RECORDS};
use crate::name::has_name;
use crate::stripes::{Stripe, Stripes};
use crate::{Block, BuildFault, Info, Mark, Shape, Table};
use block_hash::Digest16;
use disk_model::{Meta, NoMemory, Path, Text, is_name};
use std::alloc::Global;
use std::marker::Model;

/// A table while it is built, seen as what was pushed so far. A refused call changes nothing.
#[derive(Drop)]
pub struct Builder {
    shape: Shape,
    length: u32,
    disks: Vec<Disk>,
    infos: Vec<Info>,
    stripes: Stripes,
    // How many records all columns have, and how many blocks their sizes ask for.
    records: u32,
    due: u32,
    // How many blocks the last record still lacks.
    lacking: u32,
    // One more than the greatest position.
    end: u32,
}

impl Model for Builder {
    ghost use Rattle.file_table.specs.Building.{BuildingValue};

    ghost Value = { BuildingValue };

    ghost use Rattle.file_table.specs.Builder.{building_of, IsBuilder};

    ghost view = { building_of };

    ghost invariant = { IsBuilder };
}

impl Builder {
    /// Nothing is pushed yet. The length is the number of stripes.
    pub fn new(alloc: Global, shape: Shape, length: u32) -> Result<Builder, NoMemory>
        requires block_size { IsBlockSize shape.block_size }
        requires levels { IsLevelCount shape.levels }
        requires length { length ≤ most_blocks }
        ensures ok { IfOk result (λ made. made ≡ new_building shape length) }
        ensures building { IfOk result IsBuilding }
    {
        Ok(Builder {
            shape,
            length,
            disks: Vec::new(alloc),
            infos: Vec::new(alloc),
            stripes: Stripes::new(alloc),
            records: 0,
            due: 0,
            lacking: 0,
            end: 0,
        })
    }

    /// A data disk. `Blocks` where the last record lacks a block, else `Name` where the name isn't
    /// allowed, is there already, or 251 columns are there.
    pub fn push_disk(&mut self, name: Text) -> Result<(), BuildFault>
        requires before_infos { self.old.infos ≡ [] }
        ensures ok { OnOk result (PushesDisk self.old name self.new) }
        ensures building { IsBuilding self.new }

        ensures blocks { IsErrOf result BuildFault.Blocks → LacksBlock self.old }
        ensures name { IsErrOf result BuildFault.Name →
            ¬ (LacksBlock self.old) × ¬ (IsNewName self.old.columns name) }
        ensures only { IfErr result (λ fault. IsTrue (is_disk_fault fault)) }
        ensures err { OnErr result (self.new ≡ self.old) }
    {
        if self.lacking > 0 {
            return Err(BuildFault::Blocks);
        }
        if self.disks.len() >= MOST_COLUMNS as usize
            || !is_name(name.as_str())
            || has_name(&self.disks, name.as_str())
        {
            return Err(BuildFault::Name);
        }
        let alloc = *self.disks.allocator();
        self.disks.push(Disk::new(alloc, name))?;
        Ok(())
    }

    /// A file of the last column. `Blocks` where the record before lacks a block, else `Name` where the
    /// path isn't a record path, else `Order` where it isn't greater than the one before in the column,
    /// else `Nested` where an earlier path of the column is a directory of it, else `Full` where the
    /// table would have too many files or blocks.
    pub fn push_record(&mut self, path: Path, meta: Meta) -> Result<(), BuildFault>
        requires before_infos { self.old.infos ≡ [] }
        requires column { 0 < length self.old.columns }
        requires nanos { meta.stamp.nanos < 1000000000 }
        ensures ok { OnOk result (PushesRecord self.old path meta self.new) }
        ensures building { IsBuilding self.new }

        ensures blocks { IsErrOf result BuildFault.Blocks → LacksBlock self.old }
        ensures name { IsErrOf result BuildFault.Name →
            ¬ (LacksBlock self.old) × ¬ (IsRecordPath path) }
        ensures order { IsErrOf result BuildFault.Order →
            ¬ (LacksBlock self.old) × IsRecordPath path
            × ¬ (IsGreatest (last_column self.old.columns) path) }
        ensures nested { IsErrOf result BuildFault.Nested →
            ¬ (LacksBlock self.old) × IsRecordPath path
            × IsGreatest (last_column self.old.columns) path
            × IsNested (last_column self.old.columns) path }
        ensures full { IsErrOf result BuildFault.Full →
            ¬ (LacksBlock self.old) × IsRecordPath path
            × IsGreatest (last_column self.old.columns) path
            × ¬ (IsNested (last_column self.old.columns) path)
            × ¬ (HasRoom self.old meta.size) }
        ensures only { IfErr result (λ fault. IsTrue (is_record_fault fault)) }
        ensures err { OnErr result (self.new ≡ self.old) }
    {
        if self.lacking > 0 {
            return Err(BuildFault::Blocks);
        }
        if let Some(fault) = self.path_fault(&path) {
            return Err(fault);
        }
        if self.records >= MOST_RECORDS || !self.size_fits(meta.size) {
            return Err(BuildFault::Full);
        }
        let blocks = blocks_for(self.shape.block_size, meta.size) as u32;
        let last = self.disks.len() - 1;
        self.disks[last].push_file(path, meta)?;
        self.records += 1;
        self.due += blocks;
        self.lacking = blocks;
        Ok(())
    }

    /// The next block of the last record. `Blocks` where that has all its blocks, else `Range` where the
    /// position isn't below the length, else `Repeated` where the column has it.
    pub fn push_block(&mut self, position: u32, hash: Option<Digest16>) -> Result<(), BuildFault>
        requires before_infos { self.old.infos ≡ [] }
        requires rec { 0 < length (last_column self.old.columns).records }
        ensures ok { OnOk result (PushesBlock self.old
            (record { position = position; hash = hash }) self.new) }
        ensures building { IsBuilding self.new }

        ensures blocks { IsErrOf result BuildFault.Blocks → ¬ (LacksBlock self.old) }
        ensures range { IsErrOf result BuildFault.Range →
            LacksBlock self.old × (self.old.length ≤ position) }
        ensures repeated { IsErrOf result BuildFault.Repeated →
            LacksBlock self.old × (position < self.old.length)
            × Uses (last_column self.old.columns) position }
        ensures only { IfErr result (λ fault. IsTrue (is_block_fault fault)) }
        ensures err { OnErr result (self.new ≡ self.old) }
    {
        if self.lacking == 0 {
            return Err(BuildFault::Blocks);
        }
        if let Some(fault) = self.position_fault(position) {
            return Err(fault);
        }
        self.stripes.make_room(position)?;
        let column = self.disks.len();
        let unhashed = self.stripes.at(position).unhashed || hash.is_none();
        let block = Block::new(position, hash);
        self.disks[column - 1].push_block(block)?;
        let stripe = Stripe {
            column: column as u8,
            unhashed,
        };
        self.stripes.set(position, stripe);
        self.end = self.end.max(position + 1);
        self.lacking -= 1;
        Ok(())
    }

    /// What is known of the next stripe. `Blocks` where the last record lacks a block, else `State` where
    /// a pending stripe has a last check, is bad or fresh, else `Length` where all are there, else `Hash`
    /// where a synced stripe has a block without hash.
    pub fn push_info(&mut self, info: Info) -> Result<(), BuildFault>
        ensures ok { OnOk result (PushesInfo self.old info self.new) }
        ensures building { IsBuilding self.new }

        ensures blocks { IsErrOf result BuildFault.Blocks → LacksBlock self.old }
        ensures state { IsErrOf result BuildFault.State →
            ¬ (LacksBlock self.old) × ¬ (IsState info) }
        ensures length { IsErrOf result BuildFault.Length →
            ¬ (LacksBlock self.old) × IsState info × (length self.old.infos ≡ self.old.length) }
        ensures hash { IsErrOf result BuildFault.Hash →
            ¬ (LacksBlock self.old) × IsState info × (length self.old.infos < self.old.length)
            × (info.mark ≡ Synced) × ¬ (IsHashedAt self.old.columns (length self.old.infos)) }
        ensures only { IfErr result (λ fault. IsTrue (is_info_fault fault)) }
        ensures err { OnErr result (self.new ≡ self.old) }
    {
        if self.lacking > 0 {
            return Err(BuildFault::Blocks);
        }
        if !is_state(&info) {
            return Err(BuildFault::State);
        }
        if self.infos.len() >= self.length as usize {
            return Err(BuildFault::Length);
        }
        if info.mark == Mark::Synced && !self.next_has_hashes() {
            return Err(BuildFault::Hash);
        }
        self.infos.push(info)?;
        Ok(())
    }

    /// The table of all that was pushed. `Name` where there is no column, else `Blocks` where the last
    /// record lacks a block, else `State` where infos lack, else `Length` where the length isn't one more
    /// than the greatest position, or isn't 0 where there is none.
    pub fn finish(self) -> Result<Table, BuildFault>
        ensures ok { IfOk result (Finishes self) }
        ensures valid { IfOk result IsValid }

        ensures name { IsErrOf result BuildFault.Name → self.columns ≡ [] }
        ensures blocks { IsErrOf result BuildFault.Blocks →
            (0 < length self.columns) × LacksBlock self }
        ensures state { IsErrOf result BuildFault.State →
            (0 < length self.columns) × ¬ (LacksBlock self) × (length self.infos < self.length) }
        ensures length { IsErrOf result BuildFault.Length →
            (0 < length self.columns) × ¬ (LacksBlock self) × (length self.infos ≡ self.length)
            × ¬ (IsLength self) }
        ensures only { IfErr result (λ fault. IsTrue (is_finish_fault fault)) }
    {
        if self.disks.is_empty() {
            return Err(BuildFault::Name);
        }
        if self.lacking > 0 {
            return Err(BuildFault::Blocks);
        }
        if self.infos.len() < self.length as usize {
            return Err(BuildFault::State);
        }
        if !self.length_fits() {
            return Err(BuildFault::Length);
        }
        let Builder {
            shape,
            disks,
            infos,
            due,
            ..
        } = self;
        Ok(Table::new(shape, disks, infos, due)?)
    }
}

// Whether a pending stripe has no history.
fn is_state(info: &Info) -> bool
    ensures { IsTrue result ↔ IsState info.now }
{
    info.mark == Mark::Synced || (info.last == 0 && !info.bad && !info.fresh)
}
