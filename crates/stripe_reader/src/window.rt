// The room that stripes are read into.
ghost use Rattle.std.specs.Prelude.{◌≡◌, ◌<◌, ◌≤◌, ◌↔◌, length, IfOk, IsTrue};
ghost use Rattle.stripe_reader.specs.WindowValue.{Fits, cell_at, lane_at, slot_at, window_given};
ghost use Rattle.stripe_reader.specs.WindowValue.{stripe_count as stripe_count_of};

use crate::cells::CellLane;
use crate::slot::{CellRead, Lane};
use block_hash::Digest16;
use disk_model::NoMemory;
use file_table::{Cell, Table};
use std::alloc::Global;
use std::marker::Model;

/// The stripes of a run's window, where `COLUMN_BYTES` aren't more.
pub const WINDOW_STRIPES: u32 = 4;

/// The bytes of a column in a run's window, where `WINDOW_STRIPES` aren't more: the threads of a window are worth their
/// start only for so much.
pub const COLUMN_BYTES: u32 = 1_048_576;

/// The most bytes of a run's window with more than one stripe.
pub const WINDOW_BYTES: u64 = 67_108_864;

/// How many stripes a run's window has: four or a mebibyte of each column, whichever is more, but no more than fit
/// into 64 MiB, and at least one.
pub fn stripe_count(disks: u32, block_size: u32) -> u32
    requires disks { 0 < disks }
    requires block_size { 0 < block_size }
    ensures value { result ≡ stripe_count_of disks block_size }
    ensures some { 0 < result }
{
    let wanted = (COLUMN_BYTES / block_size).max(WINDOW_STRIPES);
    let stripe = u64::from(block_size) * u64::from(disks);
    (WINDOW_BYTES / stripe).clamp(1, u64::from(wanted)) as u32
}

/// What was read of some stripes, in buffers that are taken once: a lane for each column, the cells of the table that were
/// looked up, and room for a digest of each slot, which are made before they are given to their slots.
#[derive(Drop)]
pub struct Window {
    pub(crate) room: u32,
    block_size: u32,
    pub(crate) lanes: Vec<Lane>,
    pub(crate) cells: Vec<CellLane>,
    pub(crate) digests: Vec<Option<Digest16>>,
    pub(crate) count: u32,
}

impl Model for Window {
    ghost use Rattle.stripe_reader.specs.WindowValue.{WindowValue};

    ghost Value = { WindowValue };

    ghost use Rattle.stripe_reader.specs.KeptWindow.{window_of, IsKept};

    ghost view = { window_of };

    ghost invariant = { IsKept };
}

impl Window {
    /// Room for so many columns and stripes, of which none was read.
    pub fn make(
        alloc: Global,
        disks: u32,
        stripes: u32,
        block_size: u32,
    ) -> Result<Window, NoMemory>
        ensures room { IfOk result (λ window. window.room ≡ stripes) }
        ensures block_size { IfOk result (λ window. window.block_size ≡ block_size) }
        ensures lanes { IfOk result (λ window. length window.lanes ≡ disks) }
        ensures count { IfOk result (λ window. window.count ≡ 0) }
    {
        let mut lanes = Vec::with_capacity(alloc, disks as usize)?;
        let mut cells = Vec::with_capacity(alloc, disks as usize)?;
        for _ in 0..disks {
            lanes.push(Lane::make(alloc, stripes, block_size)?)?;
            cells.push(CellLane::make(alloc, stripes)?)?;
        }
        let slots = disks as usize * stripes as usize;
        Ok(Window {
            room: stripes,
            block_size,
            lanes,
            cells,
            digests: vec![in alloc; None; slots]?,
            count: 0,
        })
    }

    /// Whether it has a lane for each column of a table, and slots for its blocks.
    pub fn fits(&self, table: &Table) -> bool
        ensures { IsTrue result ↔ Fits table.now self.now }
    {
        self.lanes.len() == table.disks() as usize && self.block_size == table.shape().block_size
    }

    /// How many columns there are lanes for.
    pub fn columns(&self) -> usize
        ensures { result ≡ length self.now.lanes }
    {
        self.lanes.len()
    }

    /// How many stripes there is room for.
    pub fn room(&self) -> u32
        ensures { result ≡ self.now.room }
    {
        self.room
    }

    /// How long its blocks are.
    pub fn block_size(&self) -> u32
        ensures { result ≡ self.now.block_size }
    {
        self.block_size
    }

    /// How many stripes were read last.
    pub fn count(&self) -> u32
        ensures { result ≡ self.now.count }
    {
        self.count
    }

    /// The cell of the table that the stripe of this number among those that were read last has in a column, as it was looked
    /// up when they were read.
    pub fn table_cell(&self, i: u32, d: u32) -> Option<Cell>
        requires stripe { i < self.now.count }
        requires column { d < length self.now.lanes }
        ensures { result ≡ cell_at self.now i d }
    {
        self.cells[d as usize].at(i as usize)
    }

    /// What was read of a column at the stripe of this number among those that were read last.
    pub fn cell(&self, i: u32, d: u32) -> CellRead
        requires stripe { i < self.now.count }
        requires column { d < length self.now.lanes }
        ensures { result ≡ (slot_at self.now i d).cell }
    {
        self.lanes[d as usize].at(i as usize).cell
    }

    /// The block there, padded with zeros: all zeros but where the whole block came.
    pub fn block(&self, i: u32, d: u32) -> &[u8]
        requires stripe { i < self.now.count }
        requires column { d < length self.now.lanes }
        ensures value { result.now ≡ (slot_at self.now i d).block }
        ensures size { length result.now ≡ self.now.block_size }
    {
        self.lanes[d as usize].at(i as usize).block.as_slice()
    }

    /// The digest of the block there at its real length; `None` but where the whole block came.
    pub fn digest(&self, i: u32, d: u32) -> Option<Digest16>
        requires stripe { i < self.now.count }
        requires column { d < length self.now.lanes }
        ensures { result ≡ (slot_at self.now i d).digest }
    {
        self.lanes[d as usize].at(i as usize).digest
    }

    /// Puts the bytes of a block there, as they were recovered or given. They count as found, at their real length,
    /// and have no digest. No memory is taken.
    pub fn put(&mut self, i: u32, d: u32, bytes: &[u8])
        requires stripe { i < self.old.count }
        requires column { d < length self.old.lanes }
        requires size { length bytes.now ≤ self.old.block_size }
        ensures value { self.new ≡ window_given self.old i d bytes.now }
        ensures slot { i < length (lane_at self.old d) }
    {
        let lane = &mut self.lanes[d as usize];
        let slot = &mut lane.slots[i as usize];
        slot.put(bytes);
    }
}
