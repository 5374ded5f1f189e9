// What is kept of one cell, and of one column.
ghost use Rattle.std.specs.Prelude.{◌≡◌, ◌<◌, ◌≤◌, length, take, IfSome, IsTrue, OnSome, Some};
ghost use Rattle.disk_model.specs.Bytes.{resized};
ghost use Rattle.stripe_reader.specs.Hashing.{found_bytes, hashed};
ghost use Rattle.stripe_reader.specs.Slot.{slot_given, slot_unhashed, slot_without};
ghost use Rattle.stripe_reader.specs.declared.slot.Found.TheVariants as found;

use block_hash::{Digest16, digest};
use disk_model::{Meta, NoMemory};
use file_table::Shape;
use std::alloc::Global;
use std::marker::Model;

/// How many ranks the lengths of blocks have.
pub(crate) const RANKS: usize = 33;

/// What was found of a cell.
#[derive(Clone, Copy, Debug, PartialEq, Eq)]
pub enum Found {
    /// The column has no block at the stripe.
    Empty,
    /// The whole block.
    Bytes,
    /// No file, at the start of the run or now.
    Missing,
    /// Fewer bytes than the block has, at the start of the run or now.
    Short,
    /// Nothing, since the folder failed.
    Unread,
}

/// What was read of a cell.
#[derive(Clone, Copy, Debug, PartialEq, Eq)]
pub struct CellRead {
    pub found: Found,
    /// How many bytes came.
    pub got: u32,
    /// The file, as it was seen before its bytes were asked for; `None` where nothing was asked, or none was seen.
    pub seen: Option<Meta>,
}

/// What is kept of one cell: its block is zeros but where the whole block came, and then it is padded with zeros
/// and has a digest, once the column was hashed.
#[derive(Drop)]
pub(crate) struct Slot {
    pub cell: CellRead,
    pub digest: Option<Digest16>,
    pub block: Vec<u8>,
}

impl Model for Slot {
    ghost use Rattle.stripe_reader.specs.SlotValue.{SlotValue};

    ghost Value = { SlotValue };

    ghost view = { λ slot. record { cell = slot.cell; digest = slot.digest; block = slot.block.items } };
}

impl Slot {
    ghost use Rattle.std.specs.Prelude.{IfOk};

    // A slot whose block has this size.
    pub(crate) fn make(alloc: Global, block_size: u32) -> Result<Slot, NoMemory>
        ensures { IfOk result (λ slot. length slot.block ≡ block_size) }
    {
        Ok(Slot {
            cell: CellRead {
                found: Found::Empty,
                got: 0,
                seen: None,
            },
            digest: None,
            block: vec![in alloc; 0u8; block_size as usize]?,
        })
    }

    // Keeps no block.
    pub(crate) fn keep_none(&mut self, found: Found, got: u32, seen: Option<Meta>)
        ensures { self.new ≡ slot_without (length self.old.block) found got seen }
    {
        self.cell = CellRead { found, got, seen };
        self.digest = None;
        self.block.fill(0);
    }

    // Keeps the block of which so many bytes came, padded with zeros. Its digest is given later.
    pub(crate) fn keep_block(&mut self, seen: Meta, got: u32)
        requires { got ≤ length self.old.block }
        ensures { self.new ≡ slot_unhashed (length self.old.block) seen (take got self.old.block) }
    {
        self.cell = CellRead {
            found: Found::Bytes,
            got,
            seen: Some(seen),
        };
        self.digest = None;
        self.block[got as usize..].fill(0);
    }

    // The bytes of the block that came.
    pub(crate) fn found_bytes(&self) -> &[u8]
        requires { self.now.cell.got ≤ length self.now.block }
        ensures { result.now ≡ found_bytes self.now }
    {
        &self.block[..self.cell.got as usize]
    }

    // The rank of a whole block: 0 of one of this size, else the higher, the fewer binary digits its length has.
    pub(crate) fn rank(&self, block_size: u32) -> Option<usize>
        ensures whole { OnSome result (self.now.cell.found ≡ found.Bytes) }
        ensures below { IfSome result (λ rank. rank < 33) }
    {
        if self.cell.found != Found::Bytes {
            return None;
        }
        if self.cell.got == block_size {
            return Some(0);
        }
        Some((32 - self.cell.got.max(1).ilog2()) as usize)
    }

    // Whether the whole block was found, and has this rank.
    pub(crate) fn has_rank(&self, block_size: u32, rank: usize) -> bool
        ensures { IsTrue result → self.now.cell.found ≡ found.Bytes }
    {
        match self.rank(block_size) {
            Some(its) => its == rank,
            None => false,
        }
    }

    // Gives the block its digest, where it has one.
    pub(crate) fn give_digest(&mut self, digest: Option<Digest16>)
        ensures { self.new ≡ record self.old { digest = digest } }
    {
        self.digest = digest;
    }

    // The digest of the block at its real length, where the whole block was found.
    pub(crate) fn digest(&self, shape: Shape) -> Option<Digest16>
        requires most { shape.block_size ≤ 4194304 }
        requires got { self.now.cell.got ≤ shape.block_size }
        requires block { length self.now.block ≡ shape.block_size }
        ensures { result ≡ (hashed shape self.now).digest }
    {
        if self.cell.found != Found::Bytes {
            return None;
        }
        Some(digest(shape.kind, &shape.seed, self.found_bytes()))
    }

    // Keeps these bytes of the block, which were not read of its file.
    pub(crate) fn put(&mut self, bytes: &[u8])
        requires few { length bytes.now ≤ length self.old.block }
        requires size { length self.old.block < 4294967296 }
        ensures { self.new ≡ slot_given (length self.old.block) bytes.now self.old }
    {
        self.cell = CellRead {
            found: Found::Bytes,
            got: bytes.len() as u32,
            seen: self.cell.seen,
        };
        self.digest = None;
        put_padded(bytes, &mut self.block);
    }
}

// Puts bytes into a block, and zeros behind them.
fn put_padded(bytes: &[u8], block: &mut [u8])
    requires { length bytes.now ≤ length block.old }
    ensures { block.new ≡ resized bytes.now (length block.old) }
{
    let (front, back) = block.split_at_mut(bytes.len());
    front.copy_from_slice(bytes);
    back.fill(0);
}

/// What is kept of one column, slot after slot.
#[derive(Drop)]
pub(crate) struct Lane {
    pub slots: Vec<Slot>,
}

impl Model for Lane {
    ghost use Rattle.std.specs.Prelude.{List};
    ghost use Rattle.stripe_reader.specs.SlotValue.{SlotValue};

    ghost Value = { List SlotValue };

    ghost view = { λ lane. lane.slots.items };
}

impl Lane {
    ghost use Rattle.std.specs.Prelude.{IfOk, slice_index_or};
    ghost use Rattle.stripe_reader.specs.WindowValue.{IsLane, no_slot};

    // A lane with so many slots.
    pub(crate) fn make(alloc: Global, stripes: u32, block_size: u32) -> Result<Lane, NoMemory>
        ensures { IfOk result (IsLane block_size stripes) }
    {
        let mut slots = Vec::with_capacity(alloc, stripes as usize)?;
        for _ in 0..stripes {
            slots.push(Slot::make(alloc, block_size)?)?;
        }
        Ok(Lane { slots })
    }

    // The slot of this number.
    pub(crate) fn at(&self, i: usize) -> &Slot
        requires { i < length self.now }
        ensures { result.now ≡ slice_index_or self.now i no_slot }
    {
        &self.slots[i]
    }
}
