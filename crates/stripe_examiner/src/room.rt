// The memory of a run.
ghost use Rattle.std.specs.Prelude.{◌≡◌, All, IfOk, length};
ghost use Rattle.stripe_examiner.specs.Room.{IsRoomFor, IsStripeRoomFor};

use crate::marking::SlotMark;
use block_hash::Digest16;
use disk_model::NoMemory;
use file_table::Table;
use parity_writer::Levels;
use snap_report::events::Event;
use std::alloc::Global;
use stripe_reader::{Window, stripe_count};

/// The blocks of a stripe that follow from the first choice of its levels: they are made before any other choice is tried.
#[derive(Clone, Copy, Debug, PartialEq, Eq)]
pub struct FirstChoice {
    /// Whether they stand at the beginning of the room for blocks.
    pub is_made: bool,
    /// Which of them are as long as a block of the array, so that they are hashed together with others.
    pub full: [bool; 6],
    /// The digests of those that were hashed together.
    pub digests: [Option<Digest16>; 6],
}

impl FirstChoice {
    /// No blocks.
    pub const NONE: FirstChoice = FirstChoice {
        is_made: false,
        full: [false; 6],
        digests: [None; 6],
    };
}

/// What is known of one stripe of a window, in buffers that are taken once.
#[derive(Drop)]
pub struct StripeRoom {
    /// What is found in the reading of its cells, column by column.
    pub found: Vec<Option<Event>>,
    /// What became of its columns and of their cells.
    pub marks: Vec<SlotMark>,
    /// Its levels, where a recovery of its blocks is tried.
    pub levels: Levels,
    /// What is left of each level, less the sums of the blocks that are known: six blocks.
    pub remainders: Vec<u8>,
    /// The blocks that are tried, and then those that were found: six.
    pub blocks: Vec<u8>,
    /// What was made of the first choice of its levels.
    pub first: FirstChoice,
    /// Whether its row is known.
    pub known: bool,
    /// Which of its selected levels are wrong.
    pub wrong: [bool; 6],
}

impl StripeRoom {
    // Room for a stripe of a table, of which nothing is known.
    fn make(alloc: Global, table: &Table) -> Result<StripeRoom, NoMemory>
        ensures { IfOk result (IsStripeRoomFor table.now) }
    {
        let block_size = table.shape().block_size;
        let disks = table.disks() as usize;
        Ok(StripeRoom {
            found: vec![in alloc; None; disks]?,
            marks: vec![in alloc; SlotMark::RIGHT; disks]?,
            levels: Levels::make(alloc, block_size)?,
            remainders: vec![in alloc; 0u8; 6 * block_size as usize]?,
            blocks: vec![in alloc; 0u8; 6 * block_size as usize]?,
            first: FirstChoice::NONE,
            known: false,
            wrong: [false; 6],
        })
    }
}

/// All that a run needs besides its table and what is known of its files, taken before anything is written.
#[derive(Drop)]
pub struct Room {
    pub window: Window,
    /// Of each stripe of the window what is known of it.
    pub stripes: Vec<StripeRoom>,
    /// One block, for a sum or for what the spare gives.
    pub block: Vec<u8>,
}

// Room for so many stripes of a table.
fn make_all(alloc: Global, table: &Table, stripes: u32) -> Result<Vec<StripeRoom>, NoMemory>
    ensures count { IfOk result (λ rooms. length rooms.items ≡ stripes) }
    ensures each { IfOk result (λ rooms. All (IsStripeRoomFor table.now) rooms.items) }
{
    let mut rooms = Vec::with_capacity(alloc, stripes as usize)?;
    for _ in 0..stripes {
        rooms.push(StripeRoom::make(alloc, table)?)?;
    }
    Ok(rooms)
}

impl Room {
    /// Room for a run over a table: for a window of as many stripes as any run has, but of no more than the table has, and
    /// at least for one.
    pub fn make(alloc: Global, table: &Table) -> Result<Room, NoMemory>
        ensures { IfOk result (IsRoomFor table.now) }
    {
        let block_size = table.shape().block_size;
        let stripes = stripe_count(table.disks(), block_size)
            .min(table.length())
            .max(1);
        Ok(Room {
            window: Window::make(alloc, table.disks(), stripes, block_size)?,
            stripes: make_all(alloc, table, stripes)?,
            block: vec![in alloc; 0u8; block_size as usize]?,
        })
    }
}
