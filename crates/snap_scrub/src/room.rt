// The memory of a scrub.
ghost use Rattle.std.specs.Prelude.{IfOk};
ghost use Rattle.snap_scrub.specs.Room.{IsRoomFor, IsEnoughFor};

use content_file::PIECE;
use disk_model::NoMemory;
use file_table::Table;
use parity_writer::{Levels, Sums, make_sums};
use std::alloc::Global;
use stripe_reader::{Starts, Window, stripe_count};

/// What the levels of a window's stripes are compared in.
#[derive(Drop)]
pub(crate) struct Check {
    /// The levels of a stripe.
    pub levels: Levels,
    /// The sums of each stripe of a window.
    pub sums: Vec<Sums>,
}

/// All that a scrub needs besides its table, its plan and its verdicts.
#[derive(Drop)]
pub(crate) struct Room {
    pub starts: Starts,
    /// The window that is hashed and looked at.
    pub near: Window,
    /// The window that is fetched meanwhile.
    pub far: Window,
    pub check: Check,
    /// A piece of the table's spelling.
    pub piece: Vec<u8>,
}

impl Room {
    /// Room for a scrub of so many stripes of a table. There is room for no more of them than there are, so that the far
    /// window has none where all fit into the near one.
    pub fn make(alloc: Global, table: &Table, stripes: usize) -> Result<Room, NoMemory>
        ensures room { IfOk result (IsRoomFor table.now) }
        ensures enough { IfOk result (IsEnoughFor stripes) }
    {
        let block_size = table.shape().block_size;
        let most = stripe_count(table.disks(), block_size) as usize;
        let near = most.min(stripes);
        let far = most.min(stripes - near);
        Ok(Room {
            starts: Starts::recorded(alloc, table)?,
            near: Window::make(alloc, table.disks(), near as u32, block_size)?,
            far: Window::make(alloc, table.disks(), far as u32, block_size)?,
            check: Check {
                levels: Levels::make(alloc, block_size)?,
                sums: make_sums(alloc, near as u32, block_size)?,
            },
            piece: vec![in alloc; 0u8; PIECE]?,
        })
    }
}
