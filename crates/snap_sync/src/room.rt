// The memory of a run.
ghost use Rattle.std.specs.Prelude.{◌≡◌, ◌<◌, IfOk, length};
ghost use Rattle.snap_sync.specs.Work.{IsRoomFor};

use content_file::PIECE;
use disk_model::NoMemory;
use file_table::Table;
use parity_writer::{Sums, make_sums};
use std::alloc::Global;
use stripe_reader::{Starts, Window, stripe_count};

/// All that a sync needs besides its table, taken before the vault is touched.
#[derive(Drop)]
pub(crate) struct Room {
    pub starts: Starts,
    /// The window that is hashed, judged and written.
    pub near: Window,
    /// The window that is fetched meanwhile.
    pub far: Window,
    /// Of each stripe of the near window, whether it is verified.
    pub chosen: Vec<bool>,
    /// The sums of each stripe of the near window.
    pub sums: Vec<Sums>,
    /// A piece of the table's spelling.
    pub piece: Vec<u8>,
}

impl Room {
    /// Room for a sync of so many stripes of a table. The windows have room for no more stripes than these, and for one
    /// at least.
    pub fn make(alloc: Global, table: &Table, pending: usize) -> Result<Room, NoMemory>
        ensures { IfOk result (IsRoomFor table.now pending) }
    {
        let block_size = table.shape().block_size;
        let most = stripe_count(table.disks(), block_size);
        let stripes = (most as usize).min(pending).max(1) as u32;
        let starts = Starts::recorded(alloc, table)?;
        let near = Window::make(alloc, table.disks(), stripes, block_size)?;
        let far = Window::make(alloc, table.disks(), stripes, block_size)?;
        let chosen = vec![in alloc; false; stripes as usize]?;
        let sums = make_sums(alloc, stripes, block_size)?;
        let piece = vec![in alloc; 0u8; PIECE]?;
        Ok(Room {
            starts,
            near,
            far,
            chosen,
            sums,
            piece,
        })
    }
}
