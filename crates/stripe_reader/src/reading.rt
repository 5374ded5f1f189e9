// One column, read by one thread.
ghost use Rattle.std.specs.Prelude.{◌≡◌, ◌<◌, ◌≤◌, All, length, map, take};
ghost use Rattle.file_table.specs.Table.{column_at};
ghost use Rattle.stripe_reader.specs.Came.{reading_of, HasCome};
ghost use Rattle.stripe_reader.specs.Column.{ReadsCell, ReadsSlot, ReadsColumn};
ghost use Rattle.stripe_reader.specs.Hashing.{IsUnhashed, hashed};
ghost use Rattle.stripe_reader.specs.LookedUp.{IsLookedUp, IsOfRecord};
ghost use Rattle.stripe_reader.specs.Reading.{Fetch, block_length as block_length_of, block_task, cell_task, tasks_at};
ghost use Rattle.stripe_reader.specs.Slot.{kept};
ghost use Rattle.stripe_reader.specs.Starts.{StartsFit, starts_at};
ghost use Rattle.stripe_reader.specs.WindowValue.{HasBlocks};

use crate::slot::{Found, Slot};
use crate::starts::{Place, Starts};
use disk_model::{FileFault, Folder, Meta, Path};
use file_table::{Cell, Shape, Table};

/// What came of a block that a folder was asked for; its bytes stand at the front of the buffer.
#[derive(Clone, Copy, Debug, PartialEq, Eq)]
pub(crate) enum Came {
    /// The folder failed; a file may have been seen before.
    Unread(Option<Meta>),
    /// No file was there; it may have been seen before.
    Gone(Option<Meta>),
    /// The file that was seen, and how many bytes came.
    Gave(Meta, u32),
}

// How many bytes the block of a number has, in a file of a size.
fn block_length(block_size: u32, size: u64, index: u32) -> u32
    ensures { result ≡ block_length_of block_size size index }
{
    let left = size.saturating_sub(u64::from(index) * u64::from(block_size));
    left.min(u64::from(block_size)) as u32
}

// Looks at a file, and reads so many bytes of it into the front of a block.
fn fetch<F: Folder>(
    folder: &mut F,
    path: &Path,
    lost: bool,
    at: u64,
    size: u32,
    block: &mut [u8],
) -> Came
    requires { size ≤ length block.old }
    ensures read { ReadsCell (Fetch path.now lost at size) (reading_of result size block.new)
        (F.view folder.old) (F.view folder.new) }
    ensures came { HasCome result size }
{
    let seen = match folder.look(path, lost) {
        Ok(meta) => meta,
        Err(FileFault::Missing) => return Came::Gone(None),
        Err(FileFault::Failed) => return Came::Unread(None),
    };
    match folder.read_at(path, lost, at, &mut block[..size as usize]) {
        Ok(count) => Came::Gave(seen, count as u32),
        Err(FileFault::Missing) => Came::Gone(Some(seen)),
        Err(FileFault::Failed) => Came::Unread(Some(seen)),
    }
}

// Keeps what came into the block of a slot, of so many bytes that were asked for.
fn keep(slot: &mut Slot, shape: Shape, size: u32, came: Came)
    requires block { length slot.old.block ≡ shape.block_size }
    requires most { shape.block_size ≤ 4194304 }
    requires size { size ≤ shape.block_size }
    requires came { HasCome came size }
    ensures kept { hashed shape slot.new ≡ kept shape (reading_of came size slot.old.block) }
    ensures unhashed { IsUnhashed shape.block_size slot.new }
{
    match came {
        Came::Unread(seen) => slot.keep_none(Found::Unread, 0, seen),
        Came::Gone(seen) => slot.keep_none(Found::Missing, 0, seen),
        Came::Gave(seen, got) => {
            if got == size {
                slot.keep_block(seen, got);
            } else {
                slot.keep_none(Found::Short, got, Some(seen));
            }
        }
    }
}

// Reads so many bytes of a file into a slot.
fn read_file<F: Folder>(
    folder: &mut F,
    path: &Path,
    lost: bool,
    at: u64,
    size: u32,
    shape: Shape,
    slot: &mut Slot,
)
    requires block { length slot.old.block ≡ shape.block_size }
    requires most { shape.block_size ≤ 4194304 }
    requires size { size ≤ shape.block_size }
    ensures read { ReadsSlot shape (Fetch path.now lost at size) (hashed shape slot.new)
        (F.view folder.old) (F.view folder.new) }
    ensures unhashed { IsUnhashed shape.block_size slot.new }
{
    let came = fetch(folder, path, lost, at, size, &mut slot.block);
    keep(slot, shape, size, came);
}

// Reads the block of a cell into a slot. Nothing is asked where no file was at the start, or one that ended too early.
fn read_block<F: Folder>(
    folder: &mut F,
    table: &Table,
    starts: &Starts,
    d: u32,
    cell: Cell,
    slot: &mut Slot,
)
    requires column { d < length table.now.columns }
    requires rec { cell.rec < length (column_at table.now.columns d).records }
    requires starts { StartsFit table.now starts.now }
    requires block { length slot.old.block ≡ table.now.shape.block_size }
    ensures read { ReadsSlot table.now.shape
        (block_task table.now.shape.block_size (column_at table.now.columns d) (starts_at starts.now.columns d) cell)
        (hashed table.now.shape slot.new) (F.view folder.old) (F.view folder.new) }
    ensures unhashed { IsUnhashed table.now.shape.block_size slot.new }
{
    let start = starts.at(d, cell.rec);
    let lost = match start.place {
        Place::Nowhere => return slot.keep_none(Found::Missing, 0, None),
        Place::Plain => false,
        Place::Lost => true,
    };
    let shape = table.shape();
    let size = block_length(shape.block_size, table.meta(d, cell.rec).size, cell.index);
    let at = u64::from(cell.index) * u64::from(shape.block_size);
    if at + u64::from(size) > start.size {
        return slot.keep_none(Found::Short, 0, None);
    }
    read_file(folder, table.path(d, cell.rec), lost, at, size, shape, slot);
}

// Reads a cell, if there is one, into its slot.
fn read_slot<F: Folder>(
    folder: &mut F,
    table: &Table,
    starts: &Starts,
    d: u32,
    found: Option<Cell>,
    slot: &mut Slot,
)
    requires column { d < length table.now.columns }
    requires rec { IsOfRecord table.now d found }
    requires starts { StartsFit table.now starts.now }
    requires block { length slot.old.block ≡ table.now.shape.block_size }
    ensures read { ReadsSlot table.now.shape
        (cell_task table.now.shape.block_size (column_at table.now.columns d) (starts_at starts.now.columns d) found)
        (hashed table.now.shape slot.new) (F.view folder.old) (F.view folder.new) }
    ensures unhashed { IsUnhashed table.now.shape.block_size slot.new }
{
    match found {
        Some(cell) => read_block(folder, table, starts, d, cell, slot),
        None => slot.keep_none(Found::Empty, 0, None),
    }
}

/// Reads the cells of a column at these stripes, which were looked up, in their order, each into its slot. No block is hashed.
pub(crate) fn read_cells<F: Folder>(
    folder: &mut F,
    table: &Table,
    starts: &Starts,
    d: u32,
    stripes: &[u32],
    cells: &[Option<Cell>],
    slots: &mut [Slot],
)
    requires column { d < length table.now.columns }
    requires room { length stripes.now ≤ length cells.now }
    requires cells { IsLookedUp table.now d stripes.now cells.now }
    requires starts { StartsFit table.now starts.now }
    requires enough { length stripes.now ≤ length slots.old }
    requires blocks { HasBlocks table.now.shape.block_size slots.old }
    ensures blocks { HasBlocks table.now.shape.block_size slots.new }
    ensures unhashed { All (IsUnhashed table.now.shape.block_size) (take (length stripes.now) slots.new) }
    ensures read { ReadsColumn table.now.shape (tasks_at table.now starts.now d stripes.now)
        (map (hashed table.now.shape) (take (length stripes.now) slots.new)) (F.view folder.old) (F.view folder.new) }
{
    for i in 0..stripes.len() {
        read_slot(folder, table, starts, d, cells[i], &mut slots[i]);
    }
}
