// A block of a file, written anew.
ghost use Rattle.std.specs.Prelude.{◌≡◌, ◌+◌, ◌<◌, ◌^◌, length, IfOk, IfErr};
ghost use Rattle.file_restorer.specs.Mending.{CanWrite, MendsCell, MendsNot, CanSetUp, SetsUp, WritesBytes, EndsBy, IsSetUpCall, IsBlockCall};
ghost use Rattle.file_restorer.specs.Order.{block_calls, put_calls};

use crate::state::{FileState, States};
use disk_model::{Failed, FileFault, Folder, Path};
use file_table::{Cell, Table};
use stripe_reader::{Place, Start, Starts};

// Puts the file of a record under its path: it is renamed back, or made.
fn set_up<F: Folder>(
    folder: &mut F,
    path: &Path,
    start: &mut Start,
    state: &mut FileState,
) -> Result<(), FileFault>
    requires { CanSetUp path.now start.old state.old (F.view folder.old) }
    ensures set_up { IfOk result (λ _. SetsUp path.now
        start.old state.old (F.view folder.old) start.new state.new (F.view folder.new)) }
    ensures fault { IfErr result (λ fault. EndsBy fault
        (IsSetUpCall start.old.place path.now) (put_calls start.old.place state.old.touched path.now) path.now
        start.old state.old (F.view folder.old) start.new state.new (F.view folder.new)) }
{
    match start.place {
        Place::Plain => {}
        Place::Lost => {
            folder.rename(path, false)?;
            start.place = Place::Plain;
            state.touched = true;
        }
        Place::Nowhere => {
            if !state.touched {
                if folder.make(path).is_err() {
                    return Err(FileFault::Failed);
                }
                state.touched = true;
            }
        }
    }
    Ok(())
}

// Writes bytes of the file of a record.
fn write_bytes<F: Folder>(
    folder: &mut F,
    path: &Path,
    at: u64,
    bytes: &[u8],
    start: &mut Start,
    state: &mut FileState,
) -> Result<(), FileFault>
    requires ready { CanSetUp path.now start.old state.old (F.view folder.old) }
    requires fits { at + length bytes.now < 2 ^ 64 }
    ensures written { IfOk result (λ _. WritesBytes path.now at bytes.now
        start.old state.old (F.view folder.old) start.new state.new (F.view folder.new)) }
    ensures fault { IfErr result (λ fault. EndsBy fault
        (IsBlockCall start.old.place path.now at bytes.now)
        (block_calls start.old.place state.old.touched path.now at bytes.now) path.now
        start.old state.old (F.view folder.old) start.new state.new (F.view folder.new)) }
{
    set_up(folder, path, start, state)?;
    folder.write_at(path, at, bytes)?;
    state.touched = true;
    state.size = state.size.max(at + bytes.len() as u64);
    Ok(())
}

/// Writes the block of a cell to the file of its record, which is renamed back or made first, and answers whether it was
/// there to be written: it always is, where the folder tells its files.
pub fn mend_cell<F: Folder>(
    table: &Table,
    d: u32,
    cell: Cell,
    bytes: &[u8],
    starts: &mut Starts,
    states: &mut States,
    folder: &mut F,
) -> Result<bool, Failed>
    requires { CanWrite table.now d cell bytes.now starts.old states.old (F.view folder.old) }
    ensures mended { IfOk result (λ written. MendsCell table.now d cell bytes.now written
        starts.old states.old (F.view folder.old) starts.new states.new (F.view folder.new)) }
    ensures failed { IfErr result (λ _. MendsNot table.now d cell bytes.now
        starts.old states.old (F.view folder.old) (F.view folder.new)) }
{
    let at = cell.index as u64 * table.shape().block_size as u64;
    let start = &mut starts.columns[d as usize][cell.rec as usize];
    let state = &mut states.columns[d as usize][cell.rec as usize];
    match write_bytes(folder, table.path(d, cell.rec), at, bytes, start, state) {
        Ok(()) => Ok(true),
        Err(FileFault::Missing) => Ok(false),
        Err(FileFault::Failed) => Err(Failed),
    }
}
