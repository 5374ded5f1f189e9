// An array in memory of three stripes, in blocks of 1 KiB.
ghost use Rattle.std.specs.Prelude.{◌≡◌, [], OnOk};

use block_hash::{Digest16, Kind};
use disk_memory::MemFolder;
use disk_model::{Folder, Meta, Path, Stamp, Text};
use file_table::{Builder, Info, Mark, Shape, Table};
use std::alloc::Global;
use std::test::Fail;
use std::thread::Threads;
use stripe_reader::{CellRead, Starts, Window, read_window};

/// The stamp of each file as it was recorded.
pub(super) const STAMP: Stamp = Stamp {
    seconds: 1,
    nanos: 5,
};

const SHAPE: Shape = Shape {
    block_size: 1024,
    levels: 1,
    kind: Kind::Md5,
    seed: *b"abcdefghijklmnop",
};

pub(super) const PENDING: Info = Info {
    mark: Mark::Pending,
    last: 0,
    bad: false,
    fresh: false,
};

// A disk whose file `a` has this size and its blocks at the first stripes; a size of 0 means no file.
fn push_disk(alloc: Global, builder: &mut Builder, name: &str, size: u64) -> Result<(), Fail>
    requires { builder.old.infos ≡ [] }
    ensures { OnOk result (builder.new.infos ≡ []) }
{
    builder.push_disk(Text::new(alloc, name)?)?;
    if size == 0 {
        return Ok(());
    }
    builder.push_record(Path::new(alloc, "a")?, Meta { size, stamp: STAMP })?;
    builder.push_block(0, None)?;
    if size > 1024 {
        builder.push_block(1, None)?;
        builder.push_block(2, None)?;
    }
    Ok(())
}

/// The table of disks whose files have these sizes: none, at most 1,024 bytes, or more than 2,048.
pub(super) fn table(alloc: Global, sizes: &[u64]) -> Result<Table, Fail> {
    let mut builder = Builder::new(alloc, SHAPE, 3)?;
    for (d, size) in sizes.iter().enumerate() {
        let name = format!(in alloc; "d{d}")?;
        push_disk(alloc, &mut builder, name.as_str(), *size)?;
    }
    for _ in 0..3 {
        builder.push_info(PENDING)?;
    }
    Ok(builder.finish()?)
}

/// A folder with one file.
pub(super) fn folder(
    alloc: Global,
    name: &str,
    seconds: i64,
    bytes: &[u8],
) -> Result<MemFolder, Fail> {
    let mut folder = MemFolder::new(alloc, true);
    let stamp = Stamp { seconds, nanos: 5 };
    folder.put(Path::new(alloc, name)?, stamp, bytes)?;
    Ok(folder)
}

/// Reads all three stripes.
pub(super) fn read<R: Threads + Sync, F: Folder>(
    rt: &R,
    alloc: Global,
    folders: &mut [F],
    table: &Table,
    starts: &Starts,
    readers: u32,
) -> Result<Window, Fail> {
    if folders.len() != table.disks() as usize || table.length() != 3 || !starts.fits(table) {
        return Err(Fail::new(format_args!("not of one array")));
    }
    let mut window = Window::make(alloc, table.disks(), 3, table.shape().block_size)?;
    read_window(rt, folders, table, starts, &[0, 1, 2], readers, &mut window);
    Ok(window)
}

/// What a window has of a cell, if it has it.
pub(super) fn seen<'a>(
    window: &'a Window,
    table: &Table,
    i: u32,
    d: u32,
) -> Option<(CellRead, Option<Digest16>, &'a [u8])> {
    if i < window.count() && d < table.disks() && window.fits(table) {
        Some((window.cell(i, d), window.digest(i, d), window.block(i, d)))
    } else {
        None
    }
}
