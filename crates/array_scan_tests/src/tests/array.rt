// Arrays of one or two disks without files, and listings for them.
ghost use Rattle.std.specs.Prelude.{◌≡◌, length, All, IfOk};
ghost use Rattle.disk_model.specs.Tree.{IsListing, listed};
ghost use Rattle.folder_listing.specs.Kept.{lists_of};

use array_setup::{Disk, Disks, Rules, Setup};
use block_hash::Kind;
use disk_memory::MemFolder;
use disk_model::{FileInfo, Folder, Meta, Path, Places, Stamp, Text};
use file_table::{BuildFault, Builder, Shape, Table};
use folder_listing::Listing;
use std::alloc::Global;
use std::test::Fail;

pub const SHAPE: Shape = Shape {
    block_size: 1024,
    levels: 1,
    kind: Kind::Md5,
    seed: *b"abcdefghijklmnop",
};

// A path, a size and nanoseconds.
pub type File = (&'static str, usize, u32);

pub fn path(alloc: Global, text: &str) -> Result<Path, Fail> {
    Ok(Path::new(alloc, text)?)
}

// A disk with its folder.
fn disk(alloc: Global, name: &str, dir: &str) -> Result<Disk, Fail> {
    let name = Text::new(alloc, name)?;
    let dir = Text::new(alloc, dir)?;
    Ok(Disk { name, dir })
}

// These disks, without rules.
fn setup_of(alloc: Global, disks: Vec<Disk>) -> Setup
    ensures { length result.disks ≡ length disks.items }
{
    Setup {
        disks: Disks::new(disks),
        places: Places {
            dirs: Vec::new(alloc),
            parities: Vec::new(alloc),
            contents: Vec::new(alloc),
        },
        parts: Vec::new(alloc),
        split: 1024,
        rules: Rules::new(Vec::new(alloc)),
        nohidden: false,
        block_size: 1024,
        autosave: 0,
        log: None,
    }
}

// The disk `d1` with the folder `/d1`, without rules.
pub fn setup(alloc: Global) -> Result<Setup, Fail>
    ensures { IfOk result (λ setup. length setup.disks ≡ 1) }
{
    let mut disks = Vec::new(alloc);
    disks.push(disk(alloc, "d1", "/d1")?)?;
    Ok(setup_of(alloc, disks))
}

// The disks `d1` and `d2`, without rules.
pub fn setup_of_two(alloc: Global) -> Result<Setup, Fail>
    ensures { IfOk result (λ setup. length setup.disks ≡ 2) }
{
    let mut disks = Vec::new(alloc);
    disks.push(disk(alloc, "d1", "/d1")?)?;
    disks.push(disk(alloc, "d2", "/d2")?)?;
    Ok(setup_of(alloc, disks))
}

// The table of the disk `d1` without files.
pub fn no_files(alloc: Global) -> Result<Table, BuildFault>
    ensures { IfOk result (λ table. length table.columns ≡ 1) }
{
    let mut builder = Builder::new(alloc, SHAPE, 0)?;
    builder.push_disk(Text::new(alloc, "d1")?)?;
    builder.finish()
}

// The listings of an array of one disk.
pub fn one_list(alloc: Global, files: Vec<FileInfo>) -> Result<Vec<Listing>, Fail>
    requires { IsListing (listed files.items) }
    ensures count { IfOk result (λ lists. length lists.items ≡ 1) }
    ensures order { IfOk result (λ lists. All IsListing (lists_of lists.items)) }
{
    let mut lists = Vec::new(alloc);
    lists.push(Listing { files })?;
    Ok(lists)
}

// A folder with these files, whose bytes are zeros.
pub fn folder_of(alloc: Global, files: &[File]) -> Result<MemFolder, Fail> {
    let mut folder = MemFolder::new(alloc, true);
    for (text, size, nanos) in files {
        let nanos = (*nanos).min(999_999_999);
        let bytes = vec![in alloc; 0u8; *size]?;
        folder.put(path(alloc, text)?, Stamp { seconds: 1, nanos }, &bytes)?;
    }
    Ok(folder)
}

// The listings of an array of one disk with these files.
pub fn listed_files(alloc: Global, files: &[File]) -> Result<Vec<Listing>, Fail>
    ensures count { IfOk result (λ lists. length lists.items ≡ 1) }
    ensures order { IfOk result (λ lists. All IsListing (lists_of lists.items)) }
{
    let mut folder = folder_of(alloc, files)?;
    match folder.list(alloc) {
        Ok(files) => one_list(alloc, files),
        Err(_) => Err("not listed".into()),
    }
}

// The listings of an array of one disk with one file of this size.
pub fn large_file(alloc: Global, size: u64) -> Result<Vec<Listing>, Fail>
    ensures count { IfOk result (λ lists. length lists.items ≡ 1) }
    ensures order { IfOk result (λ lists. All IsListing (lists_of lists.items)) }
{
    let stamp = Stamp {
        seconds: 1,
        nanos: 5,
    };
    let mut files = Vec::new(alloc);
    files.push(FileInfo {
        path: path(alloc, "a")?,
        meta: Meta { size, stamp },
    })?;
    one_list(alloc, files)
}
