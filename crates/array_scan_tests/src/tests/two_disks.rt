// Two disks in one call, and what passes the limits.
ghost use Rattle.std.specs.Prelude.{◌≡◌, ◌+◌, length, All, IfOk};
ghost use Rattle.disk_model.specs.Tree.{IsListing, listed};
ghost use Rattle.folder_listing.specs.Kept.{lists_of};

use crate::tests::array::{
    File, SHAPE, folder_of, large_file, listed_files, no_files, path, setup, setup_of_two,
};
use crate::tests::outcome::{EMPTY, PLAIN, lay, outcome_of};
use crate::tests::synced::SYNCED;
use array_scan::ScanFault;
use array_setup::SyncWay;
use block_hash::Digest16;
use disk_memory::MemFolder;
use disk_model::{FileInfo, Folder, Meta, Stamp, Text};
use file_table::{Builder, Table};
use folder_listing::{Listing, listings};
use std::alloc::Global;
use std::test::Fail;

const NONE: [File; 0] = [];

const ONE: [File; 1] = [("a", 1, 5)];

const TWO: [File; 2] = [("a", 1, 5), ("b", 1, 5)];

const META: Meta = Meta {
    size: 1,
    stamp: Stamp {
        seconds: 1,
        nanos: 5,
    },
};

const HASH: Digest16 = Digest16([9; 16]);

// The disks `d1` and `d2`, each with a file `a` of one byte, whose block is at 0 and has its hash.
fn two_files(alloc: Global) -> Result<Table, Fail>
    ensures { IfOk result (λ table. length table.columns ≡ 2) }
{
    let mut builder = Builder::new(alloc, SHAPE, 1)?;
    builder.push_disk(Text::new(alloc, "d1")?)?;
    builder.push_record(path(alloc, "a")?, META)?;
    builder.push_block(0, Some(HASH))?;
    builder.push_disk(Text::new(alloc, "d2")?)?;
    builder.push_record(path(alloc, "a")?, META)?;
    builder.push_block(0, Some(HASH))?;
    builder.push_info(SYNCED)?;
    let table = builder.finish()?;
    if table.disks() != 2 {
        return Err("not two disks".into());
    }
    Ok(table)
}

// The listings with one more.
fn one_more(lists: Vec<Listing>, files: Vec<FileInfo>) -> Result<Vec<Listing>, Fail>
    requires listing { IsListing (listed files.items) }
    requires order { All IsListing (lists_of lists.items) }
    ensures count { IfOk result (λ longer. length longer.items ≡ length lists.items + 1) }
    ensures order { IfOk result (λ longer. All IsListing (lists_of longer.items)) }
{
    let mut lists = lists;
    lists.push(Listing { files })?;
    Ok(lists)
}

// The folders of two disks.
fn two_folders(alloc: Global, first: &[File], second: &[File]) -> Result<Vec<MemFolder>, Fail>
    ensures { IfOk result (λ folders. length folders.items ≡ 2) }
{
    let mut folders = Vec::new(alloc);
    folders.push(folder_of(alloc, first)?)?;
    folders.push(folder_of(alloc, second)?)?;
    Ok(folders)
}

// The listings of two disks.
fn two_lists(alloc: Global, first: &[File], second: &[File]) -> Result<Vec<Listing>, Fail>
    ensures count { IfOk result (λ lists. length lists.items ≡ 2) }
    ensures order { IfOk result (λ lists. All IsListing (lists_of lists.items)) }
{
    let lists = listed_files(alloc, first)?;
    let mut folder = folder_of(alloc, second)?;
    match folder.list(alloc) {
        Ok(files) => one_more(lists, files),
        Err(_) => Err("not listed".into()),
    }
}

// Whether that is the outcome of a layout over the table of two files.
fn is_laid_over_two(
    alloc: Global,
    first: &[File],
    second: &[File],
    way: SyncWay,
    want: &str,
) -> Result<bool, Fail> {
    let setup = setup_of_two(alloc)?;
    let old = two_files(alloc)?;
    let outcome = lay(alloc, &old, two_lists(alloc, first, second)?, &setup, &way);
    Ok(outcome_of(alloc, &outcome)?.as_str() == want)
}

#[test]
fn two_disks_are_laid_out_in_one_call(rt: HostRuntime) -> Result<(), Fail> {
    let alloc = rt.alloc();
    assert!(rt; is_laid_over_two(alloc, &ONE, &ONE, PLAIN, "a 0; a 0; length 1; pending")?);
    assert!(rt;
        is_laid_over_two(
            alloc,
            &ONE,
            &TWO,
            PLAIN,
            "a 0; a 0; b 1; length 2; pending 1"
        )?
    );
    assert!(rt;
        is_laid_over_two(
            alloc,
            &TWO,
            &TWO,
            PLAIN,
            "a 0; b 1; a 0; b 1; length 2; pending 1"
        )?
    );
    assert!(rt; is_laid_over_two(alloc, &ONE, &NONE, PLAIN, "Emptied { disk: 1 }")?);
    assert!(rt; is_laid_over_two(alloc, &ONE, &NONE, EMPTY, "a 0; length 1; pending 0")?);
    assert!(rt; is_laid_over_two(alloc, &NONE, &NONE, PLAIN, "Emptied { disk: 0 }")?);
    Ok(())
}

#[test]
fn each_folder_is_listed(rt: HostRuntime) -> Result<(), Fail> {
    let alloc = rt.alloc();
    let mut folders = two_folders(alloc, &ONE, &TWO)?;
    let lists = listings(&rt, alloc, &mut folders).ok().ok_or("not listed")?;
    let counts = [1, 2];
    assert_eq!(rt; lists.len(), counts.len());
    for d in 0..lists.len().min(counts.len()) {
        assert_eq!(rt; lists[d].files.len(), counts[d], "at {d}");
    }
    Ok(())
}

// A listing of more files than a table may have would take gigabytes, so files that are too many are shown by the
// contract alone.
#[test]
fn too_many_blocks_are_refused(rt: HostRuntime) -> Result<(), Fail> {
    let alloc = rt.alloc();
    let setup = setup(alloc)?;
    let empty = no_files(alloc)?;
    for (size, blocks) in [
        (68_719_476_737, 67_108_865),
        (u64::MAX, 18_014_398_509_481_984),
    ] {
        let refused = lay(alloc, &empty, large_file(alloc, size)?, &setup, &PLAIN).err();
        assert_eq!(rt; refused, Some(ScanFault::Full { blocks, files: 1 }));
    }
    Ok(())
}
