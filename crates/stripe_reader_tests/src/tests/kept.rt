// What a window keeps besides what was read, and whether a block has its recorded hash.
use super::scene::{folder, read, table};
use block_hash::Digest16;
use disk_memory::MemFolder;
use file_table::{Cell, Table};
use std::alloc::Global;
use std::test::Fail;
use stripe_reader::{Starts, Window, matches_digest};

fn folders(alloc: Global) -> Result<Vec<MemFolder>, Fail> {
    let mut folders = Vec::new(alloc);
    folders.push(folder(alloc, "a", 1, &[1; 3000])?)?;
    folders.push(folder(alloc, "a", 1, &[])?)?;
    folders.push(folder(alloc, "a", 1, &[1; 10])?)?;
    Ok(folders)
}

// The record and the block of a cell that was looked up, if it has them.
fn looked_up(window: &Window, table: &Table, i: u32, d: u32) -> Option<(u32, u32)> {
    if i < window.count() && d < table.disks() && window.fits(table) {
        let Cell { rec, index } = window.table_cell(i, d)?;
        Some((rec, index))
    } else {
        None
    }
}

#[test]
fn a_window_keeps_the_cells_of_its_stripes(rt: HostRuntime) -> Result<(), Fail> {
    let alloc = rt.alloc();
    let table = table(alloc, &[3000, 0, 10])?;
    let starts = Starts::recorded(alloc, &table)?;
    let mut folders = folders(alloc)?;
    let window = read(&rt, alloc, folders.as_mut_slice(), &table, &starts, 4)?;
    let kept = [
        [Some((0, 0)), None, Some((0, 0))],
        [Some((0, 1)), None, None],
        [Some((0, 2)), None, None],
    ];
    for (i, cells) in kept.iter().enumerate() {
        for (d, cell) in cells.iter().enumerate() {
            assert!(rt;
                looked_up(&window, &table, i as u32, d as u32) == *cell,
                "column {d}, stripe {i}"
            );
        }
    }
    Ok(())
}

#[test]
fn a_recorded_digest_is_the_one_that_came(rt: HostRuntime) -> Result<(), Fail> {
    let one = Digest16([1; 16]);
    let other = Digest16([2; 16]);
    assert!(rt; matches_digest(None, None));
    assert!(rt; matches_digest(None, Some(one)));
    assert!(rt; !matches_digest(Some(one), None));
    assert!(rt; matches_digest(Some(one), Some(one)));
    assert!(rt; !matches_digest(Some(one), Some(other)));
    Ok(())
}
