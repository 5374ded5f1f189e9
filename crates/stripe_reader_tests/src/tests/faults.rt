// One call of a folder fails, each in turn: its cell is unread, and all others are as without a fault.
use super::scene::{STAMP, folder, read, seen, table};
use disk_memory::MemFolder;
use disk_model::{Folder, Meta};
use file_table::Table;
use std::alloc::Global;
use std::test::Fail;
use stripe_reader::{CellRead, Found, Starts, Window};

const BYTES: [u8; 3000] = [9; 3000];

fn folders(alloc: Global) -> Result<Vec<MemFolder>, Fail> {
    let mut folders = Vec::new(alloc);
    for _ in 0..2 {
        folders.push(folder(alloc, "a", 1, &BYTES)?)?;
    }
    Ok(folders)
}

fn wanted(i: u32) -> CellRead {
    CellRead {
        found: Found::Bytes,
        got: if i < 2 { 1024 } else { 952 },
        seen: Some(Meta {
            size: 3000,
            stamp: STAMP,
        }),
    }
}

// A cell that is unread after so many calls for it.
fn unread(calls: u64, i: u32) -> CellRead {
    CellRead {
        found: Found::Unread,
        got: 0,
        seen: if calls == 2 { wanted(i).seen } else { None },
    }
}

// Whether a cell was read as it should be, or is unread as it should be.
fn is_as_wanted(window: &Window, table: &Table, i: u32, d: u32, unread: Option<CellRead>) -> bool {
    let Some((cell, digest, block)) = seen(window, table, i, d) else {
        return false;
    };
    if let Some(unread) = unread {
        cell == unread && digest.is_none() && block.iter().all(|byte| *byte == 0)
    } else {
        cell == wanted(i) && digest.is_some() && block.first() == Some(&9)
    }
}

#[test]
fn each_fault_leaves_the_rest_of_the_window(rt: HostRuntime) -> Result<(), Fail> {
    let alloc = rt.alloc();
    let table = table(alloc, &[3000, 3000])?;
    let starts = Starts::recorded(alloc, &table)?;
    // The calls are a look and a reading for each stripe; after a look that failed there is no reading. A look sees the file.
    for (call, stripe) in [(1, 0), (2, 0), (3, 1), (4, 1), (5, 2), (6, 2), (7, 3)] {
        for readers in [1, 2] {
            let mut folders = folders(alloc)?;
            if let Some(first) = folders.first_mut() {
                first.fail_at(call)?;
            }
            let window = read(&rt, alloc, folders.as_mut_slice(), &table, &starts, readers)?;
            for i in 0..3 {
                let fault = if i == stripe {
                    Some(unread(2 - call % 2, i))
                } else {
                    None
                };
                assert!(rt;
                    is_as_wanted(&window, &table, i, 0, fault),
                    "call {call}, stripe {i}"
                );
                assert!(rt;
                    is_as_wanted(&window, &table, i, 1, None),
                    "call {call}, stripe {i}"
                );
            }
            if let Some(first) = folders.first() {
                assert_eq!(rt; first.faults(), if stripe < 3 { 1 } else { 0 });
            }
        }
    }
    Ok(())
}
