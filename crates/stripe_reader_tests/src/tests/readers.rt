// A window is the same for any number of readers.
use super::scene::{folder, read, seen, table};
use disk_memory::MemFolder;
use std::alloc::Global;
use std::test::Fail;
use stripe_reader::Starts;

// Each folder has bytes of its own; the third lacks the last block, and the fourth fails at its second reading.
fn folders(alloc: Global) -> Result<Vec<MemFolder>, Fail> {
    let mut folders = Vec::new(alloc);
    for d in 0..5u8 {
        let bytes = [d; 3000];
        let size = if d == 2 { 2100 } else { 3000 };
        let mut one = folder(alloc, "a", 1, &bytes[..size])?;
        if d == 3 {
            one.fail_at(4)?;
        }
        folders.push(one)?;
    }
    Ok(folders)
}

#[test]
fn any_number_of_readers_gives_the_same_window(rt: HostRuntime) -> Result<(), Fail> {
    let alloc = rt.alloc();
    let table = table(alloc, &[3000; 5])?;
    let starts = Starts::recorded(alloc, &table)?;
    let mut alone = folders(alloc)?;
    let first = read(&rt, alloc, alone.as_mut_slice(), &table, &starts, 1)?;
    for readers in [2, 3, 4, 5, 16] {
        let mut several = folders(alloc)?;
        let other = read(&rt, alloc, several.as_mut_slice(), &table, &starts, readers)?;
        for d in 0..5 {
            for i in 0..3 {
                let one = seen(&first, &table, i, d);
                assert!(rt; one.is_some());
                assert!(rt;
                    one == seen(&other, &table, i, d),
                    "{readers} readers, column {d}, stripe {i}"
                );
            }
        }
    }
    Ok(())
}
