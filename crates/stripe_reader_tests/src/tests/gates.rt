// Two readers read at once.
use super::scene::{folder, read, table};
use disk_memory::GateFolder;
use std::sync::atomic::AtomicBool;
use std::test::Fail;
use stripe_reader::Starts;

#[test]
fn two_columns_are_read_at_once(rt: HostRuntime) -> Result<(), Fail> {
    let alloc = rt.alloc();
    let bytes = [9; 3000];
    let table = table(alloc, &[3000, 3000])?;
    let starts = Starts::recorded(alloc, &table)?;
    let one = AtomicBool::new(false);
    let two = AtomicBool::new(false);
    let mut folders = Vec::new(alloc);
    // The second call of a folder is its first reading.
    folders.push(GateFolder::new(folder(alloc, "a", 1, &bytes)?, 2, &one, &two))?;
    folders.push(GateFolder::new(folder(alloc, "a", 1, &bytes)?, 2, &two, &one))?;
    let _window = read(&rt, alloc, folders.as_mut_slice(), &table, &starts, 2)?;
    for folder in &folders {
        assert!(rt; folder.saw());
    }
    Ok(())
}
