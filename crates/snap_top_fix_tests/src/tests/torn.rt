// Files of which other bytes are left than were written.
use disk_memory::MemFolder;
use disk_model::{Folder, Path};
use snap_top_memory::arrays::Left;
use std::alloc::Global;
use std::test::Fail;

/// A file that a fix writes: its disk, its name, and the byte from which on it is written.
pub type Written<'a> = (usize, &'a str, usize);

/// Changes each byte of these files from there on, where they are there. Their sizes and stamps stay. It answers how many bytes it
/// changed.
pub fn tear(alloc: Global, left: &mut Left, written: &[Written]) -> Result<usize, Fail> {
    let mut changed = 0usize;
    for (disk, name, first) in written {
        match left.outcome.folders.get_mut(*disk) {
            Some(folder) => {
                let more = tear_file(alloc, folder, name, *first)?;
                changed = more.saturating_add(changed);
            }
            None => return Err("no such disk".into()),
        }
    }
    Ok(changed)
}

fn tear_file(
    alloc: Global,
    folder: &mut MemFolder,
    name: &str,
    first: usize,
) -> Result<usize, Fail> {
    folder.stop_after(u64::MAX);
    let path = Path::new(alloc, name)?;
    let Ok(meta) = folder.look(&path, false) else {
        return Ok(0);
    };
    let mut bytes = vec![in alloc; 0u8; meta.size as usize]?;
    folder.read_at(&path, false, 0, bytes.as_mut_slice())?;
    let changed = bytes.len().saturating_sub(first);
    for byte in bytes.iter_mut().skip(first) {
        *byte ^= 0xff;
    }
    if !folder.rewrite(&path, meta.stamp, bytes) {
        return Err("then no such file".into());
    }
    Ok(changed)
}
