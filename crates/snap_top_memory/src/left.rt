// What a run left, compared with what a case tells.
use crate::arrays::{Disk, File, Left, content, parity, stamp};
use crate::cases::Case;
use disk_memory::{MemFolder, MemVault};
use disk_model::{Folder, Path, Vault};
use std::alloc::Global;
use std::test::Fail;

/// The blocks of a level by their first bytes; zeros follow.
pub type Level<'a> = &'a [&'a [u8]];

/// Fails where a run ended in another way than a case tells, or left something else.
pub fn compare(alloc: Global, number: u64, left: &mut Left, case: &Case) -> Result<(), Fail> {
    if !left.is(case.status, case.out, case.err) || left.outcome.vault.is_some() != case.is_opened {
        let status = left.outcome.status;
        return Err(Fail::new(format_args!("case {number}: status {status}")));
    }
    compare_left(alloc, number, left, case)
}

/// Fails where a run left something else than a case tells.
pub fn compare_left(alloc: Global, number: u64, left: &mut Left, case: &Case) -> Result<(), Fail> {
    if !has_contents(alloc, left, case.contents)? {
        return Err(Fail::new(format_args!("case {number}: content")));
    }
    if !has_levels(alloc, left, case.levels)? {
        return Err(Fail::new(format_args!("case {number}: parity")));
    }
    match case.left {
        Some(disks) if !has_files(alloc, left, disks)? => {
            Err(Fail::new(format_args!("case {number}: files")))
        }
        _ => Ok(()),
    }
}

/// Fails where a run over a vault changed what a case says that it keeps.
pub fn compare_kept(
    alloc: Global,
    number: u64,
    left: &mut Left,
    given: &mut MemVault,
    case: &Case,
) -> Result<(), Fail> {
    if case.keeps && !has_content_of(alloc, left, given)? {
        return Err(Fail::new(format_args!("case {number}: other content")));
    }
    match case.stays {
        Some(level) if !has_levels_of(alloc, left, given, level)? => {
            Err(Fail::new(format_args!("case {number}: other parity")))
        }
        _ => Ok(()),
    }
}

/// Whether the first content copies hold these bytes.
pub fn has_contents(alloc: Global, left: &mut Left, contents: &[&[u8]]) -> Result<bool, Fail> {
    let mut copy = 0u32;
    for bytes in contents {
        if left.content(alloc, copy)?.as_slice() != *bytes {
            return Ok(false);
        }
        copy = copy.saturating_add(1);
    }
    Ok(true)
}

// Whether the first content copy is that of a vault.
fn has_content_of(alloc: Global, left: &mut Left, vault: &mut MemVault) -> Result<bool, Fail> {
    let content = content(alloc, vault, 0)?;
    has_contents(alloc, left, &[content.as_slice()])
}

/// Whether the first levels have just these blocks, each of 1,024 bytes.
pub fn has_levels(alloc: Global, left: &mut Left, levels: &[Level]) -> Result<bool, Fail> {
    let mut level = 0u32;
    for blocks in levels {
        if !are_blocks(left.parity(alloc, level)?.as_slice(), blocks) {
            return Ok(false);
        }
        level = level.saturating_add(1);
    }
    Ok(true)
}

// Whether all levels from this one on are those of a vault.
fn has_levels_of(
    alloc: Global,
    left: &mut Left,
    vault: &mut MemVault,
    first: u32,
) -> Result<bool, Fail> {
    for level in first..vault.levels() {
        let bytes = parity(alloc, vault, level)?;
        if left.parity(alloc, level)?.as_slice() != bytes.as_slice() {
            return Ok(false);
        }
    }
    Ok(true)
}

fn are_blocks(level: &[u8], blocks: Level) -> bool {
    level.len() == blocks.len().saturating_mul(1024)
        && level
            .chunks(1024)
            .zip(blocks)
            .all(|(block, first)| begins(block, first))
}

/// Whether a block has these bytes, and then zeros.
pub fn begins(block: &[u8], first: &[u8]) -> bool {
    block.starts_with(first) && block.iter().skip(first.len()).all(|byte| *byte == 0)
}

/// Whether the disks hold just these files, with these bytes and stamps.
pub fn has_files(alloc: Global, left: &mut Left, disks: &[Disk]) -> Result<bool, Fail> {
    if left.outcome.folders.len() != disks.len() {
        return Ok(false);
    }
    for (folder, disk) in left.outcome.folders.iter_mut().zip(disks) {
        if !holds_just(alloc, folder, disk)? {
            return Ok(false);
        }
    }
    Ok(true)
}

// Whether a folder holds just these files.
fn holds_just(alloc: Global, folder: &mut MemFolder, files: Disk) -> Result<bool, Fail> {
    folder.stop_after(u64::MAX);
    if folder.list(alloc)?.len() != files.len() {
        return Ok(false);
    }
    for file in files {
        if !holds_file(alloc, folder, *file)? {
            return Ok(false);
        }
    }
    Ok(true)
}

// Whether a folder holds a file of these bytes and this stamp.
fn holds_file(alloc: Global, folder: &mut MemFolder, file: File) -> Result<bool, Fail> {
    let (name, bytes, seconds, nanos) = file;
    let path = Path::new(alloc, name)?;
    let Ok(meta) = folder.look(&path, false) else {
        return Ok(false);
    };
    if meta.stamp != stamp(seconds, nanos) {
        return Ok(false);
    }
    holds_bytes(alloc, folder, &path, bytes)
}

// Whether a folder holds a file of these bytes.
fn holds_bytes(
    alloc: Global,
    folder: &mut MemFolder,
    path: &Path,
    bytes: &[u8],
) -> Result<bool, Fail> {
    let Ok(meta) = folder.look(path, false) else {
        return Ok(false);
    };
    if meta.size != bytes.len() as u64 {
        return Ok(false);
    }
    let mut found = vec![in alloc; 0u8; bytes.len()]?;
    folder.read_at(path, false, 0, found.as_mut_slice())?;
    Ok(found.as_slice() == bytes)
}

/// Whether a disk holds a file of these bytes.
pub fn has_bytes(
    alloc: Global,
    left: &mut Left,
    disk: usize,
    name: &str,
    bytes: &[u8],
) -> Result<bool, Fail> {
    is_there(alloc, &mut left.outcome.folders, disk, name, bytes)
}

/// The same of some folders.
pub fn is_there(
    alloc: Global,
    folders: &mut Vec<MemFolder>,
    disk: usize,
    name: &str,
    bytes: &[u8],
) -> Result<bool, Fail> {
    let Some(folder) = folders.get_mut(disk) else {
        return Ok(false);
    };
    folder.stop_after(u64::MAX);
    let path = Path::new(alloc, name)?;
    holds_bytes(alloc, folder, &path, bytes)
}
