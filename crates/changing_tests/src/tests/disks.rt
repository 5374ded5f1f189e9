// The disks of an array in memory. Others change the files of the first between its calls.
ghost use Rattle.std.specs.Prelude.{◌≡◌};
ghost use Rattle.disk_model.specs.Stamp.{IsStamp};

use disk_memory::{Event, MemFolder, ScriptedFolder};
use disk_model::{Folder, Path, Stamp};
use std::alloc::Global;
use std::test::Fail;

/// Bytes as runs of one byte each, with its length.
pub type Runs<'a> = &'a [(u8, usize)];

/// A file by its path: its bytes, and the second at which it was changed last.
pub type File<'a> = (&'a str, Runs<'a>, i64);

pub type Disk<'a> = &'a [File<'a>];

/// What happens to a file before the call of a number: it is taken away, or has other bytes and another second.
pub type Change<'a> = (u64, &'a str, Option<(Runs<'a>, i64)>);

/// One call of one disk that fails; a call of the number 0 is none.
pub type Fault = (usize, u64);

/// The disks of an array, what happens to the files of the first, and which call fails.
#[derive(Clone, Copy)]
pub struct Scene<'a> {
    pub disks: &'a [Disk<'a>],
    pub script: &'a [Change<'a>],
    pub fault: Fault,
}

/// Five nanoseconds past a second.
fn stamp_at(seconds: i64) -> Stamp
    ensures { IsStamp result }
{
    Stamp { seconds, nanos: 5 }
}

fn spelled(alloc: Global, runs: Runs) -> Result<Vec<u8>, Fail> {
    let mut bytes = Vec::new(alloc);
    for (byte, length) in runs {
        let size = bytes.len().saturating_add(*length);
        bytes.resize(size, *byte)?;
    }
    Ok(bytes)
}

/// Whether bytes are these.
pub fn are(bytes: &[u8], runs: Runs) -> bool {
    let mut rest = bytes;
    for (byte, length) in runs {
        if rest.len() < *length {
            return false;
        }
        let (front, behind) = rest.split_at(*length);
        if !front.iter().all(|one| one == byte) {
            return false;
        }
        rest = behind;
    }
    rest.is_empty()
}

fn folder(alloc: Global, files: Disk) -> Result<MemFolder, Fail> {
    let mut folder = MemFolder::new(alloc, true);
    for (name, runs, seconds) in files {
        let path = Path::new(alloc, name)?;
        let bytes = spelled(alloc, runs)?;
        folder.put(path, stamp_at(*seconds), bytes.as_slice())?;
    }
    Ok(folder)
}

fn event(alloc: Global, change: &Change) -> Result<Event, Fail> {
    let (call, name, to) = change;
    let path = Path::new(alloc, name)?;
    match to {
        Some((runs, seconds)) => {
            let bytes = spelled(alloc, runs)?;
            Ok(Event::rewrites(*call, path, stamp_at(*seconds), bytes))
        }
        None => Ok(Event::removes(*call, path)),
    }
}

fn events(alloc: Global, script: &[Change]) -> Result<Vec<Event>, Fail> {
    let mut events = Vec::new(alloc);
    for change in script {
        events.push(event(alloc, change)?)?;
    }
    Ok(events)
}

// The disk of this number, of which a call may fail.
fn failing_folder(alloc: Global, scene: Scene, d: usize, files: Disk) -> Result<MemFolder, Fail> {
    let mut folder = folder(alloc, files)?;
    let (disk, call) = scene.fault;
    folder.fail_at(if d == disk { call } else { 0 })?;
    Ok(folder)
}

fn scripted(alloc: Global, scene: Scene, d: usize, files: Disk) -> Result<ScriptedFolder, Fail> {
    let folder = failing_folder(alloc, scene, d, files)?;
    let script = if d == 0 {
        events(alloc, scene.script)?
    } else {
        Vec::new(alloc)
    };
    Ok(ScriptedFolder::new(folder, script))
}

/// The folders of these disks.
pub fn folders(alloc: Global, scene: Scene) -> Result<Vec<ScriptedFolder>, Fail> {
    let mut folders = Vec::new(alloc);
    for (d, files) in scene.disks.iter().enumerate() {
        folders.push(scripted(alloc, scene, d, files)?)?;
    }
    Ok(folders)
}

// Whether a folder has a file of these bytes and this second.
fn has_file(alloc: Global, folder: &mut ScriptedFolder, file: &File) -> Result<bool, Fail> {
    let (name, runs, seconds) = file;
    let path = Path::new(alloc, name)?;
    let Ok(meta) = folder.look(&path, false) else {
        return Ok(false);
    };
    let mut bytes = vec![in alloc; 0u8; meta.size as usize]?;
    folder.read_at(&path, false, 0, bytes.as_mut_slice())?;
    Ok(meta.stamp == stamp_at(*seconds) && are(bytes.as_slice(), runs))
}

/// Whether a folder has just these files.
pub fn has_just(alloc: Global, folder: &mut ScriptedFolder, files: Disk) -> Result<bool, Fail> {
    if folder.list(alloc)?.len() != files.len() {
        return Ok(false);
    }
    for file in files {
        if !has_file(alloc, folder, file)? {
            return Ok(false);
        }
    }
    Ok(true)
}
