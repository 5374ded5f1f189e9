// All files of a data folder.
ghost use Rattle.std.specs.Prelude.{◌≡◌, IfOk, All};
ghost use Rattle.disk_model.specs.Tree.{IsListing, listed};
ghost use Rattle.disk_host.specs.Listing.{HasStamp};

use crate::order::is_listing;
use crate::places::{is_same_file, meta_of};
use disk_model::{FileInfo, Path, PathFault};
use std::alloc::Global;
use std::fs::{DirEntry, Metadata};
use std::io::ErrorKind;
use std::rt::Files;
use std::{fs, io};

// The longest path of a file.
const LONGEST: usize = 4096;

// How often a folder is looked through again for what vanished in it.
const LOOKS: u32 = 4;

// What was found so far, the folders that are still to be gone through, by their paths, and whether any of what was
// found was gone when it was come to.
#[derive(Drop)]
struct Walk {
    files: Vec<FileInfo>,
    folders: Vec<String>,
    has_missed: bool,
    ghost stamps: { All HasStamp files.items },
}

// All regular files, in the order of their paths. What vanishes meanwhile is passed over, as if it had been gone before.
// It is a failure where what the system gave in the course of it is not the listing of one tree. `at` is the folder
// that it came to.
pub(crate) fn listing<R: Files + AllocGlobal + Clone + Drop>(
    rt: &R,
    alloc: Global,
    dir: &str,
    at: &mut String,
) -> io::Result<Vec<FileInfo>>
    ensures { IfOk result (λ files. IsListing (listed files.items)) }
{
    let mut walk = Walk {
        files: Vec::new(alloc),
        folders: Vec::new(alloc),
        has_missed: false,
    };
    walk.folders.push(String::new(alloc))?;
    *at = String::from_str(alloc, dir)?;
    let top = fs::metadata(rt, dir)?;
    walk.go(rt, alloc, dir, at)?;
    if walk.has_missed {
        *at = String::from_str(alloc, dir)?;
        require_same(&top, &fs::metadata(rt, dir)?)?;
    }
    walk.sort()?;
    if is_listing(&walk.files) {
        Ok(walk.files)
    } else {
        Err(io::Error::new(ErrorKind::InvalidData, "it changed while it was listed"))
    }
}

impl Walk {
    // One folder is open at a time.
    fn go<R: Files + AllocGlobal + Clone + Drop>(
        &mut self,
        rt: &R,
        alloc: Global,
        dir: &str,
        at: &mut String,
    ) -> io::Result<()> {
        for _ in 0..u64::MAX {
            let Some(folder) = self.folders.pop() else {
                return Ok(());
            };
            *at = below(alloc, dir, folder.as_str())?;
            let gone_through = self.go_through(rt, alloc, at.as_str(), folder.as_str());
            if folder.is_empty() || !self.misses(&gone_through) {
                gone_through?;
            }
        }
        Err(io::Error::from(ErrorKind::TimedOut))
    }

    // Whether something was gone when it was come to.
    fn misses<T>(&mut self, answer: &io::Result<T>) -> bool {
        let is_gone = matches!(answer, Err(error) if error.kind() == ErrorKind::NotFound);
        self.has_missed = self.has_missed || is_gone;
        is_gone
    }

    // The entries of one folder, which has this name for the system.
    fn go_through<R: Files + AllocGlobal + Clone + Drop>(
        &mut self,
        rt: &R,
        alloc: Global,
        name: &str,
        folder: &str,
    ) -> io::Result<()> {
        let mut misses_some = false;
        for entry in fs::read_dir(rt, name)? {
            misses_some = self.take(alloc, folder, &entry?)? || misses_some;
        }
        if misses_some {
            require_gone(rt, name)?;
        }
        Ok(())
    }

    // A file is kept, a folder is gone through later, and all else is passed over. Answers whether it is gone.
    fn take<R: Files>(
        &mut self,
        alloc: Global,
        folder: &str,
        entry: &DirEntry<R>,
    ) -> io::Result<bool> {
        let path = joined(alloc, folder, entry.file_name())?;
        if path.len() > LONGEST {
            return Ok(false);
        }
        let seen = entry.metadata();
        if self.misses(&seen) {
            return Ok(true);
        }
        let seen = seen?;
        if seen.is_dir() {
            self.folders.push(path)?;
        } else if seen.is_file() {
            let path = path_of(alloc, path.as_str())?;
            self.files.push(FileInfo {
                path,
                meta: meta_of(&seen)?,
            })?;
        }
        Ok(false)
    }

    fn sort(&mut self) -> io::Result<()> {
        self.files
            .sort_by(|a, b| a.path.as_str().cmp(b.path.as_str()))?;
        Ok(())
    }
}

// Whether each entry of a folder is there when it is come to.
fn has_all<R: Files + AllocGlobal + Clone + Drop>(rt: &R, name: &str) -> io::Result<bool> {
    for entry in fs::read_dir(rt, name)? {
        match entry?.metadata() {
            Ok(_) => {}
            Err(error) if error.kind() == ErrorKind::NotFound => return Ok(false),
            Err(error) => return Err(error),
        }
    }
    Ok(true)
}

// What was removed is listed no more. A name that stays in its folder and is never there is one that a damaged file system
// cannot look at: to pass over it would be to take its file for deleted.
fn require_gone<R: Files + AllocGlobal + Clone + Drop>(rt: &R, name: &str) -> io::Result<()> {
    for _ in 0..LOOKS {
        if has_all(rt, name)? {
            return Ok(());
        }
    }
    Err(io::Error::new(ErrorKind::InvalidData, "a name in it cannot be looked at"))
}

// Whatever vanishes with its disk was not removed: then another folder is in the place of the data folder, or none.
fn require_same(top: &Metadata, now: &Metadata) -> io::Result<()> {
    if is_same_file(top, now) {
        return Ok(());
    }
    Err(io::Error::new(ErrorKind::NotFound, "another folder took its place"))
}

// The name of a folder for the system.
pub(crate) fn below(alloc: Global, dir: &str, folder: &str) -> io::Result<String> {
    if folder.is_empty() {
        return Ok(String::from_str(alloc, dir)?);
    }
    Ok(format!(in alloc; "{dir}/{folder}")?)
}

// The path of what stands in a folder, of the data folder's own files without it.
pub(crate) fn joined(alloc: Global, folder: &str, name: &str) -> io::Result<String> {
    if folder.is_empty() {
        return Ok(String::from_str(alloc, name)?);
    }
    Ok(format!(in alloc; "{folder}/{name}")?)
}

fn path_of(alloc: Global, text: &str) -> io::Result<Path>
    ensures { IfOk result (λ path. path ≡ text.now) }
{
    match Path::new(alloc, text) {
        Ok(path) => Ok(path),
        Err(PathFault::Invalid) => Err(io::Error::from(ErrorKind::InvalidFilename)),
        Err(PathFault::Memory) => Err(io::Error::from(ErrorKind::OutOfMemory)),
    }
}
