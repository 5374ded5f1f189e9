// What was done in a data folder that the disk may not have yet.
use crate::failures::{Failures, Request};
use crate::files::sync_folder;
use crate::listing::below;
use crate::places::{name_of, place_of};
use disk_model::Path;
use std::alloc::Global;
use std::collections::{BTreeMap, BTreeSet};
use std::fs::OpenFile;
use std::io::ErrorKind;
use std::rt::Files;
use std::{fs, io};

/// Under which of its names a file stands that was written.
#[derive(Clone, Copy)]
struct Written {
    plain: bool,
    lost: bool,
}

/// The files that were written, by their paths, and the folders in which a name was made or changed, each once. The
/// data folder itself has no name in it.
#[derive(Drop)]
pub(crate) struct Unsynced {
    files: BTreeMap<String, Written>,
    folders: BTreeSet<String>,
}

impl Unsynced {
    pub fn none(alloc: Global) -> Unsynced {
        Unsynced {
            files: BTreeMap::new(alloc),
            folders: BTreeSet::new(alloc),
        }
    }

    /// Keeps that a file is written. It is asked before the file is, since memory may be refused.
    pub fn note_file(&mut self, alloc: Global, path: &Path) -> io::Result<()> {
        self.make_room(alloc, path)?;
        self.note_written(path);
        Ok(())
    }

    /// Takes the memory that is needed to note a file.
    pub fn make_room(&mut self, alloc: Global, path: &Path) -> io::Result<()> {
        if !self.files.contains_key(path.as_str()) {
            let path = String::from_str(alloc, path.as_str())?;
            let unwritten = Written {
                plain: false,
                lost: false,
            };
            self.files.insert(path, unwritten)?;
        }
        Ok(())
    }

    /// Keeps that a file was written for which there is room.
    pub fn note_written(&mut self, path: &Path) {
        if let Some(written) = self.files.get_mut(path.as_str()) {
            written.plain = true;
        }
    }

    /// Keeps that a file has its other name now. What had that name before is gone.
    pub fn note_renamed(&mut self, path: &Path, lost: bool) {
        if let Some(written) = self.files.get_mut(path.as_str()) {
            let is_written = if lost { written.plain } else { written.lost };
            *written = Written {
                plain: is_written && !lost,
                lost: is_written && lost,
            };
        }
    }

    /// Keeps that a name is made or changed in a folder. It is asked before that is done.
    pub fn note_folder(&mut self, alloc: Global, folder: &str) -> io::Result<()> {
        if !self.folders.contains(folder) {
            self.folders.insert(String::from_str(alloc, folder)?)?;
        }
        Ok(())
    }

    /// Hands all of it to the disk: first the files, so that the system has them all to write at once, then the folders.
    /// Where one fails the others are still handed over.
    pub fn sync<R: Files + AllocGlobal>(
        &self,
        rt: &R,
        dir: &str,
        failures: &mut Failures,
    ) -> io::Result<()> {
        let files = self.sync_files(rt, dir, failures);
        let folders = self.sync_folders(rt, dir, failures);
        files?;
        folders
    }

    fn sync_files<R: Files + AllocGlobal>(
        &self,
        rt: &R,
        dir: &str,
        failures: &mut Failures,
    ) -> io::Result<()> {
        let mut all = Ok(());
        for (path, written) in self.files.iter() {
            if written.plain {
                all = first_of(all, sync_file(rt, dir, path.as_str(), false, failures));
            }
            if written.lost {
                all = first_of(all, sync_file(rt, dir, path.as_str(), true, failures));
            }
        }
        all
    }

    fn sync_folders<R: Files + AllocGlobal>(
        &self,
        rt: &R,
        dir: &str,
        failures: &mut Failures,
    ) -> io::Result<()> {
        let mut all = Ok(());
        for folder in self.folders.iter() {
            all = first_of(all, sync_named(rt, dir, folder.as_str(), failures));
        }
        all
    }
}

// The first failure of two.
fn first_of(one: io::Result<()>, other: io::Result<()>) -> io::Result<()> {
    one?;
    other
}

// Hands one file to the disk, by the name that it has.
fn sync_file<R: Files + AllocGlobal>(
    rt: &R,
    dir: &str,
    path: &str,
    lost: bool,
    failures: &mut Failures,
) -> io::Result<()> {
    let name = name_of(rt.alloc(), dir, path, lost)?;
    let answer = synced(rt, dir, path, lost);
    failures.note(Request::Sync, name.as_str(), &answer);
    answer
}

// Hands a folder to the disk, and so the names in it.
fn sync_named<R: Files + AllocGlobal>(
    rt: &R,
    dir: &str,
    folder: &str,
    failures: &mut Failures,
) -> io::Result<()> {
    let name = below(rt.alloc(), dir, folder)?;
    let answer = sync_folder(rt, name.as_str());
    failures.note(Request::Sync, name.as_str(), &answer);
    answer
}

fn synced<R: Files + AllocGlobal>(rt: &R, dir: &str, path: &str, lost: bool) -> io::Result<()> {
    match place_of(rt, dir, path, lost)? {
        Some(place) => fs::open(rt, place.name.as_str())?.sync_all(),
        None => Err(io::Error::from(ErrorKind::NotFound)),
    }
}
