// Files of a data folder that are made and renamed. No link is followed.
use crate::files::{PRIVATE, is_regular};
use crate::listing::{below, joined};
use crate::places::{look_at, name_of, place_of, require_folder};
use crate::unsynced::Unsynced;
use disk_model::Path;
use std::fs::{DirBuilder, OpenOptions};
use std::io::ErrorKind;
use std::os::unix::fs::{DirBuilderExt, OpenOptionsExt};
use std::rt::Files;
use std::{fs, io};

// A folder that is made is its owner's alone.
const PRIVATE_FOLDER: u32 = 0o700;

// An empty file at PATH, unless a regular one is there; the folders on its way are made too. Anything else in their
// place is a failure. What is made is noted.
pub(crate) fn make_file<R: Files + AllocGlobal>(
    rt: &R,
    dir: &str,
    path: &Path,
    unsynced: &mut Unsynced,
) -> io::Result<()> {
    require_folder(rt, dir)?;
    make_way(rt, dir, way_of(path), unsynced)?;
    let name = name_of(rt.alloc(), dir, path.as_str(), false)?;
    if !is_regular(fs::symlink_metadata(rt, name.as_str()))? {
        unsynced.make_room(rt.alloc(), path)?;
        unsynced.note_folder(rt.alloc(), way_of(path))?;
        let _made = OpenOptions::new()
            .write(true)
            .create_new(true)
            .mode(PRIVATE)
            .open(rt, name.as_str())?;
        unsynced.note_written(path);
    }
    Ok(())
}

// The folder in which a file stands, from the data folder on, whose own name is empty there.
fn way_of(path: &Path) -> &str {
    match path.as_str().rsplit_once('/') {
        Some((way, _)) => way,
        None => "",
    }
}

// The folders on the way to a file.
fn make_way<R: Files + AllocGlobal>(
    rt: &R,
    dir: &str,
    way: &str,
    unsynced: &mut Unsynced,
) -> io::Result<()> {
    let mut above = String::new(rt.alloc());
    for part in way.split('/') {
        let folder = joined(rt.alloc(), above.as_str(), part)?;
        if !part.is_empty() {
            make_folder(rt, dir, above.as_str(), folder.as_str(), unsynced)?;
        }
        above = folder;
    }
    Ok(())
}

// A folder in the one above it, where there is nothing yet. A link to a folder is a failure too.
fn make_folder<R: Files + AllocGlobal>(
    rt: &R,
    dir: &str,
    above: &str,
    folder: &str,
    unsynced: &mut Unsynced,
) -> io::Result<()> {
    let name = below(rt.alloc(), dir, folder)?;
    let name = name.as_str();
    match look_at(rt, name)? {
        Some(seen) if seen.is_dir() => Ok(()),
        Some(_) => Err(io::Error::from(ErrorKind::NotADirectory)),
        None => {
            unsynced.note_folder(rt.alloc(), above)?;
            DirBuilder::new().mode(PRIVATE_FOLDER).create(rt, name)
        }
    }
}

// Puts PATH under PATH`.unrecoverable` where `lost` is true, and back where it is false. A regular file alone is
// renamed over.
pub(crate) fn rename_file<R: Files + AllocGlobal>(
    rt: &R,
    dir: &str,
    path: &Path,
    lost: bool,
    unsynced: &mut Unsynced,
) -> io::Result<Option<()>> {
    let Some(place) = place_of(rt, dir, path.as_str(), !lost)? else {
        return Ok(None);
    };
    let name = name_of(rt.alloc(), dir, path.as_str(), lost)?;
    is_regular(fs::symlink_metadata(rt, name.as_str()))?;
    unsynced.note_folder(rt.alloc(), way_of(path))?;
    fs::rename(rt, place.name.as_str(), name.as_str())?;
    unsynced.note_renamed(path, lost);
    Ok(Some(()))
}
