// A file of a data folder that is kept open, so that going through it block by block opens it once.
ghost use Rattle.std.specs.Prelude.{◌≡◌, IfOk};

use crate::places::{Place, is_same_file, place_of};
use disk_model::{NoMemory, Path};
use std::fs::{Metadata, OpenFile, OpenOptions};
use std::io;
use std::io::ErrorKind;
use std::rt::Files;

/// An open file, and what was seen of it.
#[derive(Drop)]
pub struct KeptFile<F> {
    path: Path,
    lost: bool,
    file: F,
    seen: Metadata,
}

/// What a file is opened for.
#[derive(Clone, Copy, PartialEq, Eq)]
pub(crate) enum Access {
    Read { lost: bool },
    Write,
}

impl Access {
    fn lost(self) -> bool {
        matches!(self, Access::Read { lost: true })
    }
}

impl<F> KeptFile<F> {
    fn is_at(&self, path: &Path, lost: bool) -> bool {
        self.lost == lost && self.path.as_str() == path.as_str()
    }

    fn is_seen(&self, found: &io::Result<Option<Place>>) -> bool {
        matches!(found, Ok(Some(place)) if is_same_file(&place.seen, &self.seen))
    }
}

// Closes the file where another was seen in its place, or none.
pub(crate) fn close_unless_seen<F: Drop>(
    kept: &mut Option<KeptFile<F>>,
    path: &Path,
    lost: bool,
    found: &io::Result<Option<Place>>,
) {
    if let Some(file) = kept.take() {
        if !file.is_at(path, lost) || file.is_seen(found) {
            *kept = Some(file);
        }
    }
}

// The file of a path, which is opened where another was open; `None` where there is no regular file.
pub(crate) fn kept_open<'a, R: Files + AllocGlobal>(
    kept: &'a mut Option<KeptFile<R::File>>,
    rt: &R,
    dir: &str,
    path: &Path,
    access: Access,
) -> io::Result<Option<&'a R::File>> {
    let is_open = matches!(&*kept, Some(file) if file.is_at(path, access.lost()));
    if !is_open {
        *kept = None;
        *kept = open_file(rt, dir, path, access)?;
    }
    Ok(kept.as_ref().map(|kept| &kept.file))
}

// Opens a file. It is a failure where that is another file than the one that was looked at.
fn open_file<R: Files + AllocGlobal>(
    rt: &R,
    dir: &str,
    path: &Path,
    access: Access,
) -> io::Result<Option<KeptFile<R::File>>> {
    let lost = access.lost();
    let Some(Place { name, seen }) = place_of(rt, dir, path.as_str(), lost)? else {
        return Ok(None);
    };
    let path = path_copy(path)?;
    let file = OpenOptions::new()
        .read(access != Access::Write)
        .write(access == Access::Write)
        .open(rt, name.as_str())?;
    if !is_same_file(&file.metadata()?, &seen) {
        return Err(io::Error::new(ErrorKind::ResourceBusy, "another file took its place"));
    }
    Ok(Some(KeptFile {
        path,
        lost,
        file,
        seen,
    }))
}

fn path_copy(path: &Path) -> io::Result<Path>
    ensures { IfOk result (λ copy. copy ≡ path.now) }
{
    match path.copy() {
        Ok(path) => Ok(path),
        Err(NoMemory) => Err(io::Error::from(ErrorKind::OutOfMemory)),
    }
}
