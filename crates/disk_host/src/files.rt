// Regular files, opened, read and made to stay.
ghost use Rattle.std.specs.Prelude.{◌≤◌, length, IfOk};

use std::fs::{File, Metadata, OpenFile, OpenOptions};
use std::io::ErrorKind;
use std::os::unix::fs::{FileExt, OpenOptionsExt};
use std::rt::Files;
use std::{fs, io};

// A file that is made is its owner's alone: the parity of one disk, or what a fix restores, is the data itself.
pub(crate) const PRIVATE: u32 = 0o600;

// The file of this name, `None` where there is none. Anything but a regular file is a failure.
pub(crate) fn open_regular<R: Files>(rt: &R, name: &str) -> io::Result<Option<R::File>> {
    if !is_regular(fs::metadata(rt, name))? {
        return Ok(None);
    }
    Ok(Some(fs::open(rt, name)?))
}

// The file of this name, to be written too, and made where there is none. One is never made at the end of a
// link, since its name would stand in another folder.
pub(crate) fn open_or_make<R: Files>(rt: &R, name: &str) -> io::Result<R::File> {
    let is_there = is_regular(fs::metadata(rt, name))?;
    OpenOptions::new()
        .read(true)
        .write(true)
        .create_new(!is_there)
        .mode(PRIVATE)
        .open(rt, name)
}

// Whether a file is there. A name is looked at before it is opened, since to open a fifo is to wait for
// its other end.
pub(crate) fn is_regular(seen: io::Result<Metadata>) -> io::Result<bool> {
    match seen {
        Ok(seen) if seen.is_file() => Ok(true),
        Ok(_) => Err(io::Error::new(ErrorKind::InvalidInput, "not a regular file")),
        Err(error) if error.kind() == ErrorKind::NotFound => Ok(false),
        Err(error) => Err(error),
    }
}

// Fills a front of `out` with the bytes from a place on: all of it, unless the file ends before.
pub(crate) fn read_front<F: FileExt>(file: &F, at: u64, out: &mut [u8]) -> io::Result<usize>
    ensures { IfOk result (λ n. n ≤ length out.new) }
{
    let mut filled = 0;
    for _ in 0..u64::MAX {
        if filled >= out.len() {
            return Ok(filled);
        }
        match file.read_at(&mut out[filled..], at.saturating_add(filled as u64)) {
            Ok(0) => return Ok(filled),
            Ok(count) => filled += count,
            Err(error) if error.kind() == ErrorKind::Interrupted => {}
            Err(error) => return Err(error),
        }
    }
    Err(io::Error::from(ErrorKind::TimedOut))
}

// Writes all bytes, with zeros before them where the file was shorter. No bytes past its end extend it too.
pub(crate) fn write_whole<F: FileExt + OpenFile>(
    file: &F,
    at: u64,
    bytes: &[u8],
) -> io::Result<()> {
    if bytes.is_empty() && file.metadata()?.len() < at {
        return file.set_len(at);
    }
    file.write_all_at(bytes, at)
}

// After it, the name of a file that was made or renamed stays.
pub(crate) fn sync_folder_of<R: Files>(rt: &R, name: &str) -> io::Result<()> {
    sync_folder(rt, folder_of(name))
}

// After it, all names in a folder stay.
pub(crate) fn sync_folder<R: Files>(rt: &R, folder: &str) -> io::Result<()> {
    File::open(rt, folder)?.sync_all()
}

// The folder in which a name stands.
pub(crate) fn folder_of(name: &str) -> &str {
    match name.rsplit_once('/') {
        Some(("", _)) => "/",
        Some((folder, _)) => folder,
        None => ".",
    }
}
