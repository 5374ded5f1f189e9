// A parity file of the system.
ghost use Rattle.std.specs.Prelude.{◌≤◌, length, IfOk};

use crate::files::{open_or_make, open_regular, read_front, sync_folder_of, write_whole};
use disk_model::Text;
use std::fs::OpenFile;
use std::io;
use std::io::ErrorKind;
use std::os::unix::fs::FileExt;
use std::rt::Files;

/// A parity file. It is opened at its first use, and stays open.
#[derive(Drop)]
pub struct ParityFile<R: Files> {
    name: Text,
    file: Option<R::File>,
    // whether it was opened to be written too
    is_writable: bool,
    // whether its folder was synced since, so that its name stays
    is_named: bool,
    // whether it was not there when it was looked for
    was_missing: bool,
}

impl<R: Files> ParityFile<R>
where
    R::File: FileExt,
{
    pub fn new(name: Text) -> ParityFile<R> {
        ParityFile {
            name,
            file: None,
            is_writable: false,
            is_named: false,
            was_missing: false,
        }
    }

    pub fn name(&self) -> &str {
        self.name.as_str()
    }

    /// Whether it is open, as it is after each reading of a file that is there.
    pub fn is_open(&self) -> bool {
        self.file.is_some()
    }

    /// Whether it was not there when it was looked for, though a write of a block may have made it since.
    pub fn was_missing(&self) -> bool {
        self.was_missing
    }

    /// Makes an empty file where there is none, so that its name stays.
    pub fn make(&self, rt: &R) -> io::Result<()> {
        let _made = open_or_make(rt, self.name.as_str())?;
        sync_folder_of(rt, self.name.as_str())
    }

    /// The number of its bytes, 0 where there is no file.
    pub fn len(&mut self, rt: &R) -> io::Result<u64> {
        self.open_to_read(rt)?;
        match &self.file {
            Some(file) => Ok(file.metadata()?.len()),
            None => Ok(0),
        }
    }

    /// Fills a front of `out`, with no byte where there is no file.
    pub fn read(&mut self, rt: &R, at: u64, out: &mut [u8]) -> io::Result<usize>
        ensures { IfOk result (λ n. n ≤ length out.new) }
    {
        self.open_to_read(rt)?;
        match &self.file {
            Some(file) => read_front(file, at, out),
            None => Ok(0),
        }
    }

    /// Writes all bytes, with zeros before them where the file was shorter. No bytes past its end extend it too. A write of
    /// no bytes at its start makes a file that was not there on purpose, as of a level that is lost as a whole.
    pub fn write(&mut self, rt: &R, at: u64, bytes: &[u8]) -> io::Result<()> {
        write_whole(self.open_to_write(rt)?, at, bytes)?;
        if at == 0 && bytes.is_empty() {
            self.was_missing = false;
        }
        Ok(())
    }

    /// Cuts the file, or extends it with zeros.
    pub fn set_len(&mut self, rt: &R, len: u64) -> io::Result<()> {
        self.open_to_write(rt)?.set_len(len)
    }

    /// Looks for the file, and answers whether it is there.
    pub fn look_for(&mut self, rt: &R) -> io::Result<bool> {
        self.open_to_read(rt)?;
        if self.file.is_none() {
            self.was_missing = true;
        }
        Ok(self.file.is_some())
    }

    /// Hands to the disk what was written, by an earlier run too, and the file's name.
    pub fn sync(&mut self, rt: &R) -> io::Result<()> {
        self.open_to_read(rt)?;
        let Some(file) = &self.file else {
            return Ok(());
        };
        file.sync_all()?;
        if !self.is_named {
            sync_folder_of(rt, self.name.as_str())?;
            self.is_named = true;
        }
        Ok(())
    }

    fn open_to_read(&mut self, rt: &R) -> io::Result<()> {
        if self.file.is_none() {
            self.file = open_regular(rt, self.name.as_str())?;
        }
        Ok(())
    }

    fn open_to_write(&mut self, rt: &R) -> io::Result<&R::File> {
        if !self.is_writable {
            self.file = Some(open_or_make(rt, self.name.as_str())?);
            self.is_writable = true;
        }
        self.file
            .as_ref()
            .ok_or(io::Error::from(ErrorKind::NotFound))
    }
}
