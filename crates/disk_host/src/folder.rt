// A data folder of the system.
ghost use Rattle.std.specs.Prelude.{◌≡◌, ◌≤◌, length, IfOk, IfSome, OnOk, OnErr};
ghost use Rattle.disk_model.specs.Cause.{Rose, AtMostOnce};
ghost use Rattle.disk_model.specs.Stamp.{IsStamp};
ghost use Rattle.disk_model.specs.Folder.{quiet_keeping, quiet_keeping-is_folder};
ghost use Rattle.disk_host.specs.Keeping.{keeps_of};

use crate::changing::{make_file, rename_file};
use crate::failures::{Failure, Failures, Request};
use crate::faults::{counted, counted_file, counted_listing};
use crate::files::{read_front, write_whole};
use crate::kept::{Access, KeptFile, close_unless_seen, kept_open};
use crate::listing::listing;
use crate::places::{meta_of, place_of};
use crate::stamps::{keeps_stamps, set_stamp_of};
use crate::unsynced::Unsynced;
use disk_model::{
    Failed, FileFault, FileInfo, Folder, ListFault, Meta, Path, Stamp, Text, count_write,
};
use std::alloc::Global;
use std::fs::OpenFile;
use std::os::unix::fs::FileExt;
use std::rt::Files;
use std::{io, mem};

/// The folder of the system that is named by a DIR. One of its files is kept open to be read, and one to be written.
#[derive(Drop)]
pub struct DiskFolder<R: Files> {
    rt: R,
    dir: Text,
    keeps_stamps: bool,
    read: Option<KeptFile<R::File>>,
    written: Option<KeptFile<R::File>>,
    unsynced: Unsynced,
    faults: u64,
    writes: u64,
    failures: Failures,
}

impl<R: Files> DiskFolder<R> {
    /// Looks at the folder alone, for whether stamps are kept there to the nanosecond. Where its own times leave that open,
    /// a time is tried on it and set back.
    pub fn new(alloc: Global, rt: R, dir: Text) -> DiskFolder<R>
        ensures faults { result.faults ≡ 0 }
        ensures writes { result.writes ≡ 0 }
    {
        let keeps_stamps = keeps_stamps(&rt, dir.as_str());
        DiskFolder::keeping(alloc, rt, dir, keeps_stamps)
    }

    /// One that is only to be read. Nothing is asked of the system yet: whether stamps are kept there can take a write to
    /// learn, so they are taken not to be.
    pub fn to_read(alloc: Global, rt: R, dir: Text) -> DiskFolder<R>
        ensures faults { result.faults ≡ 0 }
        ensures writes { result.writes ≡ 0 }
    {
        DiskFolder::keeping(alloc, rt, dir, false)
    }

    fn keeping(alloc: Global, rt: R, dir: Text, keeps_stamps: bool) -> DiskFolder<R>
        ensures faults { result.faults ≡ 0 }
        ensures writes { result.writes ≡ 0 }
    {
        DiskFolder {
            rt,
            dir,
            keeps_stamps,
            read: None,
            written: None,
            unsynced: Unsynced::none(alloc),
            faults: 0,
            writes: 0,
            failures: Failures::none(alloc),
        }
    }
}

impl<R: Files> DiskFolder<R> {
    /// What failed so far.
    pub fn failures(&self) -> &[Failure] {
        self.failures.as_slice()
    }
}

impl<R: Files + AllocGlobal> DiskFolder<R> {
    /// Hands to the disk whatever was done through this folder since the last time: each file that was made or written,
    /// by the name that it has now, and each folder in which a name was made or changed. Where one of them fails, the
    /// others are still handed over. What failed is not tried again, since the system forgets that it did.
    pub fn sync_written(&mut self) -> Result<(), Failed>
        ensures later { self.old.faults ≤ self.new.faults }
        ensures kept { OnOk result (self.new.faults ≡ self.old.faults) }
        ensures cause { OnErr result (Rose self.old.faults self.new.faults) }
        ensures once { OnErr result (AtMostOnce self.old.faults self.new.faults) }
        ensures stamps { self.new.keeps_stamps ≡ self.old.keeps_stamps }
    {
        let written = mem::replace(&mut self.unsynced, Unsynced::none(self.rt.alloc()));
        let answer = written.sync(&self.rt, self.dir.as_str(), &mut self.failures);
        counted(&mut self.faults, answer)
    }
}

impl<R: Files + AllocGlobal> DiskFolder<R>
where
    R::File: FileExt,
{
    // Looks at a file. One that was kept open is closed where there is another in its place now, or none.
    fn look_anew(&mut self, path: &Path, lost: bool) -> io::Result<Option<Meta>>
        ensures faults { self.new.faults ≡ self.old.faults }
        ensures writes { self.new.writes ≡ self.old.writes }
        ensures keeps { self.new.keeps_stamps ≡ self.old.keeps_stamps }
        ensures stamp { IfOk result (λ found. IfSome found (λ meta. IsStamp meta.stamp)) }
    {
        let found = place_of(&self.rt, self.dir.as_str(), path.as_str(), lost);
        close_unless_seen(&mut self.read, path, lost, &found);
        close_unless_seen(&mut self.written, path, lost, &found);
        match found? {
            Some(place) => Ok(Some(meta_of(&place.seen)?)),
            None => Ok(None),
        }
    }

    fn read_kept(
        &mut self,
        path: &Path,
        lost: bool,
        at: u64,
        out: &mut [u8],
    ) -> io::Result<Option<usize>>
        ensures faults { self.new.faults ≡ self.old.faults }
        ensures writes { self.new.writes ≡ self.old.writes }
        ensures keeps { self.new.keeps_stamps ≡ self.old.keeps_stamps }
        ensures bound { IfOk result (λ found. IfSome found (λ n. n ≤ length out.new)) }
    {
        let access = Access::Read { lost };
        match kept_open(&mut self.read, &self.rt, self.dir.as_str(), path, access)? {
            Some(file) => Ok(Some(read_front(file, at, out)?)),
            None => Ok(None),
        }
    }

    fn write_kept(&mut self, path: &Path, at: u64, bytes: &[u8]) -> io::Result<Option<()>>
        ensures faults { self.new.faults ≡ self.old.faults }
        ensures writes { self.new.writes ≡ self.old.writes }
        ensures keeps { self.new.keeps_stamps ≡ self.old.keeps_stamps }
    {
        let dir = self.dir.as_str();
        match kept_open(&mut self.written, &self.rt, dir, path, Access::Write)? {
            Some(file) => {
                self.unsynced.note_file(self.rt.alloc(), path)?;
                Ok(Some(write_whole(file, at, bytes)?))
            }
            None => Ok(None),
        }
    }

    fn resize_kept(&mut self, path: &Path, size: u64) -> io::Result<Option<()>>
        ensures faults { self.new.faults ≡ self.old.faults }
        ensures writes { self.new.writes ≡ self.old.writes }
        ensures keeps { self.new.keeps_stamps ≡ self.old.keeps_stamps }
    {
        let dir = self.dir.as_str();
        match kept_open(&mut self.written, &self.rt, dir, path, Access::Write)? {
            Some(file) => {
                self.unsynced.note_file(self.rt.alloc(), path)?;
                Ok(Some(file.set_len(size)?))
            }
            None => Ok(None),
        }
    }

    // Where the stamp is not kept the file is looked at alone.
    fn stamp_kept(&mut self, path: &Path, stamp: Stamp) -> io::Result<Option<bool>>
        ensures faults { self.new.faults ≡ self.old.faults }
        ensures writes { self.new.writes ≡ self.old.writes }
        ensures keeps { self.new.keeps_stamps ≡ self.old.keeps_stamps }
        ensures kept { IfOk result (λ found. IfSome found (λ kept. kept ≡ keeps_of self.old.keeps_stamps stamp)) }
    {
        let dir = self.dir.as_str();
        if !self.keeps_stamps || stamp.seconds.is_negative() {
            let found = place_of(&self.rt, dir, path.as_str(), false)?;
            return Ok(found.map(|_| false));
        }
        match kept_open(&mut self.written, &self.rt, dir, path, Access::Write)? {
            Some(file) => {
                self.unsynced.note_file(self.rt.alloc(), path)?;
                set_stamp_of(file, stamp)?;
                Ok(Some(true))
            }
            None => Ok(None),
        }
    }

    // What is kept open is closed, since its name is another now, or another file has it.
    fn rename_closed(&mut self, path: &Path, lost: bool) -> io::Result<Option<()>>
        ensures faults { self.new.faults ≡ self.old.faults }
        ensures writes { self.new.writes ≡ self.old.writes }
        ensures keeps { self.new.keeps_stamps ≡ self.old.keeps_stamps }
    {
        self.read = None;
        self.written = None;
        rename_file(&self.rt, self.dir.as_str(), path, lost, &mut self.unsynced)
    }
}

impl<R: Files + AllocGlobal + Clone + Drop + Send> Folder for DiskFolder<R>
where
    R::File: FileExt + Send,
{
    ghost view = { λ s. quiet_keeping s.faults s.writes (keeps_of s.keeps_stamps) };

    ghost well_formed = { λ s. quiet_keeping-is_folder s.faults s.writes (keeps_of s.keeps_stamps) };

    fn faults(&self) -> u64 {
        self.faults
    }

    fn list(&mut self, alloc: Global) -> Result<Vec<FileInfo>, ListFault> {
        let mut folder = String::new(alloc);
        let answer = listing(&self.rt, alloc, self.dir.as_str(), &mut folder);
        self.failures.note(Request::List, folder.as_str(), &answer);
        counted_listing(&mut self.faults, answer)
    }

    fn look(&mut self, path: &Path, lost: bool) -> Result<Meta, FileFault> {
        let answer = self.look_anew(path, lost);
        self.failures
            .note_file(Request::Look, self.dir.as_str(), path, lost, &answer);
        counted_file(&mut self.faults, answer)
    }

    fn read_at(
        &mut self,
        path: &Path,
        lost: bool,
        at: u64,
        out: &mut [u8],
    ) -> Result<usize, FileFault> {
        let answer = self.read_kept(path, lost, at, out);
        self.failures
            .note_file(Request::Read, self.dir.as_str(), path, lost, &answer);
        counted_file(&mut self.faults, answer)
    }

    fn make(&mut self, path: &Path) -> Result<(), Failed> {
        count_write(&mut self.writes);
        let answer = make_file(&self.rt, self.dir.as_str(), path, &mut self.unsynced);
        self.failures
            .note_file(Request::Make, self.dir.as_str(), path, false, &answer);
        counted(&mut self.faults, answer)
    }

    fn write_at(&mut self, path: &Path, at: u64, bytes: &[u8]) -> Result<(), FileFault> {
        count_write(&mut self.writes);
        let answer = self.write_kept(path, at, bytes);
        self.failures
            .note_file(Request::Write, self.dir.as_str(), path, false, &answer);
        counted_file(&mut self.faults, answer)
    }

    fn set_size(&mut self, path: &Path, size: u64) -> Result<(), FileFault> {
        count_write(&mut self.writes);
        let answer = self.resize_kept(path, size);
        self.failures
            .note_file(Request::Resize, self.dir.as_str(), path, false, &answer);
        counted_file(&mut self.faults, answer)
    }

    fn set_stamp(&mut self, path: &Path, stamp: Stamp) -> Result<bool, FileFault> {
        count_write(&mut self.writes);
        let answer = self.stamp_kept(path, stamp);
        self.failures
            .note_file(Request::SetTime, self.dir.as_str(), path, false, &answer);
        counted_file(&mut self.faults, answer)
    }

    fn rename(&mut self, path: &Path, lost: bool) -> Result<(), FileFault> {
        count_write(&mut self.writes);
        let answer = self.rename_closed(path, lost);
        self.failures
            .note_file(Request::Rename, self.dir.as_str(), path, !lost, &answer);
        counted_file(&mut self.faults, answer)
    }
}
