// A calm folder.
ghost use Rattle.std.specs.Prelude.{◌≡◌, if◌then◌else◌, Ok, Err};

use crate::bytes::Bytes;
use crate::fault::fail;
use crate::files::Files;
use crate::name::{name_of, path_named};
use disk_model::{
    Answer, Failed, FileFault, FileInfo, Folder, ListFault, Meta, NoMemory, Path, Stamp,
    count_write,
};
use std::alloc::Global;

/// A tree of files, in memory. It fails where memory refuses a growth, and nowhere else.
#[derive(Drop)]
pub struct CalmFolder {
    alloc: Global,
    keeps_stamps: bool,
    faults: u64,
    writes: u64,
    files: Files,
}

impl CalmFolder {
    ghost use Rattle.std.specs.Prelude.{◌≡◌, ◌↔◌, OnErr, IfOk, IsTrue, false};
    ghost use Rattle.std.specs.FinMap as map;
    ghost use Rattle.disk_model.specs.Folder.{Allows};
    ghost use Rattle.disk_model.specs.Stamp.{IsStamp};
    ghost use Rattle.disk_calm.specs.Calm.{calm_folder_view, fresh_calm_folder};

    /// An empty tree.
    pub fn new(alloc: Global, keeps_stamps: bool) -> CalmFolder
        ensures { calm_folder_view result ≡ fresh_calm_folder keeps_stamps }
    {
        CalmFolder {
            alloc,
            keeps_stamps,
            faults: 0,
            writes: 0,
            files: Files::new(alloc),
        }
    }

    /// Sets a file, over one of that name. False, changing nothing, exactly where the tree forbids the path.
    pub fn put(&mut self, path: Path, stamp: Stamp, bytes: &[u8]) -> Result<bool, NoMemory>
        requires { IsStamp stamp }
        ensures allowed { IfOk result (λ done. IsTrue done ↔ Allows (calm_folder_view self.old) path) }
        ensures put { IfOk result (λ done. IsTrue done →
            calm_folder_view self.new ≡ record (calm_folder_view self.old) { tree = map.insert (calm_folder_view self.old).tree path (record { stamp = stamp; bytes = bytes.now }) }) }
        ensures forbidden { IfOk result (λ done. done ≡ false → calm_folder_view self.new ≡ calm_folder_view self.old) }
        ensures err { OnErr result (calm_folder_view self.new ≡ calm_folder_view self.old) }
    {
        let held = Bytes::from_slice(self.alloc, bytes)?;
        if !self.files.is_apart(self.alloc, path.as_str().as_bytes())? {
            return Ok(false);
        }
        self.files.put(path, stamp, held)?;
        Ok(true)
    }

    /// Takes a file away. False exactly where it isn't there.
    pub fn remove(&mut self, path: &Path) -> bool
        ensures there { result ≡ map.contains_key (calm_folder_view self.old).tree path.now }
        ensures removed { calm_folder_view self.new ≡ record (calm_folder_view self.old) { tree = map.remove (calm_folder_view self.old).tree path.now } }
        ensures missing { result ≡ false → calm_folder_view self.new ≡ calm_folder_view self.old }
    {
        self.files.take(path.as_str().as_bytes()).is_some()
    }

    /// Whether the tree is that of another folder.
    pub fn has_files_of(&self, other: &CalmFolder) -> bool
        ensures { IsTrue result ↔ ((calm_folder_view self.now).tree ≡ (calm_folder_view other.now).tree) }
    {
        self.files.is_same(&other.files)
    }
}

// Each call meets the trait's clauses. A reading call never fails (`calm`), nor does a writing call by which nothing grows.
impl Folder for CalmFolder {
    ghost use Rattle.std.specs.Prelude.{◌≡◌, ◌≢◌, ◌≤◌, ◌<◌, ◌+◌, ◌^◌, length, take, not, IfOk, IfSome, IsTrue, Some, None, is_err};
    ghost use Rattle.std.specs.Option.{option_map};
    ghost use Rattle.disk_model.specs.Bytes.{read_from};
    ghost use Rattle.disk_model.specs.Stamp.{IsStamp};
    ghost use Rattle.disk_model.specs.Tree.{file_of, meta_of, path_of, IsListing, listed, listing_of};
    ghost use Rattle.disk_model.specs.Folder.{ListFiles, Look, ReadAt, Make, WriteAt, SetSize, SetStamp, Rename};
    ghost use Rattle.disk_model.specs.Folder.{IsFolderReading, MissingExactly, MayHold};
    ghost use Rattle.disk_model.specs.Answer.{plain, is_failure, listing_answer, file_answer, done_answer};
    ghost use Rattle.disk_model.specs.Writing.{IsFolderWrite};
    ghost use Rattle.disk_calm.specs.Calm.{calm_folder_view, calm_folder_well_formed, IsCalm, IsCalmUnless};
    ghost use Rattle.disk_calm.specs.Files.{IsShorter};

    ghost view = { calm_folder_view };

    ghost well_formed = { calm_folder_well_formed };

    fn faults(&self) -> u64 {
        self.faults
    }

    fn list(&mut self, alloc: Global) -> Result<Vec<FileInfo>, ListFault>
        ensures call { IsFolderReading ListFiles (listing_answer result) (calm_folder_view self.old) (calm_folder_view self.new) }
        ensures listing { IfOk result (λ files. IsListing (listed files.items)) }
        ensures found { IsTrue (calm_folder_view self.old).tells →
            IfOk result (λ files. listed files.items ≡ listing_of (calm_folder_view self.old).tree) }
        ensures calm { IsCalm (is_failure (listing_answer result)) self.old.faults self.new.faults }
    {
        match self.files.infos(alloc) {
            Ok(infos) => Ok(infos),
            Err(NoMemory) => Err(ListFault::Memory),
        }
    }

    fn look(&mut self, path: &Path, lost: bool) -> Result<Meta, FileFault>
        ensures call { IsFolderReading (Look path.now lost) (file_answer Answer.Saw result)
            (calm_folder_view self.old) (calm_folder_view self.new) }
        ensures missing { MissingExactly result (calm_folder_view self.old) (path_of path.now lost) }
        ensures stamp { IfOk result (λ meta. IsStamp meta.stamp) }
        ensures found { IsTrue (calm_folder_view self.old).tells → IfOk result (λ meta.
            option_map meta_of (file_of (calm_folder_view self.old).tree (path_of path.now lost)) ≡ Some meta) }
        ensures calm { IsCalm (is_failure (file_answer Answer.Saw result)) self.old.faults self.new.faults }
    {
        match self.files.get(name_of(path, lost).as_slice()) {
            Some(file) => Ok(Meta {
                size: file.bytes.len(),
                stamp: file.stamp,
            }),
            None => Err(FileFault::Missing),
        }
    }

    fn read_at(
        &mut self,
        path: &Path,
        lost: bool,
        at: u64,
        out: &mut [u8],
    ) -> Result<usize, FileFault>
        ensures call { IsFolderReading (ReadAt path.now lost at (length out.old)) (file_answer Answer.Bytes result)
            (calm_folder_view self.old) (calm_folder_view self.new) }
        ensures missing { MissingExactly result (calm_folder_view self.old) (path_of path.now lost) }
        ensures bound { IfOk result (λ n. n ≤ length out.new) }
        ensures found { IsTrue (calm_folder_view self.old).tells → IfOk result (λ n.
            IfSome (file_of (calm_folder_view self.old).tree (path_of path.now lost)) (λ file.
            take n out.new ≡ read_from file.bytes at (length out.old))) }
        ensures calm { IsCalm (is_failure (file_answer Answer.Bytes result)) self.old.faults self.new.faults }
    {
        match self.files.get(name_of(path, lost).as_slice()) {
            Some(file) => Ok(file.bytes.read(at, out)),
            None => Err(FileFault::Missing),
        }
    }

    fn make(&mut self, path: &Path) -> Result<(), Failed>
        requires { MayHold (calm_folder_view self.old) path.now }
        ensures call { IsFolderWrite (Make path.now) (plain (is_err result))
            (calm_folder_view self.old) (calm_folder_view self.new) }
        ensures calm { IsCalmUnless (file_of (calm_folder_view self.old).tree path.now ≡ None) (is_err result) self.old.faults self.new.faults }
    {
        count_write(&mut self.writes);
        match self.files.make(self.alloc, path) {
            Ok(()) => Ok(()),
            Err(NoMemory) => Err(fail(&mut self.faults)),
        }
    }

    fn write_at(&mut self, path: &Path, at: u64, bytes: &[u8]) -> Result<(), FileFault>
        requires { at + length bytes.now < 2 ^ 64 }
        ensures call { IsFolderWrite (WriteAt path.now at bytes.now) (done_answer result)
            (calm_folder_view self.old) (calm_folder_view self.new) }
        ensures missing { MissingExactly result (calm_folder_view self.old) path.now }
        ensures calm { IsCalmUnless (IsShorter (calm_folder_view self.old).tree path.now (at + length bytes.now))
            (is_failure (done_answer result)) self.old.faults self.new.faults }
    {
        count_write(&mut self.writes);
        let Ok(there) = self.files.write(path.as_str().as_bytes(), at, bytes) else {
            fail(&mut self.faults);
            return Err(FileFault::Failed);
        };
        found(there)
    }

    fn set_size(&mut self, path: &Path, size: u64) -> Result<(), FileFault>
        ensures call { IsFolderWrite (SetSize path.now size) (done_answer result)
            (calm_folder_view self.old) (calm_folder_view self.new) }
        ensures missing { MissingExactly result (calm_folder_view self.old) path.now }
        ensures calm { IsCalmUnless (IsShorter (calm_folder_view self.old).tree path.now size)
            (is_failure (done_answer result)) self.old.faults self.new.faults }
    {
        count_write(&mut self.writes);
        let Ok(there) = self.files.resize(path.as_str().as_bytes(), size) else {
            fail(&mut self.faults);
            return Err(FileFault::Failed);
        };
        found(there)
    }

    fn set_stamp(&mut self, path: &Path, stamp: Stamp) -> Result<bool, FileFault>
        requires { IsStamp stamp }
        ensures call { IsFolderWrite (SetStamp path.now stamp) (file_answer Answer.Kept result)
            (calm_folder_view self.old) (calm_folder_view self.new) }
        ensures missing { MissingExactly result (calm_folder_view self.old) path.now }
        ensures kept { IfOk result (λ kept. kept ≡ (calm_folder_view self.old).keeps stamp) }
        ensures calm { IsCalm (is_failure (file_answer Answer.Kept result)) self.old.faults self.new.faults }
    {
        count_write(&mut self.writes);
        let name = path.as_str().as_bytes();
        if !self.files.stamp(name, stamp, self.keeps_stamps) {
            return Err(FileFault::Missing);
        }
        Ok(self.keeps_stamps)
    }

    // The other name of a file is a text of its own, for which memory may be refused.
    fn rename(&mut self, path: &Path, lost: bool) -> Result<(), FileFault>
        requires { MayHold (calm_folder_view self.old) (path_of path.now lost) }
        ensures call { IsFolderWrite (Rename path.now lost) (done_answer result)
            (calm_folder_view self.old) (calm_folder_view self.new) }
        ensures missing { MissingExactly result (calm_folder_view self.old) (path_of path.now (not lost)) }
        ensures calm { IsCalmUnless (file_of (calm_folder_view self.old).tree (path_of path.now (not lost)) ≢ None)
            (is_failure (done_answer result)) self.old.faults self.new.faults }
    {
        count_write(&mut self.writes);
        let from = name_of(path, !lost);
        if self.files.get(from.as_slice()).is_none() {
            return Err(FileFault::Missing);
        }
        let Ok(to) = path_named(self.alloc, path, lost) else {
            fail(&mut self.faults);
            return Err(FileFault::Failed);
        };
        found(self.files.rename(from.as_slice(), to))
    }
}

/// What a call on one file answers that did its work where the file was there.
pub fn found(there: bool) -> Result<(), FileFault>
    ensures { result ≡ (if there then Ok tt else Err FileFault.Missing) }
{
    if there {
        Ok(())
    } else {
        Err(FileFault::Missing)
    }
}
