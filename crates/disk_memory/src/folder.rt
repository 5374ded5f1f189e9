// A folder in memory.
ghost use Rattle.std.specs.Prelude.{◌≡◌, Ok, Err};

use crate::calls::{
    FolderEntry, look_entry, make_entry, read_entry, rename_entry, set_size_entry, set_stamp_entry,
    write_at_entry,
};
use crate::past::{Past, answer_where, begin};
use crate::schedule::Schedule;
use disk_calm::{Bytes, Files, found, name_of, path_named, text_of};
use disk_model::{
    Answer, Failed, FileFault, FileInfo, Folder, ListFault, Meta, NoMemory, Path, Stamp,
    count_write, is_valid_path,
};
use std::alloc::Global;

/// A tree of files, in memory.
#[derive(Drop)]
pub struct MemFolder {
    alloc: Global,
    schedule: Schedule,
    past: Past<FolderEntry>,
    writes: u64,
    keeps_stamps: bool,
    files: Files,
}

impl MemFolder {
    ghost use Rattle.std.specs.Prelude.{[], ◌≢◌, ◌↔◌, ◌∷◌, ◌++◌, OnOk, OnErr, IfOk, IfSome, IsTrue, None, true, false};
    ghost use Rattle.std.specs.FinMap as map;
    ghost use Rattle.disk_model.specs.Folder.{FolderCall, Allows, IsFolderCall, writes_folder};
    ghost use Rattle.disk_model.specs.Tree.{file_of, path_of};
    ghost use Rattle.disk_model.specs.Stamp.{IsStamp};
    ghost use Rattle.disk_memory.specs.Schedule.{fresh_plan, counted};
    ghost use Rattle.disk_memory.specs.Calls.{folder_call};
    ghost use Rattle.disk_calm.specs.Files.{changed};
    ghost use Rattle.disk_memory.specs.Folder.{folder_view, folder_plan, fresh_folder, fault_answer, FolderObeysExactly};

    /// An empty tree.
    pub fn new(alloc: Global, keeps_stamps: bool) -> MemFolder
        ensures view { folder_view result ≡ fresh_folder keeps_stamps }
        ensures plan { folder_plan result ≡ fresh_plan }
    {
        MemFolder {
            alloc,
            schedule: Schedule::new(alloc),
            past: Past::new(alloc),
            writes: 0,
            keeps_stamps,
            files: Files::new(alloc),
        }
    }

    /// Sets a file, over one of that name. False, changing nothing, exactly where the tree forbids the path.
    pub fn put(&mut self, path: Path, stamp: Stamp, bytes: &[u8]) -> Result<bool, NoMemory>
        requires { IsStamp stamp }
        ensures allowed { IfOk result (λ done. IsTrue done ↔ Allows (folder_view self.old) path) }
        ensures put { IfOk result (λ done. IsTrue done →
            folder_view self.new ≡ record (folder_view self.old) { tree = map.insert (folder_view self.old).tree path (record { stamp = stamp; bytes = bytes.now }) }) }
        ensures forbidden { IfOk result (λ done. done ≡ false → folder_view self.new ≡ folder_view self.old) }
        ensures err { OnErr result (folder_view self.new ≡ folder_view self.old) }
        ensures plan { folder_plan self.new ≡ folder_plan self.old }
    {
        let held = Bytes::from_slice(self.alloc, bytes)?;
        if !self.files.is_apart(self.alloc, path.as_str().as_bytes())? {
            return Ok(false);
        }
        self.files.put(path, stamp, held)?;
        Ok(true)
    }

    // Whether there is a file of this name.
    pub(crate) fn holds(&self, path: &Path, lost: bool) -> bool
        ensures there { result ≡ true → file_of (folder_view self.now).tree (path_of path.now lost) ≢ None }
        ensures missing { result ≡ false → file_of (folder_view self.now).tree (path_of path.now lost) ≡ None }
    {
        self.files.get(name_of(path, lost).as_slice()).is_some()
    }

    // Whether the tree takes a file of this name, as far as memory lets it be told. It takes one that it holds.
    pub(crate) fn takes(&self, path: &Path, lost: bool) -> bool
        ensures allowed { result ≡ true → Allows (folder_view self.now) (path_of path.now lost) }
        ensures missing { result ≡ false → file_of (folder_view self.now).tree (path_of path.now lost) ≡ None }
    {
        if self.holds(path, lost) {
            return true;
        }
        match self.allows(path, lost) {
            Ok(allowed) => allowed,
            Err(NoMemory) => false,
        }
    }

    /// Whether the tree takes a file of this name: no file stands in its way.
    pub fn allows(&self, path: &Path, lost: bool) -> Result<bool, NoMemory>
        ensures { IfOk result (λ yes. IsTrue yes ↔ Allows (folder_view self.now) (path_of path.now lost)) }
    {
        let text = text_of(self.alloc, path, lost)?;
        if !is_valid_path(text.as_str()) {
            return Ok(false);
        }
        self.files.is_apart(self.alloc, text.as_str().as_bytes())
    }

    /// Takes a file away. False exactly where it isn't there.
    pub fn remove(&mut self, path: &Path) -> bool
        ensures there { result ≡ map.contains_key (folder_view self.old).tree path.now }
        ensures removed { folder_view self.new ≡ record (folder_view self.old) { tree = map.remove (folder_view self.old).tree path.now } }
        ensures missing { result ≡ false → folder_view self.new ≡ folder_view self.old }
        ensures plan { folder_plan self.new ≡ folder_plan self.old }
    {
        self.files.take(path.as_str().as_bytes()).is_some()
    }

    /// Gives a file another stamp and other bytes. False exactly where it isn't there.
    pub fn rewrite(&mut self, path: &Path, stamp: Stamp, bytes: Vec<u8>) -> bool
        requires { IsStamp stamp }
        ensures there { result ≡ map.contains_key (folder_view self.old).tree path.now }
        ensures rewritten { folder_view self.new ≡ record (folder_view self.old) { tree = changed (λ _. record { stamp = stamp; bytes = bytes.items }) path.now (folder_view self.old).tree } }
        ensures plan { folder_plan self.new ≡ folder_plan self.old }
    {
        let name = path.as_str().as_bytes();
        self.files.rewrite(name, stamp, Bytes::of(bytes))
    }

    /// Whether it tells its calls: memory refused no entry of the record.
    pub fn tells_calls(&self) -> bool
        ensures { result ≡ (folder_view self.now).tells_calls }
    {
        !self.past.lost
    }

    // A writing call that is not made of the tree: it is counted and written down, and it fails.
    pub(crate) fn refuse(&mut self, entry: Option<FolderEntry>) -> Failed
        ensures called { (call : FolderCall) → IfSome entry (λ e. folder_call e ≡ call) → writes_folder call ≡ true →
            IsFolderCall call Answer.Failed (folder_view self.old) (folder_view self.new) }
        ensures tree { (folder_view self.new).tree ≡ (folder_view self.old).tree }
        ensures counted { folder_plan self.new ≡ counted (folder_plan self.old) }
    {
        count_write(&mut self.writes);
        begin(&mut self.schedule, &mut self.past, entry);
        self.schedule.fail()
    }

    // A writing call on a file that is not there: it is counted and written down, and it finds no file unless it fails.
    pub(crate) fn misses(&mut self, entry: Option<FolderEntry>) -> FileFault
        ensures called { (call : FolderCall) → IfSome entry (λ e. folder_call e ≡ call) → writes_folder call ≡ true →
            IsFolderCall call (fault_answer result) (folder_view self.old) (folder_view self.new) }
        ensures tree { (folder_view self.new).tree ≡ (folder_view self.old).tree }
        ensures scheduled { FolderObeysExactly (fault_answer result) self.old self.new }
    {
        count_write(&mut self.writes);
        if !begin(&mut self.schedule, &mut self.past, entry) {
            self.schedule.fail();
            return FileFault::Failed;
        }
        self.past.end(Answer::Missing);
        FileFault::Missing
    }

    /// Adds a number to the list of failing calls.
    pub fn fail_at(&mut self, call: u64) -> Result<(), NoMemory>
        ensures same { folder_view self.new ≡ folder_view self.old }
        ensures added { OnOk result (folder_plan self.new ≡ record (folder_plan self.old) { failing = (folder_plan self.old).failing ++ call ∷ [] }) }
        ensures err { OnErr result (folder_plan self.new ≡ folder_plan self.old) }
    {
        self.schedule.fail_at(call)
    }

    /// Every call after so many fails; the greatest u64 means none.
    pub fn stop_after(&mut self, calls: u64)
        ensures same { folder_view self.new ≡ folder_view self.old }
        ensures plan { folder_plan self.new ≡ record (folder_plan self.old) { stop = calls } }
    {
        self.schedule.stop_after(calls);
    }
}

// Each call meets the trait's clauses, and fails as its schedule says (`scheduled`).
impl Folder for MemFolder {
    ghost use Rattle.std.specs.Prelude.{◌≡◌, ◌≢◌, ◌≤◌, ◌<◌, ◌+◌, ◌^◌, length, take, not, IfOk, IfSome, IsTrue, Some, None, is_err};
    ghost use Rattle.std.specs.Option.{option_map};
    ghost use Rattle.disk_model.specs.Bytes.{read_from};
    ghost use Rattle.disk_model.specs.Stamp.{IsStamp};
    ghost use Rattle.disk_model.specs.Tree.{file_of, meta_of, path_of, IsListing, listed, listing_of};
    ghost use Rattle.disk_model.specs.Folder.{ListFiles, Look, ReadAt, Make, WriteAt, SetSize, SetStamp, Rename};
    ghost use Rattle.disk_model.specs.Folder.{IsFolderReading, MissingExactly, MayHold};
    ghost use Rattle.disk_model.specs.Answer.{plain, listing_answer, file_answer, done_answer};
    ghost use Rattle.disk_model.specs.Writing.{IsFolderWrite};
    ghost use Rattle.disk_memory.specs.Folder.{folder_view, FolderObeysExactly, FolderObeysUnless, folder_well_formed};
    ghost use Rattle.disk_calm.specs.Files.{IsShorter};

    ghost view = { folder_view };

    ghost well_formed = { folder_well_formed };

    fn faults(&self) -> u64 {
        self.schedule.faults
    }

    fn list(&mut self, alloc: Global) -> Result<Vec<FileInfo>, ListFault>
        ensures call { IsFolderReading ListFiles (listing_answer result) (folder_view self.old) (folder_view self.new) }
        ensures listing { IfOk result (λ files. IsListing (listed files.items)) }
        ensures found { IsTrue (folder_view self.old).tells → IfOk result (λ files. listed files.items ≡ listing_of (folder_view self.old).tree) }
        ensures scheduled { FolderObeysExactly (listing_answer result) self.old self.new }
    {
        if !begin(
            &mut self.schedule,
            &mut self.past,
            Some(FolderEntry::ListFiles),
        ) {
            self.schedule.fail();
            return Err(ListFault::Failed);
        }
        match self.files.infos(alloc) {
            Ok(infos) => {
                self.past.end(Answer::Done);
                Ok(infos)
            }
            Err(NoMemory) => {
                self.past.end(Answer::OutOfMemory);
                Err(ListFault::Memory)
            }
        }
    }

    fn look(&mut self, path: &Path, lost: bool) -> Result<Meta, FileFault>
        ensures call { IsFolderReading (Look path.now lost) (file_answer Answer.Saw result) (folder_view self.old) (folder_view self.new) }
        ensures missing { MissingExactly result (folder_view self.old) (path_of path.now lost) }
        ensures stamp { IfOk result (λ meta. IsStamp meta.stamp) }
        ensures found { IsTrue (folder_view self.old).tells → IfOk result (λ meta. option_map meta_of (file_of (folder_view self.old).tree (path_of path.now lost)) ≡ Some meta) }
        ensures scheduled { FolderObeysExactly (file_answer Answer.Saw result) self.old self.new }
    {
        let entry = look_entry(path, lost);
        if !begin(&mut self.schedule, &mut self.past, entry) {
            self.schedule.fail();
            return Err(FileFault::Failed);
        }
        let name = name_of(path, lost);
        match self.files.get(name.as_slice()) {
            Some(file) => {
                let meta = Meta {
                    size: file.bytes.len(),
                    stamp: file.stamp,
                };
                self.past.end(Answer::Saw(meta));
                Ok(meta)
            }
            None => {
                self.past.end(Answer::Missing);
                Err(FileFault::Missing)
            }
        }
    }

    fn read_at(
        &mut self,
        path: &Path,
        lost: bool,
        at: u64,
        out: &mut [u8],
    ) -> Result<usize, FileFault>
        ensures call { IsFolderReading (ReadAt path.now lost at (length out.old)) (file_answer Answer.Bytes result) (folder_view self.old) (folder_view self.new) }
        ensures missing { MissingExactly result (folder_view self.old) (path_of path.now lost) }
        ensures bound { IfOk result (λ n. n ≤ length out.new) }
        ensures found { IsTrue (folder_view self.old).tells → IfOk result (λ n. IfSome (file_of (folder_view self.old).tree (path_of path.now lost)) (λ file. take n out.new ≡ read_from file.bytes at (length out.old))) }
        ensures scheduled { FolderObeysExactly (file_answer Answer.Bytes result) self.old self.new }
    {
        let entry = read_entry(path, lost, at, out.len());
        if !begin(&mut self.schedule, &mut self.past, entry) {
            self.schedule.fail();
            return Err(FileFault::Failed);
        }
        let name = name_of(path, lost);
        match self.files.get(name.as_slice()) {
            Some(file) => {
                let count = file.bytes.read(at, out);
                self.past.end(Answer::Bytes(count as u64));
                Ok(count)
            }
            None => {
                self.past.end(Answer::Missing);
                Err(FileFault::Missing)
            }
        }
    }

    fn make(&mut self, path: &Path) -> Result<(), Failed>
        requires { MayHold (folder_view self.old) path.now }
        ensures call { IsFolderWrite (Make path.now) (plain (is_err result))
            (folder_view self.old) (folder_view self.new) }
        ensures scheduled { FolderObeysUnless (file_of (folder_view self.old).tree path.now ≡ None) (plain (is_err result)) self.old self.new }
    {
        count_write(&mut self.writes);
        let entry = make_entry(path);
        if !begin(&mut self.schedule, &mut self.past, entry) {
            return Err(self.schedule.fail());
        }
        match self.files.make(self.alloc, path) {
            Ok(()) => {
                self.past.end(Answer::Done);
                Ok(())
            }
            Err(NoMemory) => Err(self.schedule.fail()),
        }
    }

    fn write_at(&mut self, path: &Path, at: u64, bytes: &[u8]) -> Result<(), FileFault>
        requires { at + length bytes.now < 2 ^ 64 }
        ensures call { IsFolderWrite (WriteAt path.now at bytes.now) (done_answer result)
            (folder_view self.old) (folder_view self.new) }
        ensures missing { MissingExactly result (folder_view self.old) path.now }
        ensures scheduled { FolderObeysUnless (IsShorter (folder_view self.old).tree path.now (at + length bytes.now)) (done_answer result) self.old self.new }
    {
        count_write(&mut self.writes);
        let entry = write_at_entry(self.alloc, path, at, bytes);
        if !begin(&mut self.schedule, &mut self.past, entry) {
            self.schedule.fail();
            return Err(FileFault::Failed);
        }
        let Ok(there) = self.files.write(path.as_str().as_bytes(), at, bytes) else {
            self.schedule.fail();
            return Err(FileFault::Failed);
        };
        self.past.end(answer_where(there));
        found(there)
    }

    fn set_size(&mut self, path: &Path, size: u64) -> Result<(), FileFault>
        ensures call { IsFolderWrite (SetSize path.now size) (done_answer result)
            (folder_view self.old) (folder_view self.new) }
        ensures missing { MissingExactly result (folder_view self.old) path.now }
        ensures scheduled { FolderObeysUnless (IsShorter (folder_view self.old).tree path.now size) (done_answer result) self.old self.new }
    {
        count_write(&mut self.writes);
        let entry = set_size_entry(path, size);
        if !begin(&mut self.schedule, &mut self.past, entry) {
            self.schedule.fail();
            return Err(FileFault::Failed);
        }
        let Ok(there) = self.files.resize(path.as_str().as_bytes(), size) else {
            self.schedule.fail();
            return Err(FileFault::Failed);
        };
        self.past.end(answer_where(there));
        found(there)
    }

    fn set_stamp(&mut self, path: &Path, stamp: Stamp) -> Result<bool, FileFault>
        requires { IsStamp stamp }
        ensures call { IsFolderWrite (SetStamp path.now stamp) (file_answer Answer.Kept result)
            (folder_view self.old) (folder_view self.new) }
        ensures missing { MissingExactly result (folder_view self.old) path.now }
        ensures kept { IfOk result (λ kept. kept ≡ (folder_view self.old).keeps stamp) }
        ensures scheduled { FolderObeysExactly (file_answer Answer.Kept result) self.old self.new }
    {
        count_write(&mut self.writes);
        let entry = set_stamp_entry(path, stamp);
        if !begin(&mut self.schedule, &mut self.past, entry) {
            self.schedule.fail();
            return Err(FileFault::Failed);
        }
        let name = path.as_str().as_bytes();
        if !self.files.stamp(name, stamp, self.keeps_stamps) {
            self.past.end(Answer::Missing);
            return Err(FileFault::Missing);
        }
        self.past.end(Answer::Kept(self.keeps_stamps));
        Ok(self.keeps_stamps)
    }

    // The other name of a file is a text of its own, for which memory may be refused.
    fn rename(&mut self, path: &Path, lost: bool) -> Result<(), FileFault>
        requires { MayHold (folder_view self.old) (path_of path.now lost) }
        ensures call { IsFolderWrite (Rename path.now lost) (done_answer result)
            (folder_view self.old) (folder_view self.new) }
        ensures missing { MissingExactly result (folder_view self.old) (path_of path.now (not lost)) }
        ensures scheduled { FolderObeysUnless (file_of (folder_view self.old).tree (path_of path.now (not lost)) ≢ None)
            (done_answer result) self.old self.new }
    {
        count_write(&mut self.writes);
        let entry = rename_entry(path, lost);
        if !begin(&mut self.schedule, &mut self.past, entry) {
            self.schedule.fail();
            return Err(FileFault::Failed);
        }
        if !self.holds(path, !lost) {
            self.past.end(Answer::Missing);
            return Err(FileFault::Missing);
        }
        let Ok(to) = path_named(self.alloc, path, lost) else {
            self.schedule.fail();
            return Err(FileFault::Failed);
        };
        let there = self.files.rename(name_of(path, !lost).as_slice(), to);
        self.past.end(answer_where(there));
        found(there)
    }
}
