// A folder in memory whose files change between its calls.
ghost use Rattle.std.specs.Prelude.{◌≡◌, ◌≤◌};
ghost use Rattle.std.proofs.Props.{props};
ghost use Rattle.disk_model.specs.Stamp.{IsStamp};

use crate::MemFolder;
use crate::calls::{make_entry, rename_entry};
use disk_model::{Answer, Failed, FileFault, FileInfo, Folder, ListFault, Meta, Path, Stamp};
use std::alloc::Global;

// The stamp of a file that is taken away means nothing.
const NO_STAMP: Stamp = Stamp {
    seconds: 0,
    nanos: 0,
};

/// What happens to one file before the call of a number, from 1: it is taken away, or it has other contents.
#[derive(Drop)]
pub struct Event {
    call: u64,
    path: Path,
    stamp: Stamp,
    // none where it is taken away
    bytes: Option<Vec<u8>>,
    ghost stamped: { IsStamp stamp } by { Prim.hlevel props },
}

impl Event {
    ghost use Rattle.std.specs.Prelude.{◌≡◌, Some, None};
    ghost use Rattle.disk_memory.specs.Folder.{folder_view, folder_plan};
    ghost use Rattle.disk_memory.specs.Scripted.{after_event, with_tree};

    /// The file is taken away.
    pub fn removes(call: u64, path: Path) -> Event
        ensures call { result.call ≡ call }
        ensures path { result.path ≡ path }
        ensures bytes { result.bytes ≡ None }
    {
        Event {
            call,
            path,
            stamp: NO_STAMP,
            bytes: None,
        }
    }

    /// The file, where it is there, has this stamp and these bytes, fewer or more or others than before.
    pub fn rewrites(call: u64, path: Path, stamp: Stamp, bytes: Vec<u8>) -> Event
        requires { IsStamp stamp }
        ensures call { result.call ≡ call }
        ensures path { result.path ≡ path }
        ensures stamp { result.stamp ≡ stamp }
        ensures bytes { result.bytes ≡ Some bytes }
    {
        Event {
            call,
            path,
            stamp,
            bytes: Some(bytes),
        }
    }

    // It happens to a folder.
    fn befalls(self, folder: &mut MemFolder)
        ensures view { folder_view folder.new ≡ with_tree (folder_view folder.old) (after_event self (folder_view folder.old).tree) }
        ensures plan { folder_plan folder.new ≡ folder_plan folder.old }
    {
        let path = self.path;
        let stamp = self.stamp;
        let bytes = self.bytes;
        match bytes {
            Some(bytes) => {
                folder.rewrite(&path, stamp, bytes);
            }
            None => {
                folder.remove(&path);
            }
        }
    }
}

/// A tree of files that others change between the calls. It tells its calls, and not its tree.
#[derive(Drop)]
pub struct ScriptedFolder {
    base: MemFolder,
    calls: u64,
    script: Vec<Event>,
}

impl ScriptedFolder {
    ghost use Rattle.std.specs.Prelude.{◌≡◌, ◌∷◌, ◌+◌, [], true, false, length, nat_le, Bool};
    ghost use Rattle.disk_memory.specs.Folder.{folder_view, folder_plan};
    ghost use Rattle.disk_memory.specs.Scripted.{turned_at, turned, next_call, left_at, is_due};

    /// This folder, whose files the events change, in their order. An event whose number is past happens before the next call.
    pub fn new(base: MemFolder, script: Vec<Event>) -> ScriptedFolder
        ensures base { folder_view result.base ≡ folder_view base }
        ensures plan { folder_plan result.base ≡ folder_plan base }
        ensures calls { result.calls ≡ 0 }
        ensures script { result.script.items ≡ script.items }
    {
        ScriptedFolder {
            base,
            calls: 0,
            script,
        }
    }

    /// The folder as it is now, with what happened so far.
    pub fn into_inner(self) -> MemFolder
        ensures view { folder_view result ≡ folder_view self.base }
        ensures plan { folder_plan result ≡ folder_plan self.base }
    {
        self.base
    }

    // Whether the first event comes before the call that was counted last.
    fn is_due(&self) -> bool
        ensures { result ≡ is_due self.now.calls self.now.script.items }
    {
        match self.script.first() {
            Some(event) => event.call <= self.calls,
            None => false,
        }
    }

    // The first event happens, where it is due. Was it?
    fn step(&mut self) -> bool
        ensures calls { self.new.calls ≡ self.old.calls }
        ensures plan { folder_plan self.new.base ≡ folder_plan self.old.base }
        ensures same { turned_at self.old.calls self.new ≡ turned_at self.old.calls self.old }
        ensures left { left_at self.old.calls self.new.script.items ≡ left_at self.old.calls self.old.script.items }
        ensures fewer { result ≡ true → length self.new.script.items + 1 ≡ length self.old.script.items }
        ensures over { result ≡ false → is_due self.new.calls self.new.script.items ≡ false }
    {
        if !self.is_due() {
            return false;
        }
        self.script.remove(0).befalls(&mut self.base);
        true
    }

    // Counts a call, and what is to happen before it happens.
    fn turn(&mut self)
        ensures calls { self.new.calls ≡ next_call self.old }
        ensures turned { folder_view self.new.base ≡ turned self.old }
        ensures script { self.new.script.items ≡ left_at self.new.calls self.old.script.items }
        ensures plan { folder_plan self.new.base ≡ folder_plan self.old.base }
    {
        self.calls = self.calls.saturating_add(1);
        for _ in 0..self.script.len() {
            if !self.step() {
                return;
            }
        }
    }
}

// Each call meets the trait's clauses. It is the call of the folder below as the script left that (`played`).
impl Folder for ScriptedFolder {
    ghost use Rattle.std.specs.Prelude.{◌≡◌, ◌≢◌, ◌≤◌, ◌<◌, ◌+◌, ◌^◌, length, take, not, IfOk, IfSome, IsTrue, Some, None, is_err};
    ghost use Rattle.std.specs.Option.{option_map};
    ghost use Rattle.disk_model.specs.Answer.{plain, listing_answer, file_answer, done_answer};
    ghost use Rattle.disk_model.specs.Bytes.{read_from};
    ghost use Rattle.disk_model.specs.Stamp.{IsStamp};
    ghost use Rattle.disk_model.specs.Tree.{file_of, meta_of, path_of, IsListing, listed, listing_of};
    ghost use Rattle.disk_model.specs.Folder.{ListFiles, Look, ReadAt, Make, WriteAt, SetSize, SetStamp, Rename};
    ghost use Rattle.disk_model.specs.Folder.{IsFolderReading, MissingExactly, MayHold};
    ghost use Rattle.disk_model.specs.Writing.{IsFolderWrite};
    ghost use Rattle.disk_calm.specs.Files.{IsShorter};
    ghost use Rattle.disk_memory.specs.Folder.{FolderObeysExactly, FolderObeysUnless};
    ghost use Rattle.disk_memory.specs.Scripted.{scripted_view, scripted_well_formed, turned, Plays};

    ghost view = { scripted_view };

    ghost well_formed = { scripted_well_formed };

    fn faults(&self) -> u64 {
        self.base.faults()
    }

    fn list(&mut self, alloc: Global) -> Result<Vec<FileInfo>, ListFault>
        ensures call { IsFolderReading ListFiles (listing_answer result) (scripted_view self.old) (scripted_view self.new) }
        ensures listing { IfOk result (λ files. IsListing (listed files.items)) }
        ensures found { IsTrue (scripted_view self.old).tells →
            IfOk result (λ files. listed files.items ≡ listing_of (scripted_view self.old).tree) }
        ensures played { Plays (IsFolderReading ListFiles (listing_answer result))
            (FolderObeysExactly (listing_answer result)) self.old self.new }
        ensures found_then { IfOk result (λ files. listed files.items ≡ listing_of (turned self.old).tree) }
    {
        self.turn();
        self.base.list(alloc)
    }

    fn look(&mut self, path: &Path, lost: bool) -> Result<Meta, FileFault>
        ensures call { IsFolderReading (Look path.now lost) (file_answer Answer.Saw result)
            (scripted_view self.old) (scripted_view self.new) }
        ensures missing { MissingExactly result (scripted_view self.old) (path_of path.now lost) }
        ensures stamp { IfOk result (λ meta. IsStamp meta.stamp) }
        ensures found { IsTrue (scripted_view self.old).tells → IfOk result (λ meta.
            option_map meta_of (file_of (scripted_view self.old).tree (path_of path.now lost)) ≡ Some meta) }
        ensures played { Plays (IsFolderReading (Look path.now lost) (file_answer Answer.Saw result))
            (FolderObeysExactly (file_answer Answer.Saw result)) self.old self.new }
        ensures missing_then { MissingExactly result (turned self.old) (path_of path.now lost) }
        ensures found_then { IfOk result (λ meta. option_map meta_of (file_of (turned self.old).tree (path_of path.now lost)) ≡ Some meta) }
    {
        self.turn();
        self.base.look(path, lost)
    }

    fn read_at(
        &mut self,
        path: &Path,
        lost: bool,
        at: u64,
        out: &mut [u8],
    ) -> Result<usize, FileFault>
        ensures call { IsFolderReading (ReadAt path.now lost at (length out.old)) (file_answer Answer.Bytes result)
            (scripted_view self.old) (scripted_view self.new) }
        ensures missing { MissingExactly result (scripted_view self.old) (path_of path.now lost) }
        ensures bound { IfOk result (λ n. n ≤ length out.new) }
        ensures found { IsTrue (scripted_view self.old).tells → IfOk result (λ n.
            IfSome (file_of (scripted_view self.old).tree (path_of path.now lost)) (λ file.
            take n out.new ≡ read_from file.bytes at (length out.old))) }
        ensures played { Plays (IsFolderReading (ReadAt path.now lost at (length out.old)) (file_answer Answer.Bytes result))
            (FolderObeysExactly (file_answer Answer.Bytes result)) self.old self.new }
        ensures missing_then { MissingExactly result (turned self.old) (path_of path.now lost) }
        ensures found_then { IfOk result (λ n. IfSome (file_of (turned self.old).tree (path_of path.now lost)) (λ file.
            take n out.new ≡ read_from file.bytes at (length out.old))) }
    {
        self.turn();
        self.base.read_at(path, lost, at, out)
    }

    // A path that the tree forbids is refused: the call fails.
    fn make(&mut self, path: &Path) -> Result<(), Failed>
        requires { MayHold (scripted_view self.old) path.now }
        ensures call { IsFolderWrite (Make path.now) (plain (is_err result))
            (scripted_view self.old) (scripted_view self.new) }
        ensures played { Plays (IsFolderWrite (Make path.now) (plain (is_err result)))
            (FolderObeysUnless (file_of (turned self.old).tree path.now ≡ None) (plain (is_err result))) self.old self.new }
    {
        self.turn();
        if !self.base.takes(path, false) {
            return Err(self.base.refuse(make_entry(path)));
        }
        self.base.make(path)
    }

    fn write_at(&mut self, path: &Path, at: u64, bytes: &[u8]) -> Result<(), FileFault>
        requires { at + length bytes.now < 2 ^ 64 }
        ensures call { IsFolderWrite (WriteAt path.now at bytes.now) (done_answer result)
            (scripted_view self.old) (scripted_view self.new) }
        ensures missing { MissingExactly result (scripted_view self.old) path.now }
        ensures played { Plays (IsFolderWrite (WriteAt path.now at bytes.now) (done_answer result))
            (FolderObeysUnless (IsShorter (turned self.old).tree path.now (at + length bytes.now)) (done_answer result)) self.old self.new }
        ensures missing_then { MissingExactly result (turned self.old) path.now }
    {
        self.turn();
        self.base.write_at(path, at, bytes)
    }

    fn set_size(&mut self, path: &Path, size: u64) -> Result<(), FileFault>
        ensures call { IsFolderWrite (SetSize path.now size) (done_answer result)
            (scripted_view self.old) (scripted_view self.new) }
        ensures missing { MissingExactly result (scripted_view self.old) path.now }
        ensures played { Plays (IsFolderWrite (SetSize path.now size) (done_answer result))
            (FolderObeysUnless (IsShorter (turned self.old).tree path.now size) (done_answer result)) self.old self.new }
        ensures missing_then { MissingExactly result (turned self.old) path.now }
    {
        self.turn();
        self.base.set_size(path, size)
    }

    fn set_stamp(&mut self, path: &Path, stamp: Stamp) -> Result<bool, FileFault>
        requires { IsStamp stamp }
        ensures call { IsFolderWrite (SetStamp path.now stamp) (file_answer Answer.Kept result)
            (scripted_view self.old) (scripted_view self.new) }
        ensures missing { MissingExactly result (scripted_view self.old) path.now }
        ensures kept { IfOk result (λ kept. kept ≡ (scripted_view self.old).keeps stamp) }
        ensures played { Plays (IsFolderWrite (SetStamp path.now stamp) (file_answer Answer.Kept result))
            (FolderObeysExactly (file_answer Answer.Kept result)) self.old self.new }
        ensures missing_then { MissingExactly result (turned self.old) path.now }
    {
        self.turn();
        self.base.set_stamp(path, stamp)
    }

    // A path that the tree forbids is refused: the call fails.
    fn rename(&mut self, path: &Path, lost: bool) -> Result<(), FileFault>
        requires { MayHold (scripted_view self.old) (path_of path.now lost) }
        ensures call { IsFolderWrite (Rename path.now lost) (done_answer result)
            (scripted_view self.old) (scripted_view self.new) }
        ensures missing { MissingExactly result (scripted_view self.old) (path_of path.now (not lost)) }
        ensures played { Plays (IsFolderWrite (Rename path.now lost) (done_answer result))
            (FolderObeysUnless (file_of (turned self.old).tree (path_of path.now (not lost)) ≢ None) (done_answer result)) self.old self.new }
        ensures missing_then { MissingExactly result (turned self.old) (path_of path.now (not lost)) }
    {
        self.turn();
        if !self.base.holds(path, !lost) {
            let missed = rename_entry(path, lost);
            return Err(self.base.misses(missed));
        }
        if !self.base.takes(path, lost) {
            let refused = rename_entry(path, lost);
            self.base.refuse(refused);
            return Err(FileFault::Failed);
        }
        self.base.rename(path, lost)
    }
}
