// The files of a folder in memory, in the order of their paths.
ghost use Rattle.std.specs.Prelude.{◌≡◌, ◌↔◌, ◌<◌, length, IfOk, IfErr, IsTrue, nat_eq, map, if◌then◌else◌};
ghost use Rattle.std.specs.List.{starts_with};
ghost use Rattle.disk_model.specs.Tree.{listed};
ghost use Rattle.disk_calm.specs.Files.{IsKept, IsRising, IsPlace, HasPath, LacksPath, entries_of, entry_of, info_of};
ghost use Rattle.disk_calm.specs.FilesLaws.{IsKept-prop};

use crate::bytes::Bytes;
use disk_model::{FileInfo, Meta, NoMemory, Path, Stamp};
use std::alloc::Global;

const SLASH: u8 = b'/';

// The stamp of a file that was made.
const FIRST_STAMP: Stamp = Stamp {
    seconds: 0,
    nanos: 0,
};

/// A file of a folder.
#[derive(Drop)]
pub struct MemFile {
    pub path: Path,
    pub stamp: Stamp,
    pub bytes: Bytes,
}

/// The files of a folder: their paths rise in byte order, and none is a directory of another.
#[derive(Drop)]
pub struct Files {
    list: Vec<MemFile>,
    ghost kept: { IsKept list.items } by { IsKept-prop list.items },
}

impl Files {
    ghost use Rattle.std.specs.Prelude.{[], ◌+◌, ◌^◌, OnOk, OnErr, IfNone, IfSome, None, false};
    ghost use Rattle.disk_model.specs.Path.{IsValidPath};
    ghost use Rattle.std.specs.FinMap as map;
    ghost use Rattle.std.specs.Option.{option_map, option_copied};
    ghost use Rattle.disk_model.specs.Bytes.{AreBytes, put, resized};
    ghost use Rattle.disk_model.specs.Stamp.{IsStamp};
    ghost use Rattle.disk_model.specs.Writing.{made, renamed};
    ghost use Rattle.disk_model.specs.Tree.{file_of, listing_of, IsApart, IsFile, IsListing};
    ghost use Rattle.disk_calm.specs.Files.{file_in, changed, with_bytes, with_stamp, first_stamp, IsShorter, EndsDirectory, HasNoDirectory, HoldsNone};
    ghost use Rattle.disk_calm.specs.Kept.{files_in, tree_in, HasRoom};

    pub fn new(alloc: Global) -> Files
        ensures { files_in result ≡ [] }
    {
        Files {
            list: Vec::new(alloc),
        }
    }

    /// The file with this path.
    pub fn get(&self, path: &[u8]) -> Option<&MemFile>
        ensures { option_map file_in (option_copied result) ≡ file_of (tree_in self.now) path.now }
    {
        match place_of(&self.list, path) {
            Ok(place) => Some(&self.list[place]),
            Err(_) => None,
        }
    }

    /// Sets a file. Memory may refuse the room, where there is none.
    pub fn put(&mut self, path: Path, stamp: Stamp, bytes: Bytes) -> Result<(), NoMemory>
        requires { IsFile (tree_in self.old) path (record { stamp = stamp; bytes = bytes }) }
        ensures ok { OnOk result (tree_in self.new ≡ map.insert (tree_in self.old) path (record { stamp = stamp; bytes = bytes })) }
        ensures err { OnErr result (files_in self.new ≡ files_in self.old) }
        ensures full { OnErr result (¬ (HasRoom self.old)) }
    {
        match place_of(&self.list, path.as_str().as_bytes()) {
            Ok(place) => {
                self.list[place] = MemFile { path, stamp, bytes };
            }
            Err(place) => {
                self.list.insert(place, MemFile { path, stamp, bytes })?;
            }
        }
        Ok(())
    }

    /// Takes a file away, which leaves room for another.
    pub fn take(&mut self, path: &[u8]) -> Option<MemFile>
        ensures there { option_map file_in result ≡ file_of (tree_in self.old) path.now }
        ensures taken { tree_in self.new ≡ map.remove (tree_in self.old) path.now }
        ensures missing { IfNone result (files_in self.new ≡ files_in self.old) }
        ensures room { IfSome result (λ file. HasRoom self.new) }
    {
        match place_of(&self.list, path) {
            Ok(place) => Some(self.list.remove(place)),
            Err(_) => None,
        }
    }

    /// Writes bytes into a file, after zeros where it was shorter. Was it there? Memory may refuse the room.
    pub fn write(&mut self, path: &[u8], at: u64, bytes: &[u8]) -> Result<bool, NoMemory>
        requires { at + length bytes.now < 2 ^ 64 }
        ensures there { IfOk result (λ there. there ≡ map.contains_key (tree_in self.old) path.now) }
        ensures written { OnOk result (tree_in self.new ≡ changed (with_bytes (λ old. put old at bytes.now)) path.now (tree_in self.old)) }
        ensures err { OnErr result (tree_in self.new ≡ tree_in self.old) }
        ensures full { OnErr result (IsShorter (tree_in self.old) path.now (at + length bytes.now)) }
    {
        let Ok(place) = place_of(&self.list, path) else {
            return Ok(false);
        };
        self.list[place].bytes.put(at, bytes)?;
        Ok(true)
    }

    /// Cuts a file, or extends it with zeros. Was it there? Memory may refuse the room.
    pub fn resize(&mut self, path: &[u8], size: u64) -> Result<bool, NoMemory>
        ensures there { IfOk result (λ there. there ≡ map.contains_key (tree_in self.old) path.now) }
        ensures resized { OnOk result (tree_in self.new ≡ changed (with_bytes (λ old. resized old size)) path.now (tree_in self.old)) }
        ensures err { OnErr result (tree_in self.new ≡ tree_in self.old) }
        ensures full { OnErr result (IsShorter (tree_in self.old) path.now size) }
    {
        let Ok(place) = place_of(&self.list, path) else {
            return Ok(false);
        };
        self.list[place].bytes.set_len(size)?;
        Ok(true)
    }

    /// Sets the stamp of a file, where stamps are kept. Was the file there?
    pub fn stamp(&mut self, path: &[u8], stamp: Stamp, keeps: bool) -> bool
        requires { IsStamp stamp }
        ensures there { result ≡ map.contains_key (tree_in self.old) path.now }
        ensures stamped { tree_in self.new ≡ changed (with_stamp keeps stamp) path.now (tree_in self.old) }
    {
        let Ok(place) = place_of(&self.list, path) else {
            return false;
        };
        let file = &mut self.list[place];
        file.stamp = chosen(keeps, stamp, file.stamp);
        true
    }

    /// Gives a file another stamp and other bytes. Was it there?
    pub fn rewrite(&mut self, path: &[u8], stamp: Stamp, bytes: Bytes) -> bool
        requires stamp { IsStamp stamp }
        requires bytes { AreBytes bytes }
        ensures there { result ≡ map.contains_key (tree_in self.old) path.now }
        ensures rewritten { tree_in self.new ≡ changed (λ _. record { stamp = stamp; bytes = bytes }) path.now (tree_in self.old) }
    {
        let Ok(place) = place_of(&self.list, path) else {
            return false;
        };
        let file = &mut self.list[place];
        file.stamp = stamp;
        file.bytes = bytes;
        true
    }

    /// Makes an empty file, where there is none. Memory may refuse the room.
    pub fn make(&mut self, alloc: Global, path: &Path) -> Result<(), NoMemory>
        requires valid { IsValidPath path.now }
        requires apart { IsApart (tree_in self.old) path.now }
        ensures ok { OnOk result (tree_in self.new ≡ made path.now first_stamp (tree_in self.old)) }
        ensures err { OnErr result (files_in self.new ≡ files_in self.old) }
        ensures full { OnErr result (file_of (tree_in self.old) path.now ≡ None) }
    {
        if self.get(path.as_str().as_bytes()).is_some() {
            return Ok(());
        }
        self.put(path.copy()?, FIRST_STAMP, Bytes::new(alloc))
    }

    /// Puts a file under another path, over one of that name. Was it there?
    pub fn rename(&mut self, from: &[u8], to: Path) -> bool
        requires valid { IsValidPath to }
        requires apart { IsApart (map.remove (tree_in self.old) from.now) to }
        ensures there { result ≡ map.contains_key (tree_in self.old) from.now }
        ensures renamed { tree_in self.new ≡ renamed from.now to (tree_in self.old) }
    {
        match self.take(from) {
            Some(file) => match self.put(to, file.stamp, file.bytes) {
                Ok(()) => true,
                Err(NoMemory) => unreachable!(),
            },
            None => false,
        }
    }

    /// Whether no file is a directory of the path, and it is a directory of no file.
    pub fn is_apart(&self, alloc: Global, path: &[u8]) -> Result<bool, NoMemory>
        ensures { IfOk result (λ answer. IsTrue answer ↔ IsApart (tree_in self.now) path.now) }
    {
        if !self.has_no_directory(path) {
            return Ok(false);
        }
        self.holds_none(alloc, path)
    }

    // Whether no file is a directory of the path.
    fn has_no_directory(&self, path: &[u8]) -> bool
        ensures { IsTrue result ↔ HasNoDirectory (tree_in self.now) path.now }
    {
        for end in 0..path.len() {
            if self.ends_directory(path, end) {
                return false;
            }
        }
        true
    }

    // Whether a file is what stands before a slash at this place.
    fn ends_directory(&self, path: &[u8], end: usize) -> bool
        requires { end < length path.now }
        ensures { IsTrue result ↔ EndsDirectory (tree_in self.now) path.now end }
    {
        path[end] == SLASH && self.get(&path[..end]).is_some()
    }

    // Whether the path is a directory of no file. Such a file would stand first from the path and a slash on.
    fn holds_none(&self, alloc: Global, path: &[u8]) -> Result<bool, NoMemory>
        ensures { IfOk result (λ answer. IsTrue answer ↔ HoldsNone (tree_in self.now) path.now) }
    {
        let mut front = Vec::from_slice(alloc, path)?;
        front.push(SLASH)?;
        let place = first_from(&self.list, front.as_slice());
        if place < self.list.len() {
            return Ok(!begins_with(&self.list[place], front.as_slice()));
        }
        Ok(true)
    }

    /// Whether these are the same files.
    pub fn is_same(&self, other: &Files) -> bool
        ensures { IsTrue result ↔ (tree_in self.now ≡ tree_in other.now) }
    {
        have_same(&self.list, &other.list)
    }

    /// All files as they are listed.
    pub fn infos(&self, alloc: Global) -> Result<Vec<FileInfo>, NoMemory>
        ensures listing { IfOk result (λ infos. IsListing (listed infos.items)) }
        ensures found { IfOk result (λ infos. listed infos.items ≡ listing_of (tree_in self.now)) }
    {
        infos_of(alloc, &self.list)
    }
}

fn chosen(keeps: bool, stamp: Stamp, old: Stamp) -> Stamp
    ensures { result ≡ (if keeps then stamp else old) }
{
    if keeps { stamp } else { old }
}

// The first place from which on no path is less than this one, and whether the file there has this path.
fn place_of(files: &[MemFile], path: &[u8]) -> Result<usize, usize>
    requires { IsRising files.now }
    ensures there { IfOk result (λ place. IsPlace files.now path.now place) }
    ensures is { IfOk result (HasPath files.now path.now) }
    ensures gap { IfErr result (λ place. IsPlace files.now path.now place) }
    ensures lacks { IfErr result (λ place. LacksPath files.now path.now) }
{
    files.binary_search_by(|file| file.path.as_str().as_bytes().cmp(&path))
}

// The first place from which on no path is less than this one.
fn first_from(files: &[MemFile], path: &[u8]) -> usize
    requires { IsRising files.now }
    ensures { IsPlace files.now path.now result }
{
    match place_of(files, path) {
        Ok(place) => place,
        Err(place) => place,
    }
}

fn begins_with(file: &MemFile, front: &[u8]) -> bool
    ensures { result ≡ starts_with nat_eq file.now.path front.now }
{
    file.path.as_str().as_bytes().starts_with(front)
}

fn is_same_file(file: &MemFile, other: &MemFile) -> bool
    ensures { IsTrue result ↔ (entry_of file.now ≡ entry_of other.now) }
{
    file.path.as_str().as_bytes() == other.path.as_str().as_bytes()
        && file.stamp == other.stamp
        && file.bytes.as_slice() == other.bytes.as_slice()
}

fn have_same(files: &[MemFile], others: &[MemFile]) -> bool
    ensures { IsTrue result ↔ (entries_of files.now ≡ entries_of others.now) }
{
    if files.len() != others.len() {
        return false;
    }
    for place in 0..files.len() {
        if !is_same_file(&files[place], &others[place]) {
            return false;
        }
    }
    true
}

fn infos_of(alloc: Global, files: &[MemFile]) -> Result<Vec<FileInfo>, NoMemory>
    ensures { IfOk result (λ infos. listed infos.items ≡ map info_of files.now) }
{
    let mut infos = Vec::new(alloc);
    for file in files {
        let meta = Meta {
            size: file.bytes.len(),
            stamp: file.stamp,
        };
        infos.push(FileInfo {
            path: file.path.copy()?,
            meta,
        })?;
    }
    Ok(infos)
}
