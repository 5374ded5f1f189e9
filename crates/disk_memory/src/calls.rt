// The calls of each kind of object, as its record keeps them.
ghost use Rattle.std.specs.Prelude.{◌≡◌, position, IfSome, IfOk};
ghost use Rattle.disk_model.specs.Folder.{Look, ReadAt, Make, WriteAt, SetSize, SetStamp, Rename};
ghost use Rattle.disk_model.specs.Opener.{Config, Open, Import};
ghost use Rattle.disk_model.specs.Vault.{VaultDone, ParityWrite, DraftAppend};
ghost use Rattle.disk_memory.specs.declared.past.Made.{Made};
ghost use Rattle.disk_memory.specs.declared.calls.VaultEntry.{VaultEntry};
ghost use Rattle.disk_memory.specs.Calls.{vault_call, vault_calls, is_write, folder_call, opener_call};

use crate::past::Made;
use disk_calm::Bytes;
use disk_model::{NoMemory, Path, Places, Stamp, Text};
use std::alloc::Global;

/// A call of a vault.
#[derive(Drop)]
pub enum VaultEntry {
    ParityLen(u32),
    ParityRead(u32, u64, usize),
    ParityWrite(u32, u64, Bytes),
    ParitySetLen(u32, u64),
    ParitySync(u32),
    ContentSize(u32),
    ContentRead(u32, u64, usize),
    DraftBegin(u32),
    DraftAppend(u32, Bytes),
    DraftSeal(u32),
    Publish(u32),
}

impl VaultEntry {
    // Whether it is a write to a parity file.
    pub fn is_write(&self) -> bool
        ensures { result ≡ is_write (vault_call self.now) }
    {
        match self {
            VaultEntry::ParityWrite(_, _, _) => true,
            _ => false,
        }
    }
}

// The place of the first write to a parity file.
pub fn first_write_in(entries: &[Made<VaultEntry>]) -> Option<usize>
    ensures { result ≡ position (λ (d : VaultDone). is_write d.call) (vault_calls entries.now) }
{
    first_write_entry(entries)
}

fn first_write_entry(entries: &[Made<VaultEntry>]) -> Option<usize>
    ensures { result ≡ position (λ (m : Made VaultEntry). is_write (vault_call m.call)) entries.now }
{
    entries.iter().position(|made| made.call.is_write())
}

/// A call of a folder.
#[derive(Drop)]
pub enum FolderEntry {
    ListFiles,
    Look(Path, bool),
    ReadAt(Path, bool, u64, usize),
    Make(Path),
    WriteAt(Path, u64, Bytes),
    SetSize(Path, u64),
    SetStamp(Path, Stamp),
    Rename(Path, bool),
}

// None where memory refused it.
pub fn look_entry(path: &Path, lost: bool) -> Option<FolderEntry>
    ensures { IfSome result (λ entry. folder_call entry ≡ Look path.now lost) }
{
    match path.copy() {
        Ok(path) => Some(FolderEntry::Look(path, lost)),
        Err(NoMemory) => None,
    }
}

// None where memory refused it.
pub fn read_entry(path: &Path, lost: bool, at: u64, count: usize) -> Option<FolderEntry>
    ensures { IfSome result (λ entry. folder_call entry ≡ ReadAt path.now lost at count) }
{
    match path.copy() {
        Ok(path) => Some(FolderEntry::ReadAt(path, lost, at, count)),
        Err(NoMemory) => None,
    }
}

// None where memory refused it.
pub fn make_entry(path: &Path) -> Option<FolderEntry>
    ensures { IfSome result (λ entry. folder_call entry ≡ Make path.now) }
{
    match path.copy() {
        Ok(path) => Some(FolderEntry::Make(path)),
        Err(NoMemory) => None,
    }
}

// None where memory refused it.
pub fn write_at_entry(alloc: Global, path: &Path, at: u64, bytes: &[u8]) -> Option<FolderEntry>
    ensures { IfSome result (λ entry. folder_call entry ≡ WriteAt path.now at bytes.now) }
{
    let Ok(path) = path.copy() else {
        return None;
    };
    match Bytes::from_slice(alloc, bytes) {
        Ok(bytes) => Some(FolderEntry::WriteAt(path, at, bytes)),
        Err(NoMemory) => None,
    }
}

// None where memory refused it.
pub fn set_size_entry(path: &Path, size: u64) -> Option<FolderEntry>
    ensures { IfSome result (λ entry. folder_call entry ≡ SetSize path.now size) }
{
    match path.copy() {
        Ok(path) => Some(FolderEntry::SetSize(path, size)),
        Err(NoMemory) => None,
    }
}

// None where memory refused it.
pub fn set_stamp_entry(path: &Path, stamp: Stamp) -> Option<FolderEntry>
    ensures { IfSome result (λ entry. folder_call entry ≡ SetStamp path.now stamp) }
{
    match path.copy() {
        Ok(path) => Some(FolderEntry::SetStamp(path, stamp)),
        Err(NoMemory) => None,
    }
}

// None where memory refused it.
pub fn rename_entry(path: &Path, lost: bool) -> Option<FolderEntry>
    ensures { IfSome result (λ entry. folder_call entry ≡ Rename path.now lost) }
{
    match path.copy() {
        Ok(path) => Some(FolderEntry::Rename(path, lost)),
        Err(NoMemory) => None,
    }
}

// A write to a sink. None where memory refused it.
pub fn sink_entry(alloc: Global, bytes: &[u8]) -> Option<Bytes>
    ensures { IfSome result (λ entry. entry ≡ bytes.now) }
{
    match Bytes::from_slice(alloc, bytes) {
        Ok(bytes) => Some(bytes),
        Err(NoMemory) => None,
    }
}

/// A call of an opener.
#[derive(Drop)]
pub enum OpenerEntry {
    Config(Text),
    Open(Places),
    Import(Text),
}

// None where memory refused it.
pub fn write_entry(alloc: Global, level: u32, at: u64, bytes: &[u8]) -> Option<VaultEntry>
    ensures { IfSome result (λ entry. vault_call entry ≡ ParityWrite level at bytes.now) }
{
    match Bytes::from_slice(alloc, bytes) {
        Ok(bytes) => Some(VaultEntry::ParityWrite(level, at, bytes)),
        Err(NoMemory) => None,
    }
}

// None where memory refused it.
pub fn append_entry(alloc: Global, copy: u32, bytes: &[u8]) -> Option<VaultEntry>
    ensures { IfSome result (λ entry. vault_call entry ≡ DraftAppend copy bytes.now) }
{
    match Bytes::from_slice(alloc, bytes) {
        Ok(bytes) => Some(VaultEntry::DraftAppend(copy, bytes)),
        Err(NoMemory) => None,
    }
}

// None where memory refused it.
pub fn config_entry(alloc: Global, name: &str) -> Option<OpenerEntry>
    ensures { IfSome result (λ entry. opener_call entry ≡ Config name.now) }
{
    match Text::new(alloc, name) {
        Ok(name) => Some(OpenerEntry::Config(name)),
        Err(NoMemory) => None,
    }
}

// None where memory refused it.
pub fn open_entry(alloc: Global, places: &Places) -> Option<OpenerEntry>
    ensures { IfSome result (λ entry. opener_call entry ≡ Open places.now.dirs.items places.now.parities.items places.now.contents.items) }
{
    let copied = copied_places(alloc, places);
    match copied {
        Ok(places) => Some(OpenerEntry::Open(places)),
        Err(NoMemory) => None,
    }
}

// None where memory refused it.
pub fn import_entry(alloc: Global, dir: &str) -> Option<OpenerEntry>
    ensures { IfSome result (λ entry. opener_call entry ≡ Import dir.now) }
{
    match Text::new(alloc, dir) {
        Ok(dir) => Some(OpenerEntry::Import(dir)),
        Err(NoMemory) => None,
    }
}

fn copied_places(alloc: Global, places: &Places) -> Result<Places, NoMemory>
    ensures dirs { IfOk result (λ made. made.dirs.items ≡ places.now.dirs.items) }
    ensures parities { IfOk result (λ made. made.parities.items ≡ places.now.parities.items) }
    ensures contents { IfOk result (λ made. made.contents.items ≡ places.now.contents.items) }
{
    Ok(Places {
        dirs: copied_texts(alloc, &places.dirs)?,
        parities: copied_texts(alloc, &places.parities)?,
        contents: copied_texts(alloc, &places.contents)?,
    })
}

fn copied_texts(alloc: Global, texts: &Vec<Text>) -> Result<Vec<Text>, NoMemory>
    ensures { IfOk result (λ made. made.items ≡ texts.now.items) }
{
    let mut copied = Vec::new(alloc);
    for text in texts {
        copied.push(text.copy()?)?;
    }
    Ok(copied)
}
