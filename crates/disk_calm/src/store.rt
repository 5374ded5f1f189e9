// Parity files, content copies and drafts in memory.
ghost use Rattle.std.specs.Prelude.{◌≡◌, [], replicate, None, IfOk};
ghost use Rattle.std.specs.Vec.{vec_len};
ghost use Rattle.disk_calm.specs.Held.{HoldsBytes, held_of};
ghost use Rattle.disk_calm.specs.HeldLaws.{HoldsBytes-prop};

use crate::bytes::Bytes;
use disk_model::{Draft, NoMemory};
use std::alloc::Global;
use std::mem::replace;

/// What a vault holds: parity files by level, content copies, and a draft of each copy.
#[derive(Drop)]
pub struct Store {
    alloc: Global,
    pub levels: u32,
    pub copies: u32,
    pub parities: Vec<Bytes>,
    pub contents: Vec<Option<Bytes>>,
    pub drafts: Vec<Draft>,
    pub staged: Vec<Bytes>,
    ghost file_of_each_level: { vec_len parities ≡ levels },
    ghost content_of_each_copy: { vec_len contents ≡ copies },
    ghost draft_of_each_copy: { vec_len drafts ≡ copies },
    ghost staged_of_each_copy: { vec_len staged ≡ copies },
    ghost bytes: { HoldsBytes (held_of parities.items contents.items drafts.items staged.items) } by { HoldsBytes-prop (held_of parities.items contents.items drafts.items staged.items) },
}

// So many empty files.
fn empty_files(alloc: Global, count: u32) -> Result<Vec<Bytes>, NoMemory>
    ensures { IfOk result (λ files. files.items ≡ replicate count []) }
{
    let mut files = Vec::new(alloc);
    for _ in 0..count {
        files.push(Bytes::new(alloc))?;
    }
    Ok(files)
}

// So many copies that are not there.
fn absent_copies(alloc: Global, count: u32) -> Result<Vec<Option<Bytes>>, NoMemory>
    ensures { IfOk result (λ copies. copies.items ≡ replicate count None) }
{
    let mut copies = Vec::new(alloc);
    for _ in 0..count {
        copies.push(None)?;
    }
    Ok(copies)
}

fn absent_drafts(alloc: Global, count: u32) -> Result<Vec<Draft>, NoMemory>
    ensures { IfOk result (λ drafts. drafts.items ≡ replicate count Draft.Absent) }
{
    let mut drafts = Vec::new(alloc);
    for _ in 0..count {
        drafts.push(Draft::Absent)?;
    }
    Ok(drafts)
}

pub fn copied_files(alloc: Global, files: &Vec<Bytes>) -> Result<Vec<Bytes>, NoMemory>
    ensures { IfOk result (λ copied. copied.items ≡ files.now.items) }
{
    let mut copied = Vec::new(alloc);
    for file in files {
        copied.push(file.copy(alloc)?)?;
    }
    Ok(copied)
}

fn copied_contents(
    alloc: Global,
    contents: &Vec<Option<Bytes>>,
) -> Result<Vec<Option<Bytes>>, NoMemory>
    ensures { IfOk result (λ copied. copied.items ≡ contents.now.items) }
{
    let mut copied = Vec::new(alloc);
    for content in contents {
        copied.push(copied_content(alloc, content)?)?;
    }
    Ok(copied)
}

pub fn copied_content(alloc: Global, content: &Option<Bytes>) -> Result<Option<Bytes>, NoMemory>
    ensures { IfOk result (λ copied. copied ≡ content.now) }
{
    match content {
        Some(bytes) => Ok(Some(bytes.copy(alloc)?)),
        None => Ok(None),
    }
}

pub fn copied_drafts(alloc: Global, drafts: &Vec<Draft>) -> Result<Vec<Draft>, NoMemory>
    ensures { IfOk result (λ copied. copied.items ≡ drafts.now.items) }
{
    let mut copied = Vec::new(alloc);
    for draft in drafts {
        copied.push(*draft)?;
    }
    Ok(copied)
}

impl Store {
    ghost use Rattle.std.specs.Prelude.{◌<◌, ◌≤◌, ◌+◌, ◌^◌, ◌++◌, length, take, unwrap_or, OnOk, OnErr, Some, IfSome};
    ghost use Rattle.std.specs.Option.{option_map};
    ghost use Rattle.disk_model.specs.Bytes.{AreBytes, put, resized, read_from};
    ghost use Rattle.disk_model.specs.Files.{parity_of, content_of};
    ghost use Rattle.disk_calm.specs.Store.{held, with_level, with_copy, with_draft, draft_held, staged_held, nothing_held, opened_held, SameCounts};
    ghost use Rattle.disk_calm.specs.Held.{AreFiles};

    /// Empty parity files, no content copy, no draft.
    pub fn new(alloc: Global, levels: u32, copies: u32) -> Result<Store, NoMemory>
        ensures held { IfOk result (λ store. held store ≡ nothing_held levels copies) }
        ensures levels { IfOk result (λ store. store.levels ≡ levels) }
        ensures copies { IfOk result (λ store. store.copies ≡ copies) }
    {
        Ok(Store {
            alloc,
            levels,
            copies,
            parities: empty_files(alloc, levels)?,
            contents: absent_copies(alloc, copies)?,
            drafts: absent_drafts(alloc, copies)?,
            staged: empty_files(alloc, copies)?,
        })
    }

    /// These files, and no draft.
    pub fn of(
        alloc: Global,
        levels: u32,
        copies: u32,
        parities: Vec<Bytes>,
        contents: Vec<Option<Bytes>>,
    ) -> Result<Store, NoMemory>
        requires levels { vec_len parities ≡ levels }
        requires copies { vec_len contents ≡ copies }
        requires bytes { AreFiles parities.items contents.items }
        ensures held { IfOk result (λ store. held store ≡ opened_held copies (record { parities = parities.items; contents = contents.items })) }
        ensures levels { IfOk result (λ store. store.levels ≡ levels) }
        ensures copies { IfOk result (λ store. store.copies ≡ copies) }
    {
        Ok(Store {
            alloc,
            levels,
            copies,
            parities,
            contents,
            drafts: absent_drafts(alloc, copies)?,
            staged: empty_files(alloc, copies)?,
        })
    }

    /// Another one that holds the same.
    pub fn copy(&self) -> Result<Store, NoMemory>
        ensures held { IfOk result (λ store. held store ≡ held self.now) }
        ensures same { IfOk result (λ store. SameCounts self.now store) }
    {
        Ok(Store {
            alloc: self.alloc,
            levels: self.levels,
            copies: self.copies,
            parities: copied_files(self.alloc, &self.parities)?,
            contents: copied_contents(self.alloc, &self.contents)?,
            drafts: copied_drafts(self.alloc, &self.drafts)?,
            staged: copied_files(self.alloc, &self.staged)?,
        })
    }

    pub fn parity_len(&self, level: u32) -> u64
        requires { level < self.now.levels }
        ensures { result ≡ length (parity_of (held self.now).files level) }
    {
        self.parities[level as usize].len()
    }

    /// How many bytes a read gives.
    pub fn parity_count(&self, level: u32, at: u64, room: usize) -> u64
        requires { level < self.now.levels }
        ensures { result ≡ length (read_from (parity_of (held self.now).files level) at room) }
    {
        self.parities[level as usize].count(at, room)
    }

    pub fn parity_read(&self, level: u32, at: u64, out: &mut [u8]) -> usize
        requires { level < self.now.levels }
        ensures bound { result ≤ length out.new }
        ensures found { take result out.new ≡ read_from (parity_of (held self.now).files level) at (length out.old) }
    {
        self.parities[level as usize].read(at, out)
    }

    /// Memory may refuse the room, where the file has to grow.
    pub fn parity_write(&mut self, level: u32, at: u64, bytes: &[u8]) -> Result<(), NoMemory>
        requires level { level < self.old.levels }
        requires room { at + length bytes.now < 2 ^ 64 }
        ensures ok { OnOk result (held self.new ≡ with_level (held self.old) level (put (parity_of (held self.old).files level) at bytes.now)) }
        ensures err { OnErr result (held self.new ≡ held self.old) }
        ensures full { OnErr result (length (parity_of (held self.old).files level) < at + length bytes.now) }
        ensures same { SameCounts self.old self.new }
    {
        self.parities[level as usize].put(at, bytes)
    }

    /// Memory may refuse the room, where the file has to grow.
    pub fn parity_set_len(&mut self, level: u32, len: u64) -> Result<(), NoMemory>
        requires { level < self.old.levels }
        ensures ok { OnOk result (held self.new ≡ with_level (held self.old) level (resized (parity_of (held self.old).files level) len)) }
        ensures err { OnErr result (held self.new ≡ held self.old) }
        ensures full { OnErr result (length (parity_of (held self.old).files level) < len) }
        ensures same { SameCounts self.old self.new }
    {
        self.parities[level as usize].set_len(len)
    }

    pub fn content_size(&self, copy: u32) -> Option<u64>
        requires { copy < self.now.copies }
        ensures { result ≡ option_map length (content_of (held self.now).files copy) }
    {
        self.contents[copy as usize]
            .as_ref()
            .map(|bytes| bytes.len())
    }

    /// How many bytes a read gives.
    pub fn content_count(&self, copy: u32, at: u64, room: usize) -> u64
        requires { copy < self.now.copies }
        ensures { result ≡ length (read_from (unwrap_or (content_of (held self.now).files copy) []) at room) }
    {
        match &self.contents[copy as usize] {
            Some(bytes) => bytes.count(at, room),
            None => 0,
        }
    }

    pub fn content_read(&self, copy: u32, at: u64, out: &mut [u8]) -> usize
        requires { copy < self.now.copies }
        ensures bound { result ≤ length out.new }
        ensures found { take result out.new ≡ read_from (unwrap_or (content_of (held self.now).files copy) []) at (length out.old) }
    {
        match &self.contents[copy as usize] {
            Some(bytes) => bytes.read(at, out),
            None => 0,
        }
    }

    pub fn set_parity(&mut self, level: u32, bytes: Bytes)
        requires level { level < self.old.levels }
        requires bytes { AreBytes bytes }
        ensures set { held self.new ≡ with_level (held self.old) level bytes }
        ensures same { SameCounts self.old self.new }
    {
        self.parities[level as usize] = bytes;
    }

    pub fn set_content(&mut self, copy: u32, content: Option<Bytes>)
        requires copy { copy < self.old.copies }
        requires bytes { IfSome content AreBytes }
        ensures set { held self.new ≡ with_copy (held self.old) copy content }
        ensures same { SameCounts self.old self.new }
    {
        self.contents[copy as usize] = content;
    }

    /// An empty draft of a copy in this state.
    pub fn set_draft(&mut self, copy: u32, draft: Draft)
        requires { copy < self.old.copies }
        ensures set { held self.new ≡ with_draft (held self.old) copy draft [] }
        ensures same { SameCounts self.old self.new }
    {
        self.drafts[copy as usize] = draft;
        self.staged[copy as usize] = Bytes::new(self.alloc);
    }

    /// Memory may refuse the room.
    pub fn draft_append(&mut self, copy: u32, bytes: &[u8]) -> Result<(), NoMemory>
        requires copy { copy < self.old.copies }
        requires draft { draft_held (held self.old) copy ≡ Draft.Open }
        ensures ok { OnOk result (held self.new ≡ with_draft (held self.old) copy Draft.Open (staged_held (held self.old) copy ++ bytes.now)) }
        ensures err { OnErr result (held self.new ≡ held self.old) }
        ensures full { OnErr result (0 < length bytes.now) }
        ensures same { SameCounts self.old self.new }
    {
        self.staged[copy as usize].append(bytes)
    }

    pub fn draft_seal(&mut self, copy: u32)
        requires { copy < self.old.copies }
        ensures sealed { held self.new ≡ with_draft (held self.old) copy Draft.Sealed (staged_held (held self.old) copy) }
        ensures same { SameCounts self.old self.new }
    {
        self.drafts[copy as usize] = Draft::Sealed;
    }

    /// Puts the draft of a copy in its place.
    pub fn publish(&mut self, copy: u32)
        requires { copy < self.old.copies }
        ensures published { held self.new ≡ with_draft (with_copy (held self.old) copy (Some (staged_held (held self.old) copy))) copy Draft.Absent [] }
        ensures same { SameCounts self.old self.new }
    {
        let none = Bytes::new(self.alloc);
        let bytes = replace(&mut self.staged[copy as usize], none);
        self.drafts[copy as usize] = Draft::Absent;
        self.contents[copy as usize] = Some(bytes);
    }
}
