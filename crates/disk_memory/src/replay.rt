// A vault as its calls made it: what a stop may leave of it, besides what reads give.
ghost use Rattle.std.specs.Prelude.{◌≡◌, map, get_or, set, IfOk, if◌then◌else◌};
ghost use Rattle.disk_model.specs.Machine.{settled};
ghost use Rattle.disk_model.specs.Unsynced.{synced};
ghost use Rattle.disk_model.specs.Vault.{is_sealed};

use crate::calls::VaultEntry;
use crate::past::Made;
use disk_calm::{Bytes, Store, copied_content, copied_drafts, copied_files};
use disk_model::{Draft, NoMemory};
use std::alloc::Global;
use std::marker::Model;
use std::mem::replace;

/// Places of a file, from one on and up to another.
#[derive(Clone, Copy)]
pub struct Range {
    pub from: u64,
    pub to: u64,
}

/// A parity file since its last sync: what it reads as, the places that were written, cut off or added, and its least and
/// its greatest length.
#[derive(Drop)]
pub struct Level {
    pub read: Bytes,
    // the latest comes last
    pub touched: Vec<Range>,
    pub least: u64,
    pub greatest: u64,
}

impl Model for Level {
    ghost use Rattle.disk_model.specs.Unsynced.{Unsynced};
    ghost use Rattle.disk_memory.specs.Replay.{touched_by};

    ghost Value = { Unsynced };

    ghost view = { λ l. record { read = l.read; touched = touched_by l.touched.items; least = l.least; greatest = l.greatest } };
}

impl Level {
    ghost use Rattle.std.specs.Prelude.{◌+◌, ◌^◌, ◌<◌, Bool, length, if◌then◌else◌, OnOk};
    ghost use Rattle.disk_model.specs.Bytes.{put, resized};
    ghost use Rattle.disk_model.specs.Unsynced.{written, stretched};

    // Just opened or synced.
    pub fn synced(alloc: Global, read: Bytes) -> Level
        ensures { result ≡ synced read }
    {
        let len = read.len();
        Level {
            read,
            touched: Vec::new(alloc),
            least: len,
            greatest: len,
        }
    }

    // A write that was done, or of which reads show nothing.
    pub fn write(&mut self, at: u64, bytes: &[u8], failed: bool) -> Result<(), NoMemory>
        requires { at + length bytes.now < 2 ^ 64 }
        ensures { OnOk result (self.new ≡ written at (length bytes.now) (if failed then self.old.read else put self.old.read at bytes.now) self.old) }
    {
        let to = at + bytes.len() as u64;
        let from = at.min(self.read.len());
        if !failed {
            self.read.put(at, bytes)?;
        }
        self.touched.push(Range { from, to })?;
        self.greatest = self.greatest.max(to);
        Ok(())
    }

    // A change of the length that was done, or of which reads show nothing.
    pub fn set_len(&mut self, len: u64, failed: bool) -> Result<(), NoMemory>
        ensures { OnOk result (self.new ≡ stretched len (if failed then self.old.read else resized self.old.read len) self.old) }
    {
        let was = self.read.len();
        if !failed {
            self.read.set_len(len)?;
        }
        self.touched.push(Range {
            from: was.min(len),
            to: was.max(len),
        })?;
        self.least = self.least.min(len);
        self.greatest = self.greatest.max(len);
        Ok(())
    }

    pub fn sync(&mut self)
        ensures { self.new ≡ synced self.old.read }
    {
        self.touched.clear();
        self.least = self.read.len();
        self.greatest = self.read.len();
    }
}

/// A content copy: what it reads as, what else a stop may leave of it, or that this is anything at all.
#[derive(Drop)]
pub struct LooseCopy {
    pub read: Option<Bytes>,
    // the latest comes first
    pub others: Vec<Option<Bytes>>,
    pub any: bool,
}

impl Model for LooseCopy {
    ghost use Rattle.disk_model.specs.Machine.{Loose};

    ghost Value = { Loose };

    ghost view = { λ c. record { read = c.read; others = c.others.items; any = c.any } };
}

impl LooseCopy {
    ghost use Rattle.std.specs.Prelude.{◌≡◌, OnOk};
    ghost use Rattle.disk_model.specs.Machine.{published};

    // Just opened.
    pub fn settled(alloc: Global, read: Option<Bytes>) -> LooseCopy
        ensures { result ≡ settled read }
    {
        LooseCopy {
            read,
            others: Vec::new(alloc),
            any: false,
        }
    }

    // A publish that was done or not, of a draft that was sealed or not.
    pub fn publish(&mut self, sealed: bool, failed: bool, bytes: Bytes) -> Result<(), NoMemory>
        ensures { OnOk result (self.new ≡ published sealed failed bytes self.old) }
    {
        if !failed {
            self.read = Some(bytes);
            self.others.clear();
            self.any = !sealed;
        } else if sealed {
            self.others.insert(0, Some(bytes))?;
        } else {
            self.any = true;
        }
        Ok(())
    }
}

/// A vault by its calls.
#[derive(Drop)]
pub struct Replay {
    pub alloc: Global,
    pub levels: Vec<Level>,
    pub copies: Vec<LooseCopy>,
    pub drafts: Vec<Draft>,
    pub staged: Vec<Bytes>,
}

impl Model for Replay {
    ghost use Rattle.disk_model.specs.Machine.{Machine};

    ghost Value = { Machine };

    ghost view = { λ r. record { levels = r.levels.items; copies = r.copies.items; drafts = r.drafts.items; staged = r.staged.items } };
}

fn opened_levels(alloc: Global, files: &Vec<Bytes>) -> Result<Vec<Level>, NoMemory>
    ensures { IfOk result (λ levels. levels.items ≡ map synced files.now.items) }
{
    let mut levels = Vec::new(alloc);
    for file in files {
        levels.push(Level::synced(alloc, file.copy(alloc)?))?;
    }
    Ok(levels)
}

fn opened_copies(alloc: Global, contents: &Vec<Option<Bytes>>) -> Result<Vec<LooseCopy>, NoMemory>
    ensures { IfOk result (λ copies. copies.items ≡ map settled contents.now.items) }
{
    let mut copies = Vec::new(alloc);
    for content in contents {
        copies.push(LooseCopy::settled(alloc, copied_content(alloc, content)?))?;
    }
    Ok(copies)
}

impl Replay {
    ghost use Rattle.std.specs.Prelude.{OnOk};
    ghost use Rattle.disk_memory.specs.Recorded.{opened_by};
    ghost use Rattle.disk_calm.specs.Store.{held};
    ghost use Rattle.disk_model.specs.Machine.{after, replay};
    ghost use Rattle.disk_model.specs.Vault.{ParityWrite, ParitySetLen, ParitySync, DraftBegin, DraftAppend, DraftSeal, Publish};
    ghost use Rattle.disk_memory.specs.Calls.{vault_call, vault_calls};

    // Just opened with this.
    pub fn opened(alloc: Global, store: &Store) -> Result<Replay, NoMemory>
        ensures { IfOk result (λ made. made ≡ opened_by (held store.now)) }
    {
        Ok(Replay {
            alloc,
            levels: opened_levels(alloc, &store.parities)?,
            copies: opened_copies(alloc, &store.contents)?,
            drafts: copied_drafts(alloc, &store.drafts)?,
            staged: copied_files(alloc, &store.staged)?,
        })
    }

    // Goes on by calls, in order.
    pub fn go(&mut self, entries: &[Made<VaultEntry>]) -> Result<(), NoMemory>
        ensures { OnOk result (self.new ≡ replay self.old (vault_calls entries.now)) }
    {
        for made in entries {
            self.apply(&made.call, made.failed())?;
        }
        Ok(())
    }

    // Goes on by one call. One of a level or a copy that isn't there does nothing.
    fn apply(&mut self, entry: &VaultEntry, failed: bool) -> Result<(), NoMemory>
        ensures { OnOk result (self.new ≡ after self.old (vault_call entry.now) failed) }
    {
        match entry {
            VaultEntry::ParityWrite(level, at, bytes) => self.write(
                *level,
                *at,
                bytes.as_slice(),
                failed,
            ),
            VaultEntry::ParitySetLen(level, len) => self.set_len(*level, *len, failed),
            VaultEntry::ParitySync(level) => {
                self.sync(*level, failed);
                Ok(())
            }
            VaultEntry::DraftBegin(copy) => {
                self.begin(*copy, failed);
                Ok(())
            }
            VaultEntry::DraftAppend(copy, bytes) => self.append(*copy, bytes.as_slice(), failed),
            VaultEntry::DraftSeal(copy) => {
                self.seal(*copy, failed);
                Ok(())
            }
            VaultEntry::Publish(copy) => self.publish(*copy, failed),
            VaultEntry::ParityLen(_)
            | VaultEntry::ParityRead(_, _, _)
            | VaultEntry::ContentSize(_)
            | VaultEntry::ContentRead(_, _, _) => Ok(()),
        }
    }

    fn write(&mut self, level: u32, at: u64, bytes: &[u8], failed: bool) -> Result<(), NoMemory>
        ensures { OnOk result (self.new ≡ after self.old (ParityWrite level at bytes.now) failed) }
    {
        let place = level as usize;
        if place >= self.levels.len() {
            return Ok(());
        }
        // no file is so long
        if at.checked_add(bytes.len() as u64).is_none() {
            return Err(NoMemory);
        }
        self.levels[place].write(at, bytes, failed)
    }

    fn set_len(&mut self, level: u32, len: u64, failed: bool) -> Result<(), NoMemory>
        ensures { OnOk result (self.new ≡ after self.old (ParitySetLen level len) failed) }
    {
        let place = level as usize;
        if place >= self.levels.len() {
            return Ok(());
        }
        self.levels[place].set_len(len, failed)
    }

    fn sync(&mut self, level: u32, failed: bool)
        ensures { self.new ≡ after self.old (ParitySync level) failed }
    {
        let place = level as usize;
        if !failed && place < self.levels.len() {
            self.levels[place].sync();
        }
    }

    fn begin(&mut self, copy: u32, failed: bool)
        ensures { self.new ≡ after self.old (DraftBegin copy) failed }
    {
        let place = copy as usize;
        swap_at(&mut self.drafts, place, unless(failed, Draft::Open));
        swap_at(&mut self.staged, place, Bytes::new(self.alloc));
    }

    fn append(&mut self, copy: u32, bytes: &[u8], failed: bool) -> Result<(), NoMemory>
        ensures { OnOk result (self.new ≡ after self.old (DraftAppend copy bytes.now) failed) }
    {
        let place = copy as usize;
        swap_at(&mut self.drafts, place, unless(failed, Draft::Open));
        if failed {
            swap_at(&mut self.staged, place, Bytes::new(self.alloc));
            return Ok(());
        }
        if place >= self.staged.len() {
            return Ok(());
        }
        self.staged[place].append(bytes)
    }

    fn seal(&mut self, copy: u32, failed: bool)
        ensures { self.new ≡ after self.old (DraftSeal copy) failed }
    {
        let place = copy as usize;
        swap_at(&mut self.drafts, place, unless(failed, Draft::Sealed));
        if failed {
            swap_at(&mut self.staged, place, Bytes::new(self.alloc));
        }
    }

    fn publish(&mut self, copy: u32, failed: bool) -> Result<(), NoMemory>
        ensures { OnOk result (self.new ≡ after self.old (Publish copy) failed) }
    {
        let place = copy as usize;
        let sealed = is_sealed(swap_at(&mut self.drafts, place, Draft::Absent));
        let bytes = swap_at(&mut self.staged, place, Bytes::new(self.alloc));
        if place >= self.copies.len() {
            return Ok(());
        }
        self.copies[place].publish(sealed, failed, bytes)
    }
}

// Puts an item in the place of another, if there is one, and gives that, or else the item itself.
fn swap_at<T: Drop>(items: &mut Vec<T>, place: usize, item: T) -> T
    ensures taken { result ≡ get_or items.old.items place item }
    ensures put { items.new.items ≡ set items.old.items place item }
{
    if place >= items.len() {
        return item;
    }
    replace(&mut items[place], item)
}

// A draft after a call, which leaves none where it failed.
fn unless(failed: bool, draft: Draft) -> Draft
    ensures { result ≡ (if failed then Draft.Absent else draft) }
{
    if failed { Draft::Absent } else { draft }
}

fn is_sealed(draft: Draft) -> bool
    ensures { result ≡ is_sealed draft }
{
    match draft {
        Draft::Sealed => true,
        Draft::Open | Draft::Absent => false,
    }
}
