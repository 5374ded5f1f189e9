// Blocks by hash and length.
ghost use Rattle.std.specs.Prelude.{◌≡◌, ◌++◌, ◌∷◌, [], List, find, OnOk, OnErr};
ghost use Rattle.hash_index.specs.Keeping.{Keeps, first_in, is_for};
ghost use Rattle.hash_index.specs.declared.block_index.Entry.{Entry};

use block_hash::{Digest16, Kind};
use disk_model::NoMemory;
use std::alloc::Global;
use std::collections::BTreeMap;

/// The hash of a block, and the function that made it.
#[derive(Clone, Copy, Debug, PartialEq, Eq, PartialOrd, Ord)]
pub struct Hash {
    pub kind: Kind,
    pub digest: Digest16,
}

/// A block of a file: its hash, its length in bytes, the number of the file, and its own in it.
#[derive(Clone, Copy, Debug, PartialEq, Eq)]
pub struct Entry {
    pub hash: Hash,
    pub length: u32,
    pub file: u32,
    pub index: u32,
}

type Key = (Hash, u32);

/// For each hash and length the first block that was added with both.
#[derive(Drop)]
pub struct BlockIndex {
    firsts: BTreeMap<Key, (u32, u32)>,
}

impl BlockIndex {
    /// No block.
    pub fn new(alloc: Global) -> BlockIndex
        ensures { Keeps result [] }
    {
        BlockIndex {
            firsts: BTreeMap::new(alloc),
        }
    }

    /// Adds a block. A refused call changes nothing.
    pub fn add(&mut self, entry: Entry) -> Result<(), NoMemory>
        ensures ok { (added : List Entry) → Keeps self.old added →
            OnOk result (Keeps self.new (added ++ entry ∷ [])) }
        ensures err { (added : List Entry) → Keeps self.old added →
            OnErr result (Keeps self.new added) }
    {
        let key = (entry.hash, entry.length);
        if self.firsts.get(&key).is_none() {
            self.firsts.insert(key, (entry.file, entry.index))?;
        }
        Ok(())
    }

    /// The first block that was added with this hash and length.
    pub fn first(&self, hash: Hash, length: u32) -> Option<Entry>
        ensures value { result ≡ first_in self.now hash length }
        ensures added { (added : List Entry) → Keeps self.now added →
            result ≡ find (is_for hash length) added }
    {
        match self.firsts.get(&(hash, length)) {
            Some((file, index)) => Some(Entry {
                hash,
                length,
                file: *file,
                index: *index,
            }),
            None => None,
        }
    }
}
