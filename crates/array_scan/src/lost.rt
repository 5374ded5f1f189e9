// The vanished records of a column, by size and stamp.
ghost use Rattle.std.specs.Prelude.{◌≡◌, List, [], ℕ, slice_get, OnOk, IfOk, true};
ghost use Rattle.disk_model.specs.declared.meta.Meta.{Meta};
ghost use Rattle.array_scan.specs.Fates.{may_move};
ghost use Rattle.array_scan.specs.Lost.{key_of, Offers, with_first, without_first};

use disk_model::{Meta, NoMemory};
use std::alloc::Global;
use std::collections::BTreeMap;

// A record, and the node of the next one of its size and stamp.
#[derive(Clone, Copy)]
struct Node {
    rec: u32,
    next: Option<usize>,
}

type Key = (u64, i64, u32);

/// The vanished records that no new file has taken yet. Those of one size and stamp stand in a chain, whose first
/// node the map has, so that one is taken in O(log n) steps.
#[derive(Drop)]
pub(crate) struct Lost {
    nodes: Vec<Node>,
    heads: BTreeMap<Key, usize>,
}

fn key_of(meta: Meta) -> Key
    ensures { result ≡ key_of meta }
{
    (meta.size, meta.stamp.seconds, meta.stamp.nanos)
}

impl Lost {
    /// None.
    pub fn new(alloc: Global) -> Lost
        ensures { Offers result (λ meta. []) }
    {
        Lost {
            nodes: Vec::new(alloc),
            heads: BTreeMap::new(alloc),
        }
    }

    /// Puts a record before all others of its size and stamp.
    pub fn push(&mut self, rec: u32, meta: Meta) -> Result<(), NoMemory>
        ensures { (records : Meta → List ℕ) → Offers self.old records →
            OnOk result (Offers self.new (with_first records rec meta)) }
    {
        let key = key_of(meta);
        let at = self.nodes.len();
        let next = self.heads.get(&key).copied();
        self.heads.insert(key, at)?;
        self.nodes.push(Node { rec, next })?;
        Ok(())
    }

    /// Takes the first record of a size and stamp.
    pub fn take(&mut self, meta: Meta) -> Result<Option<u32>, NoMemory>
        requires { may_move meta ≡ true }
        ensures first { (records : Meta → List ℕ) → Offers self.old records →
            IfOk result (λ rec. rec ≡ slice_get (records meta) 0) }
        ensures rest { (records : Meta → List ℕ) → Offers self.old records →
            OnOk result (Offers self.new (without_first records meta)) }
    {
        let key = key_of(meta);
        let Some(at) = self.heads.get(&key).copied() else {
            return Ok(None);
        };
        let Some(node) = self.nodes.get(at).copied() else {
            return Ok(None);
        };
        match node.next {
            Some(next) => {
                self.heads.insert(key, next)?;
            }
            None => {
                self.heads.remove(&key);
            }
        }
        Ok(Some(node.rec))
    }
}
