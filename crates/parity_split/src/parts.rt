// The parts of one level, and where the level ends in them.
ghost use Rattle.std.specs.Prelude.{◌≡◌, ◌+◌, ◌*◌, ◌-◌, ◌^◌, ◌<◌, min, max, length, IfOk, OnOk, OnErr, IsTrue};
ghost use Rattle.std.specs.List.{sum};
ghost use Rattle.disk_model.specs.Cause.{Rose};
ghost use Rattle.disk_model.specs.Files.{Stays};
ghost use Rattle.disk_model.specs.Vault.{Holds, IsUnwritten};
ghost use Rattle.parity_split.specs.Split.{parts_at};
ghost use Rattle.parity_split.specs.Works.{Works, IsWithin, IsFound, SameFrom, parts_in};

use crate::base::Base;
use disk_model::Failed;

/// The parts of one level: so many files of the base from a first one on, and how many bytes each but the last holds.
#[derive(Clone, Copy)]
pub struct Parts {
    pub first: u32,
    pub count: u32,
    pub capacity: u64,
}

/// A place in the parts: so many bytes of one of them.
#[derive(Clone, Copy)]
pub struct End {
    pub part: u32,
    pub len: u64,
}

impl Parts {
    // Where a part begins in the level, as far as a length tells.
    pub fn start(self, part: u32) -> u64
        ensures { result ≡ min (part * self.capacity) (2 ^ 64 - 1) }
    {
        u64::from(part).saturating_mul(self.capacity)
    }

    // The length of the level up to a place.
    pub fn len_to(self, end: End) -> u64
        ensures { result ≡ min (end.part * self.capacity + end.len) (2 ^ 64 - 1) }
    {
        self.start(end.part).saturating_add(end.len)
    }
}

/// The parts of a level, where each level has so many.
pub fn parts_of(counts: &[u32], capacity: u64, level: u32) -> Parts
    requires level { level < length counts.now }
    requires fit { sum counts.now < 2 ^ 32 }
    ensures { result ≡ parts_at counts.now capacity level }
{
    let mut first = 0;
    for count in &counts[..level as usize] {
        first += *count;
    }
    Parts {
        first,
        count: counts[level as usize],
        capacity,
    }
}

pub fn larger(a: u64, b: u64) -> u64
    ensures { result ≡ max a b }
{
    if a < b { b } else { a }
}

pub fn smaller(a: u64, b: u64) -> u64
    ensures { result ≡ min a b }
{
    if a < b { a } else { b }
}

// Where the level ends: in the first part that isn't full, or in the last.
pub fn find<V: Base>(base: &mut V, parts: Parts) -> Result<End, Failed>
    requires { IsWithin parts (V.view base.old).levels }
    ensures works { Works Stays (V.view base.old) (V.view base.new) }
    ensures unwritten { IsUnwritten (V.view base.old) (V.view base.new) }
    ensures cause { OnErr result (Rose (V.view base.old).faults (V.view base.new).faults) }
    ensures within { IfOk result (λ end. end.part < parts.count) }
    ensures room { IfOk result (λ end. end.part + 1 < parts.count → end.len < parts.capacity) }
    ensures found { IsTrue (V.view base.old).tells → IfOk result (λ end. IsFound parts end (V.view base.old).files) }
{
    let mut part = 0;
    loop {
        let len = base.part_len(parts.first + part)?;
        if part + 1 == parts.count || len < parts.capacity {
            return Ok(End { part, len });
        }
        part += 1;
    }
}

// Syncs the parts from one on.
pub fn sync_from<V: Base>(base: &mut V, parts: Parts, from: u32) -> Result<(), Failed>
    requires { IsWithin parts (V.view base.old).levels }
    ensures works { Works Stays (V.view base.old) (V.view base.new) }
    ensures cause { OnErr result (Rose (V.view base.old).faults (V.view base.new).faults) }
    ensures synced { OnOk result (Holds
        (λ files. SameFrom from parts.count (parts_in parts (V.view base.old).files) (parts_in parts files))
        (V.view base.new)) }
{
    for part in from..parts.count {
        base.part_sync(parts.first + part)?;
    }
    Ok(())
}
