// Bytes of a level, written over the edges of its parts.
ghost use Rattle.std.specs.Prelude.{ℕ, ◌+◌, ◌*◌, ◌-◌, ◌^◌, ◌<◌, ◌≤◌, min, List, length, OnOk, OnErr};
ghost use Rattle.disk_model.specs.Bytes.{Torn};
ghost use Rattle.disk_model.specs.Cause.{Rose};
ghost use Rattle.parity_split.specs.Begins.{IsPartBefore, IsNearPart, IsReadyFor, MayGrow, EndsNearAt};
ghost use Rattle.parity_split.specs.Parts.{InStep, IsNear, IsReady};
ghost use Rattle.parity_split.specs.Values.{IsPut, IsPutBelow};
ghost use Rattle.parity_split.specs.Works.{Works, IsWithin, LevelBy, LevelReads, ReadsBy, BytesBy, HoldsOf};

use crate::base::Base;
use crate::growth::fill;
use crate::making::find_to_write;
use crate::parts::{End, Parts, larger, smaller};
use disk_model::Failed;

// Writes what lies in one part before the end of the level.
fn write_before<V: Base>(
    base: &mut V,
    parts: Parts,
    end: u32,
    part: u32,
    at: u64,
    bytes: &[u8],
) -> Result<(), Failed>
    requires part { IsPartBefore parts part end (V.view base.old) }
    requires room { at + length bytes.now < 2 ^ 64 }
    ensures works { Works (LevelBy parts (Torn at (length bytes.now))) (V.view base.old) (V.view base.new) }
    ensures cause { OnErr result (Rose (V.view base.old).faults (V.view base.new).faults) }
    ensures near { HoldsOf parts (IsNear parts.capacity end) (V.view base.new) }
    ensures ready { (len : ℕ) → HoldsOf parts (IsReady parts.capacity end len) (V.view base.old) →
        HoldsOf parts (IsReady parts.capacity end len) (V.view base.new) }
    ensures written { OnOk result ((start : List ℕ) →
        LevelReads parts (IsPutBelow (part * parts.capacity) at bytes.now start) (V.view base.old) →
        LevelReads parts (IsPutBelow (part * parts.capacity + parts.capacity) at bytes.now start) (V.view base.new)) }
{
    let start = parts.start(part);
    let from = larger(at, start);
    let to = smaller(at + bytes.len() as u64, parts.start(part + 1));
    if from >= to {
        return Ok(());
    }
    base.part_write(
        parts.first + part,
        from - start,
        &bytes[(from - at) as usize..(to - at) as usize],
    )
}

// Writes what lies in the parts before the one where the level ends.
fn write_all_before<V: Base>(
    base: &mut V,
    parts: Parts,
    end: u32,
    at: u64,
    bytes: &[u8],
) -> Result<(), Failed>
    requires end { IsNearPart parts end (V.view base.old) }
    requires room { at + length bytes.now < 2 ^ 64 }
    ensures works { Works (LevelBy parts (Torn at (length bytes.now))) (V.view base.old) (V.view base.new) }
    ensures cause { OnErr result (Rose (V.view base.old).faults (V.view base.new).faults) }
    ensures near { HoldsOf parts (IsNear parts.capacity end) (V.view base.new) }
    ensures ready { (len : ℕ) → HoldsOf parts (IsReady parts.capacity end len) (V.view base.old) →
        HoldsOf parts (IsReady parts.capacity end len) (V.view base.new) }
    ensures written { OnOk result
        (ReadsBy parts (IsPutBelow (end * parts.capacity) at bytes.now) (V.view base.old) (V.view base.new)) }
{
    for part in 0..end {
        write_before(base, parts, end, part, at, bytes)?;
    }
    Ok(())
}

// Writes what lies in the part where the level ends, which is ready for it.
fn write_end<V: Base>(
    base: &mut V,
    parts: Parts,
    end: End,
    at: u64,
    bytes: &[u8],
) -> Result<(), Failed>
    requires at { IsReadyFor parts end (at + length bytes.now) (V.view base.old) }
    requires room { at + length bytes.now < 2 ^ 64 }
    ensures works { Works (LevelBy parts (Torn at (length bytes.now))) (V.view base.old) (V.view base.new) }
    ensures cause { OnErr result (Rose (V.view base.old).faults (V.view base.new).faults) }
    ensures kept { HoldsOf parts (InStep parts.capacity) (V.view base.new) }
    ensures written { OnOk result ((start : List ℕ) →
        LevelReads parts (IsPutBelow (end.part * parts.capacity) at bytes.now start) (V.view base.old) →
        LevelReads parts (IsPut at bytes.now start) (V.view base.new)) }
{
    let start = parts.start(end.part);
    let from = larger(at, start);
    base.part_write(
        parts.first + end.part,
        from - start,
        &bytes[(from - at) as usize..],
    )
}

// Makes the level longer, up to the end of what is written, and writes.
fn write_past<V: Base>(
    base: &mut V,
    parts: Parts,
    end: End,
    at: u64,
    bytes: &[u8],
) -> Result<(), Failed>
    requires end { MayGrow parts end (V.view base.old) }
    requires room { at + length bytes.now < 2 ^ 64 }
    requires past { end.part * parts.capacity ≤ at + length bytes.now }
    ensures works { Works (LevelBy parts (Torn at (length bytes.now))) (V.view base.old) (V.view base.new) }
    ensures cause { OnErr result (Rose (V.view base.old).faults (V.view base.new).faults) }
    ensures kept { HoldsOf parts (InStep parts.capacity) (V.view base.new) }
    ensures written { OnOk result (ReadsBy parts (IsPut at bytes.now) (V.view base.old) (V.view base.new)) }
{
    let rest = at + bytes.len() as u64 - parts.start(end.part);
    let last = fill(base, parts, end, rest)?;
    write_all_before(base, parts, last.part, at, bytes)?;
    write_end(base, parts, last, at, bytes)
}

// Writes over bytes that the level has.
fn write_within<V: Base>(
    base: &mut V,
    parts: Parts,
    end: End,
    at: u64,
    bytes: &[u8],
) -> Result<(), Failed>
    requires at { EndsNearAt parts end (V.view base.old) }
    requires last { end.part + 1 < parts.count → end.len < parts.capacity }
    requires inside { at + length bytes.now ≤ min (end.part * parts.capacity + end.len) (2 ^ 64 - 1) }
    ensures works { Works (LevelBy parts (Torn at (length bytes.now))) (V.view base.old) (V.view base.new) }
    ensures cause { OnErr result (Rose (V.view base.old).faults (V.view base.new).faults) }
    ensures kept { HoldsOf parts (InStep parts.capacity) (V.view base.new) }
    ensures written { OnOk result (ReadsBy parts (IsPut at bytes.now) (V.view base.old) (V.view base.new)) }
{
    write_all_before(base, parts, end.part, at, bytes)?;
    let to = at + bytes.len() as u64;
    let start = parts.start(end.part);
    if to <= start {
        return Ok(());
    }
    let last = End {
        part: end.part,
        len: to - start,
    };
    write_end(base, parts, last, at, bytes)
}

/// Writes bytes of the level, with zeros before them where it was shorter.
pub fn write<V: Base>(base: &mut V, parts: Parts, at: u64, bytes: &[u8]) -> Result<(), Failed>
    requires parts { IsWithin parts (V.view base.old).levels }
    requires in_step { HoldsOf parts (InStep parts.capacity) (V.view base.old) }
    requires room { at + length bytes.now < 2 ^ 64 }
    ensures works { Works (LevelBy parts (Torn at (length bytes.now))) (V.view base.old) (V.view base.new) }
    ensures cause { OnErr result (Rose (V.view base.old).faults (V.view base.new).faults) }
    ensures kept { HoldsOf parts (InStep parts.capacity) (V.view base.new) }
    ensures written { OnOk result (BytesBy parts (IsPut at bytes.now) (V.view base.old) (V.view base.new)) }
{
    if parts.count == 1 {
        return base.part_write(parts.first, at, bytes);
    }
    let end = find_to_write(base, parts)?;
    if at + bytes.len() as u64 > parts.len_to(end) {
        return write_past(base, parts, end, at, bytes);
    }
    write_within(base, parts, end, at, bytes)
}
