// The length of a level is changed.
ghost use Rattle.std.specs.Prelude.{◌≡◌, ◌+◌, ◌*◌, ◌-◌, ◌^◌, ◌<◌, ◌≤◌, min, OnOk, OnErr, IfOk, IsTrue, length};
ghost use Rattle.disk_model.specs.Bytes.{Stretched};
ghost use Rattle.disk_model.specs.Cause.{Rose};
ghost use Rattle.disk_model.specs.Files.{Stays};
ghost use Rattle.parity_split.specs.Begins.{EndsNearAt};
ghost use Rattle.parity_split.specs.Parts.{InStep};
ghost use Rattle.parity_split.specs.Values.{IsResized};
ghost use Rattle.parity_split.specs.Works.{Works, IsWithin, LevelBy, ReadsBy, BytesBy, HoldsOf};

use crate::base::Base;
use crate::cutting::cut_behind;
use crate::growth::fill;
use crate::parts::{End, Parts, find};
use disk_model::Failed;

// Extends the level with zeros.
pub fn grow<V: Base>(base: &mut V, parts: Parts, end: End, len: u64) -> Result<(), Failed>
    requires at { EndsNearAt parts end (V.view base.old) }
    requires longer { min (end.part * parts.capacity + end.len) (2 ^ 64 - 1) < len }
    ensures works { Works (LevelBy parts (Stretched len)) (V.view base.old) (V.view base.new) }
    ensures cause { OnErr result (Rose (V.view base.old).faults (V.view base.new).faults) }
    ensures kept { HoldsOf parts (InStep parts.capacity) (V.view base.new) }
    ensures written { OnOk result (ReadsBy parts (IsResized len) (V.view base.old) (V.view base.new)) }
{
    let last = fill(base, parts, end, len - parts.start(end.part))?;
    base.part_set_len(parts.first + last.part, last.len)
}

// Cuts the level.
pub fn cut<V: Base>(base: &mut V, parts: Parts, end: End, len: u64) -> Result<(), Failed>
    requires at { EndsNearAt parts end (V.view base.old) }
    requires room { end.part + 1 < parts.count → end.len ≤ parts.capacity }
    requires shorter { len < min (end.part * parts.capacity + end.len) (2 ^ 64 - 1) }
    ensures works { Works (LevelBy parts (Stretched len)) (V.view base.old) (V.view base.new) }
    ensures cause { OnErr result (Rose (V.view base.old).faults (V.view base.new).faults) }
    ensures kept { HoldsOf parts (InStep parts.capacity) (V.view base.new) }
    ensures written { OnOk result (ReadsBy parts (IsResized len) (V.view base.old) (V.view base.new)) }
{
    let last = cut_behind(base, parts, end, len)?;
    base.part_set_len(parts.first + last.part, len - parts.start(last.part))
}

/// Cuts the level, or extends it with zeros.
pub fn set_len<V: Base>(base: &mut V, parts: Parts, len: u64) -> Result<(), Failed>
    requires parts { IsWithin parts (V.view base.old).levels }
    requires in_step { HoldsOf parts (InStep parts.capacity) (V.view base.old) }
    ensures works { Works (LevelBy parts (Stretched len)) (V.view base.old) (V.view base.new) }
    ensures cause { OnErr result (Rose (V.view base.old).faults (V.view base.new).faults) }
    ensures kept { HoldsOf parts (InStep parts.capacity) (V.view base.new) }
    ensures written { OnOk result (BytesBy parts (IsResized len) (V.view base.old) (V.view base.new)) }
{
    if parts.count == 1 {
        return base.part_set_len(parts.first, len);
    }
    let end = find(base, parts)?;
    let now = parts.len_to(end);
    if len > now {
        return grow(base, parts, end, len);
    }
    if len < now {
        return cut(base, parts, end, len);
    }
    Ok(())
}
