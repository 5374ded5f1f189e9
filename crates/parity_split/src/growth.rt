// A level grows: its parts are filled in order.
ghost use Rattle.std.specs.Prelude.{ℕ, ◌+◌, ◌*◌, ◌<◌, IfOk, OnOk, OnErr};
ghost use Rattle.disk_model.specs.Bytes.{Torn};
ghost use Rattle.disk_model.specs.Cause.{Rose};
ghost use Rattle.disk_model.specs.Files.{Stays};
ghost use Rattle.parity_split.specs.Begins.{IsPartBehind, MayGrow};
ghost use Rattle.parity_split.specs.Parts.{InStep, IsReady};
ghost use Rattle.parity_split.specs.Values.{SameValues};
ghost use Rattle.parity_split.specs.Works.{Works, IsWithin, LevelBy, ReadsBy, PartsRead, HoldsOf, Same, EmptyFrom};
ghost use Rattle.parity_split.specs.Works.{IsPlaceOf, parts_in};

use crate::base::Base;
use crate::parts::{End, Parts, sync_from};
use disk_model::Failed;

// Empties a part behind the end of the level.
fn empty_hidden<V: Base>(base: &mut V, parts: Parts, end: u32, part: u32) -> Result<(), Failed>
    requires { IsPartBehind parts end part (V.view base.old) }
    ensures works { Works (LevelBy parts Same) (V.view base.old) (V.view base.new) }
    ensures cause { OnErr result (Rose (V.view base.old).faults (V.view base.new).faults) }
    ensures ready { HoldsOf parts (IsReady parts.capacity end 0) (V.view base.new) }
    ensures emptied { OnOk result (PartsRead parts (EmptyFrom part (part + 1)) (V.view base.new)) }
    ensures others { PartsRead parts
        (λ now. (j : ℕ) → EmptyFrom j part (parts_in parts (V.view base.old).files) → EmptyFrom j part now)
        (V.view base.new) }
{
    if base.part_len(parts.first + part)? == 0 {
        return Ok(());
    }
    base.part_set_len(parts.first + part, 0)
}

// Empties each part behind the end of the level.
fn empty_behind<V: Base>(base: &mut V, parts: Parts, end: u32) -> Result<(), Failed>
    requires parts { IsWithin parts (V.view base.old).levels }
    requires within { end < parts.count }
    requires ready { HoldsOf parts (IsReady parts.capacity end 0) (V.view base.old) }
    ensures works { Works (LevelBy parts Same) (V.view base.old) (V.view base.new) }
    ensures cause { OnErr result (Rose (V.view base.old).faults (V.view base.new).faults) }
    ensures ready { HoldsOf parts (IsReady parts.capacity end 0) (V.view base.new) }
    ensures emptied { OnOk result (PartsRead parts (EmptyFrom (end + 1) parts.count) (V.view base.new)) }
{
    for part in end + 1..parts.count {
        empty_hidden(base, parts, end, part)?;
    }
    Ok(())
}

// Empties each part behind the end of the level, also of what a stop may leave.
fn clear<V: Base>(base: &mut V, parts: Parts, end: u32) -> Result<(), Failed>
    requires parts { IsWithin parts (V.view base.old).levels }
    requires within { end < parts.count }
    requires ready { HoldsOf parts (IsReady parts.capacity end 0) (V.view base.old) }
    ensures works { Works (LevelBy parts Same) (V.view base.old) (V.view base.new) }
    ensures cause { OnErr result (Rose (V.view base.old).faults (V.view base.new).faults) }
    ensures ready { HoldsOf parts (IsReady parts.capacity end 0) (V.view base.new) }
    ensures cleared { OnOk result
        (HoldsOf parts (λ reads left. EmptyFrom (end + 1) parts.count left) (V.view base.new)) }
{
    empty_behind(base, parts, end)?;
    sync_from(base, parts, end + 1)
}

// Syncs the part before an empty one, so that a stop leaves it full before that one grows.
fn settle_before<V: Base>(base: &mut V, parts: Parts, end: End) -> Result<(), Failed>
    requires { MayGrow parts end (V.view base.old) }
    ensures works { Works Stays (V.view base.old) (V.view base.new) }
    ensures cause { OnErr result (Rose (V.view base.old).faults (V.view base.new).faults) }
    ensures ready { OnOk result (HoldsOf parts (IsReady parts.capacity end.part 0) (V.view base.new)) }
{
    if end.len > 0 || end.part == 0 {
        return Ok(());
    }
    base.part_sync(parts.first + end.part - 1)
}

// Makes the part where a level ends ready for so many bytes of the level from its start on.
fn make_ready<V: Base>(base: &mut V, parts: Parts, end: End, rest: u64) -> Result<(), Failed>
    requires { MayGrow parts end (V.view base.old) }
    ensures works { Works (LevelBy parts Same) (V.view base.old) (V.view base.new) }
    ensures cause { OnErr result (Rose (V.view base.old).faults (V.view base.new).faults) }
    ensures kept { HoldsOf parts (InStep parts.capacity) (V.view base.new) }
    ensures ready { OnOk result (HoldsOf parts (IsReady parts.capacity end.part rest) (V.view base.new)) }
{
    settle_before(base, parts, end)?;
    if end.part + 1 == parts.count || rest < parts.capacity {
        return Ok(());
    }
    clear(base, parts, end.part)
}

// Fills parts, from the one where the level ends on, up to that in which so many bytes from its start on end.
// Says which that is and how many of them it is to hold; it is ready for them.
pub fn fill<V: Base>(base: &mut V, parts: Parts, end: End, rest: u64) -> Result<End, Failed>
    requires { MayGrow parts end (V.view base.old) }
    ensures works { Works (LevelBy parts (Torn (end.part * parts.capacity + rest) 0))
        (V.view base.old) (V.view base.new) }
    ensures cause { OnErr result (Rose (V.view base.old).faults (V.view base.new).faults) }
    ensures kept { HoldsOf parts (InStep parts.capacity) (V.view base.new) }
    ensures last { IfOk result (λ last. IsPlaceOf parts last (end.part * parts.capacity + rest)) }
    ensures ready { IfOk result (λ last. HoldsOf parts (IsReady parts.capacity last.part last.len) (V.view base.new)) }
    ensures same { OnOk result (ReadsBy parts SameValues (V.view base.old) (V.view base.new)) }
{
    let mut now = end;
    let mut rest = rest;
    loop {
        make_ready(base, parts, now, rest)?;
        if now.part + 1 == parts.count || rest <= parts.capacity {
            return Ok(End {
                part: now.part,
                len: rest,
            });
        }
        base.part_set_len(parts.first + now.part, parts.capacity)?;
        now = End {
            part: now.part + 1,
            len: 0,
        };
        rest -= parts.capacity;
    }
}
