// A level is cut: its parts are emptied from the last to the first.
ghost use Rattle.std.specs.Prelude.{◌≡◌, ℕ, ◌+◌, ◌*◌, ◌-◌, ◌^◌, ◌<◌, ◌≤◌, length, IfOk, OnOk, OnErr};
ghost use Rattle.disk_model.specs.Bytes.{Stretched};
ghost use Rattle.disk_model.specs.Cause.{Rose};
ghost use Rattle.parity_split.specs.Begins.{MayBeCut, IsCutFrom};
ghost use Rattle.parity_split.specs.Joined.{part_of};
ghost use Rattle.parity_split.specs.Parts.{InStep, IsNear};
ghost use Rattle.parity_split.specs.Values.{SameBelow};
ghost use Rattle.parity_split.specs.Works.{Works, LevelBy, ReadsBy, PartsRead, HoldsOf, EndsNear};

use crate::base::Base;
use crate::parts::{End, Parts};
use disk_model::Failed;

// Empties the part where a level ends, if something is in it.
fn empty_end<V: Base>(base: &mut V, parts: Parts, end: End) -> Result<(), Failed>
    requires { MayBeCut parts end (V.view base.old) }
    ensures works { (len : ℕ) → len ≤ end.part * parts.capacity →
        Works (LevelBy parts (Stretched len)) (V.view base.old) (V.view base.new) }
    ensures cause { OnErr result (Rose (V.view base.old).faults (V.view base.new).faults) }
    ensures kept { HoldsOf parts (InStep parts.capacity) (V.view base.new) }
    ensures near { OnOk result (HoldsOf parts (IsNear parts.capacity end.part) (V.view base.new)) }
    ensures empty { OnOk result (PartsRead parts (λ now. length (part_of now end.part) ≡ 0) (V.view base.new)) }
    ensures same { OnOk result
        (ReadsBy parts (SameBelow (end.part * parts.capacity)) (V.view base.old) (V.view base.new)) }
{
    if end.len == 0 {
        return Ok(());
    }
    base.part_set_len(parts.first + end.part, 0)
}

// Empties the part where a level ends, also of what a stop may leave, so that it ends in the part before it.
fn step_down<V: Base>(base: &mut V, parts: Parts, end: End) -> Result<(), Failed>
    requires { MayBeCut parts end (V.view base.old) }
    ensures works { (len : ℕ) → len ≤ end.part * parts.capacity →
        Works (LevelBy parts (Stretched len)) (V.view base.old) (V.view base.new) }
    ensures cause { OnErr result (Rose (V.view base.old).faults (V.view base.new).faults) }
    ensures kept { HoldsOf parts (InStep parts.capacity) (V.view base.new) }
    ensures near { OnOk result
        (HoldsOf parts (λ now left. (i : ℕ) → i + 1 ≡ end.part → IsNear parts.capacity i now left) (V.view base.new)) }
    ensures full { OnOk result
        (PartsRead parts (λ now. (i : ℕ) → i + 1 ≡ end.part → parts.capacity ≤ length (part_of now i))
        (V.view base.new)) }
    ensures same { OnOk result
        (ReadsBy parts (SameBelow (end.part * parts.capacity)) (V.view base.old) (V.view base.new)) }
{
    empty_end(base, parts, end)?;
    base.part_sync(parts.first + end.part)
}

// Empties parts from the end of the level on, down to that in which a length of it ends.
pub fn cut_behind<V: Base>(base: &mut V, parts: Parts, end: End, len: u64) -> Result<End, Failed>
    requires from { IsCutFrom parts end len (V.view base.old) }
    requires limit { len < 2 ^ 64 - 1 }
    ensures works { Works (LevelBy parts (Stretched len)) (V.view base.old) (V.view base.new) }
    ensures cause { OnErr result (Rose (V.view base.old).faults (V.view base.new).faults) }
    ensures kept { HoldsOf parts (InStep parts.capacity) (V.view base.new) }
    ensures last { IfOk result (λ last. EndsNear parts last len (V.view base.new)) }
    ensures same { OnOk result (ReadsBy parts (SameBelow len) (V.view base.old) (V.view base.new)) }
{
    let mut now = end;
    while len < parts.start(now.part) {
        step_down(base, parts, now)?;
        now = End {
            part: now.part - 1,
            len: parts.capacity,
        };
    }
    Ok(now)
}
