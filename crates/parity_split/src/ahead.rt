// What of a level is read ahead, part by part.
ghost use Rattle.disk_model.specs.Vault.{IsUntouched};
ghost use Rattle.parity_split.specs.Begins.{HasPart};
ghost use Rattle.parity_split.specs.Works.{IsWithin};

use crate::base::Base;
use crate::parts::{Parts, larger, smaller};

// Plans what lies in one part of the bytes from a place of the level up to another.
fn plan_piece<V: Base>(base: &mut V, parts: Parts, part: u32, at: u64, to: u64)
    requires { HasPart parts part (V.view base.old).levels }
    ensures { IsUntouched (V.view base.old) (V.view base.new) }
{
    let start = parts.start(part);
    let from = larger(at, start);
    if from < to {
        base.part_plan(parts.first + part, from - start, (to - from) as usize);
    }
}

/// Plans so many bytes from a place of the level on, each in the part whose capacity it lies in. The last part holds all
/// from its start. No length is asked for: what lies past an end is not there when it is read.
pub fn plan<V: Base>(base: &mut V, parts: Parts, at: u64, len: usize)
    requires { IsWithin parts (V.view base.old).levels }
    ensures { IsUntouched (V.view base.old) (V.view base.new) }
{
    let last = at.saturating_add(len as u64);
    for part in 0..parts.count {
        let to = if part + 1 < parts.count {
            smaller(last, parts.start(part + 1))
        } else {
            last
        };
        plan_piece(base, parts, part, at, to);
    }
}
