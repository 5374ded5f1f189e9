// The files of a level that is lost as a whole.
ghost use Rattle.std.specs.Prelude.{◌+◌, ◌<◌, IfOk, OnErr, IsTrue};
ghost use Rattle.disk_model.specs.Cause.{Rose};
ghost use Rattle.disk_model.specs.Files.{Stays};
ghost use Rattle.parity_split.specs.Works.{Works, IsWithin, IsFound};

use crate::base::Base;
use crate::parts::{End, Parts, find};
use disk_model::Failed;

// Whether no part holds a byte.
fn is_empty<V: Base>(base: &mut V, parts: Parts) -> Result<bool, Failed>
    requires { IsWithin parts (V.view base.old).levels }
    ensures works { Works Stays (V.view base.old) (V.view base.new) }
    ensures cause { OnErr result (Rose (V.view base.old).faults (V.view base.new).faults) }
{
    for part in 0..parts.count {
        if base.part_len(parts.first + part)? > 0 {
            return Ok(false);
        }
    }
    Ok(true)
}

// Writes no bytes to each part: a file that is not there is made, and nothing else changes.
fn make_all<V: Base>(base: &mut V, parts: Parts) -> Result<(), Failed>
    requires { IsWithin parts (V.view base.old).levels }
    ensures works { Works Stays (V.view base.old) (V.view base.new) }
    ensures cause { OnErr result (Rose (V.view base.old).faults (V.view base.new).faults) }
{
    for part in 0..parts.count {
        base.part_write(parts.first + part, 0, &[])?;
    }
    Ok(())
}

// Makes the files of all parts where the level ends at its start and no part holds a byte.
fn make_where_empty<V: Base>(base: &mut V, parts: Parts, end: End) -> Result<(), Failed>
    requires { IsWithin parts (V.view base.old).levels }
    ensures works { Works Stays (V.view base.old) (V.view base.new) }
    ensures cause { OnErr result (Rose (V.view base.old).faults (V.view base.new).faults) }
{
    if end.part > 0 || end.len > 0 {
        return Ok(());
    }
    if !is_empty(base, parts)? {
        return Ok(());
    }
    make_all(base, parts)
}

/// Where the level ends, for a write. Where no part holds a byte, nothing is hidden in one that is not there, and the
/// files of all parts are made: else the level could not grow over them later.
pub fn find_to_write<V: Base>(base: &mut V, parts: Parts) -> Result<End, Failed>
    requires { IsWithin parts (V.view base.old).levels }
    ensures works { Works Stays (V.view base.old) (V.view base.new) }
    ensures cause { OnErr result (Rose (V.view base.old).faults (V.view base.new).faults) }
    ensures within { IfOk result (λ end. end.part < parts.count) }
    ensures room { IfOk result (λ end. end.part + 1 < parts.count → end.len < parts.capacity) }
    ensures found { IsTrue (V.view base.old).tells → IfOk result (λ end. IsFound parts end (V.view base.old).files) }
{
    let end = find(base, parts)?;
    make_where_empty(base, parts, end)?;
    Ok(end)
}
