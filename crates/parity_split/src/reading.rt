// Bytes of a level, read over the edges of its parts.
ghost use Rattle.std.specs.Prelude.{◌≡◌, ℕ, ◌+◌, ◌*◌, ◌-◌, ◌<◌, ◌≤◌, length, take, slice_index, IfOk, OnErr, IsTrue};
ghost use Rattle.disk_model.specs.Bytes.{read_from};
ghost use Rattle.disk_model.specs.Cause.{Rose};
ghost use Rattle.disk_model.specs.Files.{Stays};
ghost use Rattle.disk_model.specs.Vault.{IsUnwritten};
ghost use Rattle.parity_split.specs.Begins.{HasPart, EndsAt};
ghost use Rattle.parity_split.specs.Joined.{joined, level_bytes, part_of};
ghost use Rattle.parity_split.specs.Values.{PieceIsThere, IsThere};
ghost use Rattle.parity_split.specs.Works.{Works, IsWithin, parts_in};

use crate::base::Base;
use crate::parts::{End, Parts, find, larger, smaller};
use disk_model::Failed;

// Reads what lies in one part of the bytes from a place of the level up to another.
// Says how many from the first place on are there then.
fn read_piece<V: Base>(
    base: &mut V,
    parts: Parts,
    part: u32,
    at: u64,
    to: u64,
    out: &mut [u8],
) -> Result<usize, Failed>
    requires part { HasPart parts part (V.view base.old).levels }
    requires room { to - at ≤ length out.old }
    ensures works { Works Stays (V.view base.old) (V.view base.new) }
    ensures unwritten { IsUnwritten (V.view base.old) (V.view base.new) }
    ensures cause { OnErr result (Rose (V.view base.old).faults (V.view base.new).faults) }
    ensures bound { IfOk result (λ there. there ≤ to - at) }
    ensures earlier { (k : ℕ) → at + k < part * parts.capacity → slice_index out.new k ≡ slice_index out.old k }
    ensures found { IsTrue (V.view base.old).tells →
        to ≤ part * parts.capacity + length (part_of (parts_in parts (V.view base.old).files) part) →
        IfOk result (λ there. PieceIsThere at to (part * parts.capacity)
        (part_of (parts_in parts (V.view base.old).files) part) there out.new) }
{
    let start = parts.start(part);
    let from = larger(at, start);
    if from >= to {
        return Ok(to.saturating_sub(at) as usize);
    }
    let before = (from - at) as usize;
    let end = (to - at) as usize;
    let got = base.part_read(parts.first + part, from - start, &mut out[before..end])?;
    Ok(before + got)
}

// Reads the bytes from a place of the level up to another, part by part.
// Says how many from the first place on are there then.
fn read_parts<V: Base>(
    base: &mut V,
    parts: Parts,
    end: End,
    at: u64,
    last: u64,
    out: &mut [u8],
) -> Result<usize, Failed>
    requires at { EndsAt parts end (V.view base.old) }
    requires room { last - at ≤ length out.old }
    requires inside { last ≤ end.part * parts.capacity + end.len }
    ensures works { Works Stays (V.view base.old) (V.view base.new) }
    ensures unwritten { IsUnwritten (V.view base.old) (V.view base.new) }
    ensures cause { OnErr result (Rose (V.view base.old).faults (V.view base.new).faults) }
    ensures bound { IfOk result (λ there. there ≤ length out.new) }
    ensures found { IsTrue (V.view base.old).tells → IfOk result (λ there.
        IsThere at last (joined parts.capacity (parts_in parts (V.view base.old).files)) there out.new) }
{
    for part in 0..end.part {
        let to = smaller(last, parts.start(part + 1));
        let there = read_piece(base, parts, part, at, to, out)?;
        if (there as u64) < to.saturating_sub(at) {
            return Ok(there);
        }
    }
    read_piece(base, parts, end.part, at, last, out)
}

/// Fills a front of `out`: as many bytes as the level has from there.
pub fn read<V: Base>(base: &mut V, parts: Parts, at: u64, out: &mut [u8]) -> Result<usize, Failed>
    requires { IsWithin parts (V.view base.old).levels }
    ensures works { Works Stays (V.view base.old) (V.view base.new) }
    ensures unwritten { IsUnwritten (V.view base.old) (V.view base.new) }
    ensures cause { OnErr result (Rose (V.view base.old).faults (V.view base.new).faults) }
    ensures bound { IfOk result (λ n. n ≤ length out.new) }
    ensures found { IsTrue (V.view base.old).tells → IfOk result (λ n. take n out.new ≡
        read_from (level_bytes parts.capacity (parts_in parts (V.view base.old).files)) at (length out.old)) }
{
    let room = smaller(out.len() as u64, u64::MAX - at);
    if parts.count == 1 {
        return base.part_read(parts.first, at, &mut out[..room as usize]);
    }
    let end = find(base, parts)?;
    let last = smaller(at + room, parts.len_to(end));
    read_parts(base, parts, end, at, last, out)
}
