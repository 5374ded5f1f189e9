// What stands before the columns of a content file.
ghost use Rattle.std.specs.Prelude.{◌≤◌, IfOk};
ghost use Rattle.std.specs.Int.{w32};
ghost use Rattle.content_file.specs.FirstFlaw.{read_magic, read_from_one, read_kind, read_shape, read_length, read_head};
ghost use Rattle.content_file.specs.Giving.{Gives};
ghost use Rattle.content_file.specs.Reading.{byte_at, number_at};

use crate::Flaw::{Magic, Value, Version};
use crate::fault::Refusal;
use crate::fault::Refusal::Flawed;
use crate::reader::{byte_of, piece_of, sixteen_of, u32_of};
use block_hash::Kind;
use file_table::Shape;

pub(crate) const MAGIC: &[u8; 7] = b"SNAPRCF";

pub(crate) const VERSION: u8 = 1;

const MOST_KIBIBYTES: u32 = 4096;

const MOST_LEVELS: u8 = 6;

const MOST_COLUMNS: u8 = 251;

const MOST_STRIPES: u32 = 67_108_864;

/// The fields before the columns.
#[derive(Clone, Copy)]
pub(crate) struct Head {
    pub shape: Shape,
    /// How many stripes there are.
    pub length: u32,
    /// How many columns there are.
    pub columns: u8,
}

// The bytes after the magic and the version.
#[tactic(auto, unfolding(crate::specs::Flaw::and_then, crate::specs::Flaw::passed_or, crate::specs::FirstFlaw::read_magic))]
fn magic_of(bytes: &[u8]) -> Result<&[u8], Refusal<'_>>
    ensures { Gives (λ rest. rest.now) result (read_magic bytes.now) }
{
    let (text, after) = piece_of(MAGIC.len(), bytes)?;
    if text != MAGIC.as_slice() {
        return Err(Flawed(Magic, bytes));
    }
    let (version, rest) = byte_of(after)?;
    if version != VERSION {
        return Err(Flawed(Version, after));
    }
    Ok(rest)
}

#[tactic(auto, unfolding(crate::specs::Flaw::and_then, crate::specs::Flaw::found_or, crate::specs::FirstFlaw::read_from_one))]
fn kibibytes_of(bytes: &[u8]) -> Result<(u32, &[u8]), Refusal<'_>>
    ensures read { Gives (λ x. (x.0, x.1.now)) result (read_from_one 4096 bytes.now (number_at w32 bytes.now)) }
    ensures few { IfOk result (λ x. x.0 ≤ 4096) }
{
    let (kibibytes, rest) = u32_of(bytes)?;
    if kibibytes == 0 || kibibytes > MOST_KIBIBYTES {
        return Err(Flawed(Value, bytes));
    }
    Ok((kibibytes, rest))
}

// A number of one byte, from 1 to the most.
#[tactic(auto, unfolding(crate::specs::Flaw::and_then, crate::specs::Flaw::found_or, crate::specs::FirstFlaw::read_from_one))]
fn from_one_of(most: u8, bytes: &[u8]) -> Result<(u8, &[u8]), Refusal<'_>>
    ensures { Gives (λ x. (x.0, x.1.now)) result (read_from_one most bytes.now (byte_at bytes.now)) }
{
    let (number, rest) = byte_of(bytes)?;
    if number == 0 || number > most {
        return Err(Flawed(Value, bytes));
    }
    Ok((number, rest))
}

#[tactic(auto, unfolding(crate::specs::Flaw::and_then, crate::specs::Flaw::found_or, crate::specs::FirstFlaw::read_kind))]
fn kind_of(bytes: &[u8]) -> Result<(Kind, &[u8]), Refusal<'_>>
    ensures { Gives (λ x. (x.0, x.1.now)) result (read_kind bytes.now) }
{
    let (code, rest) = byte_of(bytes)?;
    match code {
        1 => Ok((Kind::Md5, rest)),
        2 => Ok((Kind::Sha256, rest)),
        _ => Err(Flawed(Value, bytes)),
    }
}

#[tactic(auto, unfolding(crate::specs::Flaw::and_then, crate::specs::FirstFlaw::read_shape))]
fn shape_of(bytes: &[u8]) -> Result<(Shape, &[u8]), Refusal<'_>>
    ensures { Gives (λ x. (x.0, x.1.now)) result (read_shape bytes.now) }
{
    let (kibibytes, rest) = kibibytes_of(bytes)?;
    let (levels, rest) = from_one_of(MOST_LEVELS, rest)?;
    let (kind, rest) = kind_of(rest)?;
    let (seed, rest) = sixteen_of(rest)?;
    let block_size = kibibytes * 1024;
    let levels = u32::from(levels);
    Ok((
        Shape {
            block_size,
            levels,
            kind,
            seed,
        },
        rest,
    ))
}

#[tactic(auto, unfolding(crate::specs::Flaw::and_then, crate::specs::Flaw::passed_or, crate::specs::FirstFlaw::read_length))]
fn length_of(bytes: &[u8]) -> Result<(u32, &[u8]), Refusal<'_>>
    ensures { Gives (λ x. (x.0, x.1.now)) result (read_length bytes.now) }
{
    let (length, rest) = u32_of(bytes)?;
    if length > MOST_STRIPES {
        return Err(Flawed(Value, bytes));
    }
    Ok((length, rest))
}

#[tactic(auto, unfolding(crate::specs::Flaw::and_then, crate::specs::FirstFlaw::read_head))]
pub(crate) fn head_of(bytes: &[u8]) -> Result<(Head, &[u8]), Refusal<'_>>
    ensures { Gives (λ x. (x.0, x.1.now)) result (read_head bytes.now) }
{
    let rest = magic_of(bytes)?;
    let (shape, rest) = shape_of(rest)?;
    let (length, rest) = length_of(rest)?;
    let (columns, rest) = from_one_of(MOST_COLUMNS, rest)?;
    Ok((
        Head {
            shape,
            length,
            columns,
        },
        rest,
    ))
}
