// The fields of a content file, each read from the front of the bytes.
ghost use Rattle.std.specs.Int.{w16, w32, w64};
ghost use Rattle.std.specs.Option.{option_map};
ghost use Rattle.std.specs.Prelude.{◌≡◌, ◌<◌, IfOk};
ghost use Rattle.content_file.specs.Flaw.{Short, Value, found_or};
ghost use Rattle.content_file.specs.FirstFlaw.{read_stamp, read_hash};
ghost use Rattle.content_file.specs.Giving.{Gives};
ghost use Rattle.content_file.specs.Reading.{byte_at, number_at, piece_at, short_text_at, long_text_at, info_of};

use crate::Flaw::{Short, Value};
use crate::fault::Refusal;
use crate::fault::Refusal::Flawed;
use block_hash::Digest16;
use disk_model::Stamp;
use file_table::{Info, Mark};

const NANOS_PER_SECOND: u32 = 1_000_000_000;

#[tactic(auto, unfolding(crate::specs::Flaw::found_or))]
pub(crate) fn byte_of(bytes: &[u8]) -> Result<(u8, &[u8]), Refusal<'_>>
    ensures { Gives (λ x. (x.0, x.1.now)) result (found_or Short bytes.now (byte_at bytes.now)) }
{
    match bytes {
        [] => Err(Flawed(Short, bytes)),
        [byte, rest @ ..] => Ok((*byte, rest)),
    }
}

fn u16_of(bytes: &[u8]) -> Option<(u16, &[u8])>
    ensures { option_map (λ x. (x.0, x.1.now)) result ≡ number_at w16 bytes.now }
{
    match bytes.split_first_chunk::<2>() {
        Some((front, rest)) => Some((u16::from_le_bytes(*front), rest)),
        None => None,
    }
}

#[tactic(auto, unfolding(crate::specs::Flaw::found_or))]
pub(crate) fn u32_of(bytes: &[u8]) -> Result<(u32, &[u8]), Refusal<'_>>
    ensures { Gives (λ x. (x.0, x.1.now)) result (found_or Short bytes.now (number_at w32 bytes.now)) }
{
    match bytes.split_first_chunk::<4>() {
        Some((front, rest)) => Ok((u32::from_le_bytes(*front), rest)),
        None => Err(Flawed(Short, bytes)),
    }
}

#[tactic(auto, unfolding(crate::specs::Flaw::found_or))]
pub(crate) fn u64_of(bytes: &[u8]) -> Result<(u64, &[u8]), Refusal<'_>>
    ensures { Gives (λ x. (x.0, x.1.now)) result (found_or Short bytes.now (number_at w64 bytes.now)) }
{
    match bytes.split_first_chunk::<8>() {
        Some((front, rest)) => Ok((u64::from_le_bytes(*front), rest)),
        None => Err(Flawed(Short, bytes)),
    }
}

#[tactic(auto, unfolding(crate::specs::Flaw::found_or))]
pub(crate) fn sixteen_of(bytes: &[u8]) -> Result<([u8; 16], &[u8]), Refusal<'_>>
    ensures { Gives (λ x. (x.0, x.1.now)) result (found_or Short bytes.now (piece_at 16 bytes.now)) }
{
    match bytes.split_first_chunk::<16>() {
        Some((front, rest)) => Ok((*front, rest)),
        None => Err(Flawed(Short, bytes)),
    }
}

#[tactic(auto, unfolding(crate::specs::Flaw::found_or))]
pub(crate) fn piece_of(size: usize, bytes: &[u8]) -> Result<(&[u8], &[u8]), Refusal<'_>>
    ensures { Gives (λ x. (x.0.now, x.1.now)) result (found_or Short bytes.now (piece_at size bytes.now)) }
{
    if bytes.len() < size {
        return Err(Flawed(Short, bytes));
    }
    Ok(bytes.split_at(size))
}

// A text behind its length in one byte. It is one field with its length.
#[tactic(auto, unfolding(crate::specs::Flaw::found_or, crate::specs::Reading::short_text_at))]
pub(crate) fn short_text_of(bytes: &[u8]) -> Result<(&[u8], &[u8]), Refusal<'_>>
    ensures { Gives (λ x. (x.0.now, x.1.now)) result (found_or Short bytes.now (short_text_at bytes.now)) }
{
    match bytes {
        [size, rest @ ..] if usize::from(*size) <= rest.len() => {
            Ok(rest.split_at(usize::from(*size)))
        }
        _ => Err(Flawed(Short, bytes)),
    }
}

// A text behind its length in two bytes. It is one field with its length.
#[tactic(auto, unfolding(crate::specs::Flaw::found_or, crate::specs::Reading::long_text_at))]
pub(crate) fn long_text_of(bytes: &[u8]) -> Result<(&[u8], &[u8]), Refusal<'_>>
    ensures { Gives (λ x. (x.0.now, x.1.now)) result (found_or Short bytes.now (long_text_at bytes.now)) }
{
    match u16_of(bytes) {
        Some((size, rest)) if usize::from(size) <= rest.len() => {
            Ok(rest.split_at(usize::from(size)))
        }
        _ => Err(Flawed(Short, bytes)),
    }
}

#[tactic(auto, unfolding(crate::specs::Flaw::and_then, crate::specs::Flaw::passed_or, crate::specs::FirstFlaw::read_stamp))]
pub(crate) fn stamp_of(bytes: &[u8]) -> Result<(Stamp, &[u8]), Refusal<'_>>
    ensures read { Gives (λ x. (x.0, x.1.now)) result (read_stamp bytes.now) }
    ensures nanos { IfOk result (λ x. x.0.nanos < 1000000000) }
{
    let (seconds, after) = u64_of(bytes)?;
    let (nanos, rest) = u32_of(after)?;
    if nanos >= NANOS_PER_SECOND {
        return Err(Flawed(Value, after));
    }
    let seconds = seconds.cast_signed();
    Ok((Stamp { seconds, nanos }, rest))
}

#[tactic(auto, unfolding(crate::specs::Flaw::and_then, crate::specs::Flaw::found_or, crate::specs::FirstFlaw::read_hash))]
pub(crate) fn hash_of(bytes: &[u8]) -> Result<(Option<Digest16>, &[u8]), Refusal<'_>>
    ensures { Gives (λ x. (x.0, x.1.now)) result (read_hash bytes.now) }
{
    match bytes {
        [] => Err(Flawed(Short, bytes)),
        [0, rest @ ..] => Ok((None, rest)),
        [1, rest @ ..] => {
            let (digest, rest) = sixteen_of(rest)?;
            Ok((Some(Digest16(digest)), rest))
        }
        [_, ..] => Err(Flawed(Value, bytes)),
    }
}

// What flags say of a stripe that was last checked then.
pub(crate) fn info_from(flags: u8, last: u64) -> Option<Info>
    ensures { result ≡ info_of flags last }
{
    let (mark, bad, fresh) = match flags {
        0 => (Mark::Pending, false, false),
        1 => (Mark::Synced, false, false),
        3 => (Mark::Synced, true, false),
        5 => (Mark::Synced, false, true),
        7 => (Mark::Synced, true, true),
        _ => return None,
    };
    Some(Info {
        mark,
        last,
        bad,
        fresh,
    })
}
