// The fields behind the head, each read after what the builder has.
ghost use Rattle.std.specs.Prelude.{◌≡◌, ◌<◌, ◌≤◌, ◌==◌, ◌||◌, not, [], length, IfOk, IfErr, OnOk, OnErr, Some, All};
ghost use Rattle.file_table.specs.Table.{records_of, column_blocks, block_count};
ghost use Rattle.file_table.specs.Valid.{IsWhole, most_columns};
ghost use Rattle.file_table.specs.Building.{IsBuilding, LacksBlock, last_column};
ghost use Rattle.content_file.specs.Body.{ReadsName};
ghost use Rattle.content_file.specs.Fault.{path_flaw};
ghost use Rattle.content_file.specs.FirstFlaw.{read_name, read_count, read_path, read_size, read_block, read_info};
ghost use Rattle.content_file.specs.Giving.{Gives, Refuses};
ghost use Rattle.content_file.specs.Reading.{short_text_at};
ghost use Rattle.content_file.specs.ReadingOn.{read_file};
ghost use Rattle.content_file.specs.Tests.{is_pending, is_hashed};

use crate::Flaw;
use crate::fault::Refusal::Flawed;
use crate::fault::{Refusal, out_of_memory};
use crate::reader::{
    byte_of, hash_of, info_from, long_text_of, short_text_of, stamp_of, u32_of, u64_of,
};
use disk_model::{Meta, Path, PathFault, Text};
use file_table::{Block, BuildFault, Builder, Info, Mark};
use std::alloc::Global;
use std::str;

const MOST_RECORDS: u32 = 16_777_216;

// The text of a name.
#[tactic(auto, using(crate::proofs::FieldLemmas::no_text_is_no_name), unfolding(crate::specs::Flaw::and_then, crate::specs::Flaw::found_or, crate::specs::Flaw::passed_or, crate::specs::FirstFlaw::read_name))]
fn name_text_of(bytes: &[u8]) -> Result<(&str, &[u8]), Refusal<'_>>
    ensures ok { IfOk result (λ x. short_text_at bytes.now ≡ Some (x.0.now, x.1.now)) }
    ensures err { IfErr result (λ refusal. (columns : _) → Refuses refusal (read_name columns bytes.now)) }
{
    let (text, rest) = short_text_of(bytes)?;
    let Ok(text) = str::from_utf8(text) else {
        return Err(Flawed(Flaw::Name, bytes));
    };
    Ok((text, rest))
}

/// Reads the name of a column, and pushes the column.
#[tactic(auto, using(crate::proofs::FieldLemmas::new_name_passes, crate::proofs::FieldLemmas::other_name_fails), unfolding(crate::specs::Flaw::and_then, crate::specs::Flaw::found_or, crate::specs::Flaw::passed_or, crate::specs::FirstFlaw::read_name))]
pub(crate) fn name_of<'a>(
    alloc: Global,
    builder: &mut Builder,
    bytes: &'a [u8],
) -> Result<&'a [u8], Refusal<'a>>
    requires before_infos { builder.old.infos ≡ [] }
    requires room { length builder.old.columns < most_columns }
    requires whole { ¬ (LacksBlock builder.old) }
    requires building { IsBuilding builder.old }
    ensures ok { IfOk result (λ rest. ReadsName builder.old bytes.now builder.new rest.now) }
    ensures building { IsBuilding builder.new }
    ensures err { IfErr result (λ refusal. Refuses refusal (read_name builder.old.columns bytes.now)) }
    ensures same { OnErr result (builder.new ≡ builder.old) }
{
    let (text, rest) = name_text_of(bytes)?;
    let name = Text::new(alloc, text)?;
    match builder.push_disk(name) {
        Ok(()) => Ok(rest),
        Err(BuildFault::Name) => Err(Flawed(Flaw::Name, bytes)),
        Err(fault) => Err(out_of_memory(fault)),
    }
}

/// Reads how many records the last column has, where so many were read before.
#[tactic(auto, unfolding(crate::specs::Flaw::and_then, crate::specs::Flaw::passed_or, crate::specs::FirstFlaw::read_count))]
pub(crate) fn count_of<'a>(
    builder: &Builder,
    read: u32,
    bytes: &'a [u8],
) -> Result<(u32, &'a [u8]), Refusal<'a>>
    requires { read ≡ length (records_of builder.now.columns) }
    ensures { Gives (λ x. (x.0, x.1.now)) result (read_count builder.now.columns bytes.now) }
{
    let (count, rest) = u32_of(bytes)?;
    if u64::from(read) + u64::from(count) > u64::from(MOST_RECORDS) {
        return Err(Flawed(Flaw::Full, bytes));
    }
    Ok((count, rest))
}

// What is wrong with a path that the builder would refuse.
fn path_flaw(fault: BuildFault) -> Flaw
    ensures { result ≡ path_flaw fault }
{
    match fault {
        BuildFault::Order => Flaw::Order,
        _ => Flaw::Path,
    }
}

#[tactic(auto, using(crate::proofs::FieldLemmas::no_path_text, crate::proofs::FieldLemmas::no_valid_path), unfolding(crate::specs::Flaw::and_then, crate::specs::Flaw::found_or, crate::specs::FirstFlaw::read_path))]
fn path_of<'a>(
    alloc: Global,
    builder: &Builder,
    bytes: &'a [u8],
) -> Result<(Path, &'a [u8]), Refusal<'a>>
    requires { 0 < length builder.now.columns }
    ensures { Gives (λ x. (x.0, x.1.now)) result (read_path (last_column builder.now.columns).records bytes.now) }
{
    let (text, rest) = long_text_of(bytes)?;
    let Ok(text) = str::from_utf8(text) else {
        return Err(Flawed(Flaw::Path, bytes));
    };
    let path = match Path::new(alloc, text) {
        Ok(path) => path,
        Err(PathFault::Invalid) => return Err(Flawed(Flaw::Path, bytes)),
        Err(PathFault::Memory) => return Err(Refusal::Memory),
    };
    match builder.path_fault(&path) {
        None => Ok((path, rest)),
        Some(fault) => Err(Flawed(path_flaw(fault), bytes)),
    }
}

#[tactic(auto, unfolding(crate::specs::Flaw::and_then, crate::specs::Flaw::passed_or, crate::specs::FirstFlaw::read_size))]
fn size_of<'a>(builder: &Builder, bytes: &'a [u8]) -> Result<(u64, &'a [u8]), Refusal<'a>>
    ensures { Gives (λ x. (x.0, x.1.now)) result (read_size builder.now.shape.block_size (records_of builder.now.columns) bytes.now) }
{
    let (size, rest) = u64_of(bytes)?;
    if !builder.size_fits(size) {
        return Err(Flawed(Flaw::Full, bytes));
    }
    Ok((size, rest))
}

/// Reads path, size and stamp of a record of the last column.
#[tactic(auto, unfolding(crate::specs::Flaw::and_then, crate::specs::ReadingOn::read_file))]
pub(crate) fn file_of<'a>(
    alloc: Global,
    builder: &Builder,
    bytes: &'a [u8],
) -> Result<(Path, Meta, &'a [u8]), Refusal<'a>>
    requires { 0 < length builder.now.columns }
    ensures read { Gives (λ x. ((x.0, x.1), x.2.now)) result (read_file builder.now.shape.block_size builder.now.columns bytes.now) }
    ensures nanos { IfOk result (λ x. x.1.stamp.nanos < 1000000000) }
{
    let (path, rest) = path_of(alloc, builder, bytes)?;
    let (size, rest) = size_of(builder, rest)?;
    let (stamp, rest) = stamp_of(rest)?;
    Ok((path, Meta { size, stamp }, rest))
}

/// Reads a block of the last record.
#[tactic(auto, using(crate::proofs::FieldLemmas::position_passes, crate::proofs::FieldLemmas::position_refused), unfolding(crate::specs::Flaw::and_then, crate::specs::Flaw::passed_or, crate::specs::FirstFlaw::read_block))]
pub(crate) fn block_of<'a>(
    builder: &Builder,
    bytes: &'a [u8],
) -> Result<(Block, &'a [u8]), Refusal<'a>>
    requires { 0 < length builder.now.columns }
    ensures { Gives (λ x. (x.0, x.1.now)) result (read_block builder.now.length (column_blocks (last_column builder.now.columns)) bytes.now) }
{
    let (position, after) = u32_of(bytes)?;
    if builder.position_fault(position).is_some() {
        return Err(Flawed(Flaw::Position, bytes));
    }
    let (hash, rest) = hash_of(after)?;
    Ok((Block { position, hash }, rest))
}

// Whether the next stripe may have this mark: where it is synced, each block there has its hash.
fn may_be_marked(builder: &Builder, mark: Mark) -> bool
    requires { length builder.now.infos < builder.now.length }
    ensures { result ≡ (is_pending mark || is_hashed builder.now.columns (length builder.now.infos)) }
{
    match mark {
        Mark::Pending => true,
        Mark::Synced => builder.next_has_hashes(),
    }
}

// Whether a stripe of this mark may have been checked then.
fn may_be_checked(mark: Mark, last: u64) -> bool
    ensures { result ≡ (not (is_pending mark) || last == 0) }
{
    match mark {
        Mark::Pending => last == 0,
        Mark::Synced => true,
    }
}

/// Reads the information on the next stripe.
#[tactic(auto, unfolding(crate::specs::Flaw::and_then, crate::specs::Flaw::found_or, crate::specs::Flaw::passed_or, crate::specs::FirstFlaw::read_info))]
pub(crate) fn info_of<'a>(
    builder: &Builder,
    bytes: &'a [u8],
) -> Result<(Info, &'a [u8]), Refusal<'a>>
    requires { length builder.now.infos < builder.now.length }
    ensures { Gives (λ x. (x.0, x.1.now)) result (read_info builder.now.columns builder.now.infos bytes.now) }
{
    let (flags, after) = byte_of(bytes)?;
    let Some(info) = info_from(flags, 0) else {
        return Err(Flawed(Flaw::Value, bytes));
    };
    if !may_be_marked(builder, info.mark) {
        return Err(Flawed(Flaw::Hash, bytes));
    }
    let (last, rest) = u64_of(after)?;
    if !may_be_checked(info.mark, last) {
        return Err(Flawed(Flaw::Value, after));
    }
    Ok((Info { last, ..info }, rest))
}

/// How many blocks of a size hold this many bytes.
pub(crate) fn blocks_for(block_size: u32, size: u64) -> u64
    requires { 1024 ≤ block_size }
    ensures { result ≡ block_count block_size size }
{
    let block_size = u64::from(block_size);
    let whole = size / block_size;
    if size % block_size == 0 {
        whole
    } else {
        whole + 1
    }
}
