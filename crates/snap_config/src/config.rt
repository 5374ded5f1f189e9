// Reading a configuration.
ghost use Rattle.std.specs.Prelude.{◌≡◌, ◌<◌, ◌≤◌, ◌∷◌, [], ◌++◌, Ok, IfOk, OnOk, IfErr, map, flat_map, option_map, option_to_list, length, IfSome, MatchOption, Some, None};
ghost use Rattle.snap_config.specs.Config.{IsRefusal, read_setup, read_lines, finish, lacks_level, has_gap, lacks_below, by_level, files_of};
ghost use Rattle.snap_config.specs.Builder.{no_lines};
ghost use Rattle.snap_config.specs.Line.{lines_of, IsLine};
ghost use Rattle.snap_config.specs.Names.{file_name};
ghost use Rattle.snap_config.specs.Parts.{capacity_of};
ghost use Rattle.snap_config.specs.Reading.{builder_value, Explains};
ghost use Rattle.array_setup.specs.Setup.{setup_value, IsSize, IsSetup};
ghost use Rattle.array_setup.specs.declared.setup.Disk.{Disk};

use crate::builder::{ParityLine, SetupBuilder, has_level};
use crate::fault::LineFault;
use crate::names::file_name;
use crate::parts::Parts;
use crate::{ConfigFault, Why};
use array_setup::{Disk, Disks, Rules, Setup};
use disk_model::{NoMemory, Places, Text};
use memchr::memchr;
use std::alloc::Global;

/// The length of the longest configuration in bytes.
const LONGEST: usize = 1_048_576;

const MOST_LEVELS: u32 = 6;

/// In bytes.
const DEFAULT_BLOCK_SIZE: u32 = 262_144;

/// In bytes: how much each file but the last of its level may hold.
const DEFAULT_SPLIT: u64 = 16_000_000_000_000;

/// Reads a configuration, whose log is the one given. `BadLine` exactly where a line is refused, with
/// the first such line.
pub fn read_config(alloc: Global, bytes: &[u8], log: Option<Text>) -> Result<Setup, ConfigFault>
    ensures ok { IfOk result (λ setup. read_setup bytes.now log ≡ Ok (setup_value setup)) }
    ensures valid { IfOk result (λ setup. IsSetup (setup_value setup)) }
    ensures refused { IfErr result (λ fault. IsRefusal fault (read_setup bytes.now log)) }
{
    if bytes.len() > LONGEST {
        return Err(LineFault::Refused(Why::TooLong).at(0));
    }
    let builder = read_lines(alloc, bytes)?;
    finish(alloc, builder, log).map_err(|fault| fault.at(0))
}

// What the lines of a configuration say.
fn read_lines(alloc: Global, bytes: &[u8]) -> Result<SetupBuilder, ConfigFault>
    requires { length bytes.now ≤ 1048576 }
    ensures ok { IfOk result (λ builder.
        read_lines 1 no_lines (lines_of bytes.now) ≡ Ok (builder_value builder)) }
    ensures refused { IfErr result (λ fault.
        IsRefusal fault (read_lines 1 no_lines (lines_of bytes.now))) }
{
    let mut builder = SetupBuilder::new(alloc);
    let mut rest = bytes;
    let mut number = 1;
    while let Some((line, after)) = cut_line(rest) {
        if let Err(fault) = builder.take_line(alloc, line) {
            return Err(fault.at(number));
        }
        rest = after;
        number += 1;
    }
    match builder.take_line(alloc, rest) {
        Ok(()) => Ok(builder),
        Err(fault) => Err(fault.at(number)),
    }
}

// The first line of a text, and the text behind its line feed.
fn cut_line(text: &[u8]) -> Option<(&[u8], &[u8])>
    ensures { MatchOption result (lines_of text.now ≡ text.now ∷ [])
        (λ parts. IsLine text.now parts.0.now parts.1.now) }
{
    let end = memchr(b'\n', text)?;
    let (line, feed) = text.split_at(end);
    let (_, after) = feed.split_at(1);
    Some((line, after))
}

// The setup that lines make, unless one is missing.
fn finish(alloc: Global, builder: SetupBuilder, log: Option<Text>) -> Result<Setup, LineFault>
    requires { IfSome builder.block_size IsSize }
    ensures ok { IfOk result (λ setup. finish log (builder_value builder) ≡ Ok (setup_value setup)) }
    ensures refused { IfErr result (λ fault. Explains fault (finish log (builder_value builder))) }
{
    if lacks_level(builder.parities.as_slice()) {
        return Err(LineFault::Refused(Why::NoParity));
    }
    if builder.contents.is_empty() {
        return Err(LineFault::Refused(Why::NoContent));
    }
    if builder.disks.is_empty() {
        return Err(LineFault::Refused(Why::NoData));
    }
    let (parities, parts) = by_level(alloc, builder.parities.as_slice())?;
    let places = Places {
        dirs: folders(alloc, builder.disks.as_slice())?,
        parities,
        contents: builder.contents,
    };
    let block_size = builder.block_size.unwrap_or(DEFAULT_BLOCK_SIZE);
    Ok(Setup {
        disks: Disks::new(builder.disks),
        places,
        parts,
        split: capacity(block_size, builder.split.unwrap_or(DEFAULT_SPLIT)),
        rules: Rules::new(builder.rules),
        nohidden: builder.nohidden,
        block_size,
        autosave: builder.autosave.unwrap_or(0),
        log: log_name(alloc, log)?,
    })
}

fn folders(alloc: Global, disks: &[Disk]) -> Result<Vec<Text>, NoMemory>
    ensures { IfOk result (λ dirs. dirs.items ≡ map (λ (disk : Disk). disk.dir) disks.now) }
{
    let mut dirs = Vec::new(alloc);
    for disk in disks {
        dirs.push(disk.dir.copy()?)?;
    }
    Ok(dirs)
}

// How many bytes of whole blocks there is room for.
fn capacity(block_size: u32, room: u64) -> u64
    requires { 0 < block_size }
    ensures { result ≡ capacity_of block_size room }
{
    let block_size = u64::from(block_size);
    room / block_size * block_size
}

// The files of the levels, and how many each has.
fn by_level(alloc: Global, parities: &[ParityLine]) -> Result<(Vec<Text>, Vec<u32>), NoMemory>
    ensures files { IfOk result (λ made. made.0.items ≡ flat_map (λ files. files) (by_level parities.now)) }
    ensures parts { IfOk result (λ made. made.1.items ≡ map length (by_level parities.now)) }
{
    let mut files = Vec::new(alloc);
    let mut parts = Vec::new(alloc);
    for level in 0..MOST_LEVELS {
        push_level(&mut files, &mut parts, parities, level)?;
    }
    Ok((files, parts))
}

fn push_level(
    files: &mut Vec<Text>,
    parts: &mut Vec<u32>,
    parities: &[ParityLine],
    level: u32,
) -> Result<(), NoMemory>
    ensures files { OnOk result (files.new.items
        ≡ files.old.items ++ flat_map (λ names. names) (option_to_list (files_of parities.now level))) }
    ensures parts { OnOk result (parts.new.items
        ≡ parts.old.items ++ map length (option_to_list (files_of parities.now level))) }
{
    if let Some(named) = files_of(parities, level) {
        push_files(files, named.as_slice())?;
        parts.push(named.count())?;
    }
    Ok(())
}

fn push_files(files: &mut Vec<Text>, named: &[Text]) -> Result<(), NoMemory>
    ensures { OnOk result (files.new.items ≡ files.old.items ++ named.now) }
{
    for file in named {
        files.push(file.copy()?)?;
    }
    Ok(())
}

fn files_of(parities: &[ParityLine], level: u32) -> Option<&Parts>
    ensures { MatchOption result (files_of parities.now level ≡ None)
        (λ files. files_of parities.now level ≡ Some files.now) }
{
    for line in parities {
        if line.level == level {
            return Some(&line.files);
        }
    }
    None
}

// Whether there is no level, or one without the level below it.
fn lacks_level(parities: &[ParityLine]) -> bool
    ensures { result ≡ lacks_level parities.now }
{
    parities.is_empty() || has_gap(parities)
}

fn has_gap(parities: &[ParityLine]) -> bool
    ensures { result ≡ has_gap parities.now }
{
    parities
        .iter()
        .any(|line| lacks_below(parities, line.level))
}

fn lacks_below(parities: &[ParityLine], level: u32) -> bool
    ensures { result ≡ lacks_below parities.now level }
{
    level > 0 && !has_level(parities, level - 1)
}

fn log_name(alloc: Global, log: Option<Text>) -> Result<Option<Text>, NoMemory>
    ensures { IfOk result (λ name. name ≡ option_map file_name log) }
{
    match log {
        Some(log) => Ok(Some(file_name(alloc, log.as_str())?)),
        None => Ok(None),
    }
}
