// What words and a configuration ask for.
ghost use Rattle.std.specs.Prelude.{◌≡◌, IsTrue, map, string_bytes};
ghost use Rattle.snap_config.specs.declared.options.Command.TheVariants as commands;
ghost use Rattle.snap_top.specs.Levels.{is_split};
ghost use Rattle.snap_top_instances.specs.Asked.{AsksFor, HasWholeLevels, everything, full_scrub, plain_sync};

use array_setup::{ScrubPlan, ScrubWay, Selection, SyncWay};
use snap_config::{Command, read_config, read_words_among};
use snap_top::COMMANDS;
use std::alloc::Global;

const LONGEST: usize = 1_048_577;

/// Whether the words ask for a sync without options, and name no log.
pub fn asks_plain_sync(alloc: Global, words: &[String]) -> bool
    ensures { IsTrue result → AsksFor (commands.Sync plain_sync) (map string_bytes words.now) }
{
    let Ok(asked) = read_words_among(alloc, &COMMANDS, words) else {
        return false;
    };
    if asked.log.is_some() {
        return false;
    }
    match asked.command {
        Command::Sync(way) => is_plain(way),
        _ => false,
    }
}

fn is_plain(way: SyncWay) -> bool
    ensures { IsTrue result → way ≡ plain_sync }
{
    !way.force_zero && !way.force_empty && way.save_every.is_none()
}

/// Whether the words ask for a scrub of all that is synced, and name no log.
pub fn asks_full_scrub(alloc: Global, words: &[String]) -> bool
    ensures { IsTrue result → AsksFor (commands.Scrub full_scrub) (map string_bytes words.now) }
{
    let Ok(asked) = read_words_among(alloc, &COMMANDS, words) else {
        return false;
    };
    if asked.log.is_some() {
        return false;
    }
    match asked.command {
        Command::Scrub(way) => is_full(way),
        _ => false,
    }
}

fn is_full(way: ScrubWay) -> bool
    ensures { IsTrue result → way ≡ full_scrub }
{
    match way.plan {
        ScrubPlan::Full => way.older == 10,
        _ => false,
    }
}

/// Whether the words ask for a fix of everything, and name no log.
pub fn asks_fix_of_all(alloc: Global, words: &[String]) -> bool
    ensures { IsTrue result → AsksFor (commands.Fix everything) (map string_bytes words.now) }
{
    let Ok(asked) = read_words_among(alloc, &COMMANDS, words) else {
        return false;
    };
    if asked.log.is_some() {
        return false;
    }
    match &asked.command {
        Command::Fix(selection) => selects_all(selection),
        _ => false,
    }
}

/// Whether the words ask for a check of everything, and name no log.
pub fn asks_check_of_all(alloc: Global, words: &[String]) -> bool
    ensures { IsTrue result → AsksFor (commands.Check everything) (map string_bytes words.now) }
{
    let Ok(asked) = read_words_among(alloc, &COMMANDS, words) else {
        return false;
    };
    if asked.log.is_some() {
        return false;
    }
    match &asked.command {
        Command::Check(selection) => selects_all(selection),
        _ => false,
    }
}

/// Whether a selection is of everything.
pub fn selects_all(selection: &Selection) -> bool
    ensures { IsTrue result → selection.now ≡ everything }
{
    selection.disks.as_slice().is_empty()
        && selection.patterns.as_slice().is_empty()
        && !selection.missing
        && !selection.errors
}

/// Whether a configuration is read, and each level of it has one file.
pub fn has_whole_levels(alloc: Global, config: &str) -> bool
    ensures { IsTrue result → HasWholeLevels config.now }
{
    if config.len() > LONGEST {
        return false;
    }
    match read_config(alloc, config.as_bytes(), None) {
        Ok(setup) => !has_split(setup.parts.as_slice()),
        Err(_) => false,
    }
}

/// Whether some level has several files.
pub fn has_split(parts: &[u32]) -> bool
    ensures { result ≡ is_split parts.now }
{
    parts.iter().any(|count| *count > 1)
}
