// The command line as clap reads it: one flat command, with the options in any place, one word for the command, and
// behind it at most one for its number.
ghost use Rattle.std.specs.Prelude.{◌≡◌, [], IfErr, IfOk, MatchOption, Some, map, string_bytes, false};
ghost use Rattle.clap.specs.Words.{app_of, rule_of};
ghost use Rattle.snap_config.specs.Given.{rows};
ghost use Rattle.snap_config.specs.FlatCommand.{IsRefusal, RefusesAs, flat_app, matches_in, rule_for, usage_faults};

use crate::{OptionName, WordsFault};
use clap::error::ErrorKind;
use clap::{Arg, ArgMatches, Command};
use std::alloc::{AllocError, Global};

/// The id of the word for the command.
pub(crate) const COMMAND: &str = "command";

/// What clap finds in the words, of which the first is the program's name.
pub(crate) fn matches_of<'a>(
    alloc: Global,
    words: &'a [String],
) -> Result<ArgMatches<'a>, WordsFault>
    ensures taken { IfOk result (λ matches. usage_faults (map string_bytes words.entry.now) ≡ []) }
    ensures rows { IfOk result (λ matches. rows matches ≡ matches_in (map string_bytes words.entry.now)) }
    ensures refused { IfErr result (IsRefusal (usage_faults (map string_bytes words.entry.now))) }
{
    let command = flat_command(alloc)?;
    match command.try_get_matches_from(words) {
        Ok(matches) => Ok(matches),
        Err(error) => Err(refusal_of(error.kind())),
    }
}

fn refusal_of(kind: ErrorKind) -> WordsFault
    ensures { RefusesAs kind result }
{
    match kind {
        ErrorKind::OutOfMemory => WordsFault::Memory,
        _ => WordsFault::Usage,
    }
}

fn flat_command<'a>(alloc: Global) -> Result<Command<'a>, AllocError>
    ensures { IfOk result (λ command. app_of command ≡ flat_app) }
{
    let mut command = Command::new(alloc, "snapraid")
        .disable_help_flag(true)
        .disable_version_flag(true)
        .arg(Arg::new(alloc, COMMAND).required(true))?;
    for option in OptionName::ALL {
        command = command.arg(argument_of(alloc, option))?;
    }
    Ok(command)
}

// What clap is to know of an option.
fn argument_of<'a>(alloc: Global, option: OptionName) -> Arg<'a>
    ensures rule { rule_of result ≡ rule_for option }
    ensures local { result.global ≡ false }
{
    let name: &'a str = option.as_str();
    let argument = Arg::new(alloc, name).action(option.action());
    let argument = if option.is_positional() {
        argument
    } else {
        argument.long(name)
    };
    with_letter(argument, option.letter())
}

fn with_letter<'a>(argument: Arg<'a>, letter: Option<char>) -> Arg<'a>
    ensures { MatchOption letter (result ≡ argument.entry) (λ c. result ≡ record argument.entry { short = Some c }) }
{
    match letter {
        Some(letter) => argument.short(letter),
        None => argument,
    }
}
