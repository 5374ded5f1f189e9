// What the words of a command line ask for.
ghost use Rattle.std.specs.Prelude.{◌≡◌, ◌⊎◌, Contains, Ok, Err, IfErr, IfOk, IfSome, map, option_map, string_bytes};
ghost use Rattle.snap_config.specs.Given.{rows, values_of};
ghost use Rattle.snap_config.specs.OptionValues.{AreInBounds, first_option, values_in};
ghost use Rattle.snap_config.specs.Words.{Answers, IsAmong, IsOptions, IsWay, log_of, name_of_command, reading, reading_among};
ghost use Rattle.snap_config.specs.Words.{command_of, is_unfit, named, options_of, selection};

use crate::flat_command::matches_of;
use crate::given::{command_text, is_given, value_of, values_of};
use crate::option_values::{OptionValues, read_values};
use crate::{BUILT_COMMANDS, Command, CommandName, OptionName, Options, WordsFault};
use array_setup::{Patterns, ScrubWay, Selection, SyncWay, Texts};
use clap::ArgMatches;
use disk_model::{NoMemory, Text};
use std::alloc::Global;

const DEFAULT_CONF: &str = "/etc/snapraid.conf";

/// What the words ask for; the first of them is the program's name.
pub fn read_words(alloc: Global, words: &[String]) -> Result<Options, WordsFault>
    ensures ok { IfOk result (λ asked. reading (map string_bytes words.now) ≡ Ok asked) }
    ensures err { IfErr result (λ fault. (fault ≡ WordsFault.Memory)
        ⊎ (reading (map string_bytes words.now) ≡ Err fault)) }
    ensures valid { IfOk result IsOptions }
    ensures built { IfOk result (IsAmong BUILT_COMMANDS) }
{
    read_words_among(alloc, &BUILT_COMMANDS, words)
}

/// The same, where these commands are built: the word of any other is an unknown command.
pub fn read_words_among(
    alloc: Global,
    built: &[CommandName],
    words: &[String],
) -> Result<Options, WordsFault>
    ensures answers { Answers result (reading_among built.now (map string_bytes words.now)) }
    ensures valid { IfOk result IsOptions }
    ensures built { IfOk result (IsAmong built.now) }
{
    let matches = matches_of(alloc, words)?;
    let word = command_text(&matches);
    match named(built, word) {
        Some(command) => options_of(alloc, command, &matches),
        None => Err(WordsFault::Command(Text::new(alloc, word)?)),
    }
}

/// The log that the words name. There is none where they are refused.
pub fn log_name(alloc: Global, words: &[String]) -> Result<Option<Text>, NoMemory>
    ensures { IfOk result (λ log. log ≡ log_of (reading (map string_bytes words.now))) }
{
    match read_words(alloc, words) {
        Ok(asked) => Ok(asked.log),
        Err(WordsFault::Memory) => Err(NoMemory),
        Err(_) => Ok(None),
    }
}

fn named(built: &[CommandName], word: &str) -> Option<CommandName>
    ensures value { result ≡ named built.now word.now }
    ensures built { IfSome result (Contains built.now) }
{
    built
        .iter()
        .copied()
        .find(|command| command.as_str() == word)
}

fn options_of(
    alloc: Global,
    command: CommandName,
    matches: &ArgMatches<'_>,
) -> Result<Options, WordsFault>
    ensures answers { Answers result (options_of command (rows matches.now)) }
    ensures valid { IfOk result IsOptions }
    ensures named { IfOk result (λ asked. name_of_command asked.command ≡ command) }
{
    if let Some(option) = first_unfit(command, matches) {
        return Err(WordsFault::Unfit {
            option: option.row(),
            command,
        });
    }
    let values = read_values(alloc, command, matches)?;
    let conf = value_of(matches, OptionName::Conf).unwrap_or(DEFAULT_CONF);
    Ok(Options {
        conf: Text::new(alloc, conf)?,
        log: text_of(alloc, value_of(matches, OptionName::Log))?,
        readers: values.readers,
        command: command_of(alloc, command, matches, values)?,
    })
}

// The first option that was given and does not go with the command.
#[tactic(auto, unfolding(crate::specs::OptionValues::first_option))]
fn first_unfit(command: CommandName, matches: &ArgMatches<'_>) -> Option<OptionName>
    ensures { result ≡ first_option (is_unfit command (rows matches.now)) }
{
    OptionName::ALL.iter().copied().find(|option| is_given(matches, *option)
        && !option.goes_with(command))
}

fn command_of(
    alloc: Global,
    command: CommandName,
    matches: &ArgMatches<'_>,
    values: OptionValues,
) -> Result<Command, NoMemory>
    requires read { values ≡ values_in (rows matches.now) }
    requires bounds { AreInBounds values }
    ensures made { IfOk result (λ made. made ≡ command_of command (rows matches.now)) }
    ensures way { IfOk result IsWay }
    ensures named { IfOk result (λ made. name_of_command made ≡ command) }
{
    Ok(match command {
        CommandName::Sync => Command::Sync(SyncWay {
            force_zero: is_given(matches, OptionName::ForceZero),
            force_empty: is_given(matches, OptionName::ForceEmpty),
            save_every: values.save_every,
        }),
        CommandName::Scrub => Command::Scrub(ScrubWay {
            plan: values.plan,
            older: values.older,
        }),
        CommandName::Check if is_given(matches, OptionName::AuditOnly) => {
            Command::Audit(selection(alloc, matches, values.patterns)?)
        }
        CommandName::Check => Command::Check(selection(alloc, matches, values.patterns)?),
        CommandName::Fix => Command::Fix(selection(alloc, matches, values.patterns)?),
        CommandName::Status => Command::Status,
        CommandName::List => Command::List,
        CommandName::Dup => Command::Dup,
        CommandName::Exercise => Command::Exercise(values.number),
    })
}

fn selection(
    alloc: Global,
    matches: &ArgMatches<'_>,
    patterns: Patterns,
) -> Result<Selection, NoMemory>
    requires { patterns ≡ (values_in (rows matches.now)).patterns }
    ensures { IfOk result (λ made. made ≡ selection (rows matches.now)) }
{
    Ok(Selection {
        disks: disks_given(alloc, matches)?,
        patterns,
        missing: is_given(matches, OptionName::FilterMissing),
        errors: is_given(matches, OptionName::FilterError),
    })
}

fn disks_given(alloc: Global, matches: &ArgMatches<'_>) -> Result<Texts, NoMemory>
    ensures { IfOk result (λ texts. texts ≡ values_of OptionName.FilterDisk (rows matches.now)) }
{
    match values_of(matches, OptionName::FilterDisk) {
        Some(values) => texts_of(alloc, values),
        None => Ok(Texts::new(Vec::new(alloc))),
    }
}

fn texts_of(alloc: Global, values: &[&str]) -> Result<Texts, NoMemory>
    ensures { IfOk result (λ texts. texts ≡ map (λ s. s.now) values.now) }
{
    let mut texts = Vec::new(alloc);
    for value in values {
        texts.push(Text::new(alloc, value)?)?;
    }
    Ok(Texts::new(texts))
}

fn text_of(alloc: Global, value: Option<&str>) -> Result<Option<Text>, NoMemory>
    ensures { IfOk result (λ text. text ≡ option_map (λ s. s.now) value.entry) }
{
    match value {
        Some(value) => Ok(Some(Text::new(alloc, value)?)),
        None => Ok(None),
    }
}
