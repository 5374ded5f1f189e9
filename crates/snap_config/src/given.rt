// What the matches hold for an option.
ghost use Rattle.std.specs.Prelude.{◌≡◌, option_map};
ghost use Rattle.snap_config.specs.Given.{all_values_of, behind, command_text, is_from_words, is_given, rows, value_of};

use crate::OptionName;
use crate::flat_command::COMMAND;
use clap::ArgMatches;
use clap::parser::ValueSource;

/// Whether an option was used in the words.
pub(crate) fn is_given(matches: &ArgMatches<'_>, option: OptionName) -> bool
    ensures { result ≡ is_given option (rows matches.now) }
{
    is_from_words(matches.value_source(option.as_str()))
}

fn is_from_words(source: Option<ValueSource>) -> bool
    ensures { result ≡ is_from_words source }
{
    matches!(source, Some(ValueSource::CommandLine))
}

/// The value of an option that is taken once.
pub(crate) fn value_of<'a>(matches: &ArgMatches<'a>, option: OptionName) -> Option<&'a str>
    ensures { option_map (λ s. s.now) result ≡ value_of option (rows matches.now) }
{
    matches.get_str(option.as_str())
}

/// The values of an option that collects them, in order, where it was given.
pub(crate) fn values_of<'m, 'a>(
    matches: &'m ArgMatches<'a>,
    option: OptionName,
) -> Option<&'m [&'a str]>
    ensures { option_map behind result ≡ all_values_of option (rows matches.now) }
{
    matches.get_strs(option.as_str())
}

/// The word for the command.
pub(crate) fn command_text<'a>(matches: &ArgMatches<'a>) -> &'a str
    ensures { result.now ≡ command_text (rows matches.now) }
{
    matches.get_str(COMMAND).unwrap_or("")
}
