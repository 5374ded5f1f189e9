// The values that options were given, and their defaults.
ghost use Rattle.std.specs.Prelude.{◌≡◌, ◌∷◌, [], None, IfErr, IfOk, IfSome, OnOk, false, true, map, option_and_then};
ghost use Rattle.snap_config.specs.Given.{rows, value_of, values_of};
ghost use Rattle.snap_config.specs.OptionTable.{row_of};
ghost use Rattle.snap_config.specs.OptionValues.{AreInBounds, ArePatterns, IsBetween, IsPlan, number_in, plan_of, values_in};
ghost use Rattle.snap_config.specs.OptionValues.{IsFirstBad, IsMisread, IsPatternFault, IsRead, IsValueFault, first_bad, is_bad, numbers_of};
ghost use Rattle.array_setup.specs.Pattern.{is_pattern};

use crate::given::{value_of, values_of};
use crate::{CommandName, OptionName, WordsFault, read_number};
use array_setup::{Pattern, PatternFault, Patterns, ScrubPlan, read_pattern};
use clap::ArgMatches;
use std::alloc::Global;

/// What the values of options come to, with the defaults of those that were not given.
#[derive(Drop)]
pub(crate) struct OptionValues {
    pub(crate) patterns: Patterns,
    pub(crate) plan: ScrubPlan,
    /// In days.
    pub(crate) older: u32,
    /// In stripes.
    pub(crate) save_every: Option<u32>,
    pub(crate) readers: u32,
    /// Of an exercise; 0 where no number was given.
    pub(crate) number: u32,
}

/// The values of all options. The first bad one is refused, and an exercise without a number.
pub(crate) fn read_values(
    alloc: Global,
    command: CommandName,
    matches: &ArgMatches<'_>,
) -> Result<OptionValues, WordsFault>
    ensures ok { IfOk result (λ values. values ≡ values_in (rows matches.now)) }
    ensures good { OnOk result (first_bad command (rows matches.now) ≡ None) }
    ensures bounds { IfOk result AreInBounds }
    ensures err { IfErr result (IsFirstBad command (rows matches.now)) }
{
    let patterns = patterns_given(alloc, matches)?;
    let plan = plan_given(matches)?;
    let older = number_given(matches, OptionName::OlderThan, 0, 36_500)?;
    let save_every = number_given(matches, OptionName::SaveEvery, 1, 67_108_864)?;
    let readers = number_given(matches, OptionName::Readers, 1, 16)?;
    let number = exercise_number(command, matches)?;
    Ok(OptionValues {
        patterns,
        plan: plan.unwrap_or(ScrubPlan::Percent(8)),
        older: older.unwrap_or(10),
        save_every,
        readers: readers.unwrap_or(4),
        number: number.unwrap_or(0),
    })
}

fn patterns_given(alloc: Global, matches: &ArgMatches<'_>) -> Result<Patterns, WordsFault>
    ensures ok { IfOk result (ArePatterns (values_of OptionName.Filter (rows matches.now))) }
    ensures err { IfErr result (IsPatternFault (values_of OptionName.Filter (rows matches.now))) }
{
    match values_of(matches, OptionName::Filter) {
        Some(texts) => read_patterns(alloc, texts),
        None => Ok(Patterns::new(Vec::new(alloc))),
    }
}

fn read_patterns(alloc: Global, texts: &[&str]) -> Result<Patterns, WordsFault>
    ensures ok { IfOk result (ArePatterns (map (λ text. text.now) texts.now)) }
    ensures err { IfErr result (IsPatternFault (map (λ text. text.now) texts.now)) }
{
    let mut patterns = Vec::new(alloc);
    for text in texts {
        patterns.push(pattern_of(alloc, text)?)?;
    }
    Ok(Patterns::new(patterns))
}

fn pattern_of(alloc: Global, text: &str) -> Result<Pattern, WordsFault>
    ensures ok { IfOk result (λ pattern. pattern ≡ text.now) }
    ensures good { OnOk result (is_pattern text.now ≡ true) }
    ensures err { IfErr result (IsPatternFault (text.now ∷ [])) }
{
    match read_pattern(alloc, text) {
        Ok(pattern) => Ok(pattern),
        Err(PatternFault::Memory) => Err(WordsFault::Memory),
        Err(PatternFault::Bad) => Err(bad_value(OptionName::Filter)),
    }
}

fn plan_given(matches: &ArgMatches<'_>) -> Result<Option<ScrubPlan>, WordsFault>
    ensures ok { IfOk result (IsRead plan_of OptionName.Plan (rows matches.now)) }
    ensures bounds { IfOk result (λ plan. IfSome plan IsPlan) }
    ensures err { IfErr result (IsMisread plan_of OptionName.Plan (rows matches.now)) }
{
    let Some(text) = value_of(matches, OptionName::Plan) else {
        return Ok(None);
    };
    match plan_of(text) {
        Some(plan) => Ok(Some(plan)),
        None => Err(bad_value(OptionName::Plan)),
    }
}

fn number_given(
    matches: &ArgMatches<'_>,
    option: OptionName,
    least: u32,
    most: u32,
) -> Result<Option<u32>, WordsFault>
    ensures ok { IfOk result (IsRead (number_in least most) option (rows matches.now)) }
    ensures bounds { IfOk result (λ number. IfSome number (IsBetween least most)) }
    ensures err { IfErr result (IsMisread (number_in least most) option (rows matches.now)) }
{
    let Some(text) = value_of(matches, option) else {
        return Ok(None);
    };
    match number_in(text, least, most) {
        Some(number) => Ok(Some(number)),
        None => Err(bad_value(option)),
    }
}

// The number of an exercise, which needs one.
fn exercise_number(
    command: CommandName,
    matches: &ArgMatches<'_>,
) -> Result<Option<u32>, WordsFault>
    ensures ok { IfOk result (λ number. number ≡ option_and_then numbers_of (value_of OptionName.Number (rows matches.now))) }
    ensures bounds { IfOk result (λ number. IfSome number (IsBetween 0 999999999)) }
    ensures good { OnOk result (is_bad command OptionName.Number (rows matches.now) ≡ false) }
    ensures err { IfErr result (IsValueFault OptionName.Number (is_bad command OptionName.Number (rows matches.now))) }
{
    let number = match value_of(matches, OptionName::Number) {
        Some(text) => number_in(text, 0, 999_999_999),
        None => None,
    };
    if number.is_none() && command == CommandName::Exercise {
        return Err(bad_value(OptionName::Number));
    }
    Ok(number)
}

fn bad_value(option: OptionName) -> WordsFault
    ensures { result ≡ WordsFault.Value (row_of option) }
{
    WordsFault::Value {
        option: option.row(),
    }
}

fn plan_of(text: &str) -> Option<ScrubPlan>
    ensures value { result ≡ plan_of text.now }
    ensures bounds { IfSome result IsPlan }
{
    match text {
        "bad" => Some(ScrubPlan::Bad),
        "new" => Some(ScrubPlan::New),
        "full" => Some(ScrubPlan::Full),
        _ => Some(ScrubPlan::Percent(number_in(text, 0, 100)?)),
    }
}

// The number that a text is, where it lies within these bounds.
fn number_in(text: &str, least: u32, most: u32) -> Option<u32>
    ensures value { result ≡ number_in least most text.now }
    ensures bounds { IfSome result (IsBetween least most) }
{
    let number = read_number(text)?;
    if least <= number && number <= most {
        Some(number)
    } else {
        None
    }
}
