// Command lines, and what is asked by them. Words are parted by a bar; the program's name is left out.
use crate::tests::refused_words::{REFUSED, Refusal, is_refused};
use array_setup::{ScrubPlan, Selection};
use snap_config::{
    Command, CommandName, Options, WordsFault, log_name, read_words, read_words_among,
};
use std::alloc::{AllocError, Global};
use std::test::Fail;

// The disks, the patterns, and whether only missing files and only what is known to be bad are meant.
type Chosen = (&'static [&'static str], &'static [&'static str], bool, bool);

// A sync: whether it is forced for empty files and for empty disks, and after how many stripes it saves. A scrub: its
// plan, and how many days ago a check must be.
enum Asks {
    Sync(bool, bool, Option<u32>),
    Scrub(ScrubPlan, u32),
    Check(Chosen),
    Audit(Chosen),
    Fix(Chosen),
    Status,
    List,
    Dup,
    Exercise(u32),
}

// Words; then the configuration, the log, the readers, and the command with its options.
type Accepted = (&'static str, &'static str, Option<&'static str>, u32, Asks);

const CONF: &str = "/etc/snapraid.conf";

// All commands.
static ACCEPTED: [Accepted; 39] = [
    // the options of each command, by their names and their letters
    ("sync", CONF, None, 4, Asks::Sync(false, false, None)),
    (
        "sync|-c|a.conf|-l|run.log|--readers|16",
        "a.conf",
        Some("run.log"),
        16,
        Asks::Sync(false, false, None),
    ),
    ("sync|-Z", CONF, None, 4, Asks::Sync(true, false, None)),
    ("sync|-E", CONF, None, 4, Asks::Sync(false, true, None)),
    (
        "-ZE|sync|--save-every|476837",
        CONF,
        None,
        4,
        Asks::Sync(true, true, Some(476_837)),
    ),
    (
        "--force-zero|--save-every=1|sync|--force-empty",
        CONF,
        None,
        4,
        Asks::Sync(true, true, Some(1)),
    ),
    (
        "sync|--save-every|67108864",
        CONF,
        None,
        4,
        Asks::Sync(false, false, Some(67_108_864)),
    ),
    (
        "scrub",
        CONF,
        None,
        4,
        Asks::Scrub(ScrubPlan::Percent(8), 10),
    ),
    (
        "scrub|-p|bad|-o|0",
        CONF,
        None,
        4,
        Asks::Scrub(ScrubPlan::Bad, 0),
    ),
    (
        "scrub|--plan|new|--older-than|36500",
        CONF,
        None,
        4,
        Asks::Scrub(ScrubPlan::New, 36_500),
    ),
    (
        "scrub|-pfull",
        CONF,
        None,
        4,
        Asks::Scrub(ScrubPlan::Full, 10),
    ),
    (
        "scrub|-p0",
        CONF,
        None,
        4,
        Asks::Scrub(ScrubPlan::Percent(0), 10),
    ),
    (
        "scrub|-p|100",
        CONF,
        None,
        4,
        Asks::Scrub(ScrubPlan::Percent(100), 10),
    ),
    (
        "scrub|-p|000000100",
        CONF,
        None,
        4,
        Asks::Scrub(ScrubPlan::Percent(100), 10),
    ),
    (
        "scrub|--readers|1",
        CONF,
        None,
        1,
        Asks::Scrub(ScrubPlan::Percent(8), 10),
    ),
    (
        "check",
        CONF,
        None,
        4,
        Asks::Check((&[], &[], false, false)),
    ),
    (
        "check|-f|*.txt|-d|d1|-f|/a/|-d|parity|-m|-e",
        CONF,
        None,
        4,
        Asks::Check((&["d1", "parity"], &["*.txt", "/a/"], true, true)),
    ),
    (
        "check|-a|--filter-missing",
        CONF,
        None,
        4,
        Asks::Audit((&[], &[], true, false)),
    ),
    (
        "check|--audit-only|--filter-error",
        CONF,
        None,
        4,
        Asks::Audit((&[], &[], false, true)),
    ),
    (
        "fix|--filter|*.txt|--filter-disk|d2|-m",
        CONF,
        None,
        4,
        Asks::Fix((&["d2"], &["*.txt"], true, false)),
    ),
    (
        "fix|-d|",
        CONF,
        None,
        4,
        Asks::Fix((&[""], &[], false, false)),
    ),
    (
        "fix|-e|--readers|2",
        CONF,
        None,
        2,
        Asks::Fix((&[], &[], false, true)),
    ),
    ("status|-c|a", "a", None, 4, Asks::Status),
    ("list|-l|x", CONF, Some("x"), 4, Asks::List),
    ("dup", CONF, None, 4, Asks::Dup),
    (
        "dup|-c|a.conf|--log|run.log",
        "a.conf",
        Some("run.log"),
        4,
        Asks::Dup,
    ),
    // an exercise, with the number behind the command and options in any place
    ("exercise|0", CONF, None, 4, Asks::Exercise(0)),
    (
        "-c|a|exercise|999999999",
        "a",
        None,
        4,
        Asks::Exercise(999_999_999),
    ),
    ("exercise|-l|x|7", CONF, Some("x"), 4, Asks::Exercise(7)),
    ("exercise|--|7", CONF, None, 4, Asks::Exercise(7)),
    // values that are empty, or begin with a dash
    ("list|--conf=", "", None, 4, Asks::List),
    ("list|-c|", "", None, 4, Asks::List),
    ("list|-l|", CONF, Some(""), 4, Asks::List),
    ("list|--conf=-x", "-x", None, 4, Asks::List),
    ("list|-c-x", "-x", None, 4, Asks::List),
    ("list|-c|-", "-", None, 4, Asks::List),
    // behind two dashes there are no options
    ("--|list", CONF, None, 4, Asks::List),
    ("list|--", CONF, None, 4, Asks::List),
    ("-l|x|--|list", CONF, Some("x"), 4, Asks::List),
];

fn words_of(alloc: Global, line: &str) -> Result<Vec<String>, AllocError> {
    let mut words = Vec::new(alloc);
    words.push(String::from_str(alloc, "snapraid")?)?;
    for word in line.split('|') {
        words.push(String::from_str(alloc, word)?)?;
    }
    Ok(words)
}

fn is_chosen(selection: &Selection, chosen: &Chosen) -> bool {
    let (disks, patterns, missing, errors) = *chosen;
    let given = selection.disks.as_slice();
    let filters = selection.patterns.as_slice();
    given.len() == disks.len()
        && given
            .iter()
            .zip(disks)
            .all(|(text, disk)| text.as_str() == *disk)
        && filters.len() == patterns.len()
        && filters
            .iter()
            .zip(patterns)
            .all(|(filter, text)| filter.as_str() == *text)
        && selection.missing == missing
        && selection.errors == errors
}

fn is_command(command: &Command, asks: &Asks) -> bool {
    match (command, asks) {
        (Command::Sync(way), Asks::Sync(zero, empty, every)) => {
            way.force_zero == *zero && way.force_empty == *empty && way.save_every == *every
        }
        (Command::Scrub(way), Asks::Scrub(plan, older)) => way.plan == *plan && way.older == *older,
        (Command::Check(selection), Asks::Check(chosen)) => is_chosen(selection, chosen),
        (Command::Audit(selection), Asks::Audit(chosen)) => is_chosen(selection, chosen),
        (Command::Fix(selection), Asks::Fix(chosen)) => is_chosen(selection, chosen),
        (Command::Status, Asks::Status) => true,
        (Command::List, Asks::List) => true,
        (Command::Dup, Asks::Dup) => true,
        (Command::Exercise(number), Asks::Exercise(asked)) => *number == *asked,
        _ => false,
    }
}

fn is_accepted(outcome: &Result<Options, WordsFault>, accepted: &Accepted) -> bool {
    let Ok(options) = outcome else {
        return false;
    };
    let (_, conf, log, readers, asks) = accepted;
    let named = match &options.log {
        Some(named) => Some(named.as_str()),
        None => None,
    };
    options.conf.as_str() == *conf
        && named == *log
        && options.readers == *readers
        && is_command(&options.command, asks)
}

#[test]
fn lines_of_all_commands(rt: HostRuntime) -> Result<(), Fail> {
    let alloc = rt.alloc();
    for accepted in &ACCEPTED {
        let words = words_of(alloc, accepted.0)?;
        let outcome = read_words_among(alloc, &CommandName::ALL, &words);
        assert!(rt; is_accepted(&outcome, accepted), "at {}", accepted.0);
    }
    for (line, refusal) in &REFUSED {
        let words = words_of(alloc, line)?;
        let outcome = read_words_among(alloc, &CommandName::ALL, &words);
        assert!(rt; is_refused(&outcome, refusal), "at {line}");
    }
    Ok(())
}

// The log, of the commands that are built: none where the words are refused.
static LOGS: [(&str, Option<&str>); 8] = [
    ("sync|-l|x", Some("x")),
    ("list", None),
    ("list|-l|x", Some("x")),
    ("list|-l|", Some("")),
    ("scrub|-l|x", Some("x")),
    ("frob|-l|x", None),
    ("list|-l|x|--frob", None),
    ("sync|-p|5|-l|x", None),
];

// The configuration file.
static CONFIGURATIONS: [(&str, &str); 5] = [
    ("sync|-c|a.conf", "a.conf"),
    ("list", "/etc/snapraid.conf"),
    ("list|--conf=", ""),
    ("list|--conf=-x", "-x"),
    ("-ca|list", "a"),
];

#[test]
fn logs_and_configurations(rt: HostRuntime) -> Result<(), Fail> {
    let alloc = rt.alloc();
    for (line, log) in &LOGS {
        let words = words_of(alloc, line)?;
        let named = log_name(alloc, &words)?;
        let named = match &named {
            Some(named) => Some(named.as_str()),
            None => None,
        };
        assert!(rt; named == *log, "at {line}");
    }
    for (line, conf) in &CONFIGURATIONS {
        let words = words_of(alloc, line)?;
        let Ok(asked) = read_words(alloc, &words) else {
            return Err(Fail::from("refused"));
        };
        assert_eq!(rt; asked.conf.as_str(), *conf);
    }
    let none = Vec::new(alloc);
    assert!(rt; is_refused(&read_words(alloc, &none), &Refusal::Usage));
    Ok(())
}
