// Command lines that are refused, and why. Words are parted by a bar; the program's name is left out.
use snap_config::{CommandName, Options, WordsFault};

// An option by its row in the table of options.
pub enum Refusal {
    Usage,
    Command(&'static str),
    Unfit(u32, CommandName),
    Value(u32),
}

pub static REFUSED: [(&str, Refusal); 76] = [
    // values that are empty, or begin with a dash
    ("list|-c|-x", Refusal::Usage),
    ("list|-c|--log", Refusal::Usage),
    // behind two dashes there are no options
    ("list|--|-l", Refusal::Unfit(14, CommandName::List)),
    ("--|-l|list", Refusal::Command("-l")),
    ("--|-x", Refusal::Command("-x")),
    // an option twice, unknown, shortened, without its value or with one too many
    ("sync|-c|a|-c|b", Refusal::Usage),
    ("sync|-c|a|--conf=a", Refusal::Usage),
    ("sync|-Z|-Z", Refusal::Usage),
    ("scrub|-p|5|-p|5", Refusal::Usage),
    ("sync|--frob", Refusal::Usage),
    ("sync|-x", Refusal::Usage),
    ("sync|-Zx", Refusal::Usage),
    ("sync|--con|a", Refusal::Usage),
    ("sync|--conf", Refusal::Usage),
    ("sync|-c", Refusal::Usage),
    ("sync|--force-zero=yes", Refusal::Usage),
    ("list|--help", Refusal::Usage),
    ("list|-h", Refusal::Usage),
    ("list|--version", Refusal::Usage),
    ("list|-V", Refusal::Usage),
    // no command, an empty one, two, and none that there is
    ("-Z", Refusal::Usage),
    ("", Refusal::Command("")),
    ("|list", Refusal::Command("")),
    ("list|list|list", Refusal::Usage),
    ("frob", Refusal::Command("frob")),
    ("help", Refusal::Command("help")),
    ("List", Refusal::Command("List")),
    ("dups", Refusal::Command("dups")),
    ("diff", Refusal::Command("diff")),
    // the command comes before its options, and all options that do not go with it before all values
    ("frob|-p|101", Refusal::Command("frob")),
    ("frob|--frob", Refusal::Usage),
    ("sync|-p|5", Refusal::Unfit(8, CommandName::Sync)),
    (
        "sync|-p|101|--readers|0",
        Refusal::Unfit(8, CommandName::Sync),
    ),
    ("check|-Z|-p|5", Refusal::Unfit(8, CommandName::Check)),
    (
        "check|--readers|0|-E",
        Refusal::Unfit(11, CommandName::Check),
    ),
    ("scrub|--readers|0|-o|x", Refusal::Value(9)),
    ("scrub|-o|x|-p|x", Refusal::Value(8)),
    // options that do not go with a command
    ("sync|-f|*", Refusal::Unfit(3, CommandName::Sync)),
    ("scrub|-d|d1", Refusal::Unfit(4, CommandName::Scrub)),
    ("status|-m", Refusal::Unfit(5, CommandName::Status)),
    ("list|-e", Refusal::Unfit(6, CommandName::List)),
    ("fix|-a", Refusal::Unfit(7, CommandName::Fix)),
    ("sync|-o|1", Refusal::Unfit(9, CommandName::Sync)),
    ("scrub|-Z", Refusal::Unfit(10, CommandName::Scrub)),
    ("fix|-E", Refusal::Unfit(11, CommandName::Fix)),
    (
        "scrub|--save-every|5",
        Refusal::Unfit(12, CommandName::Scrub),
    ),
    (
        "status|--readers|4",
        Refusal::Unfit(13, CommandName::Status),
    ),
    ("list|--readers|4", Refusal::Unfit(13, CommandName::List)),
    ("dup|-f|*", Refusal::Unfit(3, CommandName::Dup)),
    ("dup|--readers|4", Refusal::Unfit(13, CommandName::Dup)),
    ("dup|7", Refusal::Unfit(14, CommandName::Dup)),
    (
        "exercise|7|--readers|4",
        Refusal::Unfit(13, CommandName::Exercise),
    ),
    ("exercise|-Z", Refusal::Unfit(10, CommandName::Exercise)),
    ("list|list", Refusal::Unfit(14, CommandName::List)),
    ("sync|5", Refusal::Unfit(14, CommandName::Sync)),
    ("sync|5|--readers|0", Refusal::Unfit(14, CommandName::Sync)),
    // values out of their form
    ("check|-f|a/b", Refusal::Value(3)),
    ("fix|-f|*|-f|", Refusal::Value(3)),
    ("fix|-f|[x]|--readers|0", Refusal::Value(3)),
    ("scrub|-p|101", Refusal::Value(8)),
    ("scrub|-p|", Refusal::Value(8)),
    ("scrub|-p|+5", Refusal::Value(8)),
    ("scrub|--plan=-5", Refusal::Value(8)),
    ("scrub|-p|0000000100", Refusal::Value(8)),
    ("scrub|-p|Full", Refusal::Value(8)),
    ("scrub|-o|36501", Refusal::Value(9)),
    ("sync|--save-every|0", Refusal::Value(12)),
    ("sync|--save-every|67108865", Refusal::Value(12)),
    ("check|--readers|0", Refusal::Value(13)),
    ("fix|--readers|17", Refusal::Value(13)),
    ("exercise", Refusal::Value(14)),
    ("exercise|", Refusal::Value(14)),
    ("exercise|x", Refusal::Value(14)),
    ("exercise|+7", Refusal::Value(14)),
    ("exercise|1000000000", Refusal::Value(14)),
    ("exercise|7|7", Refusal::Usage),
];

pub fn is_refused(outcome: &Result<Options, WordsFault>, refusal: &Refusal) -> bool {
    let Err(fault) = outcome else {
        return false;
    };
    match (fault, refusal) {
        (WordsFault::Usage, Refusal::Usage) => true,
        (WordsFault::Command(word), Refusal::Command(wanted)) => word.as_str() == *wanted,
        (WordsFault::Unfit { option, command }, Refusal::Unfit(row, name)) => {
            *option == *row && *command == *name
        }
        (WordsFault::Value { option }, Refusal::Value(row)) => *option == *row,
        _ => false,
    }
}
