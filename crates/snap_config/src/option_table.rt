// The options of the command line, row by row, and the commands that they go with.
ghost use Rattle.std.specs.Prelude.{◌≡◌};
ghost use Rattle.snap_config.specs.OptionTable.{action_of, command_word, goes_with, is_positional, letter_of, name_of, option_in, row_of};

use clap::ArgAction;

/// A command, by its word alone.
#[derive(Clone, Copy, Debug, PartialEq, Eq)]
pub enum CommandName {
    Sync,
    Scrub,
    Check,
    Fix,
    Status,
    List,
    Dup,
    Exercise,
}

/// The commands that are built. The word of any other is an unknown command.
pub const BUILT_COMMANDS: [CommandName; 8] = [
    CommandName::Sync,
    CommandName::Scrub,
    CommandName::Check,
    CommandName::Fix,
    CommandName::Status,
    CommandName::List,
    CommandName::Dup,
    CommandName::Exercise,
];

impl CommandName {
    /// All commands, those that are not built yet among them.
    pub const ALL: [CommandName; 8] = [
        CommandName::Sync,
        CommandName::Scrub,
        CommandName::Check,
        CommandName::Fix,
        CommandName::Status,
        CommandName::List,
        CommandName::Dup,
        CommandName::Exercise,
    ];

    /// The word that asks for the command.
    pub fn as_str(self) -> &'static str
        ensures { result.now ≡ command_word self }
    {
        match self {
            CommandName::Sync => "sync",
            CommandName::Scrub => "scrub",
            CommandName::Check => "check",
            CommandName::Fix => "fix",
            CommandName::Status => "status",
            CommandName::List => "list",
            CommandName::Dup => "dup",
            CommandName::Exercise => "exercise",
        }
    }
}

/// An option of the command line, or the number that stands behind the word for a command.
#[derive(Clone, Copy, Debug, PartialEq, Eq)]
pub enum OptionName {
    Conf,
    Log,
    Filter,
    FilterDisk,
    FilterMissing,
    FilterError,
    AuditOnly,
    Plan,
    OlderThan,
    ForceZero,
    ForceEmpty,
    SaveEvery,
    Readers,
    Number,
}

impl OptionName {
    /// All options, in the order of their rows.
    pub const ALL: [OptionName; 14] = [
        OptionName::Conf,
        OptionName::Log,
        OptionName::Filter,
        OptionName::FilterDisk,
        OptionName::FilterMissing,
        OptionName::FilterError,
        OptionName::AuditOnly,
        OptionName::Plan,
        OptionName::OlderThan,
        OptionName::ForceZero,
        OptionName::ForceEmpty,
        OptionName::SaveEvery,
        OptionName::Readers,
        OptionName::Number,
    ];

    /// The row of the option in the table of options, from 1.
    pub fn row(self) -> u32
        ensures { result ≡ row_of self }
    {
        match self {
            OptionName::Conf => 1,
            OptionName::Log => 2,
            OptionName::Filter => 3,
            OptionName::FilterDisk => 4,
            OptionName::FilterMissing => 5,
            OptionName::FilterError => 6,
            OptionName::AuditOnly => 7,
            OptionName::Plan => 8,
            OptionName::OlderThan => 9,
            OptionName::ForceZero => 10,
            OptionName::ForceEmpty => 11,
            OptionName::SaveEvery => 12,
            OptionName::Readers => 13,
            OptionName::Number => 14,
        }
    }

    /// The option of a row.
    pub fn in_row(row: u32) -> Option<OptionName>
        ensures { result ≡ option_in row }
    {
        OptionName::ALL
            .iter()
            .copied()
            .find(|option| option.row() == row)
    }

    /// The name, which stands behind two dashes where the option has one.
    pub fn as_str(self) -> &'static str
        ensures { result.now ≡ name_of self }
    {
        match self {
            OptionName::Conf => "conf",
            OptionName::Log => "log",
            OptionName::Filter => "filter",
            OptionName::FilterDisk => "filter-disk",
            OptionName::FilterMissing => "filter-missing",
            OptionName::FilterError => "filter-error",
            OptionName::AuditOnly => "audit-only",
            OptionName::Plan => "plan",
            OptionName::OlderThan => "older-than",
            OptionName::ForceZero => "force-zero",
            OptionName::ForceEmpty => "force-empty",
            OptionName::SaveEvery => "save-every",
            OptionName::Readers => "readers",
            OptionName::Number => "number",
        }
    }

    /// Whether it stands among the words without a name.
    pub(crate) fn is_positional(self) -> bool
        ensures { result ≡ is_positional self }
    {
        matches!(self, OptionName::Number)
    }

    /// The letter behind one dash.
    pub(crate) fn letter(self) -> Option<char>
        ensures { result ≡ letter_of self }
    {
        match self {
            OptionName::Conf => Some('c'),
            OptionName::Log => Some('l'),
            OptionName::Filter => Some('f'),
            OptionName::FilterDisk => Some('d'),
            OptionName::FilterMissing => Some('m'),
            OptionName::FilterError => Some('e'),
            OptionName::AuditOnly => Some('a'),
            OptionName::Plan => Some('p'),
            OptionName::OlderThan => Some('o'),
            OptionName::ForceZero => Some('Z'),
            OptionName::ForceEmpty => Some('E'),
            OptionName::SaveEvery | OptionName::Readers | OptionName::Number => None,
        }
    }

    /// What a use of the option does: a value once, one more value, or a flag.
    pub(crate) fn action(self) -> ArgAction
        ensures { result ≡ action_of self }
    {
        match self {
            OptionName::Filter | OptionName::FilterDisk => ArgAction::Append,
            OptionName::FilterMissing
            | OptionName::FilterError
            | OptionName::AuditOnly
            | OptionName::ForceZero
            | OptionName::ForceEmpty => ArgAction::SetTrue,
            _ => ArgAction::Set,
        }
    }

    /// Whether the option may be given with the command.
    pub(crate) fn goes_with(self, command: CommandName) -> bool
        ensures { result ≡ goes_with self command }
    {
        match self {
            OptionName::Conf | OptionName::Log => true,
            OptionName::Filter
            | OptionName::FilterDisk
            | OptionName::FilterMissing
            | OptionName::FilterError => {
                matches!(command, CommandName::Check | CommandName::Fix)
            }
            OptionName::AuditOnly => matches!(command, CommandName::Check),
            OptionName::Plan | OptionName::OlderThan => matches!(command, CommandName::Scrub),
            OptionName::ForceZero | OptionName::ForceEmpty | OptionName::SaveEvery => {
                matches!(command, CommandName::Sync)
            }
            OptionName::Readers => matches!(
                command,
                CommandName::Sync | CommandName::Scrub | CommandName::Check | CommandName::Fix
            ),
            OptionName::Number => matches!(command, CommandName::Exercise),
        }
    }
}
