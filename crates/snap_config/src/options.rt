// What a command line asks for.
ghost use Rattle.std.specs.Prelude.{◌≡◌};
ghost use Rattle.snap_config.specs.declared.options.WordsFault.TheVariants.{Memory};

use crate::CommandName;
use array_setup::{ScrubWay, Selection, SyncWay};
use disk_model::{NoMemory, Text};
use std::alloc::{AllocError, AllocFailed};

/// A command with its options.
#[derive(Drop)]
pub enum Command {
    Sync(SyncWay),
    Scrub(ScrubWay),
    Check(Selection),
    /// A check of the files alone, without parity.
    Audit(Selection),
    Fix(Selection),
    Status,
    List,
    /// Tells which files hold the same.
    Dup,
    /// Makes an array of this number in memory, and works on that alone: 0 to 999,999,999.
    Exercise(u32),
}

/// What a command line asks for.
#[derive(Drop)]
pub struct Options {
    /// The configuration file.
    pub conf: Text,
    /// The file that the events of the run are written to.
    pub log: Option<Text>,
    /// How many threads read: 1 to 16.
    pub readers: u32,
    pub command: Command,
}

/// Why a command line was not read. An option is told by its row in the table of options.
#[derive(Drop)]
pub enum WordsFault {
    /// The words are not options with their values and one word for a command.
    Usage,
    /// This word is no command that is built.
    Command(Text),
    /// The first option that was given and does not go with the command.
    Unfit { option: u32, command: CommandName },
    /// The first option that was given a value that is not of its form.
    Value { option: u32 },
    Memory,
}

impl From<NoMemory> for WordsFault {
    ghost from_gives = { λ _ fault. fault ≡ Memory };

    fn from(_error: NoMemory) -> WordsFault {
        WordsFault::Memory
    }
}

impl From<AllocError> for WordsFault {
    ghost from_gives = { λ _ fault. fault ≡ Memory };

    fn from(_error: AllocError) -> WordsFault {
        WordsFault::Memory
    }
}

impl<T: Drop> From<AllocFailed<T>> for WordsFault {
    ghost from_gives = { λ _ fault. fault ≡ Memory };

    fn from(_error: AllocFailed<T>) -> WordsFault {
        WordsFault::Memory
    }
}
