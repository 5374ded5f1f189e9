// How a run ended, as data.
ghost use Rattle.std.specs.Prelude.{◌≡◌};
ghost use Rattle.snap_top.specs.End.{status_of, refusal_status, ending_status};

use array_setup::Setup;
use content_file::LoadFault;
use disk_model::{OpenFault, Text};
use file_table::Table;
use snap_config::{ConfigFault, WordsFault};
use snap_report::Answer;

/// Why nothing was opened.
#[derive(Drop)]
pub enum Refusal {
    /// The words ask for nothing that there is.
    Words(WordsFault),
    /// The configuration file was not read.
    Unread(OpenFault),
    /// The configuration in this file is refused.
    Config { file: Text, fault: ConfigFault },
    /// Neither a disk nor a level of the configuration has this name, which the command selects.
    NoDisk(Text),
    /// What the configuration names was not opened.
    Unopened(OpenFault),
}

/// In what content and configuration differ first.
#[derive(Clone, Copy, Debug, PartialEq, Eq)]
pub enum Difference {
    /// In bytes.
    BlockSize { content: u32, configuration: u32 },
    Levels { content: u32, configuration: u32 },
    /// The name of the disk in this column.
    DiskName { column: u32 },
}

/// How a run ended that opened its array.
#[derive(Drop)]
pub enum Ending {
    NotLoaded(LoadFault),
    /// Memory ran out for the table of an array without content.
    NoTable,
    /// This content is not of the array of the configuration.
    OtherArray {
        difference: Difference,
        content: Table,
    },
    /// The command was carried out. Where its answer names a file, it is one of this table.
    Answered {
        answer: Answer,
        named: Option<Table>,
    },
}

/// How a run ended.
#[derive(Drop)]
pub enum End {
    /// Before anything was opened.
    Refused(Refusal),
    /// On the array of this configuration.
    Worked { setup: Setup, ending: Ending },
    /// On an array in memory, of which nothing is left.
    Exercised(Answer),
}

impl Refusal {
    fn status(&self) -> u8
        ensures { result ≡ refusal_status self.now }
    {
        match self {
            Refusal::Words(WordsFault::Memory)
            | Refusal::Config {
                fault: ConfigFault::Memory,
                ..
            }
            | Refusal::Unread(OpenFault::Memory)
            | Refusal::Unopened(OpenFault::Memory) => 4,
            Refusal::Unread(OpenFault::Failed) | Refusal::Unopened(OpenFault::Failed) => 3,
            Refusal::Words(_) | Refusal::Config { .. } | Refusal::NoDisk(_) => 2,
        }
    }
}

impl Ending {
    fn status(&self) -> u8
        ensures { result ≡ ending_status self.now }
    {
        match self {
            Ending::NotLoaded(LoadFault::Failed) => 3,
            Ending::NotLoaded(LoadFault::Damaged(_)) => 5,
            Ending::NotLoaded(LoadFault::Memory) | Ending::NoTable => 4,
            Ending::OtherArray { .. } => 2,
            Ending::Answered { answer, .. } => answer.status(),
        }
    }
}

impl End {
    /// The status of the program.
    pub fn status(&self) -> u8
        ensures { result ≡ status_of self.now }
    {
        match self {
            End::Refused(refusal) => refusal.status(),
            End::Worked { ending, .. } => ending.status(),
            End::Exercised(answer) => answer.status(),
        }
    }
}
