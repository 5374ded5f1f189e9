// What a run is to do with what was opened, and what it leaves to be said.
use array_setup::Setup;
use file_table::Table;
use snap_config::Command;
use snap_report::Answer;

/// A command, and the array that it is for.
#[derive(Drop)]
pub(crate) struct Job {
    pub command: Command,
    /// 1 to 16.
    pub readers: u32,
    pub setup: Setup,
    /// In seconds since 1970.
    pub moment: u64,
    /// Of a new array's hashes.
    pub seed: [u8; 16],
}

/// What a command left to be said of it.
#[derive(Drop)]
pub(crate) struct Done {
    pub answer: Answer,
    /// Where the answer names a file, it is one of this table.
    pub named: Option<Table>,
}
