// What a fix did to the files of a table's records.
ghost use Rattle.std.specs.Prelude.{◌≡◌, ◌<◌, [], length, get_or};
ghost use Rattle.file_restorer.specs.State.{state_in};

use std::marker::Model;

/// What a fix did to the file of a record.
#[derive(Clone, Copy, Debug, PartialEq, Eq)]
pub struct FileState {
    /// Whether one of its blocks is lost.
    pub lost: bool,
    /// Whether a call of this run changed it: it stands under its path then.
    pub touched: bool,
    /// Its size now, 0 where there is none.
    pub size: u64,
}

/// The states of all files, column by column.
#[derive(Drop)]
pub struct States {
    pub columns: Vec<Vec<FileState>>,
}

impl Model for States {
    ghost use Rattle.std.specs.Prelude.{List, map};
    ghost use Rattle.file_restorer.specs.declared.state.FileState.{FileState};

    ghost Value = { List (List FileState) };

    ghost view = { λ states. map (λ column. column.items) states.columns.items };
}

impl States {
    /// The state of the file of a record of a column.
    pub fn at(&self, d: u32, i: u32) -> FileState
        requires column { d < length self.now }
        requires rec { i < length (get_or self.now d []) }
        ensures { result ≡ state_in self.now d i }
    {
        self.columns[d as usize][i as usize]
    }
}
