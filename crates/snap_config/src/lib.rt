//! What the user says of an array: the configuration file and the words of the command line.
//!
//! Proved: each call gives what its definition says, and refuses exactly what that refuses. Running out of
//! memory is the one answer without a condition.
//! Not here: what a setup and a pattern are (`array_setup`), and what the files that are named hold. The tests stand in `snap_config_tests`.
//!
//! | call | code | definition |
//! |---|---|---|
//! | `read_config` | `config.rt`; `builder.rt` takes a line | `specs/Config.antt`, `specs/Builder.antt` |
//! | `read_words`, `log_name` | `words.rt` over `option_table.rt` | `specs/Words.antt` over `specs/OptionTable.antt` |
#![tactic(auto)]

mod builder;
mod config;
mod fault;
mod flat_command;
mod given;
mod keyword;
mod line;
mod names;
mod number;
mod option_table;
mod option_values;
mod options;
mod parts;
mod why;
mod words;

pub use array_setup::{
    Disk, Disks, Pattern, PatternFault, Patterns, Rule, Rules, ScrubPlan, ScrubWay, Selection,
    Setup, SyncWay, Texts, keeps, matches, read_pattern,
};
pub use config::read_config;
pub use number::read_number;
pub use option_table::{BUILT_COMMANDS, CommandName, OptionName};
pub use options::{Command, Options, WordsFault};
pub use why::{ConfigFault, Why};
pub use words::{log_name, read_words, read_words_among};
