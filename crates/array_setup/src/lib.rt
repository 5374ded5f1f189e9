//! What an array is made of, and how a command goes about it: the setup that a configuration gives, the patterns of files that
//! are kept or left out, and the ways of commands.
//!
//! Proved: each call gives what its definition says, and refuses exactly what that refuses. Running out of
//! memory is the one answer without a condition.
//! Not here: how configurations and words are read (`snap_config`; the tests stand in `snap_config_tests`).
//!
//! | call | code | definition |
//! |---|---|---|
//! | `read_pattern`, `matches` | `pattern.rt`, `matching.rt` over `glob.rt` | `specs/Pattern.antt`, `specs/Matching.antt` over `specs/Glob.antt` |
//! | `keeps` | `kept.rt` | `specs/Keeps.antt` |
#![tactic(auto)]

mod glob;
mod kept;
mod matching;
mod pattern;
mod setup;
mod ways;

pub use glob::cut;
pub use kept::keeps;
pub use matching::matches;
pub use pattern::{Pattern, PatternFault, read_pattern};
pub use setup::{Disk, Disks, Rule, Rules, Setup};
pub use ways::{Patterns, ScrubPlan, ScrubWay, Selection, SyncWay, Texts};
