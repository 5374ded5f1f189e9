//! Arrays in memory, and words that are run over them by `snap_top::run`: what the tests of whole runs share.
//!
//! Start at `plays` in `cases.rt`: a test is a table of runs and of what each leaves. `run_over` in `arrays.rt` makes
//! one run, `failing.rt` says which calls of it fail, `damage.rt` changes a vault between two, and `left.rt` compares
//! what a run left. `next.rt` runs again where a run broke, and `turns.rt` lets each call of an object fail in turn.
//! `logged.rt` compares what a run wrote to logs.
//! `contents.rt` and `four.rt` have content files that such runs leave, spelled by hand.
//! A test is proved too, and costs more with each value that owns memory and is alive at a `?` or an `assert!`. So what
//! a run leaves stays within the functions here, and a test hands over a `static` table.
//! Proved: it never panics, and what it hands to a run is settled and without drafts. What a run does is `snap_top`'s.
#![tactic(auto)]

pub mod arrays;
pub mod cases;
pub mod contents;
pub mod damage;
pub mod failing;
pub mod four;
pub mod left;
pub mod logged;
pub mod next;
pub mod turns;
