//! One run of the tool, from its words to its status.
//!
//! Start at `run` in `running.rt`. What it leaves and why is `specs/Run.antt`, what each command does `specs/Does.antt` (a sync:
//! `specs/Syncing.antt`, a scrub: `specs/Scrubbing.antt`), how it is called and said `specs/End.antt`, and what stands at each
//! moment of it `specs/Moment.antt`.
//! Proved: the status, the line on the standard error and what is printed are those of the one end by which the run ended,
//! and that has its cause; the opener is asked for the configuration and for what that names, once each, and for nothing
//! else; all that was opened goes back; what every stop leaves of the vault is what the command's own definition says.
//! Where the copies of the vault were sound, they are at each moment. A sync that goes to its end is the part sync of
//! its layout, with status 0 the full sync; a check that does names what is lost (`specs/Naming.antt`), a fix restores
//! what it can (`specs/Restoring.antt`), and a scrub reads what its plan says and saves its marks (`specs/Scrubbed.antt`);
//! all whatever the output does (`specs/Ended.antt`). A run as one step is `specs/Step.antt`, and over every history of an
//! array (`specs/Standing.antt`) stands `headline` in `laws` (`specs/Headline.antt`): what stands is sound, a stopped sync is
//! resumed, and a fix restores and names. Other laws: what any runs keep (`specs/History.antt`); what a stop within a fix
//! leaves (`specs/Stopping.antt`); that two runs over one array find and leave the same (`specs/Alike.antt`, `LeftAlike.antt`,
//! `FixedAlike.antt`). What one printed and read that broke off is in `fronts.rt` (`specs/BrokeOff.antt`).
//! A command is a variant of `Command` in snap_config, a line of `DoesCommand`, an arm of `carry_out` and a lemma of
//! `proofs/DoneLemmas.antt`. One that changes the vault otherwise is a variant of `Did` too, and one value in
//! `specs/Effect.antt`: what it may leave, what stands after it, what it closed and read, and what is supposed of it.
//! Where a level has several files, the work is done on a `SplitVault`, and all that is said of the vault is said of its
//! levels (`specs/Levels.antt`).
//! An exercise opens nothing: it is the crate `snap_exercise`, and what it leaves of a run is `specs/Exercising.antt`.
//! Not here: real files. They are `disk_host`'s.
#![tactic(auto)]

mod checking;
mod commands;
mod dup;
mod empty;
mod end;
mod exercising;
mod fixing;
pub mod fronts;
mod job;
mod known;
pub mod laws;
mod matching;
mod opening;
mod running;
mod saying;
mod scrubbing;
mod syncing;

pub use commands::COMMANDS;
pub use end::{Difference, End, Ending, Refusal};
pub use running::{Outcome, run};
pub use snap_exercise::exercise;
