//! Folders, vaults, sinks and openers in memory. They tell all: what they hold, their calls, and a vault also what a
//! stop may leave of it.
//!
//! Start at `folder.rt`, `vault.rt` and `recorded.rt`; `image.rt` picks one of what a stop may leave of a vault, which
//! `replay.rt` finds from its calls. Each object keeps a `Schedule`, which of its calls are to fail and how many failed,
//! and a `Past`, the record of its calls. A call counts where it takes `&mut self` in its trait; the first has the
//! number 1. Where memory refuses a growth, that call fails as the object's device would, or answers that memory ran out
//! where it has that answer. Where it refuses the entry in the record, the call does nothing else than fail, and from
//! then on the object tells its calls no more, nor a vault its images.
//! The calm forms, which are of `disk_calm`, keep neither, and fail for want of memory alone; the gated ones hand each
//! call on to such an object and wait for one another at one of them.
//! Proved: the objects meet their traits, and the calls of their own do what their clauses say.
#![tactic(auto)]

mod calls;
mod calm_opener;
mod folder;
mod gate;
mod image;
pub mod laws;
mod opener;
mod past;
mod recorded;
mod replay;
mod schedule;
mod scripted;
mod sink;
mod vault;

pub use calm_opener::CalmOpener;
pub use disk_calm::{CalmFolder, CalmSink, CalmVault};
pub use folder::MemFolder;
pub use gate::{GateFolder, GateVault};
pub use opener::MemOpener;
pub use scripted::{Event, ScriptedFolder};
pub use sink::MemSink;
pub use vault::MemVault;
