//! The outside over files, folders and streams of the system: what `disk_model` asks for, each in a few lines.
//!
//! Start at `opener.rt`: `DiskOpener` gives each `DiskFolder` and the `DiskVault`, once `apart.rt` found that their names are
//! of different files. Under the folder stand
//! `listing.rt`, `order.rt`, `places.rt`, `kept.rt`, `changing.rt` and `unsynced.rt`, under the vault `parity.rt`,
//! `ahead.rt`, `contents.rt` and `drafts.rt`. `sink.rt` and `log.rt` are where text goes.
//! Proved: they meet their traits, and count each call that fails; what a folder lists is in order,
//! whatever the system gave. They tell nothing of what files hold, since no contract can; the crate
//! `disk_host_tests` runs them over real files.
#![tactic(auto)]

mod ahead;
mod apart;
mod changing;
mod contents;
mod drafts;
mod failures;
mod faults;
mod files;
mod folder;
mod kept;
mod listing;
mod log;
mod opener;
mod order;
mod parity;
mod places;
mod sink;
mod stamps;
mod unsynced;
mod vault;

pub use ahead::AheadFile;
pub use failures::{Failure, Failures, Request};
pub use folder::DiskFolder;
pub use log::LogSink;
pub use opener::DiskOpener;
pub use sink::StreamSink;
pub use vault::DiskVault;
