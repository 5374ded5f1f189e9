//! Folders, vaults and sinks in memory that fail for want of memory alone, and what other objects in memory share with them.
//!
//! Start at `folder.rt` and `vault.rt`. A folder is its `Files` (`files.rt`), a vault its `Store` (`store.rt`), each with a
//! count of faults; `specs/Calm.antt` says what they tell. They keep no record of their calls.
//! Proved: the objects meet their traits, and the calls of their own do what their clauses say.
#![tactic(auto)]

mod bytes;
mod fault;
mod files;
mod folder;
mod name;
mod sink;
mod store;
mod vault;

pub use bytes::Bytes;
pub use fault::fail;
pub use files::{Files, MemFile};
pub use folder::{CalmFolder, found};
pub use name::{Name, name_of, path_named, text_of};
pub use sink::CalmSink;
pub use store::{Store, copied_content, copied_drafts, copied_files};
pub use vault::CalmVault;
