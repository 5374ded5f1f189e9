// A sync leaves the files of a disk as they are.
ghost use Rattle.std.specs.Prelude.{IfOk};
ghost use Rattle.disk_memory.specs.Folder.{folder_view};
ghost use Rattle.disk_memory.specs.Sink.{sink_view};
ghost use Rattle.disk_memory.specs.Vault.{vault_view};
ghost use Rattle.snap_top_stops.specs.Kept.{IsTreeKept};

use crate::stopped::tell_calls;
use disk_memory::{MemFolder, MemOpener, MemSink, MemVault};
use disk_model::Opener;
use snap_top::laws::headline;
use snap_top_instances::asked::asks_plain_sync;
use snap_top_instances::told::{Told, holds_file, run_well};
use snap_top_memory::arrays::{Array, folders, owned};
use std::alloc::Global;
use std::test::Fail;
use std::thread::Threads;

/// Syncs an array without content. It answers the status, and nothing unless the sync went to its end, each folder tells all
/// calls of it, and the first disk holds a file of this name.
pub fn sync_and_keep<R: Threads + Sync>(
    rt: &R,
    alloc: Global,
    array: Array,
    words: &[&str],
    name: &str,
) -> Result<u8, Fail>
    ensures { IfOk result (IsTreeKept (⟦<MemOpener<MemFolder, MemVault> as Opener>⟧.view) folder_view vault_view sink_view) }
{
    headline::<MemOpener<MemFolder, MemVault>, MemFolder, MemVault, MemSink>();
    let line = owned(alloc, words)?;
    let words = line.as_slice();
    if !asks_plain_sync(alloc, words) {
        return Err("a sync with options, or no sync".into());
    }
    let disks = folders(alloc, array)?;
    let fresh = MemVault::new(alloc, array.levels, array.copies)?;
    let made = run_well(rt, alloc, words, array.config, disks, fresh)?;
    let Told {
        status,
        folders: left,
        ..
    } = made;
    if !tell_calls(left.as_slice()) {
        return Err("memory refused an entry of a record".into());
    }
    let there = holds_file(alloc, left, name)?;
    if !there {
        return Err("no such file".into());
    }
    Ok(status)
}
