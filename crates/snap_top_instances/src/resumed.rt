// A sync with status 0, after one that was stopped at some moment or ended, is the full sync of what there was before both.
ghost use Rattle.std.specs.Prelude.{◌≡◌, ◌<◌, IfOk, IsTrue, length};
ghost use Rattle.disk_memory.specs.Folder.{folder_view};
ghost use Rattle.disk_memory.specs.Sink.{sink_view};
ghost use Rattle.disk_memory.specs.Vault.{vault_view};
ghost use Rattle.disk_model.specs.Files.{parity_of};
ghost use Rattle.snap_top_instances.specs.Resumed.{IsResumedWhole};

use crate::asked::has_whole_levels;
use disk_memory::{MemFolder, MemOpener, MemSink, MemVault};
use disk_model::{Opener, Vault};
use snap_top::laws::headline;
use snap_top_histories::lived::{Made, left_of};
use snap_top_histories::resumed::{ask_for_sync, sync_anew, sync_clean};
use snap_top_memory::arrays::{Array, folders, owned};
use std::alloc::Global;
use std::test::Fail;
use std::thread::Threads;

/// Makes a sync of an array without content; then one of the same array that is stopped where these bytes pick; and one more
/// over what that left. It answers the last status, and nothing unless the first and the last ended with status 0, no call of
/// a vault failed, and the first wrote parity.
pub fn stop_and_sync_in_full<R: Threads + Sync>(
    rt: &R,
    alloc: Global,
    array: Array,
    words: &[&str],
    choice: &[u8],
) -> Result<u8, Fail>
    ensures { IfOk result (λ _. IsResumedWhole (⟦<MemOpener<MemFolder, MemVault> as Opener>⟧.view) folder_view vault_view sink_view) }
{
    headline::<MemOpener<MemFolder, MemVault>, MemFolder, MemVault, MemSink>();
    if !has_whole_levels(alloc, array.config) {
        return Err("a level of several files".into());
    }
    let line = owned(alloc, words)?;
    let words = line.as_slice();
    if !ask_for_sync(alloc, words, array.config) {
        return Err("not the words of a sync, or another configuration".into());
    }
    let disks = folders(alloc, array)?;
    let fresh = MemVault::new(alloc, array.levels, array.copies)?;
    let whole = sync_clean(rt, alloc, words, array.config, disks, fresh)?;
    let Made {
        folders: disks,
        vault: synced,
        ..
    } = whole;
    if !has_parity(synced) {
        return Err("no parity was written".into());
    }
    let fresh_too = MemVault::new(alloc, array.levels, array.copies)?;
    let copies = fresh_too.copies();
    let stopped = sync_anew(rt, alloc, words, array.config, disks, fresh_too)?;
    let left = left_of(&stopped.vault, choice, copies)?;
    let last = sync_clean(rt, alloc, words, array.config, stopped.folders, left)?;
    Ok(last.status)
}

/// Whether the first level of a vault has a byte.
pub fn has_parity(vault: MemVault) -> bool
    ensures { IsTrue result → 0 < length (parity_of (vault_view vault).files 0) }
{
    let mut vault = vault;
    if vault.levels() == 0 {
        return false;
    }
    match vault.parity_len(0) {
        Ok(length) => length > 0,
        Err(_) => false,
    }
}
