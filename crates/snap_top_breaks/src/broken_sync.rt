// What a sync loaded that broke off is known by the count of faults.
ghost use Rattle.std.specs.Prelude.{◌≢◌, IfOk, IsTrue, None};
ghost use Rattle.disk_memory.specs.Folder.{folder_view};
ghost use Rattle.disk_memory.specs.Sink.{sink_view};
ghost use Rattle.disk_memory.specs.Vault.{vault_view};
ghost use Rattle.disk_model.specs.Files.{content_of};
ghost use Rattle.snap_top_breaks.specs.BrokenSync.{IsBrokenWellLoaded};

use crate::broken_scrub::failing_vault;
use disk_memory::{MemFolder, MemOpener, MemSink, MemVault};
use disk_model::{Opener, Vault};
use snap_top::laws::what_a_run_loaded_is_known;
use snap_top_instances::asked::asks_plain_sync;
use snap_top_instances::told::run_told;
use snap_top_memory::arrays::{Array, folders, owned};
use std::alloc::Global;
use std::test::Fail;
use std::thread::Threads;

/// Syncs an array without content, of whose vault this call fails. It answers the status, and nothing unless that is 3, just that
/// call failed, and a content copy was saved before.
pub fn break_a_sync<R: Threads + Sync>(
    rt: &R,
    alloc: Global,
    array: Array,
    words: &[&str],
    call: u64,
) -> Result<u8, Fail>
    ensures { IfOk result (λ _. IsBrokenWellLoaded (⟦<MemOpener<MemFolder, MemVault> as Opener>⟧.view) folder_view vault_view sink_view) }
{
    what_a_run_loaded_is_known::<MemOpener<MemFolder, MemVault>, MemFolder, MemVault, MemSink>();
    let line = owned(alloc, words)?;
    let words = line.as_slice();
    if !asks_plain_sync(alloc, words) {
        return Err("a sync with options, or no sync".into());
    }
    let disks = folders(alloc, array)?;
    let fresh = MemVault::new(alloc, array.levels, array.copies)?;
    let failing = failing_vault(fresh, call)?;
    let broke = run_told(rt, alloc, words, array.config, disks, failing)?;
    if broke.status != 3 {
        return Err("it did not break off".into());
    }
    if broke.vault.faults() != 1 {
        return Err("not just one call failed".into());
    }
    if !holds_content(broke.vault) {
        return Err("nothing was saved".into());
    }
    Ok(broke.status)
}

// Whether the first copy of a vault has a file.
fn holds_content(vault: MemVault) -> bool
    ensures { IsTrue result → content_of (vault_view vault).files 0 ≢ None }
{
    let mut vault = vault;
    if vault.copies() == 0 {
        return false;
    }
    match vault.content_size(0) {
        Ok(size) => size.is_some(),
        Err(_) => false,
    }
}
