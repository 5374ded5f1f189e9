// A sync that breaks off reads what one reads first that does not, and prints a front of what that prints.
ghost use Rattle.std.specs.Prelude.{◌≡◌, ◌≢◌, [], IfOk, map, string_bytes, true};
ghost use Rattle.disk_memory.specs.Folder.{folder_view};
ghost use Rattle.disk_memory.specs.Sink.{sink_view};
ghost use Rattle.disk_memory.specs.Vault.{vault_view};
ghost use Rattle.snap_top_histories.specs.Lived.{IsNew};
ghost use Rattle.snap_top_histories.specs.Repeated.{are_calm};
ghost use Rattle.snap_top_instances.specs.Told.{RunsTold};
ghost use Rattle.snap_top_breaks.specs.FrontOfSync.{IsFrontOfSync};

use crate::broken_scrub::{failing_vault, spoil};
use disk_memory::{MemFolder, MemOpener, MemSink, MemVault};
use disk_model::{Opener, Path, Vault};
use snap_top::fronts::{a_broken_run_prints_a_front, a_broken_run_reads_the_same_first};
use snap_top::laws::headline;
use snap_top_histories::lived::SEED;
use snap_top_histories::repeated::have_not_failed;
use snap_top_instances::asked::asks_plain_sync;
use snap_top_instances::told::{Told, picked, run_told, run_well, says_else};
use snap_top_memory::arrays::{Array, folders, owned};
use snap_top_memory::next::WRITTEN;
use std::alloc::Global;
use std::test::Fail;
use std::thread::Threads;

/// Syncs an array without content. Then other bytes stand in this file of the first disk, with its stamp, and that file of the
/// second disk is gone. The array is synced again, where this call of the vault fails; and once more from what the first sync
/// left, where no call fails. It answers the last status, and nothing unless the second sync ended with status 3, just that call
/// failed, and something was printed, and the last one went to its end, nothing failed, and something else was printed.
pub fn break_a_sync_and_sync<R: Threads + Sync>(
    rt: &R,
    alloc: Global,
    array: Array,
    words: &[&str],
    again: &[&str],
    spoiled: &str,
    gone: &str,
    call: u64,
) -> Result<u8, Fail>
    ensures { IfOk result (λ _. IsFrontOfSync (⟦<MemOpener<MemFolder, MemVault> as Opener>⟧.view) folder_view vault_view sink_view) }
{
    headline::<MemOpener<MemFolder, MemVault>, MemFolder, MemVault, MemSink>();
    a_broken_run_prints_a_front::<MemOpener<MemFolder, MemVault>, MemFolder, MemVault, MemSink>();
    a_broken_run_reads_the_same_first::<
        MemOpener<MemFolder, MemVault>,
        MemFolder,
        MemVault,
        MemSink,
    >();
    let line = owned(alloc, words)?;
    let words = line.as_slice();
    let other = owned(alloc, again)?;
    let again = other.as_slice();
    if !asks_plain_sync(alloc, words) {
        return Err("a sync with options, or no sync".into());
    }
    if !asks_plain_sync(alloc, again) {
        return Err("then a sync with options, or no sync".into());
    }
    let disks = folders(alloc, array)?;
    let fresh = MemVault::new(alloc, array.levels, array.copies)?;
    let copies = fresh.copies();
    let synced = run_well(rt, alloc, words, array.config, disks, fresh)?;
    let one = picked(&synced.vault, WRITTEN, copies)?;
    let same = picked(&synced.vault, WRITTEN, copies)?;
    let failing = failing_vault(one, call)?;
    let edited = edit(alloc, synced.folders, spoiled, gone)?;
    let broke = run_broken(rt, alloc, words, array.config, edited, failing)?;
    let Told {
        folders: left,
        printed,
        ..
    } = broke;
    let last = run_well(rt, alloc, again, array.config, left, same)?;
    if !says_else(printed.as_slice(), last.printed.as_slice()) {
        return Err("then no more was printed".into());
    }
    Ok(last.status)
}

// Other bytes stand in a file of the first disk, with its stamp, and a file of the second disk is gone.
fn edit(
    alloc: Global,
    folders: Vec<MemFolder>,
    spoiled: &str,
    gone: &str,
) -> Result<Vec<MemFolder>, Fail> {
    let path = Path::new(alloc, gone)?;
    let mut folders = spoil(alloc, folders, spoiled)?;
    let Some(folder) = folders.get_mut(1) else {
        return Err("no second disk".into());
    };
    if !folder.remove(&path) {
        return Err("no such file on it".into());
    }
    Ok(folders)
}

// Runs words over an array of which the vault was just opened. It answers nothing unless the run ended with status 3, just one call
// of the vault and none of a folder failed, and something was printed.
fn run_broken<R: Threads + Sync>(
    rt: &R,
    alloc: Global,
    words: &[String],
    config: &str,
    folders: Vec<MemFolder>,
    vault: MemVault,
) -> Result<Told, Fail>
    requires { IsNew (vault_view vault) }
    ensures ran { IfOk result (λ made. RunsTold (⟦<MemOpener<MemFolder, MemVault> as Opener>⟧.view) folder_view vault_view sink_view
        config.now (map string_bytes words.now) SEED (map folder_view folders.items) (vault_view vault)
        made.status made.folders.items made.vault made.printed.items) }
    ensures three { IfOk result (λ made. made.status ≡ 3) }
    ensures once { IfOk result (λ made. (vault_view made.vault).faults ≡ 1) }
    ensures calm { IfOk result (λ made. are_calm folder_view made.folders.items ≡ true) }
    ensures some { IfOk result (λ made. made.printed.items ≢ []) }
{
    let made = run_told(rt, alloc, words, config, folders, vault)?;
    if made.status != 3 {
        return Err("it did not break off".into());
    }
    if made.vault.faults() != 1 {
        return Err("not just one call failed".into());
    }
    if !have_not_failed(made.folders.as_slice()) {
        return Err("a call of a folder failed".into());
    }
    if !says_else(made.printed.as_slice(), b"") {
        return Err("nothing was printed".into());
    }
    Ok(made)
}
