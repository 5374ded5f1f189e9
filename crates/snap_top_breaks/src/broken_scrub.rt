// A scrub that breaks off prints a front of what one prints that does not.
ghost use Rattle.std.specs.Prelude.{◌≡◌, IfOk};
ghost use Rattle.disk_memory.specs.Folder.{folder_view};
ghost use Rattle.disk_memory.specs.Sink.{sink_view};
ghost use Rattle.disk_memory.specs.Vault.{vault_value, vault_view};
ghost use Rattle.snap_top_histories.specs.Lived.{IsNew};
ghost use Rattle.snap_top_breaks.specs.BrokenScrub.{IsFrontOfScrub};

use disk_memory::{MemFolder, MemOpener, MemSink, MemVault};
use disk_model::{Folder, Opener, Path, Vault};
use snap_top::fronts::{a_broken_run_prints_a_front, a_broken_run_reads_the_same_first};
use snap_top::laws::headline;
use snap_top_histories::repeated::have_not_failed;
use snap_top_instances::asked::{asks_full_scrub, asks_plain_sync};
use snap_top_instances::told::{Told, picked, run_told, run_well, says_else};
use snap_top_memory::arrays::{Array, folders, owned};
use snap_top_memory::next::WRITTEN;
use std::alloc::Global;
use std::test::Fail;
use std::thread::Threads;

/// Syncs an array without content. Then other bytes stand in this file, with its stamp, and the array is scrubbed, where this call
/// of the vault fails; and once more from what the sync left, where no call fails. It answers the last status, and nothing unless
/// the first scrub ended with status 3, just that call failed, and something was printed, and the last one went to its end, nothing
/// failed, and something else was printed.
pub fn break_a_scrub<R: Threads + Sync>(
    rt: &R,
    alloc: Global,
    array: Array,
    first: &[&str],
    words: &[&str],
    again: &[&str],
    name: &str,
    call: u64,
) -> Result<u8, Fail>
    ensures { IfOk result (λ _. IsFrontOfScrub (⟦<MemOpener<MemFolder, MemVault> as Opener>⟧.view) folder_view vault_view sink_view) }
{
    headline::<MemOpener<MemFolder, MemVault>, MemFolder, MemVault, MemSink>();
    a_broken_run_prints_a_front::<MemOpener<MemFolder, MemVault>, MemFolder, MemVault, MemSink>();
    a_broken_run_reads_the_same_first::<
        MemOpener<MemFolder, MemVault>,
        MemFolder,
        MemVault,
        MemSink,
    >();
    let begin = owned(alloc, first)?;
    let first = begin.as_slice();
    let line = owned(alloc, words)?;
    let words = line.as_slice();
    let other = owned(alloc, again)?;
    let again = other.as_slice();
    if !asks_plain_sync(alloc, first) {
        return Err("a sync with options, or no sync".into());
    }
    if !asks_full_scrub(alloc, words) {
        return Err("no scrub of all".into());
    }
    if !asks_full_scrub(alloc, again) {
        return Err("then no scrub of all".into());
    }
    let disks = folders(alloc, array)?;
    let fresh = MemVault::new(alloc, array.levels, array.copies)?;
    let copies = fresh.copies();
    let synced = run_well(rt, alloc, first, array.config, disks, fresh)?;
    let one = picked(&synced.vault, WRITTEN, copies)?;
    let same = picked(&synced.vault, WRITTEN, copies)?;
    let failing = failing_vault(one, call)?;
    let spoiled = spoil(alloc, synced.folders, name)?;
    let broke = run_told(rt, alloc, words, array.config, spoiled, failing)?;
    let Told {
        status,
        folders: left,
        vault,
        printed,
    } = broke;
    if status != 3 {
        return Err("it did not break off".into());
    }
    if vault.faults() != 1 {
        return Err("not just one call failed".into());
    }
    if !have_not_failed(left.as_slice()) {
        return Err("a call of a folder failed".into());
    }
    if !says_else(printed.as_slice(), b"") {
        return Err("nothing was printed".into());
    }
    let last = run_well(rt, alloc, again, array.config, left, same)?;
    if !says_else(printed.as_slice(), last.printed.as_slice()) {
        return Err("then no more was printed".into());
    }
    Ok(last.status)
}

// The vault, of which the call of this number fails.
pub(crate) fn failing_vault(vault: MemVault, call: u64) -> Result<MemVault, Fail>
    requires { IsNew (vault_view vault) }
    ensures same { IfOk result (λ made. vault_value made ≡ vault_value vault) }
    ensures fresh { IfOk result (λ made. IsNew (vault_view made)) }
{
    let mut vault = vault;
    vault.fail_at(call)?;
    Ok(vault)
}

// Other bytes stand in a file of the first disk, and its size and stamp stay.
pub(crate) fn spoil(
    alloc: Global,
    folders: Vec<MemFolder>,
    name: &str,
) -> Result<Vec<MemFolder>, Fail> {
    let path = Path::new(alloc, name)?;
    let mut folders = folders;
    let Some(folder) = folders.get_mut(0) else {
        return Err("no disk".into());
    };
    let Ok(meta) = folder.look(&path, false) else {
        return Err("no such file".into());
    };
    let bytes = vec![in alloc; b'x'; meta.size as usize]?;
    if !folder.rewrite(&path, meta.stamp, bytes) {
        return Err("then no such file".into());
    }
    Ok(folders)
}
