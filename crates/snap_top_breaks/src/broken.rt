// A fix that breaks off prints a front of what one prints that does not.
ghost use Rattle.std.specs.Prelude.{◌≡◌, ◌∷◌, [], IfOk, IsTrue, length, map, true};
ghost use Rattle.disk_memory.specs.Folder.{folder_view, fresh_folder};
ghost use Rattle.disk_memory.specs.Sink.{sink_view};
ghost use Rattle.disk_memory.specs.Vault.{vault_view};
ghost use Rattle.snap_top_breaks.specs.Broken.{FailedOnce, IsFrontPrinted};

use disk_memory::{MemFolder, MemOpener, MemSink, MemVault};
use disk_model::{Folder, Opener, Vault};
use snap_top::fronts::{a_broken_run_prints_a_front, a_broken_run_reads_the_same_first};
use snap_top_instances::asked::asks_fix_of_all;
use snap_top_instances::told::{Told, new_disk, picked, run_told, run_well, says_else};
use snap_top_memory::arrays::{Array, folders, owned};
use snap_top_memory::next::WRITTEN;
use std::alloc::Global;
use std::test::Fail;
use std::thread::Threads;

/// Syncs an array without content. Then the only disk is lost, and a new one fixed, of which the call of this number fails; and
/// the same once more from what the sync left, where no call fails. It answers the last status, and nothing unless the first fix
/// ended with status 3, just that call failed, and something was printed, and the last one went to its end, nothing failed, and
/// something else was printed.
pub fn break_a_fix<R: Threads + Sync>(
    rt: &R,
    alloc: Global,
    array: Array,
    first: &[&str],
    words: &[&str],
    again: &[&str],
    call: u64,
) -> Result<u8, Fail>
    ensures { IfOk result (λ _. IsFrontPrinted (⟦<MemOpener<MemFolder, MemVault> as Opener>⟧.view) folder_view vault_view sink_view) }
{
    a_broken_run_prints_a_front::<MemOpener<MemFolder, MemVault>, MemFolder, MemVault, MemSink>();
    a_broken_run_reads_the_same_first::<
        MemOpener<MemFolder, MemVault>,
        MemFolder,
        MemVault,
        MemSink,
    >();
    let begin = owned(alloc, first)?;
    let first = begin.as_slice();
    let line = owned(alloc, words)?;
    let words = line.as_slice();
    let other = owned(alloc, again)?;
    let again = other.as_slice();
    if !asks_fix_of_all(alloc, words) {
        return Err("no fix of everything".into());
    }
    if !asks_fix_of_all(alloc, again) {
        return Err("then no fix of everything".into());
    }
    let disks = folders(alloc, array)?;
    let fresh = MemVault::new(alloc, array.levels, array.copies)?;
    let copies = fresh.copies();
    let synced = run_well(rt, alloc, first, array.config, disks, fresh)?;
    let one = picked(&synced.vault, WRITTEN, copies)?;
    let same = picked(&synced.vault, WRITTEN, copies)?;
    let lost = failing_disk(alloc, call)?;
    let lost_again = new_disk(alloc)?;
    let broke = run_told(rt, alloc, words, array.config, lost, one)?;
    let Told {
        status,
        folders: broken,
        vault,
        printed,
    } = broke;
    if status != 3 {
        return Err("it did not break off".into());
    }
    if vault.faults() > 0 {
        return Err("a call of the vault failed".into());
    }
    if !says_else(printed.as_slice(), b"") {
        return Err("nothing was printed".into());
    }
    if !failed_once(broken.as_slice()) {
        return Err("not just one call failed".into());
    }
    let last = run_well(rt, alloc, again, array.config, lost_again, same)?;
    if !says_else(printed.as_slice(), last.printed.as_slice()) {
        return Err("then no more was printed".into());
    }
    Ok(last.status)
}

// A new disk in the place of the only one, of which the call of this number fails.
fn failing_disk(alloc: Global, call: u64) -> Result<Vec<MemFolder>, Fail>
    ensures { IfOk result (λ folders. map folder_view folders.items ≡ fresh_folder true ∷ []) }
{
    let mut folder = MemFolder::new(alloc, true);
    folder.fail_at(call)?;
    let mut folders = Vec::new(alloc);
    folders.push(folder)?;
    Ok(folders)
}

// Whether there is one folder, and one call of it failed.
fn failed_once(folders: &[MemFolder]) -> bool
    ensures { IsTrue result → FailedOnce (map folder_view folders.now) }
{
    match folders {
        [folder] => folder.faults() == 1,
        _ => false,
    }
}
