// Two checks of a lost disk, and a check and then a fix of it, find the same.
ghost use Rattle.std.specs.Prelude.{IfOk};
ghost use Rattle.disk_memory.specs.Folder.{folder_view};
ghost use Rattle.disk_memory.specs.Sink.{sink_view};
ghost use Rattle.disk_memory.specs.Vault.{vault_view};
ghost use Rattle.snap_top_pairs.specs.Found.{AreFoundAndFixed, AreFoundTwice};

use crate::lost::lose_and_run_twice;
use content_file::laws::one_table_has_a_spelling;
use disk_memory::{MemFolder, MemOpener, MemSink, MemVault};
use disk_model::Opener;
use snap_top::laws::{one_array_is_found_alike, what_is_read_alike_is_found_alike};
use snap_top_instances::asked::{asks_check_of_all, asks_fix_of_all};
use snap_top_memory::arrays::{Array, owned};
use std::alloc::Global;
use std::test::Fail;
use std::thread::Threads;
use stripe_examiner::laws::what_is_read_determines_what_is_found;

/// Checks a new disk in the place of one that was lost after a sync, and then fixes it from what the sync left. It answers
/// the status of the fix, and nothing unless the check found something, both went to their ends, and no call failed in them.
pub fn check_and_fix<R: Threads + Sync>(
    rt: &R,
    alloc: Global,
    array: Array,
    first: &[&str],
    words: &[&str],
    again: &[&str],
) -> Result<u8, Fail>
    ensures { IfOk result (AreFoundAndFixed (⟦<MemOpener<MemFolder, MemVault> as Opener>⟧.view) folder_view vault_view sink_view) }
{
    one_array_is_found_alike::<MemOpener<MemFolder, MemVault>, MemFolder, MemVault, MemSink>();
    one_table_has_a_spelling();
    let line = owned(alloc, words)?;
    let words = line.as_slice();
    let other = owned(alloc, again)?;
    let again = other.as_slice();
    if !asks_check_of_all(alloc, words) {
        return Err("no check of everything".into());
    }
    if !asks_fix_of_all(alloc, again) {
        return Err("no fix of everything".into());
    }
    let ends = lose_and_run_twice(rt, alloc, array, first, words, again)?;
    if ends.first != 1 {
        return Err("nothing was found".into());
    }
    Ok(ends.last)
}

/// Checks such a disk twice. It answers the last status, and nothing unless the first check found something, both went to
/// their ends, and no call failed in them.
pub fn check_lost_twice<R: Threads + Sync>(
    rt: &R,
    alloc: Global,
    array: Array,
    first: &[&str],
    words: &[&str],
    again: &[&str],
) -> Result<u8, Fail>
    ensures { IfOk result (AreFoundTwice (⟦<MemOpener<MemFolder, MemVault> as Opener>⟧.view) folder_view vault_view sink_view) }
{
    one_array_is_found_alike::<MemOpener<MemFolder, MemVault>, MemFolder, MemVault, MemSink>();
    what_is_read_alike_is_found_alike::<
        MemOpener<MemFolder, MemVault>,
        MemFolder,
        MemVault,
        MemSink,
    >();
    one_table_has_a_spelling();
    what_is_read_determines_what_is_found();
    let line = owned(alloc, words)?;
    let words = line.as_slice();
    let other = owned(alloc, again)?;
    let again = other.as_slice();
    if !asks_check_of_all(alloc, words) {
        return Err("no check of everything".into());
    }
    if !asks_check_of_all(alloc, again) {
        return Err("then no check of everything".into());
    }
    let ends = lose_and_run_twice(rt, alloc, array, first, words, again)?;
    if ends.first != 1 {
        return Err("nothing was found".into());
    }
    Ok(ends.last)
}
