// A sync over content with a record surely ends well, if memory does not run out.
ghost use Rattle.std.specs.Prelude.{◌≡◌, ◌<◌, IfOk, IsTrue, length};
ghost use Rattle.disk_memory.specs.Folder.{folder_view};
ghost use Rattle.disk_memory.specs.Sink.{sink_view};
ghost use Rattle.disk_memory.specs.Vault.{vault_view};
ghost use Rattle.file_table.specs.Table.{records_in};
ghost use Rattle.snap_top_instances.specs.Smooth.{HasRecord, IsSmoothSync};

use crate::asked::asks_plain_sync;
use crate::told::{picked, run_told, run_well};
use content_file::laws::one_table_has_a_spelling;
use content_file::load;
use disk_memory::{MemFolder, MemOpener, MemSink, MemVault};
use disk_model::{Opener, Vault};
use file_table::Table;
use snap_top_histories::resumed::ask_for_sync;
use snap_top_memory::arrays::{Array, folders, owned};
use snap_top_memory::next::WRITTEN;
use std::alloc::Global;
use std::test::Fail;
use std::thread::Threads;

/// Makes a sync of an array without content, and one more over all that it left. It answers the last status, and nothing
/// unless the first one left a record, and the last one went to its end and no call failed in it.
pub fn sync_smoothly<R: Threads + Sync>(
    rt: &R,
    alloc: Global,
    array: Array,
    words: &[&str],
) -> Result<u8, Fail>
    ensures { IfOk result (IsSmoothSync (⟦<MemOpener<MemFolder, MemVault> as Opener>⟧.view) folder_view vault_view sink_view) }
{
    one_table_has_a_spelling();
    let line = owned(alloc, words)?;
    let words = line.as_slice();
    if !ask_for_sync(alloc, words, array.config) {
        return Err("not the words of a sync, or another configuration".into());
    }
    if !asks_plain_sync(alloc, words) {
        return Err("a sync with options".into());
    }
    let disks = folders(alloc, array)?;
    let fresh = MemVault::new(alloc, array.levels, array.copies)?;
    let copies = fresh.copies();
    let made = run_told(rt, alloc, words, array.config, disks, fresh)?;
    let seen = picked(&made.vault, WRITTEN, copies)?;
    let left = picked(&made.vault, WRITTEN, copies)?;
    if !has_record(alloc, seen) {
        return Err("no record was left".into());
    }
    let last = run_well(rt, alloc, words, array.config, made.folders, left)?;
    Ok(last.status)
}

/// Whether the first copy that is a content file has a record of the first disk.
pub fn has_record(alloc: Global, vault: MemVault) -> bool
    ensures { IsTrue result → HasRecord (vault_view vault) }
{
    let mut vault = vault;
    let loaded = load(alloc, &mut vault);
    if !is_calm(&vault) {
        return false;
    }
    match loaded {
        Ok(held) => match held {
            Some(table) => has_a_record(&table),
            None => false,
        },
        Err(_) => false,
    }
}

// Whether no call of a vault failed.
fn is_calm(vault: &MemVault) -> bool
    ensures { IsTrue result → (vault_view vault.now).faults ≡ 0 }
{
    vault.faults() == 0
}

// Whether the first disk of a table has a record.
fn has_a_record(table: &Table) -> bool
    ensures { IsTrue result → 0 < length (records_in table.now 0) }
{
    table.disks() > 0 && table.records(0) > 0
}
