// Two runs over an array whose disk was lost after a sync.
ghost use Rattle.std.specs.Prelude.{IfOk, IsTrue, map, string_bytes};
ghost use Rattle.disk_memory.specs.Folder.{folder_view};
ghost use Rattle.disk_memory.specs.Sink.{sink_view};
ghost use Rattle.disk_memory.specs.Vault.{vault_view};
ghost use Rattle.snap_top_pairs.specs.Lost.{AreRunTwice, HasRows, HoldsRows};

use content_file::load;
use disk_memory::{MemFolder, MemOpener, MemVault};
use disk_model::{Opener, Vault};
use file_table::Table;
use snap_top_instances::told::{new_disk, picked, run_well};
use snap_top_memory::arrays::{Array, folders, owned};
use snap_top_memory::next::WRITTEN;
use std::alloc::Global;
use std::test::Fail;
use std::thread::Threads;

/// How two runs ended.
#[derive(Clone, Copy)]
pub struct Ends {
    pub first: u8,
    pub last: u8,
}

/// Syncs an array of one disk without content. Then the disk is lost, and the words are run over a new one and what the sync
/// left; and the others once more over the same. It answers how both ended, and nothing unless the sync left a table with
/// rows, all three went to their ends, and no call failed in them.
pub fn lose_and_run_twice<R: Threads + Sync>(
    rt: &R,
    alloc: Global,
    array: Array,
    first: &[&str],
    words: &[String],
    others: &[String],
) -> Result<Ends, Fail>
    ensures { IfOk result (λ ends. AreRunTwice (⟦<MemOpener<MemFolder, MemVault> as Opener>⟧.view) folder_view vault_view sink_view
        (map string_bytes words.now) (map string_bytes others.now) ends.first ends.last) }
{
    let line = owned(alloc, first)?;
    let disks = folders(alloc, array)?;
    let fresh = MemVault::new(alloc, array.levels, array.copies)?;
    let copies = fresh.copies();
    let synced = run_well(rt, alloc, line.as_slice(), array.config, disks, fresh)?;
    let seen = picked(&synced.vault, WRITTEN, copies)?;
    let one = picked(&synced.vault, WRITTEN, copies)?;
    let same = picked(&synced.vault, WRITTEN, copies)?;
    if !holds_rows(alloc, seen) {
        return Err("no rows were synced".into());
    }
    let lost = new_disk(alloc)?;
    let lost_again = new_disk(alloc)?;
    let made = run_well(rt, alloc, words, array.config, lost, one)?;
    let last = run_well(rt, alloc, others, array.config, lost_again, same)?;
    Ok(Ends {
        first: made.status,
        last: last.status,
    })
}

// Whether the first copy that is a content file has rows.
fn holds_rows(alloc: Global, vault: MemVault) -> bool
    ensures { IsTrue result → HoldsRows (vault_view vault) }
{
    let mut vault = vault;
    let Ok(loaded) = load(alloc, &mut vault) else {
        return false;
    };
    if vault.faults() > 0 {
        return false;
    }
    match loaded {
        Some(table) => has_rows(&table),
        None => false,
    }
}

// Whether a table has a level, a stripe, and a record of the first disk.
fn has_rows(table: &Table) -> bool
    ensures { IsTrue result → HasRows table.now }
{
    let found = table.shape();
    if found.levels == 0 {
        return false;
    }
    if table.length() == 0 {
        return false;
    }
    if table.disks() == 0 {
        return false;
    }
    if table.records(0) == 0 {
        return false;
    }
    true
}
