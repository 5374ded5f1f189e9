// A check of an array whose disks were lost: it names a block that can't be restored.
ghost use Rattle.std.specs.Prelude.{◌≡◌, ◌∷◌, [], IfOk, IsTrue, map, string_bytes, true};
ghost use Rattle.disk_memory.specs.Folder.{folder_view, fresh_folder};
ghost use Rattle.disk_memory.specs.Sink.{sink_view};
ghost use Rattle.disk_memory.specs.Vault.{vault_view};
ghost use Rattle.file_table.specs.Table.{is_synced_mark};
ghost use Rattle.snap_top_restores.specs.Named.{AllSynced, AreRunOverLost, HoldsSynced, IsNamedLost};

use content_file::laws::one_table_has_a_spelling;
use content_file::load;
use disk_memory::{MemFolder, MemOpener, MemSink, MemVault};
use disk_model::{Opener, Vault};
use file_table::{Mark, Table};
use snap_fix::laws::a_check_finds_what_a_fix_finds;
use snap_top::laws::{a_fix_of_what_is_left_meets_no_chance, headline, undamaged_levels_restore};
use snap_top_instances::asked::{asks_check_of_all, asks_fix_of_all, asks_plain_sync};
use snap_top_instances::told::{picked, run_well};
use snap_top_memory::arrays::{Array, folders, owned};
use snap_top_memory::next::WRITTEN;
use std::alloc::Global;
use std::test::Fail;
use std::thread::Threads;
use stripe_examiner::laws::what_is_read_determines_what_is_found;

/// How a check ended, and a fix of the same array.
#[derive(Clone, Copy)]
pub struct Ends {
    pub check: u8,
    pub fix: u8,
}

/// Syncs an array of two disks without content. Then both are lost, and new ones are checked, and fixed from what the sync
/// left. It answers the status of the check, and nothing unless the fix left something, all three went to their ends, and no
/// call failed in them.
pub fn check_what_is_lost<R: Threads + Sync>(
    rt: &R,
    alloc: Global,
    array: Array,
    first: &[&str],
    words: &[&str],
    again: &[&str],
) -> Result<u8, Fail>
    ensures { IfOk result (IsNamedLost (⟦<MemOpener<MemFolder, MemVault> as Opener>⟧.view) folder_view vault_view sink_view) }
{
    headline::<MemOpener<MemFolder, MemVault>, MemFolder, MemVault, MemSink>();
    a_fix_of_what_is_left_meets_no_chance::<
        MemOpener<MemFolder, MemVault>,
        MemFolder,
        MemVault,
        MemSink,
    >();
    undamaged_levels_restore::<MemOpener<MemFolder, MemVault>, MemFolder, MemVault, MemSink>();
    one_table_has_a_spelling();
    what_is_read_determines_what_is_found();
    a_check_finds_what_a_fix_finds();
    let line = owned(alloc, words)?;
    let words = line.as_slice();
    let other = owned(alloc, again)?;
    let again = other.as_slice();
    if !asks_check_of_all(alloc, words) {
        return Err("no check of everything".into());
    }
    if !asks_fix_of_all(alloc, again) {
        return Err("no fix of everything".into());
    }
    let ends = lose_and_run(rt, alloc, array, first, words, again)?;
    if ends.fix != 1 {
        return Err("nothing was left".into());
    }
    Ok(ends.check)
}

// Syncs an array. Then its disks are lost, and the words are run over two new ones and what the sync left; and the others
// once more over the same. It answers nothing unless each stripe was synced, all three went to their ends, and no call failed
// in them.
fn lose_and_run<R: Threads + Sync>(
    rt: &R,
    alloc: Global,
    array: Array,
    first: &[&str],
    words: &[String],
    others: &[String],
) -> Result<Ends, Fail>
    ensures { IfOk result (λ ends. AreRunOverLost (⟦<MemOpener<MemFolder, MemVault> as Opener>⟧.view) folder_view vault_view sink_view
        (map string_bytes words.now) (map string_bytes others.now) ends.check ends.fix) }
{
    headline::<MemOpener<MemFolder, MemVault>, MemFolder, MemVault, MemSink>();
    let line = owned(alloc, first)?;
    let first = line.as_slice();
    if !asks_plain_sync(alloc, first) {
        return Err("no plain sync".into());
    }
    let disks = folders(alloc, array)?;
    let fresh = MemVault::new(alloc, array.levels, array.copies)?;
    let copies = fresh.copies();
    let synced = run_well(rt, alloc, first, array.config, disks, fresh)?;
    let seen = picked(&synced.vault, WRITTEN, copies)?;
    let one = picked(&synced.vault, WRITTEN, copies)?;
    let same = picked(&synced.vault, WRITTEN, copies)?;
    if !holds_synced(alloc, seen) {
        return Err("not one synced stripe".into());
    }
    let lost = two_new_disks(alloc)?;
    let lost_again = two_new_disks(alloc)?;
    let made = run_well(rt, alloc, words, array.config, lost, one)?;
    let last = run_well(rt, alloc, others, array.config, lost_again, same)?;
    Ok(Ends {
        check: made.status,
        fix: last.status,
    })
}

// Two new disks.
fn two_new_disks(alloc: Global) -> Result<Vec<MemFolder>, Fail>
    ensures { IfOk result (λ folders. map folder_view folders.items ≡ fresh_folder true ∷ fresh_folder true ∷ []) }
{
    let mut folders = Vec::new(alloc);
    folders.push(MemFolder::new(alloc, true))?;
    folders.push(MemFolder::new(alloc, true))?;
    Ok(folders)
}

// Whether the first copy that is a content file has one stripe, and that is synced.
fn holds_synced(alloc: Global, vault: MemVault) -> bool
    ensures { IsTrue result → HoldsSynced (vault_view vault) }
{
    let mut vault = vault;
    let Ok(loaded) = load(alloc, &mut vault) else {
        return false;
    };
    if vault.faults() > 0 {
        return false;
    }
    match loaded {
        Some(table) => is_synced(&table),
        None => false,
    }
}

// Whether a table has one stripe, and that is synced.
fn is_synced(table: &Table) -> bool
    ensures { IsTrue result → AllSynced table.now }
{
    if table.length() != 1 {
        return false;
    }
    is_mark_synced(table.info(0).mark)
}

// Whether a mark is that of a synced stripe.
fn is_mark_synced(mark: Mark) -> bool
    ensures { result ≡ is_synced_mark mark }
{
    match mark {
        Mark::Synced => true,
        Mark::Pending => false,
    }
}
