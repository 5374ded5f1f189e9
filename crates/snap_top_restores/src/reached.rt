// A file that is taken away and fixed: its block is restored by counting undamaged levels.
ghost use Rattle.std.specs.Prelude.{◌≡◌, IfOk, IsTrue, length, map, string_bytes};
ghost use Rattle.disk_memory.specs.Folder.{folder_view};
ghost use Rattle.disk_memory.specs.Sink.{sink_view};
ghost use Rattle.disk_memory.specs.Vault.{vault_view};
ghost use Rattle.snap_top_histories.specs.Lived.{IsNew};
ghost use Rattle.snap_top_instances.specs.Told.{RunsTold};
ghost use Rattle.snap_top_restores.specs.Reached.{IsReachedCell, TellsOneFixed};

use disk_memory::{MemFolder, MemOpener, MemSink, MemVault};
use disk_model::{Opener, Vault};
use snap_top::laws::{a_fix_of_what_is_left_meets_no_chance, headline, undamaged_levels_restore};
use snap_top_histories::lived::SEED;
use snap_top_histories::resumed::ask_for_fix;
use snap_top_histories::taken::{Once, run_once, take_away};
use snap_top_instances::told::{Told, run_told};
use snap_top_memory::arrays::{Array, owned};
use snap_top_memory::next::WRITTEN;
use std::alloc::Global;
use std::test::Fail;
use std::thread::Threads;

const LAST_LINE: &[u8] = b"fix: 1 blocks and 0 parities fixed, 0 findings left\n";

/// Makes a run over an array of one disk without content; then a file is taken away and fixed. It answers the status, and
/// nothing unless the words ask for a fix that ended with status 0 and fixed one block, and no call of the vault failed.
pub fn reach_a_block<R: Threads + Sync>(
    rt: &R,
    alloc: Global,
    array: Array,
    first: &[&str],
    words: &[&str],
    name: &str,
) -> Result<u8, Fail>
    ensures { IfOk result (IsReachedCell (⟦<MemOpener<MemFolder, MemVault> as Opener>⟧.view) folder_view vault_view sink_view) }
{
    headline::<MemOpener<MemFolder, MemVault>, MemFolder, MemVault, MemSink>();
    a_fix_of_what_is_left_meets_no_chance::<
        MemOpener<MemFolder, MemVault>,
        MemFolder,
        MemVault,
        MemSink,
    >();
    undamaged_levels_restore::<MemOpener<MemFolder, MemVault>, MemFolder, MemVault, MemSink>();
    let line = owned(alloc, words)?;
    let words = line.as_slice();
    if !ask_for_fix(alloc, words) {
        return Err("no fix".into());
    }
    let synced = run_once(rt, alloc, array, first, WRITTEN)?;
    let taken = take_away(alloc, synced, 0, name)?;
    let Once {
        config,
        folders,
        vault,
        ..
    } = taken;
    if !is_one_disk(folders.as_slice()) {
        return Err("not one disk".into());
    }
    let made = fix_one_block(rt, alloc, words, config, folders, vault)?;
    Ok(made.status)
}

// Fixes an array of which the vault was just opened. It answers nothing unless the run ended with status 0 and fixed one block,
// and no call of the vault failed.
fn fix_one_block<R: Threads + Sync>(
    rt: &R,
    alloc: Global,
    words: &[String],
    config: &str,
    folders: Vec<MemFolder>,
    vault: MemVault,
) -> Result<Told, Fail>
    requires { IsNew (vault_view vault) }
    ensures ran { IfOk result (λ made. RunsTold (⟦<MemOpener<MemFolder, MemVault> as Opener>⟧.view) folder_view vault_view sink_view
        config.now (map string_bytes words.now) SEED (map folder_view folders.items) (vault_view vault)
        made.status made.folders.items made.vault made.printed.items) }
    ensures faults { IfOk result (λ made. (vault_view made.vault).faults ≡ 0) }
    ensures ended { IfOk result (λ made. made.status ≡ 0) }
    ensures printed { IfOk result (λ made. TellsOneFixed made.printed.items) }
{
    let made = run_told(rt, alloc, words, config, folders, vault)?;
    if made.status > 0 {
        return Err("not all was fixed".into());
    }
    if made.vault.faults() > 0 {
        return Err("a call of the vault failed".into());
    }
    if !tells_one_fixed(made.printed.as_slice()) {
        return Err("not one block was fixed".into());
    }
    Ok(made)
}

// Whether there is one disk.
fn is_one_disk(folders: &[MemFolder]) -> bool
    ensures { IsTrue result → length (map folder_view folders.now) ≡ 1 }
{
    match folders {
        [_] => true,
        _ => false,
    }
}

// Whether the last line tells of one block that was fixed, and of nothing that is left.
fn tells_one_fixed(printed: &[u8]) -> bool
    ensures { IsTrue result → TellsOneFixed printed.now }
{
    printed.ends_with(LAST_LINE)
}
