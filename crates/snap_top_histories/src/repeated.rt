// Two checks of one array, and a fix after one that was stopped: instances of what laws of `snap_top` suppose of two runs.
ghost use Rattle.std.specs.Prelude.{◌≡◌, ◌≤◌, IfOk, IsTrue, map, string_bytes, true};
ghost use Rattle.disk_memory.specs.Folder.{folder_view};
ghost use Rattle.disk_memory.specs.Sink.{sink_view};
ghost use Rattle.disk_memory.specs.Vault.{vault_view};
ghost use Rattle.snap_top_histories.specs.Lived.{HasHistory, IsNew, RunsOver};
ghost use Rattle.snap_top_histories.specs.Once.{IsLeftOfOne};
ghost use Rattle.snap_top_histories.specs.Repeated.{AskForCheck, IsCheckedTwice, IsFixedAgain, are_calm};

use crate::lived::{Lived, Made, SEED, Told, left_of, run_anew};
use crate::resumed::ask_for_fix;
use crate::taken::{Once, run_once, take_away};
use content_file::laws::one_table_has_a_spelling;
use disk_memory::{MemFolder, MemOpener, MemSink, MemVault};
use disk_model::{Folder, Opener, Vault};
use snap_config::{Command, read_words_among};
use snap_top::COMMANDS;
use snap_top::laws::{a_fix_of_what_is_left_meets_no_chance, headline, one_array_is_found_alike};
use snap_top_memory::arrays::{Array, owned};
use snap_top_memory::next::WRITTEN;
use std::alloc::Global;
use std::test::Fail;
use std::thread::Threads;

/// Checks twice what stands after a history, by the same words. It answers the status of both, and nothing unless they ask for
/// a check that went to its end, and no call of a folder or of the vault failed.
pub fn check_twice<R: Threads + Sync>(
    rt: &R,
    alloc: Global,
    lived: Lived,
    words: &[&str],
) -> Result<u8, Fail>
    requires fresh { IsNew (vault_view lived.vault) }
    requires lived { HasHistory (⟦<MemOpener<MemFolder, MemVault> as Opener>⟧.view) folder_view vault_view sink_view
        lived.config.now (map folder_view lived.folders.items) (vault_view lived.vault) lived.statuses.items }
    ensures { IfOk result (IsCheckedTwice (⟦<MemOpener<MemFolder, MemVault> as Opener>⟧.view) folder_view vault_view sink_view) }
{
    headline::<MemOpener<MemFolder, MemVault>, MemFolder, MemVault, MemSink>();
    one_array_is_found_alike::<MemOpener<MemFolder, MemVault>, MemFolder, MemVault, MemSink>();
    let line = owned(alloc, words)?;
    let words = line.as_slice();
    if !ask_for_check(alloc, words) {
        return Err("no check".into());
    }
    let Lived {
        config,
        folders,
        vault,
        ..
    } = lived;
    let copies = vault.copies();
    let made = run_calm(rt, alloc, words, config, folders, vault)?;
    let kept = left_of(&made.vault, WRITTEN, copies)?;
    let last = run_calm(rt, alloc, words, config, made.folders, kept)?;
    Ok(last.status)
}

/// Runs words over what is left, and once more over the folders that this left, and over what these bytes pick of what a stop
/// at any moment of it may leave of the vault. It answers the last status, and nothing unless they ask for a fix that went
/// to its end, and no call of a folder or of the vault failed.
pub fn fix_and_fix_again<R: Threads + Sync>(
    rt: &R,
    alloc: Global,
    once: Once,
    words: &[&str],
    choice: &[u8],
) -> Result<u8, Fail>
    requires fresh { IsNew (vault_view once.vault) }
    requires once { IsLeftOfOne (⟦<MemOpener<MemFolder, MemVault> as Opener>⟧.view) folder_view vault_view sink_view
        once.config.now (map folder_view once.folders.items) (vault_view once.vault) once.status }
    ensures { IfOk result (IsFixedAgain (⟦<MemOpener<MemFolder, MemVault> as Opener>⟧.view) folder_view vault_view sink_view) }
{
    headline::<MemOpener<MemFolder, MemVault>, MemFolder, MemVault, MemSink>();
    a_fix_of_what_is_left_meets_no_chance::<
        MemOpener<MemFolder, MemVault>,
        MemFolder,
        MemVault,
        MemSink,
    >();
    one_table_has_a_spelling();
    let line = owned(alloc, words)?;
    let words = line.as_slice();
    if !ask_for_fix(alloc, words) {
        return Err("no fix".into());
    }
    let Once {
        config,
        folders,
        vault,
        ..
    } = once;
    let copies = vault.copies();
    let made = run_calm(rt, alloc, words, config, folders, vault)?;
    let left = left_of(&made.vault, choice, copies)?;
    let last = run_calm(rt, alloc, words, config, made.folders, left)?;
    Ok(last.status)
}

/// A run over an array without parity and content; then a file of the first disk is taken away; and two fixes, the second over
/// the folders as the first one left them, and over what a stop within the first may leave of the vault.
pub fn lose_and_fix_twice<R: Threads + Sync>(
    rt: &R,
    alloc: Global,
    array: Array,
    name: &str,
    runs: &[Told; 2],
) -> Result<u8, Fail>
    ensures { IfOk result (IsFixedAgain (⟦<MemOpener<MemFolder, MemVault> as Opener>⟧.view) folder_view vault_view sink_view) }
{
    let [first, second] = runs;
    let once = run_once(rt, alloc, array, first.0, first.1)?;
    let once = take_away(alloc, once, 0, name)?;
    fix_and_fix_again(rt, alloc, once, second.0, second.1)
}

// A run that went to its end, and of which no call of a folder or of the vault failed.
fn run_calm<R: Threads + Sync>(
    rt: &R,
    alloc: Global,
    words: &[String],
    config: &str,
    folders: Vec<MemFolder>,
    vault: MemVault,
) -> Result<Made, Fail>
    requires { IsNew (vault_view vault) }
    ensures ran { IfOk result (λ made. RunsOver (⟦<MemOpener<MemFolder, MemVault> as Opener>⟧.view) folder_view vault_view sink_view
        config.now (map string_bytes words.now) SEED (map folder_view folders.items) (vault_view vault)
        made.status made.folders.items made.vault) }
    ensures faults { IfOk result (λ made. (vault_view made.vault).faults ≡ 0) }
    ensures calm { IfOk result (λ made. are_calm folder_view made.folders.items ≡ true) }
    ensures ended { IfOk result (λ made. made.status ≤ 1) }
{
    let made = run_anew(rt, alloc, words, config, folders, vault)?;
    if made.status > 1 {
        return Err("it did not go to its end".into());
    }
    if made.vault.faults() > 0 {
        return Err("a call of the vault failed".into());
    }
    if !have_not_failed(made.folders.as_slice()) {
        return Err("a call of a folder failed".into());
    }
    Ok(made)
}

/// Whether no call of these folders failed.
pub fn have_not_failed(folders: &[MemFolder]) -> bool
    ensures { result ≡ are_calm folder_view folders.now }
{
    folders.iter().all(|folder| folder.faults() == 0)
}

// Whether the words ask for a check.
fn ask_for_check(alloc: Global, words: &[String]) -> bool
    ensures { IsTrue result → AskForCheck (map string_bytes words.now) }
{
    match read_words_among(alloc, &COMMANDS, words) {
        Ok(asked) => matches!(asked.command, Command::Check(_)),
        Err(_) => false,
    }
}
