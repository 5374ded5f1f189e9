// A sync that is stopped and made again, and a fix of what stands: instances of what the laws of `snap_top` suppose.
ghost use Rattle.std.specs.Prelude.{◌≡◌, IfOk, IsTrue, map, string_bytes};
ghost use Rattle.disk_memory.specs.Folder.{folder_view};
ghost use Rattle.disk_memory.specs.Sink.{sink_view};
ghost use Rattle.disk_memory.specs.Vault.{vault_view};
ghost use Rattle.snap_top_histories.specs.Lived.{AskForFix, AskForNoChange, AskForSync, HasHistory, IsFixedAtLast, IsNew, IsResumedOnce, IsSyncedAtLast, RunsOver, SaysSetup};

use crate::lived::{Lived, Made, SEED, left_of, run_anew};
use disk_memory::{MemFolder, MemOpener, MemSink, MemVault};
use disk_model::{Opener, Text, Vault};
use snap_config::{Command, read_config, read_words_among};
use snap_top::COMMANDS;
use snap_top::laws::headline;
use snap_top_memory::arrays::{Array, folders, owned};
use snap_top_memory::next::WRITTEN;
use std::alloc::Global;
use std::test::Fail;
use std::thread::Threads;

/// Makes a sync of an array without content, then one of the same array that is stopped where these bytes pick, a run over
/// what that left by words that change nothing, and one more sync. It answers the last status, and nothing unless the first
/// and the last ended with status 0 and no call of a vault failed in the syncs.
pub fn stop_and_sync_again<R: Threads + Sync>(
    rt: &R,
    alloc: Global,
    array: Array,
    words: &[&str],
    between: &[&str],
    choice: &[u8],
) -> Result<u8, Fail>
    ensures { IfOk result (λ _. IsResumedOnce (⟦<MemOpener<MemFolder, MemVault> as Opener>⟧.view) folder_view vault_view sink_view) }
{
    headline::<MemOpener<MemFolder, MemVault>, MemFolder, MemVault, MemSink>();
    let line = owned(alloc, words)?;
    let words = line.as_slice();
    if !ask_for_sync(alloc, words, array.config) {
        return Err("not the words of a sync, or another configuration".into());
    }
    let other = owned(alloc, between)?;
    let between = other.as_slice();
    if !ask_for_no_change(alloc, between) {
        return Err("a command that changes something".into());
    }
    let disks = folders(alloc, array)?;
    let fresh = MemVault::new(alloc, array.levels, array.copies)?;
    let whole = sync_clean(rt, alloc, words, array.config, disks, fresh)?;
    let fresh_too = MemVault::new(alloc, array.levels, array.copies)?;
    let copies = fresh_too.copies();
    let stopped = sync_anew(rt, alloc, words, array.config, whole.folders, fresh_too)?;
    let left = left_of(&stopped.vault, choice, copies)?;
    let looked = run_anew(rt, alloc, between, array.config, stopped.folders, left)?;
    let kept = left_of(&looked.vault, WRITTEN, copies)?;
    let last = sync_clean(rt, alloc, words, array.config, looked.folders, kept)?;
    Ok(last.status)
}

/// A run that ended with status 0, and of which no call of the vault failed.
pub fn sync_clean<R: Threads + Sync>(
    rt: &R,
    alloc: Global,
    words: &[String],
    config: &str,
    folders: Vec<MemFolder>,
    vault: MemVault,
) -> Result<Made, Fail>
    requires { IsNew (vault_view vault) }
    ensures ran { IfOk result (λ made. RunsOver (⟦<MemOpener<MemFolder, MemVault> as Opener>⟧.view) folder_view vault_view sink_view
        config.now (map string_bytes words.now) SEED (map folder_view folders.items) (vault_view vault)
        made.status made.folders.items made.vault) }
    ensures faults { IfOk result (λ made. (vault_view made.vault).faults ≡ 0) }
    ensures clean { IfOk result (λ made. made.status ≡ 0) }
{
    let made = sync_anew(rt, alloc, words, config, folders, vault)?;
    if made.status != 0 {
        return Err("a sync did not end with 0".into());
    }
    Ok(made)
}

/// A run of which no call of the vault failed.
pub fn sync_anew<R: Threads + Sync>(
    rt: &R,
    alloc: Global,
    words: &[String],
    config: &str,
    folders: Vec<MemFolder>,
    vault: MemVault,
) -> Result<Made, Fail>
    requires { IsNew (vault_view vault) }
    ensures ran { IfOk result (λ made. RunsOver (⟦<MemOpener<MemFolder, MemVault> as Opener>⟧.view) folder_view vault_view sink_view
        config.now (map string_bytes words.now) SEED (map folder_view folders.items) (vault_view vault)
        made.status made.folders.items made.vault) }
    ensures faults { IfOk result (λ made. (vault_view made.vault).faults ≡ 0) }
{
    let made = run_anew(rt, alloc, words, config, folders, vault)?;
    if made.vault.faults() > 0 {
        return Err("a call of the vault failed".into());
    }
    Ok(made)
}

// Whether the words ask for a command that changes nothing.
fn ask_for_no_change(alloc: Global, words: &[String]) -> bool
    ensures { IsTrue result → AskForNoChange (map string_bytes words.now) }
{
    match read_words_among(alloc, &COMMANDS, words) {
        Ok(asked) => matches!(
            asked.command,
            Command::List | Command::Status | Command::Dup | Command::Check(_) | Command::Audit(_)
        ),
        Err(_) => false,
    }
}

const LONGEST: usize = 1_048_577;

/// Whether the words ask for a sync, and the configuration is read.
pub fn ask_for_sync(alloc: Global, words: &[String], config: &str) -> bool
    ensures { IsTrue result → AskForSync (map string_bytes words.now) config.now }
{
    match read_words_among(alloc, &COMMANDS, words) {
        Ok(asked) => match asked.command {
            Command::Sync(_) => says_setup(alloc, config, asked.log),
            _ => false,
        },
        Err(_) => false,
    }
}

// Whether a configuration is read, with this name for a log.
fn says_setup(alloc: Global, config: &str, log: Option<Text>) -> bool
    ensures { IsTrue result → SaysSetup config.now log }
{
    if config.len() > LONGEST {
        return false;
    }
    match read_config(alloc, config.as_bytes(), log) {
        Ok(_setup) => true,
        Err(_) => false,
    }
}

/// Runs words over what stands after a history. It answers nothing unless they ask for a sync that ended with status 0 or 1.
pub fn sync_at_last<R: Threads + Sync>(
    rt: &R,
    alloc: Global,
    lived: Lived,
    words: &[&str],
) -> Result<u8, Fail>
    requires fresh { IsNew (vault_view lived.vault) }
    requires lived { HasHistory (⟦<MemOpener<MemFolder, MemVault> as Opener>⟧.view) folder_view vault_view sink_view
        lived.config.now (map folder_view lived.folders.items) (vault_view lived.vault) lived.statuses.items }
    ensures { IfOk result (IsSyncedAtLast (⟦<MemOpener<MemFolder, MemVault> as Opener>⟧.view) folder_view vault_view sink_view) }
{
    headline::<MemOpener<MemFolder, MemVault>, MemFolder, MemVault, MemSink>();
    let line = owned(alloc, words)?;
    let words = line.as_slice();
    let Lived {
        config,
        folders,
        vault,
        ..
    } = lived;
    if !ask_for_sync(alloc, words, config) {
        return Err("not the words of a sync, or another configuration".into());
    }
    let made = run_anew(rt, alloc, words, config, folders, vault)?;
    if made.status > 1 {
        return Err("a sync that did not go to its end".into());
    }
    Ok(made.status)
}

/// Runs words over what stands after a history. It answers nothing unless they ask for a fix that ended with status 0 or 1.
pub fn fix_at_last<R: Threads + Sync>(
    rt: &R,
    alloc: Global,
    lived: Lived,
    words: &[&str],
) -> Result<u8, Fail>
    requires fresh { IsNew (vault_view lived.vault) }
    requires lived { HasHistory (⟦<MemOpener<MemFolder, MemVault> as Opener>⟧.view) folder_view vault_view sink_view
        lived.config.now (map folder_view lived.folders.items) (vault_view lived.vault) lived.statuses.items }
    ensures { IfOk result (IsFixedAtLast (⟦<MemOpener<MemFolder, MemVault> as Opener>⟧.view) folder_view vault_view sink_view) }
{
    headline::<MemOpener<MemFolder, MemVault>, MemFolder, MemVault, MemSink>();
    let line = owned(alloc, words)?;
    let words = line.as_slice();
    if !ask_for_fix(alloc, words) {
        return Err("no fix".into());
    }
    let Lived {
        config,
        folders,
        vault,
        ..
    } = lived;
    let made = run_anew(rt, alloc, words, config, folders, vault)?;
    if made.status > 1 {
        return Err("a fix that did not go to its end".into());
    }
    Ok(made.status)
}

/// Whether the words ask for a fix.
pub fn ask_for_fix(alloc: Global, words: &[String]) -> bool
    ensures { IsTrue result → AskForFix (map string_bytes words.now) }
{
    match read_words_among(alloc, &COMMANDS, words) {
        Ok(asked) => matches!(asked.command, Command::Fix(_)),
        Err(_) => false,
    }
}
