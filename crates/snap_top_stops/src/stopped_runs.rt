// A sync that is stopped and resumed, by what is said of runs and of syncs without what stands between them.
ghost use Rattle.std.specs.Prelude.{◌≢◌, ◌<◌, IfOk, IsTrue, None, map, string_bytes};
ghost use Rattle.disk_memory.specs.Folder.{folder_view};
ghost use Rattle.disk_memory.specs.Sink.{sink_view};
ghost use Rattle.disk_memory.specs.Vault.{vault_view};
ghost use Rattle.disk_model.specs.Files.{content_of};
ghost use Rattle.snap_config.specs.declared.options.Command.TheVariants as commands;
ghost use Rattle.snap_top_instances.specs.Asked.{AsksFor};
ghost use Rattle.snap_top_stops.specs.StoppedRuns.{IsResumedAll};

use disk_memory::{MemFolder, MemOpener, MemSink, MemVault};
use disk_model::{Opener, Vault};
use snap_config::{Command, read_words_among};
use snap_top::COMMANDS;
use snap_top::laws::{
    headline, stopped_runs_are_resumed, stopped_syncs_are_resumed, what_a_run_loaded_is_known,
};
use snap_top_histories::lived::{Made, left_of, run_anew};
use snap_top_histories::resumed::{ask_for_sync, sync_clean};
use snap_top_instances::asked::has_whole_levels;
use snap_top_instances::resumed::has_parity;
use snap_top_instances::told::picked;
use snap_top_memory::arrays::{Array, folders, owned};
use snap_top_memory::next::WRITTEN;
use std::alloc::Global;
use std::test::Fail;
use std::thread::Threads;

/// Makes a sync of an array without content; then one of the same array that is stopped where these bytes pick; a run over
/// what that left, by words that ask for the status; and one more sync. It answers the last status, and nothing unless all
/// syncs ended with status 0 and no call of the vault failed in them, the first one wrote parity, and the last one began
/// with a content copy.
pub fn resume_stopped_runs<R: Threads + Sync>(
    rt: &R,
    alloc: Global,
    array: Array,
    words: &[&str],
    between: &[&str],
    choice: &[u8],
) -> Result<u8, Fail>
    ensures { IfOk result (λ _. IsResumedAll (⟦<MemOpener<MemFolder, MemVault> as Opener>⟧.view) folder_view vault_view sink_view) }
{
    headline::<MemOpener<MemFolder, MemVault>, MemFolder, MemVault, MemSink>();
    stopped_runs_are_resumed::<MemOpener<MemFolder, MemVault>, MemFolder, MemVault, MemSink>();
    stopped_syncs_are_resumed();
    what_a_run_loaded_is_known::<MemOpener<MemFolder, MemVault>, MemFolder, MemVault, MemSink>();
    let line = owned(alloc, words)?;
    let words = line.as_slice();
    if !has_whole_levels(alloc, array.config) {
        return Err("a level of several files".into());
    }
    if !ask_for_sync(alloc, words, array.config) {
        return Err("not the words of a sync, or another configuration".into());
    }
    let other = owned(alloc, between)?;
    let between = other.as_slice();
    if !asks_status(alloc, between) {
        return Err("not the words that ask for the status".into());
    }
    let disks = folders(alloc, array)?;
    let fresh = MemVault::new(alloc, array.levels, array.copies)?;
    let whole = sync_clean(rt, alloc, words, array.config, disks, fresh)?;
    let Made {
        folders: disks,
        vault: synced,
        ..
    } = whole;
    if !has_parity(synced) {
        return Err("no parity was written".into());
    }
    let fresh_too = MemVault::new(alloc, array.levels, array.copies)?;
    let copies = fresh_too.copies();
    let stopped = sync_clean(rt, alloc, words, array.config, disks, fresh_too)?;
    let left = left_of(&stopped.vault, choice, copies)?;
    let looked = run_anew(rt, alloc, between, array.config, stopped.folders, left)?;
    let seen = picked(&looked.vault, WRITTEN, copies)?;
    let kept = picked(&looked.vault, WRITTEN, copies)?;
    if !has_content(seen) {
        return Err("no content copy was left".into());
    }
    let last = sync_clean(rt, alloc, words, array.config, looked.folders, kept)?;
    Ok(last.status)
}

/// Whether the words ask for the status, and name no log.
pub fn asks_status(alloc: Global, words: &[String]) -> bool
    ensures { IsTrue result → AsksFor commands.Status (map string_bytes words.now) }
{
    let Ok(asked) = read_words_among(alloc, &COMMANDS, words) else {
        return false;
    };
    if asked.log.is_some() {
        return false;
    }
    match asked.command {
        Command::Status => true,
        _ => false,
    }
}

/// Whether the first content copy of a vault is there.
pub(crate) fn has_content(vault: MemVault) -> bool
    ensures { IsTrue result → content_of (vault_view vault).files 0 ≢ None }
{
    let mut vault = vault;
    if vault.copies() == 0 {
        return false;
    }
    match vault.content_size(0) {
        Ok(size) => size.is_some(),
        Err(_) => false,
    }
}
