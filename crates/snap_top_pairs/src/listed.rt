// Two lists of one array, of its files or its duplicates, and two runs for its status, print the same.
ghost use Rattle.std.specs.Prelude.{IfOk, IsTrue, map, string_bytes};
ghost use Rattle.disk_memory.specs.Folder.{folder_view};
ghost use Rattle.disk_memory.specs.Sink.{sink_view};
ghost use Rattle.disk_memory.specs.Vault.{vault_view};
ghost use Rattle.snap_config.specs.declared.options.Command.TheVariants as commands;
ghost use Rattle.snap_top_instances.specs.Asked.{AsksFor};
ghost use Rattle.snap_top_pairs.specs.Listed.{AreDuplicatesTwice, AreListedTwice, AreToldTwice};

use crate::lost::lose_and_run_twice;
use content_file::laws::one_table_has_a_spelling;
use disk_memory::{MemFolder, MemOpener, MemSink, MemVault};
use disk_model::Opener;
use snap_config::{Command, read_words_among};
use snap_top::COMMANDS;
use snap_top::laws::one_array_is_found_alike;
use snap_top_memory::arrays::{Array, owned};
use std::alloc::Global;
use std::test::Fail;
use std::thread::Threads;

/// Lists twice what a sync left of an array whose disk was lost then. It answers the last status, and nothing unless both
/// lists went to their ends, and no call failed in them.
pub fn list_twice<R: Threads + Sync>(
    rt: &R,
    alloc: Global,
    array: Array,
    first: &[&str],
    words: &[&str],
    again: &[&str],
) -> Result<u8, Fail>
    ensures { IfOk result (AreListedTwice (⟦<MemOpener<MemFolder, MemVault> as Opener>⟧.view) folder_view vault_view sink_view) }
{
    one_array_is_found_alike::<MemOpener<MemFolder, MemVault>, MemFolder, MemVault, MemSink>();
    one_table_has_a_spelling();
    let line = owned(alloc, words)?;
    let words = line.as_slice();
    let other = owned(alloc, again)?;
    let again = other.as_slice();
    if !asks_list(alloc, words) {
        return Err("no list".into());
    }
    if !asks_list(alloc, again) {
        return Err("then no list".into());
    }
    let ends = lose_and_run_twice(rt, alloc, array, first, words, again)?;
    Ok(ends.last)
}

/// Asks twice for the status of what a sync left of an array whose disk was lost then. It answers the last status, and
/// nothing unless both runs went to their ends, and no call failed in them.
pub fn tell_status_twice<R: Threads + Sync>(
    rt: &R,
    alloc: Global,
    array: Array,
    first: &[&str],
    words: &[&str],
    again: &[&str],
) -> Result<u8, Fail>
    ensures { IfOk result (AreToldTwice (⟦<MemOpener<MemFolder, MemVault> as Opener>⟧.view) folder_view vault_view sink_view) }
{
    one_array_is_found_alike::<MemOpener<MemFolder, MemVault>, MemFolder, MemVault, MemSink>();
    one_table_has_a_spelling();
    let line = owned(alloc, words)?;
    let words = line.as_slice();
    let other = owned(alloc, again)?;
    let again = other.as_slice();
    if !asks_status(alloc, words) {
        return Err("no status".into());
    }
    if !asks_status(alloc, again) {
        return Err("then no status".into());
    }
    let ends = lose_and_run_twice(rt, alloc, array, first, words, again)?;
    Ok(ends.last)
}

/// Lists twice which files hold the same in what a sync left of an array whose disk was lost then. It answers the last
/// status, and nothing unless both lists went to their ends, and no call failed in them.
pub fn list_duplicates_twice<R: Threads + Sync>(
    rt: &R,
    alloc: Global,
    array: Array,
    first: &[&str],
    words: &[&str],
    again: &[&str],
) -> Result<u8, Fail>
    ensures { IfOk result (AreDuplicatesTwice (⟦<MemOpener<MemFolder, MemVault> as Opener>⟧.view) folder_view vault_view sink_view) }
{
    one_array_is_found_alike::<MemOpener<MemFolder, MemVault>, MemFolder, MemVault, MemSink>();
    one_table_has_a_spelling();
    let line = owned(alloc, words)?;
    let words = line.as_slice();
    let other = owned(alloc, again)?;
    let again = other.as_slice();
    if !asks_duplicates(alloc, words) {
        return Err("no list of duplicates".into());
    }
    if !asks_duplicates(alloc, again) {
        return Err("then no list of duplicates".into());
    }
    let ends = lose_and_run_twice(rt, alloc, array, first, words, again)?;
    Ok(ends.last)
}

// Whether the words ask for a list, and name no log.
fn asks_list(alloc: Global, words: &[String]) -> bool
    ensures { IsTrue result → AsksFor commands.List (map string_bytes words.now) }
{
    let Ok(asked) = read_words_among(alloc, &COMMANDS, words) else {
        return false;
    };
    if asked.log.is_some() {
        return false;
    }
    matches!(asked.command, Command::List)
}

// Whether the words ask for the status, and name no log.
fn asks_status(alloc: Global, words: &[String]) -> bool
    ensures { IsTrue result → AsksFor commands.Status (map string_bytes words.now) }
{
    let Ok(asked) = read_words_among(alloc, &COMMANDS, words) else {
        return false;
    };
    if asked.log.is_some() {
        return false;
    }
    matches!(asked.command, Command::Status)
}

// Whether the words ask for a list of duplicates, and name no log.
fn asks_duplicates(alloc: Global, words: &[String]) -> bool
    ensures { IsTrue result → AsksFor commands.Dup (map string_bytes words.now) }
{
    let Ok(asked) = read_words_among(alloc, &COMMANDS, words) else {
        return false;
    };
    if asked.log.is_some() {
        return false;
    }
    matches!(asked.command, Command::Dup)
}
