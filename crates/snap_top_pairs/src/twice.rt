// Two syncs, two scrubs and two fixes of one array leave and print the same.
ghost use Rattle.std.specs.Prelude.{IfOk, IsTrue, map, string_bytes};
ghost use Rattle.disk_memory.specs.Folder.{folder_view};
ghost use Rattle.disk_memory.specs.Sink.{sink_view};
ghost use Rattle.disk_memory.specs.Vault.{vault_view};
ghost use Rattle.snap_top_pairs.specs.Twice.{AskForOthers, IsFixedTwice, IsScrubbedTwice, IsSyncedTwice};

use disk_memory::{MemFolder, MemOpener, MemSink, MemVault};
use disk_model::{Opener, Vault};
use snap_config::read_words_among;
use snap_top::COMMANDS;
use snap_top::laws::{headline, one_array_is_left_alike, what_is_read_alike_is_left_alike};
use snap_top_instances::asked::{asks_fix_of_all, asks_full_scrub, asks_plain_sync};
use snap_top_instances::told::{Told, holds_file, new_disk, picked, run_well, says_else};
use snap_top_memory::arrays::{Array, folders, owned};
use snap_top_memory::next::WRITTEN;
use std::alloc::Global;
use std::test::Fail;
use std::thread::Threads;

// What a sync prints that read no stripe, and a scrub.
const NONE_SYNCED: &[u8] = b"sync: 0 stripes synced, 0 pending\n";

const NONE_CHECKED: &[u8] = b"scrub: 0 stripes checked, 0 findings\n";

/// Syncs an array without content, and the same array once more with another number of readers. It answers the last status,
/// and nothing unless both went to their ends and no call failed in them, and the first one read a stripe.
pub fn sync_twice<R: Threads + Sync>(
    rt: &R,
    alloc: Global,
    array: Array,
    words: &[&str],
    again: &[&str],
) -> Result<u8, Fail>
    ensures { IfOk result (IsSyncedTwice (⟦<MemOpener<MemFolder, MemVault> as Opener>⟧.view) folder_view vault_view sink_view) }
{
    headline::<MemOpener<MemFolder, MemVault>, MemFolder, MemVault, MemSink>();
    one_array_is_left_alike::<MemOpener<MemFolder, MemVault>, MemFolder, MemVault, MemSink>();
    what_is_read_alike_is_left_alike::<
        MemOpener<MemFolder, MemVault>,
        MemFolder,
        MemVault,
        MemSink,
    >();
    let line = owned(alloc, words)?;
    let words = line.as_slice();
    let other = owned(alloc, again)?;
    let again = other.as_slice();
    if !asks_plain_sync(alloc, words) {
        return Err("a sync with options, or no sync".into());
    }
    if !asks_plain_sync(alloc, again) {
        return Err("then a sync with options, or no sync".into());
    }
    if !ask_for_others(alloc, words, again) {
        return Err("the same number of readers".into());
    }
    let disks = folders(alloc, array)?;
    let fresh = MemVault::new(alloc, array.levels, array.copies)?;
    let made = run_well(rt, alloc, words, array.config, disks, fresh)?;
    if !says_else(made.printed.as_slice(), NONE_SYNCED) {
        return Err("no stripe was read".into());
    }
    let fresh_too = MemVault::new(alloc, array.levels, array.copies)?;
    let last = run_well(rt, alloc, again, array.config, made.folders, fresh_too)?;
    Ok(last.status)
}

/// Syncs an array without content, and scrubs what that left twice, with other numbers of readers. It answers the last status,
/// and nothing unless both scrubs went to their ends and no call failed in them, and the first one checked a stripe.
pub fn scrub_twice<R: Threads + Sync>(
    rt: &R,
    alloc: Global,
    array: Array,
    first: &[&str],
    words: &[&str],
    again: &[&str],
) -> Result<u8, Fail>
    ensures { IfOk result (IsScrubbedTwice (⟦<MemOpener<MemFolder, MemVault> as Opener>⟧.view) folder_view vault_view sink_view) }
{
    headline::<MemOpener<MemFolder, MemVault>, MemFolder, MemVault, MemSink>();
    one_array_is_left_alike::<MemOpener<MemFolder, MemVault>, MemFolder, MemVault, MemSink>();
    what_is_read_alike_is_left_alike::<
        MemOpener<MemFolder, MemVault>,
        MemFolder,
        MemVault,
        MemSink,
    >();
    let begin = owned(alloc, first)?;
    let first = begin.as_slice();
    let line = owned(alloc, words)?;
    let words = line.as_slice();
    let other = owned(alloc, again)?;
    let again = other.as_slice();
    if !asks_plain_sync(alloc, first) {
        return Err("a sync with options, or no sync".into());
    }
    if !asks_full_scrub(alloc, words) {
        return Err("no scrub of all".into());
    }
    if !asks_full_scrub(alloc, again) {
        return Err("then no scrub of all".into());
    }
    if !ask_for_others(alloc, words, again) {
        return Err("the same number of readers".into());
    }
    let disks = folders(alloc, array)?;
    let fresh = MemVault::new(alloc, array.levels, array.copies)?;
    let copies = fresh.copies();
    let synced = run_well(rt, alloc, first, array.config, disks, fresh)?;
    let one = picked(&synced.vault, WRITTEN, copies)?;
    let same = picked(&synced.vault, WRITTEN, copies)?;
    let made = run_well(rt, alloc, words, array.config, synced.folders, one)?;
    if !says_else(made.printed.as_slice(), NONE_CHECKED) {
        return Err("no stripe was checked".into());
    }
    let last = run_well(rt, alloc, again, array.config, made.folders, same)?;
    Ok(last.status)
}

/// Syncs an array without content. Then the first disk is lost, and a new one fixed; and the same once more from what the
/// sync left, with another number of readers. It answers the last status, and nothing unless both fixes went to their ends
/// and no call failed in them, and the first one left a file of this name.
pub fn fix_twice<R: Threads + Sync>(
    rt: &R,
    alloc: Global,
    array: Array,
    first: &[&str],
    words: &[&str],
    again: &[&str],
    name: &str,
) -> Result<u8, Fail>
    ensures { IfOk result (IsFixedTwice (⟦<MemOpener<MemFolder, MemVault> as Opener>⟧.view) folder_view vault_view sink_view) }
{
    one_array_is_left_alike::<MemOpener<MemFolder, MemVault>, MemFolder, MemVault, MemSink>();
    what_is_read_alike_is_left_alike::<
        MemOpener<MemFolder, MemVault>,
        MemFolder,
        MemVault,
        MemSink,
    >();
    let begin = owned(alloc, first)?;
    let first = begin.as_slice();
    let line = owned(alloc, words)?;
    let words = line.as_slice();
    let other = owned(alloc, again)?;
    let again = other.as_slice();
    if !asks_fix_of_all(alloc, words) {
        return Err("no fix of everything".into());
    }
    if !asks_fix_of_all(alloc, again) {
        return Err("then no fix of everything".into());
    }
    if !ask_for_others(alloc, words, again) {
        return Err("the same number of readers".into());
    }
    let disks = folders(alloc, array)?;
    let fresh = MemVault::new(alloc, array.levels, array.copies)?;
    let copies = fresh.copies();
    let synced = run_well(rt, alloc, first, array.config, disks, fresh)?;
    let one = picked(&synced.vault, WRITTEN, copies)?;
    let same = picked(&synced.vault, WRITTEN, copies)?;
    let lost = new_disk(alloc)?;
    let lost_again = new_disk(alloc)?;
    let made = run_well(rt, alloc, words, array.config, lost, one)?;
    let Told { folders: fixed, .. } = made;
    let there = holds_file(alloc, fixed, name)?;
    if !there {
        return Err("no such file was restored".into());
    }
    let last = run_well(rt, alloc, again, array.config, lost_again, same)?;
    Ok(last.status)
}

// Whether two lines of words ask for other numbers of readers.
fn ask_for_others(alloc: Global, words: &[String], again: &[String]) -> bool
    ensures { IsTrue result → AskForOthers (map string_bytes words.now) (map string_bytes again.now) }
{
    let Ok(asked) = read_words_among(alloc, &COMMANDS, words) else {
        return false;
    };
    let Ok(asked_then) = read_words_among(alloc, &COMMANDS, again) else {
        return false;
    };
    asked.readers != asked_then.readers
}
