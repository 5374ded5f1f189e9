// An audit finds that a file has other bytes than it was synced with.
ghost use Rattle.std.specs.Prelude.{IfOk, IsTrue, map, string_bytes};
ghost use Rattle.disk_memory.specs.Folder.{folder_view};
ghost use Rattle.disk_memory.specs.Sink.{sink_view};
ghost use Rattle.disk_memory.specs.Vault.{vault_view};
ghost use Rattle.snap_config.specs.declared.options.Command.TheVariants as commands;
ghost use Rattle.snap_top_instances.specs.Asked.{AsksFor, everything};
ghost use Rattle.snap_top_pairs.specs.Audited.{IsAudited};

use disk_memory::{MemFolder, MemOpener, MemSink, MemVault};
use disk_model::{Opener, Path, Vault};
use snap_config::{Command, read_words_among};
use snap_top::COMMANDS;
use snap_top_instances::asked::selects_all;
use snap_top_instances::told::{picked, run_well};
use snap_top_memory::arrays::{Array, File, folders, owned, stamp};
use snap_top_memory::next::WRITTEN;
use std::alloc::Global;
use std::test::Fail;
use std::thread::Threads;

/// Syncs an array without content. Then a file of the first disk is written anew, and all files are audited. It answers the
/// status of the audit, and nothing unless that found something and no call failed.
pub fn audit_changed<R: Threads + Sync>(
    rt: &R,
    alloc: Global,
    array: Array,
    first: &[&str],
    file: File,
    words: &[&str],
) -> Result<u8, Fail>
    ensures { IfOk result (IsAudited (⟦<MemOpener<MemFolder, MemVault> as Opener>⟧.view) folder_view vault_view sink_view) }
{
    let line = owned(alloc, words)?;
    let words = line.as_slice();
    if !asks_audit_of_all(alloc, words) {
        return Err("no audit of everything".into());
    }
    let begin = owned(alloc, first)?;
    let disks = folders(alloc, array)?;
    let fresh = MemVault::new(alloc, array.levels, array.copies)?;
    let copies = fresh.copies();
    let synced = run_well(rt, alloc, begin.as_slice(), array.config, disks, fresh)?;
    let left = picked(&synced.vault, WRITTEN, copies)?;
    let changed = rewritten(alloc, synced.folders, file)?;
    let made = run_well(rt, alloc, words, array.config, changed, left)?;
    if made.status != 1 {
        return Err("nothing was found".into());
    }
    Ok(made.status)
}

// The folders, where a file of the first one has these bytes and this stamp.
fn rewritten(alloc: Global, folders: Vec<MemFolder>, file: File) -> Result<Vec<MemFolder>, Fail> {
    let (name, bytes, seconds, nanos) = file;
    let path = Path::new(alloc, name)?;
    let bytes = Vec::from_slice(alloc, bytes)?;
    let mut folders = folders;
    let Some(folder) = folders.get_mut(0) else {
        return Err("no disk".into());
    };
    if !folder.rewrite(&path, stamp(seconds, nanos), bytes) {
        return Err("no such file".into());
    }
    Ok(folders)
}

// Whether the words ask for an audit of everything, and name no log.
fn asks_audit_of_all(alloc: Global, words: &[String]) -> bool
    ensures { IsTrue result → AsksFor (commands.Audit everything) (map string_bytes words.now) }
{
    let Ok(asked) = read_words_among(alloc, &COMMANDS, words) else {
        return false;
    };
    if asked.log.is_some() {
        return false;
    }
    match &asked.command {
        Command::Audit(selection) => selects_all(selection),
        _ => false,
    }
}
