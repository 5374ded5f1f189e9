// A fix of missing files that is stopped before any call of its folders was done.
ghost use Rattle.std.specs.Prelude.{◌≡◌, ◌≢◌, IfOk, IsTrue, None, false, map, string_bytes};
ghost use Rattle.disk_memory.specs.Folder.{folder_view};
ghost use Rattle.disk_memory.specs.Sink.{sink_view};
ghost use Rattle.disk_memory.specs.Vault.{vault_view};
ghost use Rattle.disk_model.specs.Tree.{file_of};
ghost use Rattle.snap_config.specs.declared.options.Command.TheVariants as commands;
ghost use Rattle.snap_sync.specs.Part.{trees_of};
ghost use Rattle.snap_top_histories.specs.Lived.{IsNew};
ghost use Rattle.snap_top_histories.specs.Once.{IsLeftOfOne};
ghost use Rattle.snap_top_instances.specs.Asked.{AsksFor};
ghost use Rattle.snap_top_stops.specs.Stopped.{HasStripe, HoldsAt, IsCellAt, IsSparedAtStop, LacksAt, all_tell_calls, missing_alone};

use array_setup::Selection;
use content_file::laws::one_table_has_a_spelling;
use content_file::load;
use disk_memory::{MemFolder, MemOpener, MemSink, MemVault};
use disk_model::laws::a_folder_stands_among_what_a_stop_may_leave;
use disk_model::{FileFault, Folder, Opener, Path, Vault};
use file_table::Table;
use snap_config::{Command, read_words_among};
use snap_top::COMMANDS;
use snap_top::laws::{a_fix_of_what_is_left_meets_no_chance, headline};
use snap_top_histories::taken::{Once, run_once, take_away};
use snap_top_instances::told::{Told, picked, run_well};
use snap_top_memory::arrays::{Array, owned};
use snap_top_memory::next::WRITTEN;
use std::alloc::Global;
use std::test::Fail;
use std::thread::Threads;

/// A file that stays: a stripe of it, its disk, and its path.
#[derive(Clone, Copy)]
pub struct Kept<'a> {
    pub stripe: u32,
    pub disk: u32,
    pub path: &'a str,
}

/// Makes a run over an array without content. Then a file of the first disk is lost, while another one stays, and what is
/// missing is fixed. What stands then is what these bytes pick of what a stop within that fix may leave of the vault, and the
/// disks before any call was done. It answers the status, and nothing unless the words ask for a fix of missing files that
/// restored that file, in which nothing failed and each folder tells all its calls.
pub fn stop_a_fix<R: Threads + Sync>(
    rt: &R,
    alloc: Global,
    array: Array,
    first: &[&str],
    words: &[&str],
    choice: &[u8],
    lost: &str,
    kept: Kept,
) -> Result<u8, Fail>
    ensures { IfOk result (λ _. IsSparedAtStop (⟦<MemOpener<MemFolder, MemVault> as Opener>⟧.view) folder_view vault_view sink_view) }
{
    headline::<MemOpener<MemFolder, MemVault>, MemFolder, MemVault, MemSink>();
    a_fix_of_what_is_left_meets_no_chance::<
        MemOpener<MemFolder, MemVault>,
        MemFolder,
        MemVault,
        MemSink,
    >();
    a_folder_stands_among_what_a_stop_may_leave();
    one_table_has_a_spelling();
    let line = owned(alloc, words)?;
    let words = line.as_slice();
    if !asks_fix_of_missing(alloc, words) {
        return Err("no fix of missing files".into());
    }
    let once = lose_beside(rt, alloc, array, first, lost, kept.disk, kept.path)?;
    let Once {
        config,
        folders,
        vault,
        ..
    } = once;
    let copies = vault.copies();
    let made = run_well(rt, alloc, words, config, folders, vault)?;
    let left = picked(&made.vault, choice, copies)?;
    if !has_stripe(alloc, left, kept.stripe, kept.disk, kept.path, lost) {
        return Err("no stripe of both files".into());
    }
    let Told {
        status,
        mut folders,
        ..
    } = made;
    if !tell_calls(folders.as_slice()) {
        return Err("memory refused an entry of a record".into());
    }
    let restored = sees(alloc, &mut folders, 0, lost)?;
    if !restored {
        return Err("no such file was restored".into());
    }
    Ok(status)
}

// Whether the words ask for a fix of all missing files and of nothing else, and name no log.
fn asks_fix_of_missing(alloc: Global, words: &[String]) -> bool
    ensures { IsTrue result → AsksFor (commands.Fix missing_alone) (map string_bytes words.now) }
{
    let Ok(asked) = read_words_among(alloc, &COMMANDS, words) else {
        return false;
    };
    if asked.log.is_some() {
        return false;
    }
    match &asked.command {
        Command::Fix(selection) => selects_missing(selection),
        _ => false,
    }
}

fn selects_missing(selection: &Selection) -> bool
    ensures { IsTrue result → selection.now ≡ missing_alone }
{
    selection.disks.as_slice().is_empty()
        && selection.patterns.as_slice().is_empty()
        && selection.missing
        && !selection.errors
}

// A run over an array without content; then a file of the first disk is taken away, beside another file that stands.
fn lose_beside<'a, R: Threads + Sync>(
    rt: &R,
    alloc: Global,
    array: Array<'a>,
    first: &[&str],
    lost: &str,
    disk: u32,
    path: &str,
) -> Result<Once<'a>, Fail>
    ensures fresh { IfOk result (λ once. IsNew (vault_view once.vault)) }
    ensures once { IfOk result (λ once. IsLeftOfOne (⟦<MemOpener<MemFolder, MemVault> as Opener>⟧.view) folder_view vault_view sink_view
        once.config.now (map folder_view once.folders.items) (vault_view once.vault) once.status) }
    ensures lost { IfOk result (λ once. LacksAt (map folder_view once.folders.items) 0 lost.now) }
    ensures kept { IfOk result (λ once. HoldsAt (map folder_view once.folders.items) disk path.now) }
{
    let ran = run_once(rt, alloc, array, first, WRITTEN)?;
    let left = take_away(alloc, ran, 0, lost)?;
    let Once {
        config,
        mut folders,
        vault,
        status,
    } = left;
    let is_there = sees(alloc, &mut folders, 0, lost)?;
    if is_there {
        return Err("it was not lost".into());
    }
    let stays = sees(alloc, &mut folders, disk as usize, path)?;
    if !stays {
        return Err("no file beside it".into());
    }
    Ok(Once {
        config,
        folders,
        vault,
        status,
    })
}

// Whether a disk holds a file of this name. To look changes no file.
fn sees(alloc: Global, folders: &mut Vec<MemFolder>, disk: usize, name: &str) -> Result<bool, Fail>
    ensures same { IfOk result (λ _. trees_of (map folder_view folders.new.items) ≡ trees_of (map folder_view folders.old.items)) }
    ensures there { IfOk result (λ there. IsTrue there → HoldsAt (map folder_view folders.old.items) disk name.now) }
    ensures none { IfOk result (λ there. there ≡ false → LacksAt (map folder_view folders.old.items) disk name.now) }
{
    match folders.get_mut(disk) {
        Some(folder) => sees_in(alloc, folder, name),
        None => Err("no such disk".into()),
    }
}

// The same of one folder.
fn sees_in(alloc: Global, folder: &mut MemFolder, name: &str) -> Result<bool, Fail>
    ensures same { (folder_view folder.new).tree ≡ (folder_view folder.old).tree }
    ensures there { IfOk result (λ there. IsTrue there → file_of (folder_view folder.old).tree name.now ≢ None) }
    ensures none { IfOk result (λ there. there ≡ false → file_of (folder_view folder.old).tree name.now ≡ None) }
{
    let path = Path::new(alloc, name)?;
    match folder.look(&path, false) {
        Ok(_meta) => Ok(true),
        Err(FileFault::Missing) => Ok(false),
        Err(FileFault::Failed) => Err("the folder failed".into()),
    }
}

// Whether the first copy that is a content file has this stripe of a file of a disk, and of one of the first disk.
fn has_stripe(
    alloc: Global,
    vault: MemVault,
    stripe: u32,
    disk: u32,
    path: &str,
    lost: &str,
) -> bool
    ensures { IsTrue result → HasStripe (vault_view vault) stripe disk path.now lost.now }
{
    let mut vault = vault;
    let Ok(loaded) = load(alloc, &mut vault) else {
        return false;
    };
    if vault.faults() > 0 {
        return false;
    }
    match loaded {
        Some(table) => has_cells(&table, stripe, disk, path, lost),
        None => false,
    }
}

fn has_cells(table: &Table, stripe: u32, disk: u32, path: &str, lost: &str) -> bool
    ensures kept { IsTrue result → IsCellAt table.now stripe disk path.now }
    ensures lost { IsTrue result → IsCellAt table.now stripe 0 lost.now }
{
    has_cell(table, stripe, disk, path) && has_cell(table, stripe, 0, lost)
}

fn has_cell(table: &Table, stripe: u32, disk: u32, path: &str) -> bool
    ensures { IsTrue result → IsCellAt table.now stripe disk path.now }
{
    if stripe >= table.length() || disk >= table.disks() {
        return false;
    }
    match table.cell(stripe, disk) {
        Some(cell) => table.path(disk, cell.rec).as_str() == path,
        None => false,
    }
}

/// Whether each of these folders tells its calls: memory refused no entry of its record.
pub(crate) fn tell_calls(folders: &[MemFolder]) -> bool
    ensures { result ≡ all_tell_calls folder_view folders.now }
{
    folders.iter().all(|folder| folder.tells_calls())
}
