// An array that was run over once, and from which files were then taken away; and a fix of it. Nothing that the laws of
// `snap_top` suppose of it is left open.
ghost use Rattle.std.specs.Prelude.{◌≡◌, IfOk, IsTrue, map, string_bytes};
ghost use Rattle.disk_memory.specs.Folder.{folder_view};
ghost use Rattle.disk_memory.specs.Sink.{sink_view};
ghost use Rattle.disk_memory.specs.Vault.{vault_view};
ghost use Rattle.snap_top_histories.specs.Lived.{HasHistory, IsNew};
ghost use Rattle.snap_top_histories.specs.Once.{IsFixedWhole, IsLeftOfOne};
ghost use Rattle.snap_top.specs.Taken.{IsTakenFrom};

use crate::lived::{Lived, Told, ask_for_no_fix, left_of, run_anew};
use crate::resumed::ask_for_fix;
use disk_memory::{MemFolder, MemOpener, MemSink, MemVault};
use disk_model::{FileFault, Folder, Opener, Path, Vault};
use snap_top::laws::{a_fix_of_what_is_left_meets_no_chance, headline};
use snap_top_memory::arrays::{Array, folders, owned};
use std::alloc::Global;
use std::test::Fail;
use std::thread::Threads;

/// An array, its vault just opened, and how the one run over it ended.
#[derive(Drop)]
pub struct Once<'a> {
    pub config: &'a str,
    pub folders: Vec<MemFolder>,
    pub vault: MemVault,
    pub status: u8,
}

/// Runs words over an array without parity and content, and goes on with what these bytes pick of what a stop at any moment
/// of the run may leave. It answers nothing where the words ask for a fix.
pub fn run_once<'a, R: Threads + Sync>(
    rt: &R,
    alloc: Global,
    array: Array<'a>,
    words: &[&str],
    choice: &[u8],
) -> Result<Once<'a>, Fail>
    ensures fresh { IfOk result (λ once. IsNew (vault_view once.vault)) }
    ensures once { IfOk result (λ once. IsLeftOfOne (⟦<MemOpener<MemFolder, MemVault> as Opener>⟧.view) folder_view vault_view sink_view
        once.config.now (map folder_view once.folders.items) (vault_view once.vault) once.status) }
{
    headline::<MemOpener<MemFolder, MemVault>, MemFolder, MemVault, MemSink>();
    let line = owned(alloc, words)?;
    let words = line.as_slice();
    if !ask_for_no_fix(alloc, words) {
        return Err("a fix, or no words of the tool".into());
    }
    let disks = folders(alloc, array)?;
    let fresh = MemVault::new(alloc, array.levels, array.copies)?;
    let copies = fresh.copies();
    let made = run_anew(rt, alloc, words, array.config, disks, fresh)?;
    let vault = left_of(&made.vault, choice, copies)?;
    Ok(Once {
        config: array.config,
        folders: made.folders,
        vault,
        status: made.status,
    })
}

/// Takes a file of a disk away.
pub fn take_away<'a>(
    alloc: Global,
    once: Once<'a>,
    disk: usize,
    name: &str,
) -> Result<Once<'a>, Fail>
    requires fresh { IsNew (vault_view once.vault) }
    requires once { IsLeftOfOne (⟦<MemOpener<MemFolder, MemVault> as Opener>⟧.view) folder_view vault_view sink_view
        once.config.now (map folder_view once.folders.items) (vault_view once.vault) once.status }
    ensures fresh { IfOk result (λ once. IsNew (vault_view once.vault)) }
    ensures once { IfOk result (λ once. IsLeftOfOne (⟦<MemOpener<MemFolder, MemVault> as Opener>⟧.view) folder_view vault_view sink_view
        once.config.now (map folder_view once.folders.items) (vault_view once.vault) once.status) }
{
    let Once {
        config,
        mut folders,
        vault,
        status,
    } = once;
    match folders.get_mut(disk) {
        Some(folder) => take_from(alloc, folder, name)?,
        None => return Err("no such disk".into()),
    }
    Ok(Once {
        config,
        folders,
        vault,
        status,
    })
}

// Takes a file away, where none stands under the name that it has with lost blocks.
fn take_from(alloc: Global, folder: &mut MemFolder, name: &str) -> Result<(), Fail>
    ensures { IfOk result (λ _. IsTakenFrom (folder_view folder.old).tree (folder_view folder.new).tree) }
{
    let path = Path::new(alloc, name)?;
    match folder.look(&path, true) {
        Err(FileFault::Missing) => {}
        _ => return Err("it has lost blocks, or the folder failed".into()),
    }
    if !folder.remove(&path) {
        return Err("no such file".into());
    }
    Ok(())
}

/// Runs words over what is left. It answers nothing unless they ask for a fix that ended with status 0 or 1.
pub fn fix_what_is_left<'a, R: Threads + Sync>(
    rt: &R,
    alloc: Global,
    once: Once<'a>,
    words: &[&str],
    choice: &[u8],
) -> Result<Lived<'a>, Fail>
    requires fresh { IsNew (vault_view once.vault) }
    requires once { IsLeftOfOne (⟦<MemOpener<MemFolder, MemVault> as Opener>⟧.view) folder_view vault_view sink_view
        once.config.now (map folder_view once.folders.items) (vault_view once.vault) once.status }
    ensures fresh { IfOk result (λ lived. IsNew (vault_view lived.vault)) }
    ensures fixed { IfOk result (λ lived. IsFixedWhole (⟦<MemOpener<MemFolder, MemVault> as Opener>⟧.view) folder_view vault_view sink_view
        (map folder_view lived.folders.items)) }
    ensures lived { IfOk result (λ lived. HasHistory (⟦<MemOpener<MemFolder, MemVault> as Opener>⟧.view) folder_view vault_view sink_view
        lived.config.now (map folder_view lived.folders.items) (vault_view lived.vault) lived.statuses.items) }
{
    headline::<MemOpener<MemFolder, MemVault>, MemFolder, MemVault, MemSink>();
    a_fix_of_what_is_left_meets_no_chance::<
        MemOpener<MemFolder, MemVault>,
        MemFolder,
        MemVault,
        MemSink,
    >();
    let line = owned(alloc, words)?;
    let words = line.as_slice();
    if !ask_for_fix(alloc, words) {
        return Err("no fix".into());
    }
    let Once {
        config,
        folders,
        vault,
        status,
    } = once;
    let copies = vault.copies();
    let mut statuses = Vec::new(alloc);
    let made = run_anew(rt, alloc, words, config, folders, vault)?;
    if made.status > 1 {
        return Err("a fix that did not go to its end".into());
    }
    let vault = left_of(&made.vault, choice, copies)?;
    statuses.push(status)?;
    statuses.push(made.status)?;
    Ok(Lived {
        config,
        folders: made.folders,
        vault,
        statuses,
    })
}

/// A run over an array without parity and content; then a file of the first disk is taken away; and a fix.
pub fn lose_and_fix<'a, R: Threads + Sync>(
    rt: &R,
    alloc: Global,
    array: Array<'a>,
    name: &str,
    runs: &[Told; 2],
) -> Result<Lived<'a>, Fail>
    ensures fresh { IfOk result (λ lived. IsNew (vault_view lived.vault)) }
    ensures fixed { IfOk result (λ lived. IsFixedWhole (⟦<MemOpener<MemFolder, MemVault> as Opener>⟧.view) folder_view vault_view sink_view
        (map folder_view lived.folders.items)) }
    ensures lived { IfOk result (λ lived. HasHistory (⟦<MemOpener<MemFolder, MemVault> as Opener>⟧.view) folder_view vault_view sink_view
        lived.config.now (map folder_view lived.folders.items) (vault_view lived.vault) lived.statuses.items) }
{
    let [first, second] = runs;
    let once = run_once(rt, alloc, array, first.0, first.1)?;
    let once = take_away(alloc, once, 0, name)?;
    fix_what_is_left(rt, alloc, once, second.0, second.1)
}
