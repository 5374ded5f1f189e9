// A run with all that it says of itself but its line and its reports, and what can be seen of vaults and folders in memory.
ghost use Rattle.std.specs.Prelude.{◌≡◌, ◌≢◌, ◌≤◌, ◌∷◌, [], IfOk, IsTrue, map, string_bytes, true};
ghost use Rattle.disk_memory.specs.Folder.{folder_view, fresh_folder};
ghost use Rattle.disk_model.specs.Vault.{copies_of};
ghost use Rattle.disk_memory.specs.Sink.{fresh_sink, sink_view};
ghost use Rattle.disk_memory.specs.Vault.{image_at, opened_anew, vault_value, vault_view};
ghost use Rattle.snap_top_histories.specs.Lived.{IsLeftOf, IsNew};
ghost use Rattle.snap_top_histories.specs.Repeated.{are_calm};
ghost use Rattle.snap_top_instances.specs.Told.{HoldsFile, RunsTold, RunsWhole};

use disk_memory::{MemFolder, MemOpener, MemSink, MemVault};
use disk_model::{Folder, Opener, Path, Sink, Vault};
use snap_top::{Outcome, run};
use snap_top_histories::lived::SEED;
use snap_top_histories::repeated::have_not_failed;
use snap_top_memory::arrays::NOW;
use std::alloc::Global;
use std::test::Fail;
use std::thread::Threads;

/// How a run ended, all that was opened, and what was printed.
#[derive(Drop)]
pub struct Told {
    pub status: u8,
    pub folders: Vec<MemFolder>,
    pub vault: MemVault,
    pub printed: Vec<u8>,
}

/// What a run left, whatever failed.
#[derive(Drop)]
pub struct Whole {
    pub status: u8,
    pub folders: Vec<MemFolder>,
    pub vault: MemVault,
    pub opener: MemOpener<MemFolder, MemVault>,
    pub out: MemSink,
}

/// Runs words over an array of which the vault was just opened. Each write to a deaf output fails. It answers nothing where
/// nothing was opened.
pub fn run_whole<R: Threads + Sync>(
    rt: &R,
    alloc: Global,
    words: &[String],
    config: &str,
    folders: Vec<MemFolder>,
    vault: MemVault,
    deaf: bool,
) -> Result<Whole, Fail>
    requires { IsNew (vault_view vault) }
    ensures { IfOk result (λ made. RunsWhole (⟦<MemOpener<MemFolder, MemVault> as Opener>⟧.view) folder_view vault_view sink_view
        config.now (map string_bytes words.now) SEED (map folder_view folders.items) (vault_view vault)
        made.status made.folders.items made.vault made.opener made.out) }
{
    let config = Vec::from_slice(alloc, config.as_bytes())?;
    let mut opener = MemOpener::new(alloc, config, folders, vault);
    let mut out = output(alloc, deaf);
    let mut err = MemSink::new(alloc);
    let mut reports = Vec::new(alloc);
    let Outcome {
        status,
        folders,
        vault,
    } = run(
        rt,
        alloc,
        words,
        &mut opener,
        &mut reports,
        &mut out,
        &mut err,
        NOW,
        SEED,
    );
    match vault {
        Some(vault) => Ok(Whole {
            status,
            folders,
            vault,
            opener,
            out,
        }),
        None => Err("nothing was opened".into()),
    }
}

/// Runs words over an array of which the vault was just opened. It answers nothing where nothing was opened, and where the
/// opener or the output failed.
pub fn run_told<R: Threads + Sync>(
    rt: &R,
    alloc: Global,
    words: &[String],
    config: &str,
    folders: Vec<MemFolder>,
    vault: MemVault,
) -> Result<Told, Fail>
    requires { IsNew (vault_view vault) }
    ensures { IfOk result (λ made. RunsTold (⟦<MemOpener<MemFolder, MemVault> as Opener>⟧.view) folder_view vault_view sink_view
        config.now (map string_bytes words.now) SEED (map folder_view folders.items) (vault_view vault)
        made.status made.folders.items made.vault made.printed.items) }
{
    let whole = run_whole(rt, alloc, words, config, folders, vault, false)?;
    let Whole {
        status,
        folders,
        vault,
        opener,
        out,
    } = whole;
    if !opened_well(opener) {
        return Err("the opener failed".into());
    }
    if !wrote_well(&out) {
        return Err("the output failed".into());
    }
    let printed = Vec::from_slice(alloc, out.bytes())?;
    Ok(Told {
        status,
        folders,
        vault,
        printed,
    })
}

// An output to which nothing was written.
fn output(alloc: Global, deaf: bool) -> MemSink
    ensures { sink_view result ≡ fresh_sink }
{
    let mut out = MemSink::new(alloc);
    if deaf {
        out.stop_after(0);
    }
    out
}

/// Whether no call of an opener failed.
pub fn opened_well(opener: MemOpener<MemFolder, MemVault>) -> bool
    ensures { IsTrue result → (⟦<MemOpener<MemFolder, MemVault> as Opener>⟧.view opener).faults ≡ 0 }
{
    opener.faults() == 0
}

// Whether no write to an output failed.
fn wrote_well(out: &MemSink) -> bool
    ensures { IsTrue result → (sink_view out.now).faults ≡ 0 }
{
    out.faults() == 0
}

/// The same of a run that went to its end, and of which no call of a folder or of the vault failed.
pub fn run_well<R: Threads + Sync>(
    rt: &R,
    alloc: Global,
    words: &[String],
    config: &str,
    folders: Vec<MemFolder>,
    vault: MemVault,
) -> Result<Told, Fail>
    requires { IsNew (vault_view vault) }
    ensures ran { IfOk result (λ made. RunsTold (⟦<MemOpener<MemFolder, MemVault> as Opener>⟧.view) folder_view vault_view sink_view
        config.now (map string_bytes words.now) SEED (map folder_view folders.items) (vault_view vault)
        made.status made.folders.items made.vault made.printed.items) }
    ensures faults { IfOk result (λ made. (vault_view made.vault).faults ≡ 0) }
    ensures calm { IfOk result (λ made. are_calm folder_view made.folders.items ≡ true) }
    ensures ended { IfOk result (λ made. made.status ≤ 1) }
{
    let made = run_told(rt, alloc, words, config, folders, vault)?;
    if made.status > 1 {
        return Err("it did not go to its end".into());
    }
    if made.vault.faults() > 0 {
        return Err("a call of the vault failed".into());
    }
    if !have_not_failed(made.folders.as_slice()) {
        return Err("a call of a folder failed".into());
    }
    Ok(made)
}

/// The vault that these bytes pick among those that a stop may leave, which has so many copies.
pub fn picked(vault: &MemVault, choice: &[u8], copies: u32) -> Result<MemVault, Fail>
    ensures picked { IfOk result (λ made. vault_value made ≡
        opened_anew (vault_value vault.now) (image_at (vault_value vault.now) choice.now)) }
    ensures left { IfOk result (λ made. IsLeftOf (vault_view vault.now) (vault_view made)) }
    ensures fresh { IfOk result (λ made. IsNew (vault_view made)) }
    ensures copies { IfOk result (λ made. copies_of (vault_view made) ≡ copies) }
{
    let made = vault.image(choice)?;
    if made.copies() != copies {
        return Err("another number of copies".into());
    }
    Ok(made)
}

/// A new disk in the place of the only one.
pub fn new_disk(alloc: Global) -> Result<Vec<MemFolder>, Fail>
    ensures { IfOk result (λ folders. map folder_view folders.items ≡ fresh_folder true ∷ []) }
{
    let mut folders = Vec::new(alloc);
    folders.push(MemFolder::new(alloc, true))?;
    Ok(folders)
}

/// Whether the first disk holds a file of this name.
pub fn holds_file(alloc: Global, folders: Vec<MemFolder>, name: &str) -> Result<bool, Fail>
    ensures { IfOk result (λ there. IsTrue there → HoldsFile (map folder_view folders.items)) }
{
    let path = Path::new(alloc, name)?;
    let mut folders = folders;
    let Some(folder) = folders.get_mut(0) else {
        return Ok(false);
    };
    match folder.look(&path, false) {
        Ok(_meta) => Ok(true),
        Err(_) => Ok(false),
    }
}

/// Whether other bytes were printed than these.
pub fn says_else(printed: &[u8], line: &[u8]) -> bool
    ensures { IsTrue result → printed.now ≢ line.now }
{
    printed != line
}
