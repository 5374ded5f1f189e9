// Arrays with all that happened to them: instances of what the laws of `snap_top` suppose.
ghost use Rattle.std.specs.Prelude.{◌≡◌, IfOk, IsTrue, map, string_bytes};
ghost use Rattle.disk_model.specs.Vault.{copies_of};
ghost use Rattle.disk_memory.specs.Folder.{folder_view};
ghost use Rattle.disk_memory.specs.Sink.{sink_view};
ghost use Rattle.disk_memory.specs.Vault.{vault_view};
ghost use Rattle.snap_top_histories.specs.Lived.{AskForNoFix, HasHistory, IsLeftOf, IsNew, RunsOver};

use disk_memory::{MemFolder, MemOpener, MemSink, MemVault};
use disk_model::{Opener, Vault};
use snap_config::{Command, read_words_among};
use snap_top::laws::headline;
use snap_top::{COMMANDS, Outcome, run};
use snap_top_memory::arrays::{Array, NOW, folders, owned};
use std::alloc::Global;
use std::test::Fail;
use std::thread::Threads;

/// An array, its vault just opened, and how the runs over it ended so far.
#[derive(Drop)]
pub struct Lived<'a> {
    pub config: &'a str,
    pub folders: Vec<MemFolder>,
    pub vault: MemVault,
    pub statuses: Vec<u8>,
}

/// The seed of each run.
pub const SEED: [u8; 16] = *b"abcdefghijklmnop";

/// An array without parity and content, to which nothing happened yet.
pub fn begin<'a>(alloc: Global, array: Array<'a>) -> Result<Lived<'a>, Fail>
    ensures fresh { IfOk result (λ lived. IsNew (vault_view lived.vault)) }
    ensures lived { IfOk result (λ lived. HasHistory (⟦<MemOpener<MemFolder, MemVault> as Opener>⟧.view) folder_view vault_view sink_view
        lived.config.now (map folder_view lived.folders.items) (vault_view lived.vault) lived.statuses.items) }
{
    let folders = folders(alloc, array)?;
    let vault = MemVault::new(alloc, array.levels, array.copies)?;
    Ok(Lived {
        config: array.config,
        folders,
        vault,
        statuses: Vec::new(alloc),
    })
}

/// Runs words over it, and goes on with what these bytes pick of what a stop at any moment of the run may leave. It answers
/// nothing where the words ask for a fix, since that might meet a hash by chance, and where nothing was opened.
pub fn live_on<'a, R: Threads + Sync>(
    rt: &R,
    alloc: Global,
    lived: Lived<'a>,
    words: &[&str],
    choice: &[u8],
) -> Result<Lived<'a>, Fail>
    requires fresh { IsNew (vault_view lived.vault) }
    requires lived { HasHistory (⟦<MemOpener<MemFolder, MemVault> as Opener>⟧.view) folder_view vault_view sink_view
        lived.config.now (map folder_view lived.folders.items) (vault_view lived.vault) lived.statuses.items }
    ensures fresh { IfOk result (λ lived. IsNew (vault_view lived.vault)) }
    ensures lived { IfOk result (λ lived. HasHistory (⟦<MemOpener<MemFolder, MemVault> as Opener>⟧.view) folder_view vault_view sink_view
        lived.config.now (map folder_view lived.folders.items) (vault_view lived.vault) lived.statuses.items) }
{
    headline::<MemOpener<MemFolder, MemVault>, MemFolder, MemVault, MemSink>();
    let Lived {
        config,
        folders,
        vault,
        mut statuses,
    } = lived;
    let line = owned(alloc, words)?;
    let words = line.as_slice();
    if !ask_for_no_fix(alloc, words) {
        return Err("a fix, or no words of the tool".into());
    }
    let copies = vault.copies();
    let made = run_anew(rt, alloc, words, config, folders, vault)?;
    let vault = left_of(&made.vault, choice, copies)?;
    statuses.push(made.status)?;
    Ok(Lived {
        config,
        folders: made.folders,
        vault,
        statuses,
    })
}

/// Words, and what picks the files that the next run begins with.
pub type Told<'a> = (&'a [&'a str], &'a [u8]);

/// Three runs over an array without parity and content, each over what the one before left.
pub fn three_runs_from_nothing<'a, R: Threads + Sync>(
    rt: &R,
    alloc: Global,
    array: Array<'a>,
    runs: &[Told; 3],
) -> Result<Lived<'a>, Fail>
    ensures fresh { IfOk result (λ lived. IsNew (vault_view lived.vault)) }
    ensures lived { IfOk result (λ lived. HasHistory (⟦<MemOpener<MemFolder, MemVault> as Opener>⟧.view) folder_view vault_view sink_view
        lived.config.now (map folder_view lived.folders.items) (vault_view lived.vault) lived.statuses.items) }
{
    let [first, second, third] = runs;
    let lived = begin(alloc, array)?;
    let lived = live_on(rt, alloc, lived, first.0, first.1)?;
    let lived = live_on(rt, alloc, lived, second.0, second.1)?;
    live_on(rt, alloc, lived, third.0, third.1)
}

// Whether the words ask for another command than a fix.
pub(crate) fn ask_for_no_fix(alloc: Global, words: &[String]) -> bool
    ensures { IsTrue result → AskForNoFix (map string_bytes words.now) }
{
    match read_words_among(alloc, &COMMANDS, words) {
        Ok(asked) => !matches!(asked.command, Command::Fix(_)),
        Err(_) => false,
    }
}

/// The vault that these bytes pick among those that a stop may leave, which has so many copies.
pub fn left_of(vault: &MemVault, choice: &[u8], copies: u32) -> Result<MemVault, Fail>
    ensures left { IfOk result (λ made. IsLeftOf (vault_view vault.now) (vault_view made)) }
    ensures copies { IfOk result (λ made. copies_of (vault_view made) ≡ copies) }
{
    let made = vault.image(choice)?;
    if made.copies() != copies {
        return Err("another number of copies".into());
    }
    Ok(made)
}

/// How a run ended, and all that was opened.
#[derive(Drop)]
pub struct Made {
    pub status: u8,
    pub folders: Vec<MemFolder>,
    pub vault: MemVault,
}

/// Runs words over an array of which the vault was just opened.
pub fn run_anew<R: Threads + Sync>(
    rt: &R,
    alloc: Global,
    words: &[String],
    config: &str,
    folders: Vec<MemFolder>,
    vault: MemVault,
) -> Result<Made, Fail>
    requires { IsNew (vault_view vault) }
    ensures { IfOk result (λ made. RunsOver (⟦<MemOpener<MemFolder, MemVault> as Opener>⟧.view) folder_view vault_view sink_view
        config.now (map string_bytes words.now) SEED (map folder_view folders.items) (vault_view vault)
        made.status made.folders.items made.vault) }
{
    let config = Vec::from_slice(alloc, config.as_bytes())?;
    let mut opener = MemOpener::new(alloc, config, folders, vault);
    let mut out = MemSink::new(alloc);
    let mut err = MemSink::new(alloc);
    let mut reports = Vec::new(alloc);
    let Outcome {
        status,
        folders,
        vault,
    } = run(
        rt,
        alloc,
        words,
        &mut opener,
        &mut reports,
        &mut out,
        &mut err,
        NOW,
        SEED,
    );
    match vault {
        Some(vault) => Ok(Made {
            status,
            folders,
            vault,
        }),
        None => Err("nothing was opened".into()),
    }
}
