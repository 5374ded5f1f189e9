// A sync of which the output fails goes to its end all the same.
ghost use Rattle.std.specs.Prelude.{◌≡◌, ◌<◌, IfOk, IsTrue, false, length, map, string_bytes, true};
ghost use Rattle.disk_memory.specs.Folder.{folder_view};
ghost use Rattle.disk_memory.specs.Sink.{sink_view};
ghost use Rattle.disk_memory.specs.Vault.{vault_view};
ghost use Rattle.snap_top.specs.Levels.{is_split};
ghost use Rattle.snap_top_histories.specs.Lived.{IsNew};
ghost use Rattle.snap_top_histories.specs.Repeated.{are_calm};
ghost use Rattle.snap_top_refusals.specs.Unheard.{HasLevels, HasParityByte, IsSyncedUnheard, RunsUnheard};

use disk_memory::{MemFolder, MemOpener, MemSink, MemVault};
use disk_model::{Opener, Vault};
use snap_config::read_config;
use snap_top::laws::headline;
use snap_top_histories::lived::{Made, SEED};
use snap_top_histories::repeated::have_not_failed;
use snap_top_instances::asked::{asks_plain_sync, has_split};
use snap_top_instances::told::{Whole, opened_well, run_whole};
use snap_top_memory::arrays::{Array, folders, owned};
use std::alloc::Global;
use std::test::Fail;
use std::thread::Threads;

/// Makes a sync of an array without content, of which each write to the output fails. It answers the status, and nothing
/// unless that is 3, no call of the opener, a folder or the vault failed, and the first level has a byte that is not zero.
pub fn sync_unheard<R: Threads + Sync>(
    rt: &R,
    alloc: Global,
    array: Array,
    words: &[&str],
) -> Result<u8, Fail>
    ensures { IfOk result (IsSyncedUnheard (⟦<MemOpener<MemFolder, MemVault> as Opener>⟧.view) folder_view vault_view sink_view) }
{
    headline::<MemOpener<MemFolder, MemVault>, MemFolder, MemVault, MemSink>();
    let line = owned(alloc, words)?;
    let words = line.as_slice();
    if !has_levels(alloc, array.config) {
        return Err("no level, or one of several files".into());
    }
    if !asks_plain_sync(alloc, words) {
        return Err("no sync, or one with options".into());
    }
    let disks = folders(alloc, array)?;
    let fresh = MemVault::new(alloc, array.levels, array.copies)?;
    let made = run_calm(rt, alloc, words, array.config, disks, fresh)?;
    let Made { status, vault, .. } = made;
    if status != 3 {
        return Err("the output did not fail".into());
    }
    if !has_parity_byte(vault) {
        return Err("no parity, or all of it is zero".into());
    }
    Ok(status)
}

// A run of which each write to the output fails, and no call of a folder or of the vault.
fn run_calm<R: Threads + Sync>(
    rt: &R,
    alloc: Global,
    words: &[String],
    config: &str,
    folders: Vec<MemFolder>,
    vault: MemVault,
) -> Result<Made, Fail>
    requires { IsNew (vault_view vault) }
    ensures ran { IfOk result (λ made. RunsUnheard (⟦<MemOpener<MemFolder, MemVault> as Opener>⟧.view) folder_view vault_view sink_view
        config.now (map string_bytes words.now) SEED (map folder_view folders.items) (vault_view vault)
        made.status made.folders.items made.vault) }
    ensures faults { IfOk result (λ made. (vault_view made.vault).faults ≡ 0) }
    ensures calm { IfOk result (λ made. are_calm folder_view made.folders.items ≡ true) }
{
    let made = run_unheard(rt, alloc, words, config, folders, vault)?;
    if made.vault.faults() > 0 {
        return Err("a call of the vault failed".into());
    }
    if !have_not_failed(made.folders.as_slice()) {
        return Err("a call of a folder failed".into());
    }
    Ok(made)
}

// A run of which each write to the output fails.
fn run_unheard<R: Threads + Sync>(
    rt: &R,
    alloc: Global,
    words: &[String],
    config: &str,
    folders: Vec<MemFolder>,
    vault: MemVault,
) -> Result<Made, Fail>
    requires { IsNew (vault_view vault) }
    ensures { IfOk result (λ made. RunsUnheard (⟦<MemOpener<MemFolder, MemVault> as Opener>⟧.view) folder_view vault_view sink_view
        config.now (map string_bytes words.now) SEED (map folder_view folders.items) (vault_view vault)
        made.status made.folders.items made.vault) }
{
    let whole = run_whole(rt, alloc, words, config, folders, vault, true)?;
    let Whole {
        status,
        folders,
        vault,
        opener,
        ..
    } = whole;
    if !opened_well(opener) {
        return Err("the opener failed".into());
    }
    Ok(Made {
        status,
        folders,
        vault,
    })
}

const LONGEST: usize = 1_048_577;

// Whether a configuration is read, it has a level, and each level has one file.
fn has_levels(alloc: Global, config: &str) -> bool
    ensures { IsTrue result → HasLevels config.now }
{
    if config.len() > LONGEST {
        return false;
    }
    match read_config(alloc, config.as_bytes(), None) {
        Ok(setup) => has_whole_level(setup.parts.as_slice()),
        Err(_) => false,
    }
}

// Whether there is a level, and each has one file.
fn has_whole_level(parts: &[u32]) -> bool
    ensures whole { IsTrue result → is_split parts.now ≡ false }
    ensures some { IsTrue result → 0 < length parts.now }
{
    if parts.is_empty() {
        return false;
    }
    !has_split(parts)
}

// Whether the first level of a vault begins with a byte that is not zero.
fn has_parity_byte(vault: MemVault) -> bool
    ensures { IsTrue result → HasParityByte (vault_view vault) }
{
    let mut vault = vault;
    if vault.levels() == 0 {
        return false;
    }
    let mut bytes = [0u8; 1];
    let Ok(count) = vault.parity_read(0, 0, &mut bytes) else {
        return false;
    };
    if count == 0 {
        return false;
    }
    bytes[0] != 0
}
