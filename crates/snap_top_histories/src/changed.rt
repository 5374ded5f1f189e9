// What happens to an array between two runs: the owner takes a file away, a level is changed from outside, or there is another
// configuration.
ghost use Rattle.std.specs.Prelude.{◌≡◌, IfOk, map};
ghost use Rattle.disk_memory.specs.Folder.{folder_view};
ghost use Rattle.disk_memory.specs.Sink.{sink_view};
ghost use Rattle.disk_memory.specs.Vault.{vault_view};
ghost use Rattle.disk_model.specs.Vault.{copies_of};
ghost use Rattle.snap_top_histories.specs.Changed.{IsChangedLevel};
ghost use Rattle.snap_top_histories.specs.Lived.{HasHistory, IsNew};

use crate::lived::{Lived, Told, live_on};
use disk_memory::{MemFolder, MemOpener, MemVault};
use disk_model::{Opener, Path, Vault};
use std::alloc::Global;
use std::test::Fail;
use std::thread::Threads;

/// The owner takes a file of a disk away.
pub fn edit<'a>(alloc: Global, lived: Lived<'a>, disk: usize, name: &str) -> Result<Lived<'a>, Fail>
    requires fresh { IsNew (vault_view lived.vault) }
    requires lived { HasHistory (⟦<MemOpener<MemFolder, MemVault> as Opener>⟧.view) folder_view vault_view sink_view
        lived.config.now (map folder_view lived.folders.items) (vault_view lived.vault) lived.statuses.items }
    ensures fresh { IfOk result (λ lived. IsNew (vault_view lived.vault)) }
    ensures lived { IfOk result (λ lived. HasHistory (⟦<MemOpener<MemFolder, MemVault> as Opener>⟧.view) folder_view vault_view sink_view
        lived.config.now (map folder_view lived.folders.items) (vault_view lived.vault) lived.statuses.items) }
{
    let Lived {
        config,
        mut folders,
        vault,
        statuses,
    } = lived;
    let path = Path::new(alloc, name)?;
    let taken = match folders.get_mut(disk) {
        Some(folder) => folder.remove(&path),
        None => false,
    };
    if !taken {
        return Err("no such file".into());
    }
    Ok(Lived {
        config,
        folders,
        vault,
        statuses,
    })
}

/// A parity file gets other bytes from outside, and all blocks of its level count as changed from then on.
pub fn damage<'a>(lived: Lived<'a>, level: u32, bytes: &[u8]) -> Result<Lived<'a>, Fail>
    requires fresh { IsNew (vault_view lived.vault) }
    requires lived { HasHistory (⟦<MemOpener<MemFolder, MemVault> as Opener>⟧.view) folder_view vault_view sink_view
        lived.config.now (map folder_view lived.folders.items) (vault_view lived.vault) lived.statuses.items }
    ensures fresh { IfOk result (λ lived. IsNew (vault_view lived.vault)) }
    ensures lived { IfOk result (λ lived. HasHistory (⟦<MemOpener<MemFolder, MemVault> as Opener>⟧.view) folder_view vault_view sink_view
        lived.config.now (map folder_view lived.folders.items) (vault_view lived.vault) lived.statuses.items) }
{
    let Lived {
        config,
        folders,
        vault,
        statuses,
    } = lived;
    let vault = with_level(vault, level, bytes)?;
    Ok(Lived {
        config,
        folders,
        vault,
        statuses,
    })
}

/// Another configuration, by which a level stands in another file: it holds other bytes.
pub fn configure<'a>(
    lived: Lived<'a>,
    config: &'a str,
    level: u32,
    bytes: &[u8],
) -> Result<Lived<'a>, Fail>
    requires fresh { IsNew (vault_view lived.vault) }
    requires lived { HasHistory (⟦<MemOpener<MemFolder, MemVault> as Opener>⟧.view) folder_view vault_view sink_view
        lived.config.now (map folder_view lived.folders.items) (vault_view lived.vault) lived.statuses.items }
    ensures fresh { IfOk result (λ lived. IsNew (vault_view lived.vault)) }
    ensures lived { IfOk result (λ lived. HasHistory (⟦<MemOpener<MemFolder, MemVault> as Opener>⟧.view) folder_view vault_view sink_view
        lived.config.now (map folder_view lived.folders.items) (vault_view lived.vault) lived.statuses.items) }
{
    let Lived {
        folders,
        vault,
        statuses,
        ..
    } = lived;
    let vault = with_level(vault, level, bytes)?;
    Ok(Lived {
        config,
        folders,
        vault,
        statuses,
    })
}

// The vault with other bytes in a level.
fn with_level(vault: MemVault, level: u32, bytes: &[u8]) -> Result<MemVault, Fail>
    requires { IsNew (vault_view vault) }
    ensures { IfOk result (λ made. IsChangedLevel level (vault_view vault) (vault_view made)) }
{
    if level >= vault.levels() {
        return Err("no such level".into());
    }
    let mut vault = vault;
    vault.set_parity(level, bytes)?;
    Ok(vault)
}

/// What happens to an array: a file of the first disk is taken away before the first run, a level is emptied before the second,
/// and it stands in another file, which is empty, before the third.
pub fn three_changes<'a, R: Threads + Sync>(
    rt: &R,
    alloc: Global,
    lived: Lived<'a>,
    name: &str,
    config: &'a str,
    runs: &[Told; 3],
) -> Result<Lived<'a>, Fail>
    requires fresh { IsNew (vault_view lived.vault) }
    requires lived { HasHistory (⟦<MemOpener<MemFolder, MemVault> as Opener>⟧.view) folder_view vault_view sink_view
        lived.config.now (map folder_view lived.folders.items) (vault_view lived.vault) lived.statuses.items }
    ensures fresh { IfOk result (λ lived. IsNew (vault_view lived.vault)) }
    ensures lived { IfOk result (λ lived. HasHistory (⟦<MemOpener<MemFolder, MemVault> as Opener>⟧.view) folder_view vault_view sink_view
        lived.config.now (map folder_view lived.folders.items) (vault_view lived.vault) lived.statuses.items) }
{
    let [first, second, third] = runs;
    let lived = edit(alloc, lived, 0, name)?;
    let lived = live_on(rt, alloc, lived, first.0, first.1)?;
    let lived = damage(lived, 0, b"")?;
    let lived = live_on(rt, alloc, lived, second.0, second.1)?;
    let lived = configure(lived, config, 0, b"")?;
    live_on(rt, alloc, lived, third.0, third.1)
}
