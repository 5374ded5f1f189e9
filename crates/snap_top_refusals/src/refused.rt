// Runs that are refused touch nothing: over content with a record, over damaged copies, and before anything is opened.
ghost use Rattle.std.specs.Prelude.{◌≡◌, ◌⊎◌, IfOk, IsTrue, map};
ghost use Rattle.disk_memory.specs.Folder.{folder_view};
ghost use Rattle.disk_memory.specs.Sink.{sink_view};
ghost use Rattle.disk_memory.specs.Vault.{fresh_vault, vault_value, vault_view};
ghost use Rattle.snap_top_histories.specs.Lived.{HasHistory, IsNew};
ghost use Rattle.snap_top_refusals.specs.Refused.{HasDamage, IsRefusedOverContent, IsRefusedOverDamage, IsRefusedUnopened};
ghost use Rattle.snap_top_instances.specs.Told.{HoldsFile};

use content_file::{LoadFault, load};
use disk_memory::{MemFolder, MemOpener, MemSink, MemVault};
use disk_model::{Opener, Path, Vault};
use snap_top::fronts::a_broken_run_prints_a_front;
use snap_top::laws::headline;
use snap_top::run;
use snap_top_histories::lived::{Lived, SEED, left_of};
use snap_top_instances::smooth::has_record;
use snap_top_instances::told::{picked, run_told};
use snap_top_memory::arrays::{Array, NOW, owned, stamp};
use snap_top_memory::next::WRITTEN;
use std::alloc::Global;
use std::test::Fail;
use std::thread::Threads;

/// Runs words over what stands after a history. It answers the status, and nothing unless the run was refused, and there is
/// content with a record of the first disk.
pub fn refuse_over_content<R: Threads + Sync>(
    rt: &R,
    alloc: Global,
    lived: Lived,
    words: &[&str],
) -> Result<u8, Fail>
    requires fresh { IsNew (vault_view lived.vault) }
    requires lived { HasHistory (⟦<MemOpener<MemFolder, MemVault> as Opener>⟧.view) folder_view vault_view sink_view
        lived.config.now (map folder_view lived.folders.items) (vault_view lived.vault) lived.statuses.items }
    ensures { IfOk result (IsRefusedOverContent (⟦<MemOpener<MemFolder, MemVault> as Opener>⟧.view) folder_view vault_view sink_view) }
{
    headline::<MemOpener<MemFolder, MemVault>, MemFolder, MemVault, MemSink>();
    a_broken_run_prints_a_front::<MemOpener<MemFolder, MemVault>, MemFolder, MemVault, MemSink>();
    let line = owned(alloc, words)?;
    let Lived {
        config,
        folders,
        vault,
        ..
    } = lived;
    let copies = vault.copies();
    let seen = left_of(&vault, WRITTEN, copies)?;
    if !has_record(alloc, seen) {
        return Err("no record was there".into());
    }
    let made = run_told(rt, alloc, line.as_slice(), config, folders, vault)?;
    if !is_refused(made.status) {
        return Err("it was not refused".into());
    }
    Ok(made.status)
}

/// The same where a copy gets these bytes from outside before, by which none is a content file any more.
pub fn refuse_over_damage<R: Threads + Sync>(
    rt: &R,
    alloc: Global,
    lived: Lived,
    words: &[&str],
    copy: u32,
    bytes: &[u8],
) -> Result<u8, Fail>
    requires fresh { IsNew (vault_view lived.vault) }
    requires lived { HasHistory (⟦<MemOpener<MemFolder, MemVault> as Opener>⟧.view) folder_view vault_view sink_view
        lived.config.now (map folder_view lived.folders.items) (vault_view lived.vault) lived.statuses.items }
    ensures { IfOk result (IsRefusedOverDamage (⟦<MemOpener<MemFolder, MemVault> as Opener>⟧.view) folder_view vault_view sink_view) }
{
    headline::<MemOpener<MemFolder, MemVault>, MemFolder, MemVault, MemSink>();
    a_broken_run_prints_a_front::<MemOpener<MemFolder, MemVault>, MemFolder, MemVault, MemSink>();
    let line = owned(alloc, words)?;
    let Lived {
        config,
        folders,
        vault,
        ..
    } = lived;
    let copies = vault.copies();
    if copy >= copies {
        return Err("no such copy".into());
    }
    let mut vault = vault;
    vault.set_content(copy, Some(bytes))?;
    let seen = picked(&vault, WRITTEN, copies)?;
    let left = picked(&vault, WRITTEN, copies)?;
    if !is_damaged(alloc, seen) {
        return Err("some copy is a content file, or none is there".into());
    }
    let made = run_told(rt, alloc, line.as_slice(), config, folders, left)?;
    if !is_refused(made.status) {
        return Err("it was not refused".into());
    }
    Ok(made.status)
}

// Whether no copy is a content file, and some is there.
fn is_damaged(alloc: Global, vault: MemVault) -> bool
    ensures { IsTrue result → HasDamage (vault_view vault) }
{
    let mut vault = vault;
    match load(alloc, &mut vault) {
        Err(LoadFault::Damaged(_damages)) => true,
        _ => false,
    }
}

// The status of a run that was refused.
fn is_refused(status: u8) -> bool
    ensures { IsTrue result → (status ≡ 2) ⊎ (status ≡ 5) }
{
    status == 2 || status == 5
}

/// Runs words over a disk with a file of this name. It answers the status, and nothing unless the run was refused before
/// anything was opened.
pub fn refuse_unopened<R: Threads + Sync>(
    rt: &R,
    alloc: Global,
    array: Array,
    words: &[&str],
    name: &str,
) -> Result<u8, Fail>
    ensures { IfOk result (IsRefusedUnopened (⟦<MemOpener<MemFolder, MemVault> as Opener>⟧.view) folder_view vault_view sink_view) }
{
    let line = owned(alloc, words)?;
    let disks = disk_of(alloc, name)?;
    let vault = MemVault::new(alloc, array.levels, array.copies)?;
    refuse_over(
        rt,
        alloc,
        line.as_slice(),
        array.config,
        disks,
        vault,
        array.levels,
        array.copies,
    )
}

// A disk with one file.
fn disk_of(alloc: Global, name: &str) -> Result<Vec<MemFolder>, Fail>
    ensures { IfOk result (λ folders. HoldsFile (map folder_view folders.items)) }
{
    let path = Path::new(alloc, name)?;
    let mut folder = MemFolder::new(alloc, true);
    let done = folder.put(path, stamp(1, 5), b"a")?;
    if !done {
        return Err("no such name".into());
    }
    let mut folders = Vec::new(alloc);
    folders.push(folder)?;
    Ok(folders)
}

// The same over disks of which the first one has a file, and a vault that was made with so many levels and copies.
fn refuse_over<R: Threads + Sync>(
    rt: &R,
    alloc: Global,
    words: &[String],
    config: &str,
    folders: Vec<MemFolder>,
    vault: MemVault,
    levels: u32,
    copies: u32,
) -> Result<u8, Fail>
    requires fresh { IsNew (vault_view vault) }
    requires made { vault_value vault ≡ fresh_vault levels copies }
    requires file { HoldsFile (map folder_view folders.items) }
    ensures { IfOk result (IsRefusedUnopened (⟦<MemOpener<MemFolder, MemVault> as Opener>⟧.view) folder_view vault_view sink_view) }
{
    headline::<MemOpener<MemFolder, MemVault>, MemFolder, MemVault, MemSink>();
    a_broken_run_prints_a_front::<MemOpener<MemFolder, MemVault>, MemFolder, MemVault, MemSink>();
    let config = Vec::from_slice(alloc, config.as_bytes())?;
    let mut opener = MemOpener::new(alloc, config, folders, vault);
    let mut out = MemSink::new(alloc);
    let mut err = MemSink::new(alloc);
    let mut reports = Vec::new(alloc);
    let outcome = run(
        rt,
        alloc,
        words,
        &mut opener,
        &mut reports,
        &mut out,
        &mut err,
        NOW,
        SEED,
    );
    if outcome.vault.is_some() {
        return Err("something was opened".into());
    }
    if !is_refused(outcome.status) {
        return Err("it was not refused".into());
    }
    Ok(outcome.status)
}
