// The engines over the array, told to nobody.
ghost use Rattle.std.specs.Prelude.{◌≡◌, ◌↔◌, length, map, false, IfOk, IsTrue};
ghost use Rattle.disk_calm.specs.Calm.{calm_folder_view, calm_value};
ghost use Rattle.array_setup.specs.Setup.{setup_value};
ghost use Rattle.snap_exercise.specs.Exercised.{IsChecked, IsFixed, IsSynced, NoneFailed, array_of};
ghost use Rattle.snap_exercise.specs.Generated as generated;
ghost use Rattle.snap_sync.specs.Part.{trees_of};

use crate::array::{MOMENT, READERS, WAY, everything, first_table};
use array_setup::Setup;
use disk_calm::{CalmFolder, CalmSink, CalmVault};
use disk_model::{Folder, NoMemory, Vault};
use file_table::Table;
use snap_fix::{FixEnd, Mode, NoSpare, repair};
use snap_report::{Lines, Report};
use snap_sync::{SyncEnd, sync};
use std::alloc::Global;
use std::thread::Threads;

/// Whether a call of the array's objects failed, for which want of memory is the only cause.
pub(crate) fn has_failed(folders: &[CalmFolder], vault: &CalmVault) -> bool
    ensures { result ≡ false → NoneFailed (array_of (map calm_folder_view folders.now) (calm_value vault.now)) }
{
    for folder in folders {
        if folder.faults() > 0 {
            return true;
        }
    }
    vault.faults() > 0
}

/// Whether folders have the same files as others.
pub(crate) fn have_same_trees(folders: &[CalmFolder], others: &[CalmFolder]) -> bool
    ensures { IsTrue result ↔ (trees_of (map calm_folder_view folders.now) ≡ trees_of (map calm_folder_view others.now)) }
{
    if folders.len() != others.len() {
        return false;
    }
    for d in 0..folders.len() {
        if !folders[d].has_files_of(&others[d]) {
            return false;
        }
    }
    true
}

/// Syncs the array. What an engine refuses is want of memory: nothing else can be.
pub(crate) fn sync_array<R: Threads + Sync>(
    rt: &R,
    alloc: Global,
    setup: &Setup,
    folders: &mut [CalmFolder],
    vault: &mut CalmVault,
) -> Result<SyncEnd, NoMemory>
    requires setup { setup_value setup.now ≡ generated.setup }
    requires folders { length folders.old ≡ 8 }
    requires levels { (calm_value vault.old).levels ≡ 3 }
    ensures { IfOk result (IsSynced (array_of (map calm_folder_view folders.old) (calm_value vault.old))
        (array_of (map calm_folder_view folders.new) (calm_value vault.new))) }
{
    let table = first_table(alloc)?;
    let mut sink = CalmSink::new();
    let mut lines = Lines::over(&mut sink);
    let mut reports: Vec<Box<dyn Report>> = Vec::new(alloc);
    match sync(
        rt,
        alloc,
        folders,
        vault,
        setup,
        &WAY,
        READERS,
        table,
        MOMENT,
        &mut reports,
        &mut lines,
    ) {
        Ok(end) => Ok(end),
        Err(_) => Err(NoMemory),
    }
}

/// Fixes the array by the table of its sync.
pub(crate) fn fix_array<R: Threads + Sync>(
    rt: &R,
    alloc: Global,
    setup: &Setup,
    folders: &mut [CalmFolder],
    vault: &mut CalmVault,
    table: &Table,
) -> Result<FixEnd, NoMemory>
    requires setup { setup_value setup.now ≡ generated.setup }
    requires columns { length table.now.columns ≡ 8 }
    requires shape { table.now.shape.levels ≡ 3 }
    requires folders { length folders.old ≡ 8 }
    requires levels { (calm_value vault.old).levels ≡ 3 }
    ensures { IfOk result (IsFixed table.now (array_of (map calm_folder_view folders.old) (calm_value vault.old))
        (array_of (map calm_folder_view folders.new) (calm_value vault.new))) }
{
    let mut sink = CalmSink::new();
    let mut lines = Lines::over(&mut sink);
    let mut reports: Vec<Box<dyn Report>> = Vec::new(alloc);
    match repair(
        rt,
        alloc,
        Mode::Fix,
        &everything(alloc),
        setup,
        folders,
        vault,
        &mut NoSpare,
        READERS,
        table,
        &mut reports,
        &mut lines,
    ) {
        Ok(end) => Ok(end),
        Err(_) => Err(NoMemory),
    }
}

/// Checks the array by the table of its sync.
pub(crate) fn check_array<R: Threads + Sync>(
    rt: &R,
    alloc: Global,
    setup: &Setup,
    folders: &mut [CalmFolder],
    vault: &mut CalmVault,
    table: &Table,
) -> Result<FixEnd, NoMemory>
    requires setup { setup_value setup.now ≡ generated.setup }
    requires columns { length table.now.columns ≡ 8 }
    requires shape { table.now.shape.levels ≡ 3 }
    requires folders { length folders.old ≡ 8 }
    requires levels { (calm_value vault.old).levels ≡ 3 }
    ensures { IfOk result (IsChecked table.now (array_of (map calm_folder_view folders.old) (calm_value vault.old))
        (array_of (map calm_folder_view folders.new) (calm_value vault.new))) }
{
    let mut sink = CalmSink::new();
    let mut lines = Lines::over(&mut sink);
    let mut reports: Vec<Box<dyn Report>> = Vec::new(alloc);
    match repair(
        rt,
        alloc,
        Mode::Check,
        &everything(alloc),
        setup,
        folders,
        vault,
        &mut NoSpare,
        READERS,
        table,
        &mut reports,
        &mut lines,
    ) {
        Ok(end) => Ok(end),
        Err(_) => Err(NoMemory),
    }
}
