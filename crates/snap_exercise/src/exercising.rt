// `exercise`.
ghost use Rattle.std.specs.Prelude.{◌≡◌, ◌≤◌, map, IfOk, OnErr, OnOk};
ghost use Rattle.disk_calm.specs.Calm.{calm_folder_view, calm_value, fresh_calm_vault};
ghost use Rattle.snap_exercise.specs.Exercise.{Summary, exercise_text, is_well};
ghost use Rattle.snap_exercise.specs.Exercised.{IsCourse, IsExercise, array_of};
ghost use Rattle.snap_exercise.specs.Generated.{standing, trees};
ghost use Rattle.snap_report.specs.State.{Puts, state_of};
ghost use Rattle.snap_report.specs.Telling.{Settled};

use crate::array::{make_setup, make_vault};
use crate::damage::damage;
use crate::engines::{check_array, fix_array, has_failed, have_same_trees, sync_array};
use crate::files::make_folders;
use crate::telling::tell;
use disk_calm::{CalmFolder, CalmVault};
use disk_model::{NoMemory, Sink};
use snap_fix::FixEnd;
use snap_report::Lines;
use snap_sync::SyncEnd;
use std::alloc::Global;
use std::thread::Threads;

// What the engines answered.
#[derive(Drop)]
struct Ends {
    synced: SyncEnd,
    fixed: FixEnd,
    checked: FixEnd,
}

// Syncs the array of a number, damages it, fixes it and checks it.
fn go_through<R: Threads + Sync>(
    rt: &R,
    alloc: Global,
    n: u32,
    folders: &mut [CalmFolder],
    vault: &mut CalmVault,
) -> Result<Ends, NoMemory>
    requires folders { map calm_folder_view folders.old ≡ map standing (trees n) }
    requires vault { calm_value vault.old ≡ fresh_calm_vault 3 1 }
    ensures { IfOk result (λ ends. IsCourse n ends.synced ends.fixed ends.checked
        (array_of (map calm_folder_view folders.new) (calm_value vault.new))) }
{
    let setup = make_setup(alloc)?;
    let synced = sync_array(rt, alloc, &setup, folders, vault)?;
    if has_failed(folders, vault) {
        return Err(NoMemory);
    }
    damage(alloc, folders, n)?;
    let fixed = fix_array(rt, alloc, &setup, folders, vault, &synced.table)?;
    if has_failed(folders, vault) {
        return Err(NoMemory);
    }
    let checked = check_array(rt, alloc, &setup, folders, vault, &synced.table)?;
    if has_failed(folders, vault) {
        return Err(NoMemory);
    }
    Ok(Ends {
        synced,
        fixed,
        checked,
    })
}

/// Makes the array of a number in memory, syncs it, damages it, fixes it and checks it, and tells in five lines how that went.
/// False where the sync or the check found something, the fix left something, or the files are not those of before. Nothing is
/// told where memory runs out.
pub fn exercise<R: Threads + Sync, W: Sink>(
    rt: &R,
    alloc: Global,
    n: u32,
    lines: &mut Lines<'_, W>,
) -> Result<bool, NoMemory>
    requires { n ≤ 999999999 }
    ensures told { IfOk result (λ well. (s : Summary) × IsExercise n s × (well ≡ is_well s)
        × Puts W.view (exercise_text n s) lines.old lines.new) }
    ensures settled { OnOk result (Settled (state_of W.view lines.new)) }
    ensures untold { OnErr result (lines.new ≡ lines.old) }
{
    let mut folders = make_folders(alloc, n)?;
    let mut vault = make_vault(alloc)?;
    let ends = go_through(rt, alloc, n, folders.as_mut_slice(), &mut vault)?;
    let made = make_folders(alloc, n)?;
    let same = have_same_trees(folders.as_slice(), made.as_slice());
    tell(n, &ends.synced, ends.fixed, ends.checked, same, lines);
    Ok(ends.synced.findings == 0 && ends.fixed.left == 0 && ends.checked.findings == 0 && same)
}
