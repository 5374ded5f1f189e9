// What befalls the array after its sync.
ghost use Rattle.std.specs.Prelude.{◌≡◌, length, map, IfOk, OnOk};
ghost use Rattle.disk_calm.specs.Calm.{calm_folder_view};
ghost use Rattle.snap_exercise.specs.Exercised.{damaged};
ghost use Rattle.snap_exercise.specs.Generated as generated;

use crate::files::{generator_of, make_folder};
use disk_calm::CalmFolder;
use disk_model::NoMemory;
use std::alloc::Global;

// The folder of the third disk, in which each file that is not empty has another first byte.
fn turned_folder(alloc: Global, n: u32) -> Result<CalmFolder, NoMemory>
    ensures { IfOk result (λ folder. calm_folder_view folder ≡ generated.standing (generated.turned_tree n)) }
{
    let mut rng = generator_of(n);
    make_folder(alloc, n, 0, false, &mut rng)?;
    make_folder(alloc, n, 1, false, &mut rng)?;
    make_folder(alloc, n, 2, true, &mut rng)
}

/// The files of the first two disks are deleted, and those of the third have another first byte.
pub(crate) fn damage(alloc: Global, folders: &mut [CalmFolder], n: u32) -> Result<(), NoMemory>
    requires { length folders.old ≡ 8 }
    ensures { OnOk result (map calm_folder_view folders.new ≡ damaged n (map calm_folder_view folders.old)) }
{
    folders[0] = CalmFolder::new(alloc, true);
    folders[1] = CalmFolder::new(alloc, true);
    folders[2] = turned_folder(alloc, n)?;
    Ok(())
}
