// The listed files that an array keeps.
ghost use Rattle.std.specs.Prelude.{◌≡◌, ◌<◌, length, IfOk};
ghost use Rattle.disk_model.specs.Tree.{listed};
ghost use Rattle.array_setup.specs.Setup.{setup_value};
ghost use Rattle.folder_listing.specs.Kept.{kept_files};

use array_setup::{Setup, keeps};
use disk_model::{FileInfo, NoMemory};
use std::alloc::Global;

/// The kept files of a column, in the order of its listing.
pub fn kept(
    alloc: Global,
    setup: &Setup,
    column: u32,
    files: &[FileInfo],
) -> Result<Vec<FileInfo>, NoMemory>
    requires { column < length setup.now.disks }
    ensures { IfOk result (λ kept. listed kept.items
        ≡ kept_files (setup_value setup.now) column (listed files.now)) }
{
    let mut kept = Vec::new(alloc);
    for file in files {
        if keeps(setup, column, &file.path) {
            let path = file.path.copy()?;
            let meta = file.meta;
            kept.push(FileInfo { path, meta })?;
        }
    }
    Ok(kept)
}
