// Names of the disks of a table.
ghost use Rattle.std.specs.Prelude.{◌≡◌, ◌↔◌, IsTrue, All, Any};
ghost use Rattle.file_table.specs.Table.{Column};

use crate::disk::Disk;

/// Whether one of these disks has this name.
pub fn has_name(disks: &[Disk], name: &str) -> bool
    ensures { IsTrue result ↔ Any (λ (column : Column). column.name ≡ name.now) disks.now }
{
    for disk in disks {
        if disk.name() == name {
            return true;
        }
    }
    false
}
