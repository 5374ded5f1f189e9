// Whether content and configuration are of one array.
ghost use Rattle.std.specs.Prelude.{◌≡◌, ◌↔◌, IsTrue, MatchOption, option_map};
ghost use Rattle.file_table.specs.Valid.{IsValid};
ghost use Rattle.array_setup.specs.Setup.{IsSetup, setup_value};
ghost use Rattle.snap_top.specs.Array.{Matches, DiffersIn, DiffersFirst, column_names, disk_names};

use crate::Difference;
use crate::saying::{column_name, disk_name};
use array_setup::Setup;
use file_table::Table;

fn is_same_name(one: Option<&str>, other: Option<&str>) -> bool
    ensures { IsTrue result ↔ (option_map (λ text. text.now) one.entry ≡ option_map (λ text. text.now) other.entry) }
{
    match (one, other) {
        (Some(one), Some(other)) => one == other,
        (None, None) => true,
        _ => false,
    }
}

// The first column in which the names of the disks differ.
fn first_other_disk(table: &Table, setup: &Setup) -> Option<u32>
    requires { IsSetup (setup_value setup.now) }
    ensures { MatchOption result (column_names table.now ≡ disk_names (setup_value setup.now))
        (DiffersFirst (column_names table.now) (disk_names (setup_value setup.now))) }
{
    let columns = table.disks().max(setup.disks.as_slice().len() as u32);
    for column in 0..columns {
        if !is_same_name(column_name(table, column), disk_name(setup, column)) {
            return Some(column);
        }
    }
    None
}

/// In what content and configuration differ first.
pub(crate) fn difference(table: &Table, setup: &Setup) -> Option<Difference>
    requires { IsSetup (setup_value setup.now) }
    ensures differs { MatchOption result (Matches (setup_value setup.now) table.now) (DiffersIn (setup_value setup.now) table.now) }
    ensures valid { IsValid table.now }
{
    let shape = table.shape();
    if shape.block_size != setup.block_size {
        return Some(Difference::BlockSize {
            content: shape.block_size,
            configuration: setup.block_size,
        });
    }
    let levels = setup.parts.len() as u32;
    if shape.levels != levels {
        return Some(Difference::Levels {
            content: shape.levels,
            configuration: levels,
        });
    }
    let column = first_other_disk(table, setup)?;
    Some(Difference::DiskName { column })
}
