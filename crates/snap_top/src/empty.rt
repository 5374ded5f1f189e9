// The table of an array without content.
ghost use Rattle.std.specs.Prelude.{◌≡◌, IfOk, IfErr};
ghost use Rattle.file_table.specs.Valid.{IsValid};
ghost use Rattle.array_setup.specs.Setup.{IsSetup, setup_value};
ghost use Rattle.snap_top.specs.Array.{empty_table};

use array_setup::Setup;
use block_hash::Kind;
use disk_model::NoMemory;
use file_table::{BuildFault, Builder, Shape, Table};
use std::alloc::Global;

fn build(alloc: Global, setup: &Setup, seed: [u8; 16]) -> Result<Table, BuildFault>
    requires { IsSetup (setup_value setup.now) }
    ensures table { IfOk result (λ table. table ≡ empty_table (setup_value setup.now) seed) }
    ensures valid { IfOk result IsValid }
    ensures memory { IfErr result (λ fault. fault ≡ BuildFault.Memory) }
{
    let shape = Shape {
        block_size: setup.block_size,
        levels: setup.parts.len() as u32,
        kind: Kind::Md5,
        seed,
    };
    let mut builder = Builder::new(alloc, shape, 0)?;
    for disk in setup.disks.as_slice() {
        let name = disk.name.copy()?;
        if let Err(fault) = builder.push_disk(name) {
            return Err(fault);
        }
    }
    builder.finish()
}

/// The table of the array of a configuration without content. The configuration was accepted, so the builder refuses
/// nothing of it but for want of memory.
pub(crate) fn empty(alloc: Global, setup: &Setup, seed: [u8; 16]) -> Result<Table, NoMemory>
    requires { IsSetup (setup_value setup.now) }
    ensures table { IfOk result (λ table. table ≡ empty_table (setup_value setup.now) seed) }
    ensures valid { IfOk result IsValid }
{
    match build(alloc, setup, seed) {
        Ok(table) => Ok(table),
        Err(_) => Err(NoMemory),
    }
}
