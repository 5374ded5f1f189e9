// Tables whose blocks all have a hash, and whose stripes are all synced.
ghost use Rattle.std.specs.Prelude.{◌≡◌, ◌<◌, [], length, IfOk};
ghost use Rattle.file_table.specs.Table.{column_at};
ghost use Rattle.file_table.specs.Building.{last_column};

use array_scan::Plan;
use block_hash::Digest16;
use disk_model::{Meta, Stamp, Text};
use file_table::{Block, BuildFault, Builder, Info, Mark, Table};
use std::alloc::Global;
use std::test::Fail;

pub const SYNCED: Info = Info {
    mark: Mark::Synced,
    last: 100,
    bad: false,
    fresh: true,
};

// Pushes these blocks with a hash.
fn push_hashed(builder: &mut Builder, blocks: &[Block]) -> Result<(), BuildFault>
    requires before_infos { builder.old.infos ≡ [] }
    requires column { 0 < length builder.old.columns }
    requires rec { 0 < length (last_column builder.old.columns).records }
    ensures before_infos { builder.new.infos ≡ [] }
    ensures column { 0 < length builder.new.columns }
{
    for block in blocks {
        builder.push_block(block.position, Some(Digest16([9; 16])))?;
    }
    Ok(())
}

// Pushes a file of a table, whose blocks get a hash.
fn push_synced(builder: &mut Builder, table: &Table, rec: u32) -> Result<(), BuildFault>
    requires before_infos { builder.old.infos ≡ [] }
    requires column { 0 < length builder.old.columns }
    requires disk { 0 < length table.now.columns }
    requires rec { rec < length (column_at table.now.columns 0).records }
    ensures before_infos { builder.new.infos ≡ [] }
    ensures column { 0 < length builder.new.columns }
{
    let Meta { size, stamp } = table.meta(0, rec);
    let stamp = Stamp {
        seconds: stamp.seconds,
        nanos: stamp.nanos.min(999_999_999),
    };
    builder.push_record(table.path(0, rec).copy()?, Meta { size, stamp })?;
    push_hashed(builder, table.blocks(0, rec))
}

// Pushes the files of a table, whose blocks get a hash.
fn push_all(builder: &mut Builder, table: &Table) -> Result<(), BuildFault>
    requires before_infos { builder.old.infos ≡ [] }
    requires column { 0 < length builder.old.columns }
    requires disk { 0 < length table.now.columns }
    ensures before_infos { builder.new.infos ≡ [] }
    ensures column { 0 < length builder.new.columns }
{
    for rec in 0..table.records(0) {
        push_synced(builder, table, rec)?;
    }
    Ok(())
}

// The same table with a hash for each block, and each stripe synced.
fn synced(alloc: Global, table: &Table) -> Result<Table, BuildFault>
    requires { 0 < length table.now.columns }
{
    let mut builder = Builder::new(alloc, table.shape(), table.length())?;
    builder.push_disk(Text::new(alloc, "d1")?)?;
    push_all(&mut builder, table)?;
    for _ in 0..table.length() {
        builder.push_info(SYNCED)?;
    }
    builder.finish()
}

// The table of a plan, synced.
pub fn synced_plan(alloc: Global, plan: &Plan) -> Result<Table, Fail>
    ensures { IfOk result (λ table. length table.columns ≡ 1) }
{
    if plan.table.disks() != 1 {
        return Err("not one disk".into());
    }
    let table = synced(alloc, &plan.table)?;
    if table.disks() != 1 {
        return Err("not one disk".into());
    }
    Ok(table)
}
