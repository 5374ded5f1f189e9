// What comes before the vault is touched.
ghost use Rattle.std.specs.Prelude.{◌≡◌, IfOk, IfErr, length, map};
ghost use Rattle.array_scan.specs.Layout.{pending_stripes};
ghost use Rattle.array_setup.specs.Setup.{setup_value};
ghost use Rattle.snap_sync.specs.Beginning.{LaysOut, BeginsNot};
ghost use Rattle.snap_sync.specs.Work.{IsRoomFor};

use crate::SyncFault;
use crate::room::Room;
use array_scan::{Plan, lay_out_in_place};
use array_setup::{Setup, SyncWay};
use disk_model::Folder;
use file_table::Table;
use folder_listing::listings;
use snap_report::RunFault;
use std::alloc::Global;
use std::thread::Threads;

/// A table that is laid out, its pending stripes, ascending, and all memory that its sync needs.
#[derive(Drop)]
pub(crate) struct Work {
    pub table: Table,
    pub pending: Vec<u32>,
    pub room: Room,
}

/// Lists each folder once, lays out, and takes all memory. A layout that is refused hands the old table back.
pub(crate) fn begin<R: Threads + Sync, F: Folder>(
    rt: &R,
    alloc: Global,
    folders: &mut [F],
    setup: &Setup,
    way: &SyncWay,
    old: Table,
) -> Result<Work, SyncFault>
    requires folders { length folders.old ≡ length old.columns }
    requires disks { length setup.now.disks ≡ length old.columns }
    ensures laid { IfOk result (λ work. LaysOut (setup_value setup.now) way.now old work.table (map F.view folders.old) (map F.view folders.new)) }
    ensures pending { IfOk result (λ work. work.pending.items ≡ pending_stripes work.table.infos) }
    ensures room { IfOk result (λ work. IsRoomFor work.table (length work.pending.items) work.room) }
    ensures failed { IfErr result (BeginsNot (setup_value setup.now) way.now old (map F.view folders.old) (map F.view folders.new)) }
{
    let lists = listings(rt, alloc, folders)?;
    let plan = match lay_out_in_place(alloc, old, lists.as_slice(), setup, way) {
        Ok(plan) => plan,
        Err(unlaid) => return Err(SyncFault::Scan(unlaid.fault, unlaid.table)),
    };
    let Plan { table, pending } = plan;
    let Ok(room) = Room::make(alloc, &table, pending.len()) else {
        return Err(SyncFault::Run(RunFault::Memory));
    };
    Ok(Work {
        table,
        pending,
        room,
    })
}
