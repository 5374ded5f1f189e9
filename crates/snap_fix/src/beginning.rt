// What comes before anything is read of parity or written.
ghost use Rattle.std.specs.Prelude.{◌≡◌, length, map, IfOk, IfErr};
ghost use Rattle.array_setup.specs.Setup.{setup_value};
ghost use Rattle.snap_fix.specs.Beginning.{Begins, BeginsNot, of_listing};
ghost use Rattle.repair_scope.specs.Plan.{names_of};

use array_setup::{Selection, Setup};
use disk_model::Folder;
use file_table::Table;
use folder_listing::{ListingFault, listings};
use repair_scope::{Entries, Mode, Plan, Scope, scope_of, stripes_to_look_at};
use snap_report::RunFault;
use std::alloc::Global;
use std::thread::Threads;
use stripe_examiner::{Room, place_all};
use stripe_reader::Starts;

/// What a run works with: what it is for, what is known of the files, where they stand, the stripes
/// that are looked at, and all memory that it needs.
#[derive(Drop)]
pub(crate) struct Work {
    pub scope: Scope,
    pub entries: Entries,
    pub starts: Starts,
    pub stripes: Vec<u32>,
    pub room: Room,
}

// Why the run does not begin where the folders are not listed.
fn fault_of(fault: ListingFault) -> RunFault
    ensures { result ≡ of_listing fault }
{
    match fault {
        ListingFault::Folder { disk } => RunFault::Folder { disk },
        ListingFault::Memory => RunFault::Memory,
    }
}

/// Lists each folder once, finds the places of all files, and takes all memory.
pub(crate) fn begin<R: Threads + Sync, F: Folder>(
    rt: &R,
    alloc: Global,
    mode: Mode,
    selection: &Selection,
    setup: &Setup,
    folders: &mut [F],
    table: &Table,
) -> Result<Work, RunFault>
    requires { (length folders.old ≡ length table.now.columns) × (length setup.now.disks ≡ length table.now.columns) }
    ensures begun { IfOk result (λ work. Begins mode selection.now (names_of (setup_value setup.now)) table.now work
        (map F.view folders.old) (map F.view folders.new)) }
    ensures failed { IfErr result (BeginsNot (map F.view folders.old) (map F.view folders.new)) }
{
    // There is a folder for each column, and so no more of them than a table has columns.
    let columns = table.disks() as usize;
    prove!(folders.len() == columns);
    let lists = match listings(rt, alloc, folders) {
        Ok(lists) => lists,
        Err(fault) => return Err(fault_of(fault)),
    };
    let Ok((entries, starts)) = place_all(alloc, selection, setup, table, lists.as_slice()) else {
        return Err(RunFault::Memory);
    };
    // The rest of the memory is taken once that of the listings is given back.
    drop(lists);
    let scope = scope_of(mode, selection);
    let plan = Plan {
        scope,
        table,
        entries: &entries,
    };
    let Ok(stripes) = stripes_to_look_at(alloc, &plan) else {
        return Err(RunFault::Memory);
    };
    let Ok(room) = Room::make(alloc, table) else {
        return Err(RunFault::Memory);
    };
    Ok(Work {
        scope,
        entries,
        starts,
        stripes,
        room,
    })
}
