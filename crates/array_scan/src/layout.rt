// The layout of an array.
ghost use Rattle.std.specs.Prelude.{◌≡◌, length, All, IfOk, IfErr, None};
ghost use Rattle.disk_model.specs.Tree.{IsListing};
ghost use Rattle.array_setup.specs.Setup.{setup_value};
ghost use Rattle.file_table.specs.Valid.{IsValid};
ghost use Rattle.folder_listing.specs.Kept.{kept_lists, lists_of};
ghost use Rattle.array_scan.specs.Fates.{HasMeta};
ghost use Rattle.array_scan.specs.Layout.{sorted_of, all_sorted, layout, is_pending, pending_stripes, AreSound};
ghost use Rattle.array_scan.specs.Refusals.{refusal, IsCause};

use crate::ScanFault;
use crate::building::build;
use crate::placing::place_all;
use crate::refusing::refusal;
use crate::sorting::{ColumnFiles, sort_files};
use crate::unchanged::is_unchanged;
use array_setup::{Setup, SyncWay};
use disk_model::NoMemory;
use file_table::{Mark, Table};
use folder_listing::{Listing, kept};
use std::alloc::Global;

/// The table that a sync works on, and its pending stripes, ascending.
#[derive(Drop)]
pub struct Plan {
    pub table: Table,
    pub pending: Vec<u32>,
}

/// Why files were not laid out, and the table over which they were to be.
#[derive(Drop)]
pub struct Unlaid {
    pub fault: ScanFault,
    pub table: Table,
}

// The kept files of each column, sorted by what became of them.
fn sort_columns(
    alloc: Global,
    old: &Table,
    lists: &[Listing],
    setup: &Setup,
) -> Result<Vec<ColumnFiles>, NoMemory>
    requires lists { length lists.now ≡ length old.now.columns }
    requires disks { length setup.now.disks ≡ length old.now.columns }
    requires order { All IsListing (lists_of lists.now) }
    ensures sorted { IfOk result (λ columns. sorted_of columns.items
        ≡ all_sorted old.now (kept_lists (setup_value setup.now) (lists_of lists.now))) }
    ensures sound { IfOk result (λ columns. AreSound old.now (sorted_of columns.items)) }
    ensures metas { IfOk result (λ columns. All (All HasMeta) (sorted_of columns.items)) }
    ensures valid { IfOk result (λ columns. IsValid old.now) }
{
    let mut columns = Vec::with_capacity(alloc, lists.len())?;
    for d in 0..old.disks() {
        let kept_files = kept(alloc, setup, d, &lists[d as usize].files)?;
        let files = sort_files(alloc, old, d, kept_files)?;
        columns.push(ColumnFiles { files })?;
    }
    Ok(columns)
}

fn is_pending(mark: Mark) -> bool
    ensures { result ≡ is_pending mark }
{
    match mark {
        Mark::Pending => true,
        Mark::Synced => false,
    }
}

// The pending stripes of a table.
fn pending_stripes(alloc: Global, table: &Table) -> Result<Vec<u32>, NoMemory>
    ensures { IfOk result (λ pending. pending.items ≡ pending_stripes table.now.infos) }
{
    let mut pending = Vec::new(alloc);
    for stripe in 0..table.length() {
        if is_pending(table.info(stripe).mark) {
            pending.push(stripe)?;
        }
    }
    Ok(pending)
}

/// The table of the kept files of each column, with the blocks of unchanged and moved files where they were. `Zeroed`
/// where a file that had bytes is empty now, unless that is forced; else `Emptied` where a column has records and none
/// of them is unchanged or moved, unless that is forced; else `Full` where a table cannot have as many blocks or files.
pub fn lay_out(
    alloc: Global,
    old: &Table,
    lists: &[Listing],
    setup: &Setup,
    way: &SyncWay,
) -> Result<Plan, ScanFault>
    requires lists { length lists.now ≡ length old.now.columns }
    requires disks { length setup.now.disks ≡ length old.now.columns }
    requires order { All IsListing (lists_of lists.now) }
    ensures laid { IfOk result (λ plan. plan.table
        ≡ layout old.now (kept_lists (setup_value setup.now) (lists_of lists.now))) }
    ensures pending { IfOk result (λ plan. plan.pending.items ≡ pending_stripes plan.table.infos) }
    ensures unrefused { IfOk result (λ plan. refusal way.now.force_zero way.now.force_empty old.now
        (all_sorted old.now (kept_lists (setup_value setup.now) (lists_of lists.now))) ≡ None) }
    ensures refused { IfErr result (IsCause (refusal way.now.force_zero way.now.force_empty old.now
        (all_sorted old.now (kept_lists (setup_value setup.now) (lists_of lists.now))))) }
{
    let columns = sort_columns(alloc, old, lists, setup)?;
    let files = columns.as_slice();
    if let Some(fault) = refusal(old, files, way) {
        return Err(fault);
    }
    let places = place_all(alloc, old, files)?;
    match build(alloc, old, columns, &places) {
        Ok(table) => {
            let pending = pending_stripes(alloc, &table)?;
            Ok(Plan { table, pending })
        }
        // The layout is valid, so the builder refuses it for memory alone.
        Err(_) => Err(ScanFault::Memory),
    }
}

/// What `lay_out` gives. Where the kept files are just the records, it is the old table, and none is made beside it. A
/// refusal hands the old table back.
pub fn lay_out_in_place(
    alloc: Global,
    old: Table,
    lists: &[Listing],
    setup: &Setup,
    way: &SyncWay,
) -> Result<Plan, Unlaid>
    requires lists { length lists.now ≡ length old.columns }
    requires disks { length setup.now.disks ≡ length old.columns }
    requires order { All IsListing (lists_of lists.now) }
    ensures laid { IfOk result (λ plan. plan.table
        ≡ layout old (kept_lists (setup_value setup.now) (lists_of lists.now))) }
    ensures pending { IfOk result (λ plan. plan.pending.items ≡ pending_stripes plan.table.infos) }
    ensures unrefused { IfOk result (λ plan. refusal way.now.force_zero way.now.force_empty old
        (all_sorted old (kept_lists (setup_value setup.now) (lists_of lists.now))) ≡ None) }
    ensures refused { IfErr result (λ unlaid. IsCause (refusal way.now.force_zero way.now.force_empty old
        (all_sorted old (kept_lists (setup_value setup.now) (lists_of lists.now)))) unlaid.fault) }
    ensures back { IfErr result (λ unlaid. unlaid.table ≡ old) }
{
    if !is_unchanged(&old, lists, setup) {
        return match lay_out(alloc, &old, lists, setup, way) {
            Ok(plan) => Ok(plan),
            Err(fault) => Err(Unlaid { fault, table: old }),
        };
    }
    match pending_stripes(alloc, &old) {
        Ok(pending) => Ok(Plan {
            table: old,
            pending,
        }),
        Err(_) => Err(Unlaid {
            fault: ScanFault::Memory,
            table: old,
        }),
    }
}
