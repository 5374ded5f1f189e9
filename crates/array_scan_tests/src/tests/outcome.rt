// Layouts, and what is written of them.
ghost use Rattle.std.specs.Prelude.{◌≡◌, ◌<◌, length, All};
ghost use Rattle.disk_model.specs.Tree.{IsListing};
ghost use Rattle.folder_listing.specs.Kept.{lists_of};

use crate::tests::array::{File, listed_files, no_files, setup};
use crate::tests::synced::synced_plan;
use array_scan::{Plan, ScanFault, lay_out, lay_out_in_place};
use array_setup::{Setup, SyncWay};
use file_table::{Block, Table};
use folder_listing::Listing;
use std::alloc::Global;
use std::test::Fail;

// Without options, with `-Z`, with `-E`.
pub const PLAIN: SyncWay = SyncWay {
    force_zero: false,
    force_empty: false,
    save_every: None,
};

pub const ZERO: SyncWay = SyncWay {
    force_zero: true,
    ..PLAIN
};

pub const EMPTY: SyncWay = SyncWay {
    force_empty: true,
    ..PLAIN
};

// A path with the positions of its blocks.
fn push_file(text: &mut String, alloc: Global, path: &str, blocks: &[Block]) -> Result<(), Fail> {
    text.push_str(path)?;
    for block in blocks {
        text.push_str(format!(in alloc; " {}", block.position)?.as_str())?;
    }
    text.push_str("; ")?;
    Ok(())
}

// The paths of a column with their positions.
fn push_column(text: &mut String, alloc: Global, table: &Table, d: u32) -> Result<(), Fail>
    requires { d < length table.now.columns }
{
    for rec in 0..table.records(d) {
        let path = table.path(d, rec).as_str();
        push_file(text, alloc, path, table.blocks(d, rec))?;
    }
    Ok(())
}

// Paths with their positions, column by column, and the length.
fn text_of(alloc: Global, plan: &Plan) -> Result<String, Fail> {
    let mut text = String::new(alloc);
    for d in 0..plan.table.disks() {
        push_column(&mut text, alloc, &plan.table, d)?;
    }
    let length = plan.table.length();
    text.push_str(format!(in alloc; "length {length}; pending")?.as_str())?;
    Ok(text)
}

// The same with the pending stripes; or the refusal.
pub fn outcome_of(alloc: Global, outcome: &Result<Plan, ScanFault>) -> Result<String, Fail> {
    match outcome {
        Ok(plan) => {
            let mut text = text_of(alloc, plan)?;
            for stripe in &plan.pending {
                text.push_str(format!(in alloc; " {stripe}")?.as_str())?;
            }
            Ok(text)
        }
        Err(fault) => Ok(format!(in alloc; "{fault:?}")?),
    }
}

// The layout of these listings.
pub fn lay(
    alloc: Global,
    old: &Table,
    lists: Vec<Listing>,
    setup: &Setup,
    way: &SyncWay,
) -> Result<Plan, ScanFault>
    requires columns { length old.now.columns ≡ length lists.items }
    requires disks { length setup.now.disks ≡ length lists.items }
    requires order { All IsListing (lists_of lists.items) }
{
    lay_out(alloc, old, &lists, setup, way)
}

// The same in the place of the old table.
fn lay_in_place(
    alloc: Global,
    old: Table,
    lists: Vec<Listing>,
    setup: &Setup,
    way: &SyncWay,
) -> Result<Plan, ScanFault>
    requires columns { length old.columns ≡ length lists.items }
    requires disks { length setup.now.disks ≡ length lists.items }
    requires order { All IsListing (lists_of lists.items) }
{
    match lay_out_in_place(alloc, old, &lists, setup, way) {
        Ok(plan) => Ok(plan),
        Err(unlaid) => Err(unlaid.fault),
    }
}

// The layout of some files over the synced layout of others, which is the same in its place.
fn laid_over(
    alloc: Global,
    before: &[File],
    after: &[File],
    way: &SyncWay,
) -> Result<String, Fail> {
    let setup = setup(alloc)?;
    let empty = no_files(alloc)?;
    let lists = listed_files(alloc, before)?;
    let first = lay(alloc, &empty, lists, &setup, &PLAIN)
        .ok()
        .ok_or("refused")?;
    let old = synced_plan(alloc, &first)?;
    let outcome = lay(alloc, &old, listed_files(alloc, after)?, &setup, way);
    let text = outcome_of(alloc, &outcome)?;
    let in_place = lay_in_place(alloc, old, listed_files(alloc, after)?, &setup, way);
    let same = outcome_of(alloc, &in_place)? == text;
    Ok(same.then_some(text).ok_or("another layout in place")?)
}

// Whether that is the outcome.
pub fn is_laid(
    alloc: Global,
    before: &[File],
    after: &[File],
    way: SyncWay,
    want: &str,
) -> Result<bool, Fail> {
    Ok(laid_over(alloc, before, after, &way)?.as_str() == want)
}
