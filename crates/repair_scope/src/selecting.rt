// What a run is for.
ghost use Rattle.std.specs.Prelude.{◌≡◌, ◌<◌, [], length, get_or, IfOk, IfSome};
ghost use Rattle.std.specs.List.{list_any};
ghost use Rattle.disk_model.specs.Name.{level_names};
ghost use Rattle.file_table.specs.Table.{Record, column_at, record_at};
ghost use Rattle.array_setup.specs.Matching.{matches};
ghost use Rattle.repair_scope.specs.Plan.{EntriesFit, IsScope, seen, stripes_of, is_in_scope, selected_cell, selects_cell, selects_record, selects_level, has_selected_cell, has_selected_level, is_looked_at};
ghost use Rattle.repair_scope.specs.Selected.{selects as selects_by, is_named, means_disk, means_path, is_as_recorded, means_all, means_level};

use crate::plan::Plan;
use crate::scope::{Mode, Scope};
use array_setup::{Pattern, Selection, matches};
use disk_model::{Meta, NoMemory, Path, Text};
use file_table::Cell;
use std::alloc::Global;

// The name of a level, by its keyword in a configuration.
fn level_name(level: usize) -> &'static str
    requires { level < 6 }
    ensures { result.now ≡ get_or level_names level [] }
{
    match level {
        0 => "parity",
        1 => "2-parity",
        2 => "3-parity",
        3 => "4-parity",
        4 => "5-parity",
        _ => "6-parity",
    }
}

// Whether one of the names is this one.
fn is_named(names: &[Text], name: &str) -> bool
    ensures { result ≡ is_named names.now name.now }
{
    names.iter().any(|other| name == other.as_str())
}

fn means_disk(selection: &Selection, name: &str) -> bool
    ensures { result ≡ means_disk selection.now name.now }
{
    let disks = selection.disks.as_slice();
    disks.is_empty() || is_named(disks, name)
}

// Whether one of the patterns matches a path.
fn matches_one(patterns: &[Pattern], path: &Path) -> bool
    ensures { result ≡ list_any (λ pattern. matches pattern path.now) patterns.now }
{
    patterns.iter().any(|pattern| matches(pattern, path))
}

fn means_path(selection: &Selection, path: &Path) -> bool
    ensures { result ≡ means_path selection.now path.now }
{
    let patterns = selection.patterns.as_slice();
    patterns.is_empty() || matches_one(patterns, path)
}

// Whether nothing is left out by disk, path or absence.
fn means_all(selection: &Selection) -> bool
    ensures { result ≡ means_all selection.now }
{
    selection.disks.as_slice().is_empty()
        && selection.patterns.as_slice().is_empty()
        && !selection.missing
}

fn means_level(selection: &Selection, level: usize) -> bool
    requires { level < 6 }
    ensures { result ≡ means_level selection.now level }
{
    means_all(selection) || is_named(selection.disks.as_slice(), level_name(level))
}

/// What a run is to do, and what for.
pub fn scope_of(mode: Mode, selection: &Selection) -> Scope
    ensures { IsScope mode selection.now result }
{
    let mut levels = [false; 6];
    for level in 0..6 {
        levels[level] = means_level(selection, level);
    }
    Scope {
        mode,
        only_bad: selection.errors,
        levels,
    }
}

/// Whether a file was listed with this size and stamp.
pub fn is_as_recorded(meta: Meta, found: Option<Meta>) -> bool
    ensures { result ≡ is_as_recorded meta found }
{
    found == Some(meta)
}

/// Whether a record of a disk is selected, where this was listed under its path.
pub fn selects(
    selection: &Selection,
    name: &str,
    path: &Path,
    meta: Meta,
    found: Option<Meta>,
) -> bool
    ensures { (kept : Record) → kept.path ≡ path.now → kept.meta ≡ meta →
        result ≡ selects_by selection.now name.now kept found }
{
    means_disk(selection, name)
        && means_path(selection, path)
        && (!selection.missing || !found.is_some())
        && (!selection.errors || is_as_recorded(meta, found))
}

// Whether a stripe is in scope.
fn is_in_scope(plan: &Plan<'_>, stripe: u32) -> bool
    requires { stripe < length plan.now.table.now.infos }
    ensures { result ≡ is_in_scope (seen plan.now) stripe }
{
    !plan.scope.only_bad || plan.table.info(stripe).bad
}

/// Whether a record of a column is selected, where a stripe has a block of it.
pub fn selects_record(plan: &Plan<'_>, stripe: u32, d: u32, rec: u32) -> bool
    requires entries { EntriesFit plan.now.table.now plan.now.entries.now }
    requires stripe { stripe < length plan.now.table.now.infos }
    requires column { d < length plan.now.table.now.columns }
    requires rec { rec < length (column_at plan.now.table.now.columns d).records }
    ensures { result ≡ selects_record (seen plan.now) stripe d rec }
{
    is_in_scope(plan, stripe) && plan.entries.at(d, rec).selected
}

/// The cell of a column at a stripe, if it is selected. A stripe that is not in scope is not searched for one.
pub fn selected_cell(plan: &Plan<'_>, stripe: u32, d: u32) -> Option<Cell>
    requires entries { EntriesFit plan.now.table.now plan.now.entries.now }
    requires stripe { stripe < length plan.now.table.now.infos }
    requires column { d < length plan.now.table.now.columns }
    ensures value { result ≡ selected_cell (seen plan.now) stripe d }
    ensures rec { IfSome result (λ cell. cell.rec < length (column_at plan.now.table.now.columns d).records) }
    ensures block { IfSome result (λ cell.
        cell.index < length (record_at plan.now.table.now.columns d cell.rec).blocks) }
{
    if !is_in_scope(plan, stripe) {
        return None;
    }
    let cell = plan.table.cell(stripe, d)?;
    if plan.entries.at(d, cell.rec).selected {
        Some(cell)
    } else {
        None
    }
}

/// Whether the cell of a column at a stripe is selected.
pub fn selects_cell(plan: &Plan<'_>, stripe: u32, d: u32) -> bool
    requires entries { EntriesFit plan.now.table.now plan.now.entries.now }
    requires stripe { stripe < length plan.now.table.now.infos }
    requires column { d < length plan.now.table.now.columns }
    ensures { result ≡ selects_cell (seen plan.now) stripe d }
{
    selected_cell(plan, stripe, d).is_some()
}

/// Whether a level is selected at a stripe.
pub fn selects_level(plan: &Plan<'_>, stripe: u32, level: u32) -> bool
    requires stripe { stripe < length plan.now.table.now.infos }
    requires level { level < 6 }
    ensures { result ≡ selects_level (seen plan.now) stripe level }
{
    is_in_scope(plan, stripe) && plan.scope.levels[level as usize]
}

/// Whether a stripe has a selected cell.
pub fn has_selected_cell(plan: &Plan<'_>, stripe: u32) -> bool
    requires entries { EntriesFit plan.now.table.now plan.now.entries.now }
    requires stripe { stripe < length plan.now.table.now.infos }
    ensures { result ≡ has_selected_cell (seen plan.now) stripe }
{
    for d in 0..plan.table.disks() {
        if selects_cell(plan, stripe, d) {
            return true;
        }
    }
    false
}

/// Whether a stripe has a selected level.
pub fn has_selected_level(plan: &Plan<'_>, stripe: u32) -> bool
    requires { stripe < length plan.now.table.now.infos }
    ensures { result ≡ has_selected_level (seen plan.now) stripe }
{
    for level in 0..plan.table.shape().levels {
        if selects_level(plan, stripe, level) {
            return true;
        }
    }
    false
}

// Whether a stripe has a selected cell or level. Levels come first: no search is needed for them.
fn is_looked_at(plan: &Plan<'_>, stripe: u32) -> bool
    requires entries { EntriesFit plan.now.table.now plan.now.entries.now }
    requires stripe { stripe < length plan.now.table.now.infos }
    ensures { result ≡ is_looked_at (seen plan.now) stripe }
{
    has_selected_level(plan, stripe) || has_selected_cell(plan, stripe)
}

/// The stripes with a selected cell or level, ascending.
pub fn stripes_to_look_at(alloc: Global, plan: &Plan<'_>) -> Result<Vec<u32>, NoMemory>
    requires { EntriesFit plan.now.table.now plan.now.entries.now }
    ensures { IfOk result (λ stripes. stripes.items ≡ stripes_of (seen plan.now)) }
{
    let mut stripes = Vec::new(alloc);
    for stripe in 0..plan.table.length() {
        if is_looked_at(plan, stripe) {
            stripes.push(stripe)?;
        }
    }
    Ok(stripes)
}
