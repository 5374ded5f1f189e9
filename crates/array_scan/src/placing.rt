// The positions of the blocks that have none yet.
ghost use Rattle.std.specs.Prelude.{◌≡◌, ◌≤◌, ◌<◌, ◌+◌, ◌++◌, ℕ, List, length, filter, replicate, not, slice_index_or, false, All, AllPairs, IfOk, OnOk};
ghost use Rattle.std.specs.FinSet as set;
ghost use Rattle.file_table.specs.Table.{column_at, column_blocks, positions_of};
ghost use Rattle.file_table.specs.Valid.{most_blocks};
ghost use Rattle.folder_listing.specs.Kept.{each_column};
ghost use Rattle.array_scan.specs.Fates.{origin, IsSound, ShareNone, AreFates};
ghost use Rattle.array_scan.specs.Laying.{kept_blocks, taken, needed, all_needed, free_positions, given, touched};
ghost use Rattle.array_scan.specs.Layout.{sorted_of, given_of, AreSound, given_at, all_touched};
ghost use Rattle.array_scan.specs.Refusals.{size_of, blocks_in, capped};
ghost use Rattle.array_scan.specs.Marks.{AreHeld, AreTouched, AreFree, StandBelow};

use crate::sorting::{ColumnFiles, Fate, Sorted};
use disk_model::NoMemory;
use file_table::{Block, Table, blocks_for};
use position_alloc::FreeList;
use std::alloc::Global;

/// The positions that a column gives out, in the order of its files.
#[derive(Drop)]
pub(crate) struct Given {
    pub positions: Vec<u32>,
}

/// What the columns give out, and which of the old stripes they touch.
#[derive(Drop)]
pub(crate) struct Places {
    pub given: Vec<Given>,
    pub touched: Vec<bool>,
}

// The record whose blocks a file keeps.
pub(crate) fn origin(fate: Fate) -> Option<u32>
    ensures { result ≡ origin fate }
{
    match fate {
        Fate::Unchanged(rec) | Fate::Moved(rec) => Some(rec),
        Fate::Changed(_) | Fate::New => None,
    }
}

/// How many blocks of a file have no position yet.
pub(crate) fn needed(block_size: u32, file: &Sorted) -> u64
    requires { 0 < block_size }
    ensures { result ≡ needed block_size file.now }
{
    match origin(file.fate) {
        Some(_) => 0,
        None => blocks_for(block_size, file.meta.size),
    }
}

// How many blocks of these files have no position yet.
fn all_needed(block_size: u32, files: &[Sorted]) -> u64
    requires { 0 < block_size }
    ensures { result ≡ capped (all_needed block_size files.now) }
{
    let mut count = 0u64;
    for file in files {
        count = count.saturating_add(needed(block_size, file));
    }
    count
}

// So many stripes, none of them marked.
fn no_marks(alloc: Global, count: usize) -> Result<Vec<bool>, NoMemory>
    ensures { IfOk result (λ marks. marks.items ≡ replicate count false) }
{
    Ok(vec![in alloc; false; count]?)
}

// Takes the positions of blocks that stay.
fn hold_blocks(list: &mut FreeList, held: &mut [bool], blocks: &[Block]) -> Result<(), NoMemory>
    requires short { length held.old ≤ most_blocks }
    requires below { StandBelow (length held.old) blocks.now }
    requires free { AreFree list.old blocks.now }
    requires held { AreHeld held.old list.old }
    ensures list { (positions : List ℕ) → list.old ≡ set.from_list positions →
        OnOk result (list.new ≡ set.from_list (positions ++ positions_of blocks.now)) }
    ensures held { OnOk result (AreHeld held.new list.new) }
{
    for block in blocks {
        list.mark(block.position)?;
        held[block.position as usize] = true;
    }
    Ok(())
}

// Takes the positions of the blocks that a file keeps.
fn hold_file(
    old: &Table,
    d: u32,
    file: &Sorted,
    list: &mut FreeList,
    held: &mut [bool],
) -> Result<(), NoMemory>
    requires column { d < length old.now.columns }
    requires sound { IsSound (length (column_at old.now.columns d).records) file.now }
    requires long { length held.old ≡ length old.now.infos }
    requires free { AreFree list.old
        (kept_blocks (column_at old.now.columns d).records (origin file.now.fate)) }
    requires held { AreHeld held.old list.old }
    ensures list { (positions : List ℕ) → list.old ≡ set.from_list positions →
        OnOk result (list.new ≡ set.from_list (positions ++ positions_of
        (kept_blocks (column_at old.now.columns d).records (origin file.now.fate)))) }
    ensures held { OnOk result (AreHeld held.new list.new) }
{
    let _stripes = old.length();
    match origin(file.fate) {
        Some(rec) => hold_blocks(list, held, old.blocks(d, rec)),
        None => Ok(()),
    }
}

// Takes the positions of all blocks that stay in a column.
fn hold_column(
    old: &Table,
    d: u32,
    files: &[Sorted],
    list: &mut FreeList,
    held: &mut [bool],
) -> Result<(), NoMemory>
    requires column { d < length old.now.columns }
    requires sound { All (IsSound (length (column_at old.now.columns d).records)) files.now }
    requires apart { AllPairs ShareNone files.now }
    requires long { length held.old ≡ length old.now.infos }
    requires held { AreHeld held.old list.old }
    requires start { list.old ≡ set.empty }
    ensures list { OnOk result (list.new ≡ taken (column_at old.now.columns d).records files.now) }
    ensures held { OnOk result (AreHeld held.new list.new) }
{
    let _stripes = old.length();
    for file in files {
        hold_file(old, d, file, list, held)?;
    }
    Ok(())
}

// Takes so many positions, each the lowest that is free then.
fn take_free(alloc: Global, list: &mut FreeList, count: u64) -> Result<Vec<u32>, NoMemory>
    requires { set.len list.old + count ≤ most_blocks }
    ensures { IfOk result (λ free. free.items ≡ free_positions list.old count) }
{
    let mut free = Vec::new(alloc);
    for _ in 0..count {
        let position = list.take()?;
        free.push(position)?;
    }
    Ok(free)
}

// Marks the stripes at these positions.
fn touch(marks: &mut [bool], positions: &[u32])
    ensures { (touched : List ℕ) → AreTouched marks.old touched →
        AreTouched marks.new (touched ++ positions.now) }
{
    for position in positions {
        let at = *position as usize;
        if at < marks.len() {
            marks[at] = true;
        }
    }
}

// Marks the stripes that lose one of these blocks.
fn touch_freed(marks: &mut [bool], held: &[bool], blocks: &[Block])
    requires long { length held.now ≡ length marks.old }
    requires below { StandBelow (length held.now) blocks.now }
    ensures { (touched : List ℕ) → AreTouched marks.old touched → AreTouched marks.new
        (touched ++ filter (λ (p : ℕ). not (slice_index_or held.now p false)) (positions_of blocks.now)) }
{
    for block in blocks {
        let at = block.position as usize;
        if !held[at] {
            marks[at] = true;
        }
    }
}

// Marks the stripes that lose a block of a column.
fn touch_column(old: &Table, d: u32, held: &[bool], marks: &mut [bool])
    requires column { d < length old.now.columns }
    requires held { length held.now ≡ length old.now.infos }
    requires long { length marks.old ≡ length old.now.infos }
    ensures { (touched : List ℕ) → AreTouched marks.old touched → AreTouched marks.new
        (touched ++ filter (λ (p : ℕ). not (slice_index_or held.now p false))
        (positions_of (column_blocks (column_at old.now.columns d)))) }
{
    let _stripes = old.length();
    for rec in 0..old.records(d) {
        touch_freed(marks, held, old.blocks(d, rec));
    }
}

// The positions that a column gives out. Marks the stripes that it touches.
fn place(
    alloc: Global,
    old: &Table,
    d: u32,
    files: &[Sorted],
    marks: &mut [bool],
) -> Result<Vec<u32>, NoMemory>
    requires column { d < length old.now.columns }
    requires sound { All (IsSound (length (column_at old.now.columns d).records)) files.now }
    requires fates { AreFates (column_at old.now.columns d).records files.now }
    requires few { size_of old.now.shape.block_size files.now ≤ most_blocks }
    requires long { length marks.old ≡ length old.now.infos }
    ensures given { IfOk result (λ free. free.items
        ≡ given old.now.shape.block_size (column_at old.now.columns d) files.now) }
    ensures touched { (earlier : List ℕ) → AreTouched marks.old earlier → OnOk result (AreTouched marks.new
        (earlier ++ touched old.now.shape.block_size (column_at old.now.columns d) files.now)) }
{
    let mut list = FreeList::new(alloc);
    let mut held = no_marks(alloc, marks.len())?;
    hold_column(old, d, files, &mut list, &mut held)?;
    let count = all_needed(old.shape().block_size, files);
    let free = take_free(alloc, &mut list, count)?;
    touch(marks, &free);
    touch_column(old, d, &held, marks);
    Ok(free)
}

/// The positions that each column gives out, and the stripes that they touch.
pub(crate) fn place_all(
    alloc: Global,
    old: &Table,
    columns: &[ColumnFiles],
) -> Result<Places, NoMemory>
    requires sound { AreSound old.now (sorted_of columns.now) }
    requires few { blocks_in old.now.shape.block_size (sorted_of columns.now) ≤ most_blocks }
    ensures given { IfOk result (λ places. given_of places.given.items
        ≡ each_column (given_at old.now (sorted_of columns.now)) (length old.now.columns)) }
    ensures long { IfOk result (λ places. length places.touched.items ≡ length old.now.infos) }
    ensures touched { IfOk result (λ places. AreTouched places.touched.items
        (all_touched old.now (sorted_of columns.now))) }
{
    let mut touched = no_marks(alloc, old.length() as usize)?;
    let mut given = Vec::with_capacity(alloc, columns.len())?;
    for d in 0..old.disks() {
        let positions = place(alloc, old, d, &columns[d as usize].files, &mut touched)?;
        given.push(Given { positions })?;
    }
    Ok(Places { given, touched })
}
