// Which kept files of a column are unchanged, changed, moved and new.
ghost use Rattle.std.specs.Prelude.{◌≡◌, ◌<◌, ◌&&◌, ℕ, List, length, map, slice_index_or, false, IfOk, IfSome, OnOk, All, Option};
ghost use Rattle.std.specs.List.{list_any, range_with_len};
ghost use Rattle.std.specs.Option.{is_none};
ghost use Rattle.disk_model.specs.Stamp.{IsStamp};
ghost use Rattle.disk_model.specs.Tree.{listed};
ghost use Rattle.disk_model.specs.declared.meta.Meta.{Meta};
ghost use Rattle.file_table.specs.Table.{column_at};
ghost use Rattle.folder_listing.specs.Kept.{ListedFile};
ghost use Rattle.folder_listing.specs.Kept.{same_meta};
ghost use Rattle.array_scan.specs.Fates.{may_move, record_with, is_number, is_listed, vanished, fate_of, fate_by, fate_without, sorted_files, IsSound, HasMeta};
ghost use Rattle.array_scan.specs.Lost.{Offers, source_in, left_by};

use crate::lost::Lost;
use disk_model::{FileInfo, Meta, NoMemory, Path};
use file_table::Table;
use std::alloc::Global;

/// What became of a kept file, with the number of the record that has its path, or of the vanished record that it was.
#[derive(Clone, Copy, Debug, PartialEq, Eq)]
pub(crate) enum Fate {
    Unchanged(u32),
    Changed(u32),
    Moved(u32),
    New,
}

/// A kept file.
#[derive(Drop)]
pub(crate) struct Sorted {
    pub path: Path,
    pub meta: Meta,
    pub fate: Fate,
}

/// The kept files of a column.
#[derive(Drop)]
pub(crate) struct ColumnFiles {
    pub files: Vec<Sorted>,
}

// Whether sizes and stamps are equal.
fn is_same(a: Meta, b: Meta) -> bool
    ensures { result ≡ same_meta a b }
{
    a.size == b.size && a.stamp.seconds == b.stamp.seconds && a.stamp.nanos == b.stamp.nanos
}

// The number of the record with a path.
fn record_number(old: &Table, d: u32, path: &Path) -> Option<u32>
    requires { d < length old.now.columns }
    ensures number { result ≡ record_with (column_at old.now.columns d).records path.now }
    ensures within { IfSome result (λ i. i < length (column_at old.now.columns d).records) }
{
    old.find(d, path)
}

// The record of each file's path.
fn named(
    alloc: Global,
    old: &Table,
    d: u32,
    files: &[FileInfo],
) -> Result<Vec<Option<u32>>, NoMemory>
    requires { d < length old.now.columns }
    ensures named { IfOk result (λ named. named.items ≡ map (λ (file : ListedFile).
        record_with (column_at old.now.columns d).records file.0) (listed files.now)) }
    ensures within { IfOk result (λ named. All (λ (rec : Option ℕ).
        IfSome rec (λ i. i < length (column_at old.now.columns d).records)) named.items) }
{
    let mut named = Vec::with_capacity(alloc, files.len())?;
    for file in files {
        named.push(record_number(old, d, &file.path))?;
    }
    Ok(named)
}

// For each record whether a file has its path.
fn listed_marks(alloc: Global, count: u32, named: &[Option<u32>]) -> Result<Vec<bool>, NoMemory>
    requires { All (λ (rec : Option ℕ). IfSome rec (λ i. i < count)) named.now }
    ensures long { IfOk result (λ marks. length marks.items ≡ count) }
    ensures marks { IfOk result (λ marks. (i : ℕ) → slice_index_or marks.items i false ≡ list_any (is_number i) named.now) }
{
    let mut marks = vec![in alloc; false; count as usize]?;
    for rec in named {
        if let Some(i) = *rec {
            marks[i as usize] = true;
        }
    }
    Ok(marks)
}

// The records whose path no file has.
fn lost_of(alloc: Global, old: &Table, d: u32, marks: &[bool]) -> Result<Lost, NoMemory>
    requires column { d < length old.now.columns }
    requires long { length marks.now ≡ length (column_at old.now.columns d).records }
    ensures { (files : List ListedFile) →
        ((i : ℕ) → slice_index_or marks.now i false ≡ is_listed (column_at old.now.columns d).records files i) →
        IfOk result (λ lost. Offers lost (vanished (column_at old.now.columns d).records files)) }
{
    let mut lost = Lost::new(alloc);
    let mut rec = old.records(d);
    while rec > 0 {
        rec -= 1;
        if !marks[rec as usize] {
            lost.push(rec, old.meta(d, rec))?;
        }
    }
    Ok(lost)
}

// The fate of a file, by the record that has its path. A new file takes the first vanished record of its size and stamp.
fn fate_of_file(
    old: &Table,
    d: u32,
    named: Option<u32>,
    meta: Meta,
    lost: &mut Lost,
) -> Result<Fate, NoMemory>
    requires column { d < length old.now.columns }
    requires within { IfSome named (λ i. i < length (column_at old.now.columns d).records) }
    ensures fate { (records : Meta → List ℕ) → Offers lost.old records → IfOk result (λ fate.
        fate ≡ fate_by (column_at old.now.columns d).records meta named (source_in records meta)) }
    ensures lost { (records : Meta → List ℕ) → Offers lost.old records → OnOk result (Offers lost.new
        (left_by (is_none named && may_move meta) records meta)) }
{
    match named {
        Some(rec) => {
            if is_same(old.meta(d, rec), meta) {
                Ok(Fate::Unchanged(rec))
            } else {
                Ok(Fate::Changed(rec))
            }
        }
        None => fate_of_new(meta, lost),
    }
}

// Whether a file of this size and stamp may be one that moved.
fn may_move(meta: Meta) -> bool
    ensures { result ≡ may_move meta }
{
    meta.size > 0 && meta.stamp.nanos > 0
}

// The fate of a file whose path no record has.
fn fate_of_new(meta: Meta, lost: &mut Lost) -> Result<Fate, NoMemory>
    ensures fate { (records : Meta → List ℕ) → Offers lost.old records →
        IfOk result (λ fate. fate ≡ fate_without (source_in records meta)) }
    ensures lost { (records : Meta → List ℕ) → Offers lost.old records →
        OnOk result (Offers lost.new (left_by (may_move meta) records meta)) }
{
    if !may_move(meta) {
        return Ok(Fate::New);
    }
    match lost.take(meta)? {
        Some(rec) => Ok(Fate::Moved(rec)),
        None => Ok(Fate::New),
    }
}

// The fates of the files of a column.
fn fates(alloc: Global, old: &Table, d: u32, files: &[FileInfo]) -> Result<Vec<Fate>, NoMemory>
    requires { d < length old.now.columns }
    ensures { IfOk result (λ fates. fates.items ≡ map (fate_of (column_at old.now.columns d).records
        (listed files.now)) (range_with_len 0 (length files.now))) }
{
    let named = named(alloc, old, d, files)?;
    let marks = listed_marks(alloc, old.records(d), &named)?;
    let mut lost = lost_of(alloc, old, d, &marks)?;
    let mut fates = Vec::with_capacity(alloc, files.len())?;
    for (k, file) in files.iter().enumerate() {
        fates.push(fate_of_file(old, d, named[k], file.meta, &mut lost)?)?;
    }
    Ok(fates)
}

/// The kept files of a column, each with its fate.
pub(crate) fn sort_files(
    alloc: Global,
    old: &Table,
    d: u32,
    files: Vec<FileInfo>,
) -> Result<Vec<Sorted>, NoMemory>
    requires column { d < length old.now.columns }
    requires stamps { All (λ (file : ListedFile). IsStamp file.1.stamp) (listed files.items) }
    ensures sorted { IfOk result (λ sorted. sorted.items
        ≡ sorted_files (column_at old.now.columns d).records (listed files.items)) }
    ensures sound { IfOk result (λ sorted. All
        (IsSound (length (column_at old.now.columns d).records)) sorted.items) }
    ensures metas { IfOk result (λ sorted. All HasMeta sorted.items) }
{
    let fates = fates(alloc, old, d, &files)?;
    let mut sorted = Vec::with_capacity(alloc, files.len())?;
    let mut k = 0;
    for file in files {
        sorted.push(Sorted {
            path: file.path,
            meta: file.meta,
            fate: fates[k],
        })?;
        k += 1;
    }
    Ok(sorted)
}
