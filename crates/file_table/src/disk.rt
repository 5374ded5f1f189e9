// A data disk as it is kept: its records, and the blocks of all of them in one list.
ghost use Rattle.std.specs.Prelude.{◌≡◌, ℕ, ◌++◌, ◌∷◌, [], ◌<◌, ◌≤◌, ◌↔◌, length, OnOk, OnErr, IfSome, IsTrue, Some, AllPairs, ◌+◌, slice_index_or};
ghost use Rattle.std.specs.Ordering.{nat_cmp};
ghost use Rattle.std.specs.Cmp.Lexicographic.{slice_cmp};
ghost use Rattle.std.specs.List.Sorted.{IsBinarySearchResult, IsNonDecreasingBy, IsSearchInRange};
ghost use Rattle.file_table.specs.Table.{record_in, column_blocks, column_with_hash, HasPath};
ghost use Rattle.file_table.specs.Cells.{IsCellOf};
ghost use Rattle.file_table.specs.Disk.{no_file};
ghost use Rattle.file_table.specs.Valid.{most_records, most_blocks, ComesBefore};
ghost use Rattle.file_table.specs.Building.{records_with_block, IsGreatest, IsNested};
ghost use Rattle.file_table.specs.Parting.{IsParting};
ghost use Rattle.file_table.specs.declared.disk.File.{File};
ghost use Rattle.file_table.specs.declared.block.Block.{Block};

use crate::{Block, Cell};
use block_hash::Digest16;
use disk_model::{Meta, NoMemory, Path, Text};
use std::alloc::Global;
use std::marker::Model;
use std::mem::size_of;

const SLASH: u8 = b'/';

// A record without its blocks: where they begin in the list of the disk, and how many they are.
#[derive(Drop)]
struct File {
    path: Path,
    meta: Meta,
    first: u32,
    count: u32,
}

// What a file and a block cost at most, in bytes.
const _: () = prove!(size_of::<File>() <= 96);

const _: () = prove!(size_of::<Block>() <= 32);

/// A column, seen as its name and its records.
#[derive(Drop)]
pub struct Disk {
    name: Text,
    files: Vec<File>,
    blocks: Vec<Block>,
}

impl Model for Disk {
    ghost use Rattle.file_table.specs.Table.{Column};

    ghost Value = { Column };

    ghost use Rattle.file_table.specs.Disk.{column_of, IsDisk};

    ghost view = { column_of };

    ghost invariant = { IsDisk };
}

impl Disk {
    pub fn new(alloc: Global, name: Text) -> Disk
        ensures { result ≡ record { name = name; records = [] } }
    {
        Disk {
            name,
            files: Vec::new(alloc),
            blocks: Vec::new(alloc),
        }
    }

    pub fn name(&self) -> &str
        ensures { result.now ≡ self.now.name }
    {
        self.name.as_str()
    }

    /// How many records there are.
    pub fn len(&self) -> u32
        ensures count { result ≡ length self.now.records }
        ensures few { result ≤ most_records }
    {
        self.files.len() as u32
    }

    pub fn path(&self, i: u32) -> &Path
        requires { i < length self.now.records }
        ensures { result.now ≡ (record_in self.now i).path }
    {
        &self.files[i as usize].path
    }

    pub fn meta(&self, i: u32) -> Meta
        requires { i < length self.now.records }
        ensures { result ≡ (record_in self.now i).meta }
    {
        self.files[i as usize].meta
    }

    pub fn blocks(&self, i: u32) -> &[Block]
        requires { i < length self.now.records }
        ensures value { result.now ≡ (record_in self.now i).blocks }
        ensures few { length result.now ≤ most_blocks }
    {
        let file = &self.files[i as usize];
        let first = file.first as usize;
        &self.blocks[first..first + file.count as usize]
    }

    /// One more record, without blocks.
    pub fn push_file(&mut self, path: Path, meta: Meta) -> Result<(), NoMemory>
        requires { length self.old.records < most_records }
        ensures ok { OnOk result (self.new ≡ record self.old {
          records = self.old.records ++ record { path = path; meta = meta; blocks = [] } ∷ [];
        }) }
        ensures err { OnErr result (self.new ≡ self.old) }
    {
        let first = self.blocks.len() as u32;
        self.files.push(File {
            path,
            meta,
            first,
            count: 0,
        })?;
        Ok(())
    }

    /// One more block of the last record.
    pub fn push_block(&mut self, block: Block) -> Result<(), NoMemory>
        requires some { 0 < length self.old.records }
        requires room { length (column_blocks self.old) < most_blocks }
        ensures ok { OnOk result (self.new ≡ record self.old {
          records = records_with_block self.old.records block;
        }) }
        ensures err { OnErr result (self.new ≡ self.old) }
    {
        self.blocks.push(block)?;
        let last = self.files.len() - 1;
        self.files[last].count += 1;
        Ok(())
    }

    /// Gives a block its hash.
    pub fn set_hash(&mut self, i: u32, index: u32, hash: Digest16)
        requires rec { i < length self.old.records }
        requires block { index < length (record_in self.old i).blocks }
        ensures { self.new ≡ column_with_hash self.old i index hash }
    {
        let at = self.files[i as usize].first as usize + index as usize;
        self.blocks[at].hash = Some(hash);
    }

    /// Whether a path is greater than that of the last record.
    pub fn is_greatest(&self, path: &Path) -> bool
        ensures { IsTrue result ↔ IsGreatest self.now path.now }
    {
        match self.files.last() {
            Some(file) => file.path.as_str() < path.as_str(),
            None => true,
        }
    }

    /// The number of the one record with this path.
    pub fn find(&self, path: &[u8]) -> Option<u32>
        requires { AllPairs ComesBefore self.now.records }
        ensures found { IfSome result (λ i. HasPath self.now i path.now) }
        ensures only { (i : ℕ) → HasPath self.now i path.now → result ≡ Some i }
    {
        match place_of(&self.files, path) {
            Ok(i) => Some(i as u32),
            Err(_) => None,
        }
    }

    /// The blocks of all records, one record after another.
    pub fn all_blocks(&self) -> &[Block]
        ensures value { result.now ≡ column_blocks self.now }
        ensures few { length result.now ≤ most_blocks }
    {
        &self.blocks
    }

    /// The record and the number in it of the block at a place in the list of all blocks.
    pub fn cell_at(&self, place: u32) -> Cell
        requires { place < length (column_blocks self.now) }
        ensures { IsCellOf self.now place result }
    {
        let rec = file_with(&self.files, place);
        Cell {
            rec: rec as u32,
            index: place - self.files[rec].first,
        }
    }

    /// Whether the path of a record is a directory of this path, which is greater than all of them. Such a record's
    /// path ends where that of the last record and this path part, so one search tells.
    pub fn has_directory_of(&self, path: &Path) -> bool
        requires order { AllPairs ComesBefore self.now.records }
        requires greatest { IsGreatest self.now path.now }
        ensures { IsTrue result ↔ IsNested self.now path.now }
    {
        let Some(last) = self.files.last() else {
            return false;
        };
        let bytes = path.as_str().as_bytes();
        let end = common_prefix(last.path.as_str().as_bytes(), bytes);
        if end == bytes.len() || bytes[end] != SLASH {
            return false;
        }
        self.find(&bytes[..end]).is_some()
    }
}

// How many bytes two paths begin with together.
fn common_prefix(one: &[u8], other: &[u8]) -> usize
    ensures { IsParting one.now other.now result }
{
    let shorter = one.len().min(other.len());
    for place in 0..shorter {
        if one[place] != other[place] {
            return place;
        }
    }
    shorter
}

// Where a path stands among those of files in order, or where it would.
fn place_of(files: &[File], path: &[u8]) -> Result<usize, usize>
    ensures bound { IsSearchInRange result (length files.now) }
    ensures place { IsBinarySearchResult (λ (file : File). slice_cmp nat_cmp file.path path.now)
        files.now result }
{
    files.binary_search_by(|file| file.path.as_str().as_bytes().cmp(&path))
}

// The number of the last file whose blocks begin at this place or before it.
fn file_with(files: &[File], place: u32) -> usize
    requires some { 0 < length files.now }
    requires start { (slice_index_or files.now 0 no_file).first ≤ place }
    requires rise { IsNonDecreasingBy (λ (file : File). file.first) files.now }
    ensures within { result < length files.now }
    ensures begins { (slice_index_or files.now result no_file).first ≤ place }
    ensures last { result + 1 < length files.now →
        place < (slice_index_or files.now (result + 1) no_file).first }
{
    files.partition_point(|file| file.first <= place) - 1
}
