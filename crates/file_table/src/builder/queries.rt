// What a builder would answer, asked before it is given anything. No query takes memory.
ghost use Rattle.std.specs.Prelude.{◌≡◌, ◌+◌, ◌<◌, ◌≤◌, ◌↔◌, length, IsTrue};
ghost use Rattle.file_table.specs.Table.{block_count, records_of, blocks_due};
ghost use Rattle.file_table.specs.Valid.{IsHashedAt, most_blocks};
ghost use Rattle.file_table.specs.Building.{IsLength, IsPathFault, IsPositionFault};

use super::Builder;
use crate::BuildFault;
use crate::count::blocks_for;
use crate::limits::MOST_BLOCKS;
use disk_model::{Path, is_record_path};

impl Builder {
    /// The `Name`, `Order` or `Nested` that `push_record` would answer for a path where no record lacks a
    /// block.
    pub fn path_fault(&self, path: &Path) -> Option<BuildFault>
        requires { 0 < length self.now.columns }
        ensures { IsPathFault self.now.columns path.now result }
    {
        if !is_record_path(path) {
            return Some(BuildFault::Name);
        }
        let last = &self.disks[self.disks.len() - 1];
        if !last.is_greatest(path) {
            return Some(BuildFault::Order);
        }
        if last.has_directory_of(path) {
            return Some(BuildFault::Nested);
        }
        None
    }

    /// Whether a record of this size, in bytes, keeps the table within the limit on blocks.
    pub fn size_fits(&self, size: u64) -> bool
        ensures { let due = blocks_due self.now.shape.block_size (records_of self.now.columns) in
            IsTrue result ↔ due + block_count self.now.shape.block_size size ≤ most_blocks }
    {
        blocks_for(self.shape.block_size, size) <= u64::from(MOST_BLOCKS - self.due)
    }

    /// The `Range` or `Repeated` that `push_block` would answer for a position where the last record lacks a
    /// block.
    pub fn position_fault(&self, position: u32) -> Option<BuildFault>
        requires { 0 < length self.now.columns }
        ensures { IsPositionFault self.now position result }
    {
        if position >= self.length {
            return Some(BuildFault::Range);
        }
        if usize::from(self.stripes.at(position).column) == self.disks.len() {
            return Some(BuildFault::Repeated);
        }
        None
    }

    /// Whether the length is one more than the greatest position, or 0 where there is none.
    pub fn length_fits(&self) -> bool
        ensures { IsTrue result ↔ IsLength self.now }
    {
        self.length == self.end
    }

    /// Whether each block of the stripe whose info comes next has its hash.
    pub fn next_has_hashes(&self) -> bool
        requires { length self.now.infos < self.now.length }
        ensures { IsTrue result ↔ IsHashedAt self.now.columns (length self.now.infos) }
    {
        !self.stripes.at(self.infos.len() as u32).unhashed
    }
}
