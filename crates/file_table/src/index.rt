// The blocks of a column by their positions.
ghost use Rattle.std.specs.Prelude.{◌≡◌, ◌≢◌, ◌≤◌, ◌<◌, length, slice_index_or, IfOk, MatchOption, All, Contains};
ghost use Rattle.std.specs.List.Sorted.{IsBinarySearchResult, IsSearchInRange};
ghost use Rattle.std.specs.Ordering.{nat_cmp};
ghost use Rattle.file_table.specs.Table.{positions_of};
ghost use Rattle.file_table.specs.Valid.{most_blocks};
ghost use Rattle.file_table.specs.Index.{IsIndex, spots_from};
ghost use Rattle.file_table.specs.declared.index.Spot.{Spot};

use crate::Block;
use disk_model::NoMemory;
use std::alloc::Global;
use std::marker::Model;
use std::mem::size_of;

// The position of a block, and its place in the list of all blocks of its column.
#[derive(Clone, Copy)]
struct Spot {
    position: u32,
    place: u32,
}

// What a block and its spot cost at most, in bytes.
const _: () = prove!(size_of::<Block>() + size_of::<Spot>() <= 32);

/// Where the blocks of a column stand, in ascending order of position.
#[derive(Drop)]
pub struct Index {
    spots: Vec<Spot>,
}

impl Model for Index {
    ghost use Rattle.std.specs.Prelude.{List};
    ghost use Rattle.file_table.specs.declared.index.Spot.{Spot};

    ghost Value = { List Spot };

    ghost use Rattle.file_table.specs.Index.{DoRise};

    ghost view = { λ index. index.spots.items };

    ghost invariant = { λ index. DoRise index.spots.items };
}

impl Index {
    /// The index of a list of blocks. It takes O(n log n) steps.
    pub fn new(alloc: Global, blocks: &[Block]) -> Result<Index, NoMemory>
        requires { length blocks.now ≤ most_blocks }
        ensures { IfOk result (IsIndex (positions_of blocks.now)) }
    {
        let mut spots = spots_of(alloc, blocks)?;
        spots.sort_unstable_by_key(|spot| spot.position);
        Ok(Index { spots })
    }

    /// The place of a block at this position.
    pub fn place(&self, position: u32) -> Option<u32>
        ensures { MatchOption result (All (λ (spot : Spot). spot.position ≢ position) self.now)
            (λ place. Contains self.now (record { position = position; place = place })) }
    {
        // Where no position below it is free, a block's spot stands at the number of its position.
        let first = position as usize;
        if first < self.spots.len() && self.spots[first].position == position {
            return Some(self.spots[first].place);
        }
        match number_of(&self.spots, position) {
            Ok(number) => Some(self.spots[number].place),
            Err(_) => None,
        }
    }
}

// The blocks' positions with their places, in the order of the blocks.
fn spots_of(alloc: Global, blocks: &[Block]) -> Result<Vec<Spot>, NoMemory>
    requires { length blocks.now ≤ most_blocks }
    ensures { IfOk result (λ spots. spots.items ≡ spots_from 0 (positions_of blocks.now)) }
{
    let mut spots = Vec::with_capacity(alloc, blocks.len())?;
    for (place, block) in blocks.iter().enumerate() {
        spots.push(Spot {
            position: block.position,
            place: place as u32,
        })?;
    }
    Ok(spots)
}

// The number of a spot with this position, or where one would stand.
fn number_of(spots: &[Spot], position: u32) -> Result<usize, usize>
    ensures bound { IsSearchInRange result (length spots.now) }
    ensures number { IsBinarySearchResult (λ (spot : Spot). nat_cmp spot.position position)
        spots.now result }
{
    spots.binary_search_by(|spot| spot.position.cmp(&position))
}
