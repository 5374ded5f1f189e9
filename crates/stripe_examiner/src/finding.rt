// The missing blocks of a stripe, found by its levels, and what is left of these then.
ghost use Rattle.std.specs.Prelude.{◌≡◌, ◌*◌, ◌<◌, ◌≤◌, ℕ, [], All, length, get_or, slice_set, take, if◌then◌else◌, Some, None, true};
ghost use Rattle.parity_writer.specs.Parity.{Row};
ghost use Rattle.parity_writer.specs.WindowRow.{row_at};
ghost use Rattle.stripe_examiner.specs.Finding.{CanFind, IsSearchRoom, row_with_found};
ghost use Rattle.stripe_examiner.specs.FirstChoice.{HasFirst, IsFirstOf};
ghost use Rattle.stripe_examiner.specs.Judged.{AreMissingIn};
ghost use Rattle.stripe_examiner.specs.Known.{AreRemainders, IsKnown};
ghost use Rattle.stripe_examiner.specs.Restorable.{filled};
ghost use Rattle.stripe_examiner.specs.Sharing.{AreSixBlocks, HasLevels};

use crate::knowing::whole_levels;
use crate::remainders::{fill_in_turn, is_whole};
use crate::room::FirstChoice;
use crate::search::{Wanted, follow, search_on};
use cauchy::add_column;
use file_table::{Shape, Table};
use gf256::laws::products;
use parity_writer::Levels;
use stripe_reader::Window;

// Takes a block of a column from what is left of the levels that were read whole, of so many.
fn take_block(
    levels: &Levels,
    count: u32,
    size: usize,
    column: u32,
    block: &[u8],
    remainders: &mut [u8],
)
    requires levels { HasLevels count levels.now }
    requires column { column < 251 }
    requires block { length block.now ≤ size }
    requires remainders { AreSixBlocks size remainders.old }
    ensures size { length remainders.new ≡ length remainders.old }
    ensures left { (row : Row) → column < length row → get_or row column [] ≡ [] →
        AreRemainders size row (take levels.now.count levels.now.levels) remainders.old →
        AreRemainders size (slice_set row column block.now) (take levels.now.count levels.now.levels) remainders.new }
{
    // Behind its bytes a block adds nothing.
    products();
    for r in 0..count {
        if is_whole(levels.state(r)) {
            let start = r as usize * size;
            add_column(
                r,
                column,
                block,
                &mut remainders[start..start + block.len()],
            );
        }
    }
}

// Takes the blocks that were found from what is left of the levels that were read whole, each at its real length.
fn take_found(
    levels: &Levels,
    count: u32,
    size: usize,
    wanted: &[Wanted],
    blocks: &[u8],
    remainders: &mut [u8],
)
    requires levels { HasLevels count levels.now }
    requires columns { All (λ one. one.column < 251) wanted.now }
    requires lengths { All (λ one. one.length ≤ size) wanted.now }
    requires blocks { length blocks.now ≡ length wanted.now * size }
    requires remainders { AreSixBlocks size remainders.old }
    ensures size { length remainders.new ≡ length remainders.old }
    ensures left { (row : Row) → AreMissingIn row size wanted.now →
        AreRemainders size row (take levels.now.count levels.now.levels) remainders.old →
        AreRemainders size (filled size blocks.now wanted.now row) (take levels.now.count levels.now.levels)
        remainders.new }
{
    for j in 0..wanted.len() {
        let one = wanted[j];
        let start = j * size;
        take_block(
            levels,
            count,
            size,
            one.column,
            &blocks[start..start + one.length as usize],
            remainders,
        );
    }
}

/// Makes the blocks that follow from the first levels of a stripe of the window that were read whole, where there are enough of them,
/// and answers whether it did.
pub(crate) fn make_first(
    table: &Table,
    i: u32,
    window: &Window,
    levels: &Levels,
    wanted: &[Wanted],
    remainders: &mut [u8],
    blocks: &mut [u8],
) -> bool
    requires can { CanFind table.now i window.now levels.now wanted.now }
    requires some { 0 < length wanted.now }
    requires room { IsSearchRoom table.now.shape.block_size remainders.old blocks.old }
    ensures room { IsSearchRoom table.now.shape.block_size remainders.new blocks.new }
    ensures made { result ≡ true → IsFirstOf table.now.shape wanted.now (row_at window.now i)
        (take levels.now.count levels.now.levels) remainders.new blocks.new }
{
    let shape = table.shape();
    let whole = whole_levels(levels, shape.levels);
    if wanted.len() > whole.len() {
        return false;
    }
    let size = shape.block_size as usize;
    fill_in_turn(window, i, levels, shape.levels, size, remainders);
    follow(shape, wanted, remainders, &whole[..wanted.len()], blocks);
    true
}

// Makes what is left of the levels that were read whole, where it was not made before.
fn fill(
    window: &Window,
    i: u32,
    levels: &Levels,
    shape: Shape,
    is_made: bool,
    remainders: &mut [u8],
)
    requires stripe { (i < window.now.count) × (length window.now.lanes ≤ 251) }
    requires levels { HasLevels shape.levels levels.now }
    requires sizes { (shape.block_size ≡ window.now.block_size) × (shape.block_size ≡ levels.now.block_size) }
    requires remainders { AreSixBlocks shape.block_size remainders.old }
    requires made { is_made ≡ true → AreRemainders shape.block_size (row_at window.now i)
        (take levels.now.count levels.now.levels) remainders.old }
    ensures are { AreRemainders shape.block_size (row_at window.now i) (take levels.now.count levels.now.levels)
        remainders.new }
    ensures kept { is_made ≡ true → remainders.new ≡ remainders.old }
{
    if !is_made {
        let size = shape.block_size as usize;
        fill_in_turn(window, i, levels, shape.levels, size, remainders);
    }
}

/// Searches for the missing blocks of a stripe of the window by the levels that were read whole, and answers whether its row is known.
/// Those of the first choice may have been made before.
/// What was found stands at the beginning of `blocks` then, and what is left of the levels is less the sums of that row.
pub(crate) fn find(
    table: &Table,
    i: u32,
    window: &Window,
    levels: &Levels,
    wanted: &[Wanted],
    first: &FirstChoice,
    remainders: &mut [u8],
    blocks: &mut [u8],
) -> bool
    requires can { CanFind table.now i window.now levels.now wanted.now }
    requires room { IsSearchRoom table.now.shape.block_size remainders.old blocks.old }
    requires first { HasFirst table.now.shape wanted.now (row_at window.now i)
        (take levels.now.count levels.now.levels) first.now remainders.old blocks.old }
    ensures room { IsSearchRoom table.now.shape.block_size remainders.new blocks.new }
    ensures known { IsKnown table.now.shape wanted.now (row_at window.now i)
        (take levels.now.count levels.now.levels)
        (if result then Some (row_with_found table.now.shape wanted.now blocks.new (row_at window.now i)) else None) }
    ensures left { result ≡ true → AreRemainders table.now.shape.block_size
        (row_with_found table.now.shape wanted.now blocks.new (row_at window.now i))
        (take levels.now.count levels.now.levels) remainders.new }
{
    let shape = table.shape();
    let size = shape.block_size as usize;
    fill(window, i, levels, shape, first.is_made, remainders);
    if wanted.is_empty() {
        return true;
    }
    let whole = whole_levels(levels, shape.levels);
    if !search_on(shape, wanted, first, &whole, remainders, blocks) {
        return false;
    }
    let found = &blocks[..wanted.len() * size];
    take_found(levels, shape.levels, size, wanted, found, remainders);
    true
}
