// What is left of the levels of a stripe, less the sums of its row.
ghost use Rattle.std.specs.Prelude.{◌≡◌, ℕ, ◌<◌, ◌≤◌, length, slice_index, take};
ghost use Rattle.gf256.specs.Field.{field_sum};
ghost use Rattle.parity_writer.specs.WindowRow.{row_at};
ghost use Rattle.stripe_examiner.specs.Known.{AreRemainders, is_whole as is_whole_by};
ghost use Rattle.stripe_examiner.specs.Sharing.{AreSixBlocks, HasLevels};

use parity_writer::{LevelRead, Levels, sum_levels};
use stripe_reader::Window;

/// Whether a level was read whole.
pub fn is_whole(state: LevelRead) -> bool
    ensures { result ≡ is_whole_by state }
{
    state == LevelRead::Bytes
}

// Adds a block to another one, byte by byte.
fn add_block(block: &[u8], out: &mut [u8])
    requires { length block.now ≡ length out.old }
    ensures size { length out.new ≡ length out.old }
    ensures bytes { (p : ℕ) → p < length block.now →
        slice_index out.new p ≡ field_sum (slice_index block.now p) (slice_index out.old p) }
{
    for p in 0..block.len() {
        out[p] = block[p] ^ out[p];
    }
}

/// What is left of the levels that were read whole, of so many: their sums are made at once, in one pass over the row.
pub fn fill_in_turn(
    window: &Window,
    i: u32,
    levels: &Levels,
    count: u32,
    size: usize,
    remainders: &mut [u8],
)
    requires stripe { i < window.now.count }
    requires columns { length window.now.lanes ≤ 251 }
    requires levels { HasLevels count levels.now }
    requires size { size ≡ window.now.block_size }
    requires level_size { size ≡ levels.now.block_size }
    requires remainders { AreSixBlocks size remainders.old }
    ensures { AreRemainders size (row_at window.now i) (take levels.now.count levels.now.levels)
        remainders.new }
{
    sum_levels(window, i, count, remainders);
    for r in 0..count {
        if is_whole(levels.state(r)) {
            let start = r as usize * size;
            add_block(levels.block(r), &mut remainders[start..start + size]);
        }
    }
}
