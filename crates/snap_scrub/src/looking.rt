// A stripe of a window that was read: what is found in it.
ghost use Rattle.std.specs.Prelude.{◌≡◌, ◌<◌, length, slice_index_or};
ghost use Rattle.parity_writer.specs.LevelReading.{ReadsLevels};
ghost use Rattle.parity_writer.specs.declared.summing.Sums.{Sums};
ghost use Rattle.stripe_reader.specs.Held.{HoldsStripes};
ghost use Rattle.snap_scrub.specs.Looking.{LooksAtOne, scene};
ghost use Rattle.snap_scrub.specs.Room.{IsCheckFor, KeepsCheck};
ghost use Rattle.snap_scrub.specs.Summing.{HasSums};

use crate::cells::tell_cells;
use crate::levels::tell_levels;
use crate::room::Check;
use crate::verdict::Found;
use crate::windows::Batch;
use disk_model::{Sink, Vault};
use file_table::Table;
use parity_writer::{Levels, Sums, read_levels};
use snap_report::{Lines, Report};

// Reads the levels of a stripe of a table.
fn read_all<V: Vault>(table: &Table, stripe: u32, vault: &mut V, levels: &mut Levels)
    requires levels { (V.view vault.old).levels ≡ table.now.shape.levels }
    requires size { levels.old.block_size ≡ table.now.shape.block_size }
    ensures size { levels.new.block_size ≡ table.now.shape.block_size }
    ensures count { levels.new.count ≡ table.now.shape.levels }
    ensures read { ReadsLevels table.now.shape.block_size stripe table.now.shape.levels levels.new.levels
        (V.view vault.old) (V.view vault.new) }
{
    // A table has at most six levels, and blocks of at most 4 MiB.
    let _shape = table.shape();
    read_levels(vault, stripe, levels);
}

// The sums of the stripe of a number.
fn sums_of(sums: &[Sums], i: u32) -> &[u8]
    requires { i < length sums.now }
    ensures { (other : Sums) → result.now ≡ (slice_index_or sums.now i other).blocks.items }
{
    sums[i as usize].blocks.as_slice()
}

/// Tells what is found in a stripe of a window. Its levels are read where nothing is found in its cells.
pub(crate) fn look_at<V: Vault, W: Sink>(
    batch: &Batch<'_>,
    i: u32,
    check: &mut Check,
    vault: &mut V,
    lines: &mut Lines<'_, W>,
    reports: &mut Vec<Box<dyn Report>>,
) -> Found
    requires holds { HoldsStripes batch.now.table.now batch.now.stripes.now batch.now.window.now }
    requires stripe { i < length batch.now.stripes.now }
    requires check { IsCheckFor batch.now.table.now check.old }
    requires sums { HasSums batch.now.table.now batch.now.window.now check.old i }
    requires levels { (V.view vault.old).levels ≡ batch.now.table.now.shape.levels }
    ensures check { KeepsCheck batch.now.table.now check.old check.new }
    ensures looks { LooksAtOne W.view standing stands batch.now.table.now batch.now.stripes.now batch.now.window.now
        i result
        (scene (V.view vault.old) lines.old reports.old.items) (scene (V.view vault.new) lines.new reports.new.items) }
{
    let (table, stripes) = (batch.table, batch.stripes);
    let found = tell_cells(table, stripes, batch.window, i, lines, reports);
    if found.count > 0 {
        return found;
    }
    let stripe = stripes[i as usize];
    read_all(table, stripe, vault, &mut check.levels);
    let sums = sums_of(check.sums.as_slice(), i);
    tell_levels(table, &check.levels, stripe, sums, lines, reports)
}
