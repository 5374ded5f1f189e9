// The parity of the chosen stripes of a window.
ghost use Rattle.std.specs.Prelude.{◌≡◌, ◌*◌, ◌<◌, ◌≤◌, length, slice_index, OnOk};
ghost use Rattle.disk_model.specs.Ran.{Ran};
ghost use Rattle.disk_model.specs.Vault.{SomeCalls, ChangesBy, DraftsStay, Reads, state_of};
ghost use Rattle.parity_writer.specs.Calls.{sum_calls};
ghost use Rattle.parity_writer.specs.Chosen.{IsChosen, rows_with, window_calls};
ghost use Rattle.parity_writer.specs.Keeps.{WritesBlock};
ghost use Rattle.parity_writer.specs.Parity.{Rows, HoldsRows, SameElsewhere, WritesBlocks};
ghost use Rattle.parity_writer.specs.Rows.{HasSums};
ghost use Rattle.parity_writer.specs.Summing.{HoldSums};
ghost use Rattle.parity_writer.specs.WindowRow.{row_at};

use crate::sums::sum_levels;
use disk_model::{Failed, Vault};
use stripe_reader::Window;

/// Writes each level of the stripe of a number, of which the sums were made.
pub(crate) fn write_levels<V: Vault>(
    vault: &mut V,
    window: &Window,
    stripes: &[u32],
    i: u32,
    sums: &[u8],
) -> Result<(), Failed>
    requires levels { (V.view vault.old).levels ≤ 6 }
    requires stripe { i < length stripes.now }
    requires room { length sums.now ≡ 6 * window.now.block_size }
    requires sums { HoldSums window.now.block_size (row_at window.now i) (V.view vault.old).levels sums.now }
    requires size { window.now.block_size ≤ 4194304 }
    ensures calls { SomeCalls (V.view vault.old) (V.view vault.new) }
    ensures ran { Ran (sum_calls (V.view vault.old).levels window.now.block_size (slice_index stripes.now i)
        (row_at window.now i)) result (state_of (V.view vault.old)) (state_of (V.view vault.new)) }
    ensures changes { ChangesBy (WritesBlock window.now.block_size (slice_index stripes.now i))
        (V.view vault.old) (V.view vault.new) }
    ensures drafts { DraftsStay (V.view vault.old) (V.view vault.new) }
    ensures written { OnOk result (Reads
        (HasSums (V.view vault.old).levels window.now.block_size (slice_index stripes.now i) (row_at window.now i)
        (V.view vault.old).files) (V.view vault.new)) }
{
    let size = window.block_size() as usize;
    let at = u64::from(stripes[i as usize]) * size as u64;
    for level in 0..vault.levels() {
        let start = level as usize * size;
        vault.parity_write(level, at, &sums[start..start + size])?;
    }
    Ok(())
}

// Makes the sums of the stripe of a number, and writes them.
fn write_row<V: Vault>(
    vault: &mut V,
    window: &Window,
    stripes: &[u32],
    i: u32,
    sums: &mut [u8],
) -> Result<(), Failed>
    requires levels { (V.view vault.old).levels ≤ 6 }
    requires stripe { i < window.now.count }
    requires stripes { length stripes.now ≡ window.now.count }
    requires columns { length window.now.lanes ≤ 251 }
    requires room { length sums.old ≡ 6 * window.now.block_size }
    requires size { window.now.block_size ≤ 4194304 }
    ensures calls { SomeCalls (V.view vault.old) (V.view vault.new) }
    ensures ran { Ran (sum_calls (V.view vault.old).levels window.now.block_size (slice_index stripes.now i)
        (row_at window.now i)) result (state_of (V.view vault.old)) (state_of (V.view vault.new)) }
    ensures changes { ChangesBy (WritesBlock window.now.block_size (slice_index stripes.now i))
        (V.view vault.old) (V.view vault.new) }
    ensures drafts { DraftsStay (V.view vault.old) (V.view vault.new) }
    ensures written { OnOk result (Reads
        (HasSums (V.view vault.old).levels window.now.block_size (slice_index stripes.now i) (row_at window.now i)
        (V.view vault.old).files) (V.view vault.new)) }
{
    sum_levels(window, i, vault.levels(), sums);
    write_levels(vault, window, stripes, i, sums)
}

/// Writes each level of each chosen stripe of a window, in their order. The sums go through `sums`, which has room for a
/// block of each of six levels. No memory is taken.
pub fn write_window<V: Vault>(
    vault: &mut V,
    window: &Window,
    stripes: &[u32],
    chosen: &[bool],
    sums: &mut [u8],
) -> Result<(), Failed>
    requires levels { (V.view vault.old).levels ≤ 6 }
    requires columns { length window.now.lanes ≤ 251 }
    requires stripes { length stripes.now ≡ window.now.count }
    requires chosen { length chosen.now ≡ window.now.count }
    requires sums { length sums.old ≡ 6 * window.now.block_size }
    requires size { window.now.block_size ≤ 4194304 }
    ensures calls { SomeCalls (V.view vault.old) (V.view vault.new) }
    ensures ran { Ran (window_calls (V.view vault.old).levels window.now (record { stripes = stripes.now; chosen = chosen.now }) window.now.count)
        result (state_of (V.view vault.old)) (state_of (V.view vault.new)) }
    ensures changes { ChangesBy (WritesBlocks window.now.block_size (IsChosen (record { stripes = stripes.now; chosen = chosen.now })))
        (V.view vault.old) (V.view vault.new) }
    ensures drafts { DraftsStay (V.view vault.old) (V.view vault.new) }
    ensures written { OnOk result ((rows : Rows) →
        Reads (HoldsRows (V.view vault.old).levels window.now.block_size rows) (V.view vault.old) →
        Reads (HoldsRows (V.view vault.old).levels window.now.block_size
        (rows_with window.now (record { stripes = stripes.now; chosen = chosen.now }) window.now.count rows)) (V.view vault.new)) }
    ensures elsewhere { OnOk result (Reads
        (SameElsewhere (V.view vault.old).levels window.now.block_size
        (IsChosen (record { stripes = stripes.now; chosen = chosen.now })) (V.view vault.old).files) (V.view vault.new)) }
{
    for i in 0..window.count() {
        if !chosen[i as usize] {
            continue;
        }
        write_row(vault, window, stripes, i, sums)?;
    }
    Ok(())
}
