// The sums of the stripes of a window, made side by side, and written.
ghost use Rattle.std.specs.Prelude.{◌≡◌, ℕ, ◌*◌, ◌<◌, ◌≤◌, All, IfOk, OnOk, length, slice_index_or};
ghost use Rattle.std.specs.Thread.{IsSend, IsSync};
ghost use Rattle.disk_model.specs.Ran.{Ran};
ghost use Rattle.disk_model.specs.Vault.{SomeCalls, ChangesBy, DraftsStay, Reads, state_of};
ghost use Rattle.parity_writer.specs.Chosen.{IsChosen, rows_with, window_calls};
ghost use Rattle.parity_writer.specs.Parity.{Rows, HoldsRows, SameElsewhere, WritesBlocks};
ghost use Rattle.parity_writer.specs.Summing.{AreSums, AreSumsOf, HaveSize};

use crate::sums::sum_levels;
use crate::writing::write_levels;
use disk_model::{Failed, NoMemory, Vault};
use std::alloc::Global;
use std::thread::Threads;
use stripe_reader::{Window, for_each_mut};

/// Room for the sums of a stripe.
#[derive(Drop)]
pub struct Sums {
    /// Six blocks, one after another.
    pub blocks: Vec<u8>,
}

/// Room for the sums of so many stripes.
pub fn make_sums(alloc: Global, stripes: u32, block_size: u32) -> Result<Vec<Sums>, NoMemory>
    ensures count { IfOk result (λ sums. length sums.items ≡ stripes) }
    ensures each { IfOk result (λ sums. All (HaveSize block_size) sums.items) }
{
    let mut sums = Vec::with_capacity(alloc, stripes as usize)?;
    for _ in 0..stripes {
        sums.push(Sums {
            blocks: vec![in alloc; 0u8; 6 * block_size as usize]?,
        })?;
    }
    Ok(sums)
}

// Makes the sums of the stripe of a number of the window, where there is one.
fn sum_stripe(window: &Window, k: usize, levels: u32, own: &mut Sums)
    requires columns { length window.now.lanes ≤ 251 }
    requires levels { levels ≤ 6 }
    requires room { HaveSize window.now.block_size own.old }
    ensures { AreSums window.now k levels own.new }
{
    if k < window.count() as usize {
        sum_levels(window, k as u32, levels, own.blocks.as_mut_slice());
    }
}

/// Makes the first levels of each stripe that was read last into a window, each in the room of its number, by at most so
/// many threads, and at least by one. No memory is taken.
pub fn sum_window<R: Threads + Sync>(
    rt: &R,
    window: &Window,
    levels: u32,
    threads: u32,
    sums: &mut [Sums],
)
    requires columns { length window.now.lanes ≤ 251 }
    requires levels { levels ≤ 6 }
    requires room { All (HaveSize window.now.block_size) sums.old }
    ensures count { length sums.new ≡ length sums.old }
    ensures sums { AreSumsOf window.now levels sums.new }
{
    let one = |k: usize, own: &mut Sums|
        requires { (length window.now.lanes ≤ 251) × (levels ≤ 6) × HaveSize window.now.block_size own.now }
        ensures { AreSums window.entry.now k levels own.exit.now }
    { sum_stripe(window, k, levels, own) };
    for_each_mut(rt, sums, threads.max(1) as usize, &one);
}

/// Writes each level of each chosen stripe of a window, in their order, of which the sums were made. No memory is taken.
pub fn write_sums<V: Vault>(
    vault: &mut V,
    window: &Window,
    stripes: &[u32],
    chosen: &[bool],
    sums: &[Sums],
) -> Result<(), Failed>
    requires levels { (V.view vault.old).levels ≤ 6 }
    requires stripes { length stripes.now ≡ window.now.count }
    requires chosen { length chosen.now ≡ window.now.count }
    requires room { window.now.count ≤ length sums.now }
    requires sums { AreSumsOf window.now (V.view vault.old).levels sums.now }
    requires size { window.now.block_size ≤ 4194304 }
    ensures calls { SomeCalls (V.view vault.old) (V.view vault.new) }
    ensures ran { Ran (window_calls (V.view vault.old).levels window.now (record { stripes = stripes.now; chosen = chosen.now }) window.now.count)
        result (state_of (V.view vault.old)) (state_of (V.view vault.new)) }
    ensures changes { ChangesBy (WritesBlocks window.now.block_size (IsChosen (record { stripes = stripes.now; chosen = chosen.now })))
        (V.view vault.old) (V.view vault.new) }
    ensures drafts { DraftsStay (V.view vault.old) (V.view vault.new) }
    ensures written { OnOk result ((rows : Rows) →
        Reads (HoldsRows (V.view vault.old).levels window.now.block_size rows) (V.view vault.old) →
        Reads (HoldsRows (V.view vault.old).levels window.now.block_size
        (rows_with window.now (record { stripes = stripes.now; chosen = chosen.now }) window.now.count rows)) (V.view vault.new)) }
    ensures elsewhere { OnOk result (Reads
        (SameElsewhere (V.view vault.old).levels window.now.block_size
        (IsChosen (record { stripes = stripes.now; chosen = chosen.now })) (V.view vault.old).files) (V.view vault.new)) }
{
    for i in 0..window.count() {
        if !chosen[i as usize] {
            continue;
        }
        let own = &sums[i as usize];
        write_levels(vault, window, stripes, i, own.blocks.as_slice())?;
    }
    Ok(())
}
