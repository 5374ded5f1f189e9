// Calls at random answer of split levels what they answer of plain ones.
use crate::tests::calls::{answer_of, are_alike, draw, draw_call};
use crate::tests::vaults::three_levels;
use disk_memory::MemVault;
use disk_model::Vault;
use rand_pcg::Pcg32;
use std::alloc::Global;
use std::test::Fail;

// So many calls of both vaults.
fn agree<V: Vault, W: Vault>(split: &mut V, plain: &mut W, seed: u64) -> Result<(), Fail> {
    let mut random = Pcg32::new(seed, 20);
    for number in 0..200u32 {
        let level = draw(&mut random, 3);
        let call = draw_call(&mut random);
        if answer_of(split, level, call) != answer_of(plain, level, call) {
            return Err(Fail::new(format_args!("call {number} of seed {seed}")));
        }
        for level in 0..3 {
            if !are_alike(split, plain, level) {
                return Err(Fail::new(format_args!(
                    "level {level} after call {number} of seed {seed}"
                )));
            }
        }
    }
    Ok(())
}

fn play(alloc: Global, seed: u64) -> Result<u64, Fail> {
    let base = MemVault::new(alloc, 6, 0)?;
    let mut split = three_levels(alloc, base)?;
    let mut plain = MemVault::new(alloc, 3, 0)?;
    agree(&mut split, &mut plain, seed)?;
    Ok(split.faults())
}

#[test]
fn split_levels_answer_what_plain_ones_do(rt: HostRuntime) -> Result<(), Fail> {
    for seed in 0..20 {
        let faults = play(rt.alloc(), seed)?;
        assert_eq!(rt; faults, 0);
    }
    Ok(())
}
