// What a stop leaves of a split level, whatever it leaves of the parts.
use crate::tests::calls::{ALL, Answer, answer_of, draw, draw_call};
use crate::tests::unsynced::Unsynced;
use crate::tests::vaults::{FEW, HIDDEN, Short, one_level, plain_file, three_files};
use disk_memory::MemVault;
use disk_model::Vault;
use rand_pcg::Pcg32;
use std::alloc::Global;
use std::test::Fail;

// Bytes that pick an image after the last call: lengths of parts, and bytes at places that may be torn.
fn choice(random: &mut Pcg32, kind: u32) -> [u8; 64] {
    let mut bytes = [0xff; 64];
    for byte in bytes.iter_mut().skip(8) {
        let low = draw(random, 10).to_le_bytes()[0];
        *byte = match kind {
            0 => 0,
            1 => 0xff,
            _ if draw(random, 8) == 0 => low,
            _ => 0,
        };
    }
    bytes
}

// Makes calls of both levels up to the stop. Gives what may be left then.
fn make<V: Vault, W: Vault>(split: &mut V, plain: &mut W, random: &mut Pcg32) -> Unsynced {
    let mut kept = Unsynced::synced(answer_of(plain, 0, ALL));
    for _ in 0..20u32 {
        let call = draw_call(random);
        kept.begin(call);
        if answer_of(split, 0, call) == Answer::Failed {
            return kept;
        }
        answer_of(plain, 0, call);
        kept.end(call, answer_of(plain, 0, ALL));
    }
    kept
}

// What reads of the level whose parts are an image of this base.
fn left(alloc: Global, base: &MemVault, choice: &[u8]) -> Result<Answer, Fail> {
    let mut image = one_level::<Short>(alloc, base.image(choice)?, FEW)?;
    Ok(answer_of(&mut image, 0, ALL))
}

// Stops after so many calls of the base. Says how many images were not what is read.
fn play(alloc: Global, seed: u64, calls: u64) -> Result<u32, Fail> {
    let mut base = three_files(alloc, HIDDEN)?;
    base.stop_after(calls);
    let mut split = one_level::<Short>(alloc, base, FEW)?;
    let mut plain = plain_file(alloc)?;
    let mut random = Pcg32::new(seed, 22);
    let kept = make(&mut split, &mut plain, &mut random);
    let base = split.into_base();
    let read = answer_of(&mut plain, 0, ALL);
    let mut others = 0u32;
    for kind in 0..8 {
        let left = left(alloc, &base, &choice(&mut random, kind))?;
        if !kept.may_leave(left) {
            return Err(Fail::new(format_args!("{left:?} of seed {seed} after {calls}")));
        }
        if left != read {
            others = others.saturating_add(1);
        }
    }
    Ok(others)
}

#[test]
fn a_stop_leaves_of_a_split_level_what_it_may_leave_of_a_plain_one(
    rt: HostRuntime,
) -> Result<(), Fail> {
    let mut others = 0u32;
    for seed in 0..10 {
        for calls in 0..60 {
            others = others.saturating_add(play(rt.alloc(), seed, calls)?);
        }
    }
    assert!(rt; others > 1000);
    Ok(())
}
