// A call of a split level that fails once: what it leaves, and that it may be made again.
use crate::tests::calls::{ALL, Answer, Call, answer_of, are_alike, draw_call};
use crate::tests::unsynced::Unsynced;
use crate::tests::vaults::{FEW, HIDDEN, Short, one_level, plain_file, three_files};
use disk_model::Vault;
use rand_pcg::Pcg32;
use std::alloc::Global;
use std::test::Fail;

// Makes a call of both levels, once more where it fails.
fn make<V: Vault, W: Vault>(split: &mut V, plain: &mut W, kept: &mut Unsynced, call: Call) -> bool {
    kept.begin(call);
    let mut got = answer_of(split, 0, call);
    if got == Answer::Failed {
        if !kept.may_leave(answer_of(split, 0, ALL)) {
            return false;
        }
        got = answer_of(split, 0, call);
    }
    if got != answer_of(plain, 0, call) || !are_alike(split, plain, 0) {
        return false;
    }
    kept.end(call, answer_of(plain, 0, ALL));
    true
}

fn agree<V: Vault, W: Vault>(split: &mut V, plain: &mut W, seed: u64) -> Result<(), Fail> {
    let mut random = Pcg32::new(seed, 21);
    let mut kept = Unsynced::synced(answer_of(plain, 0, ALL));
    for number in 0..30u32 {
        let call = draw_call(&mut random);
        if !make(split, plain, &mut kept, call) {
            return Err(Fail::new(format_args!("call {number} of seed {seed}")));
        }
    }
    Ok(())
}

// How many calls of the base failed.
fn play(alloc: Global, seed: u64, failing: u64) -> Result<u64, Fail> {
    let mut base = three_files(alloc, HIDDEN)?;
    base.fail_at(failing)?;
    let mut split = one_level::<Short>(alloc, base, FEW)?;
    let mut plain = plain_file(alloc)?;
    agree(&mut split, &mut plain, seed)?;
    Ok(split.faults())
}

#[test]
fn each_call_fails_once_and_is_made_again(rt: HostRuntime) -> Result<(), Fail> {
    for seed in 0..4 {
        for failing in 1..121 {
            let faults = play(rt.alloc(), seed, failing)?;
            assert_eq!(rt; faults, 1, "call {failing} of seed {seed}");
        }
    }
    Ok(())
}
