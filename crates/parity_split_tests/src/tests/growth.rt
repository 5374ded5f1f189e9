// A level of three parts of 1,000, 500 and 0 bytes grows to 2,600: what stood behind its end is gone before it grows over it.
use crate::tests::vaults::{Long, lens, one_level, three_files};
use disk_memory::MemVault;
use disk_model::{Failed, Vault};
use parity_split::SplitVault;
use std::alloc::Global;
use std::test::Fail;

static FILES: [&[u8]; 3] = [&[7; 1000], &[8; 500], b""];

fn grow<V: Vault>(level: &mut V) -> Result<(), Failed> {
    if level.levels() == 0 {
        return Err(Failed);
    }
    level.parity_set_len(0, 2600)
}

fn len<V: Vault>(level: &mut V) -> Result<u64, Failed> {
    if level.levels() == 0 {
        return Err(Failed);
    }
    level.parity_len(0)
}

// Whether the level is the first part and zeros.
fn is_extended<V: Vault>(level: &mut V) -> Result<bool, Failed> {
    if level.levels() == 0 {
        return Err(Failed);
    }
    let mut out = [9; 2601];
    let got = level.parity_read(0, 0, &mut out)?;
    let (front, rest) = out.split_at(1000);
    let (zeros, past) = rest.split_at(1600);
    let is_kept = front.iter().all(|byte| *byte == 7);
    let is_zero = zeros.iter().all(|byte| *byte == 0);
    Ok(got == 2600 && is_kept && is_zero && past == [9].as_slice())
}

fn grown(alloc: Global) -> Result<SplitVault<MemVault, Long>, Fail> {
    let base = three_files(alloc, FILES)?;
    let mut level = one_level::<Long>(alloc, base, 2048)?;
    if len(&mut level)? != 1000 {
        return Err(Fail::new(format_args!("not 1,000 bytes before it grows")));
    }
    grow(&mut level)?;
    Ok(level)
}

#[test]
fn a_level_grows_over_hidden_bytes(rt: HostRuntime) -> Result<(), Fail> {
    let mut level = grown(rt.alloc())?;
    assert_eq!(rt; len(&mut level)?, 2600);
    assert!(rt; is_extended(&mut level)?);
    let mut base = level.into_base();
    assert_eq!(rt; lens(&mut base)?, [2048, 552, 0]);
    Ok(())
}

// The shortest parts and the longest that a stop after so many calls of the base leaves. The next call may do a part of its work.
fn stopped(alloc: Global, calls: u64) -> Result<([u64; 3], [u64; 3]), Fail> {
    let mut base = three_files(alloc, FILES)?;
    base.stop_after(calls);
    let mut level = one_level::<Long>(alloc, base, 2048)?;
    if grow(&mut level).is_ok() != (calls >= 9) {
        return Err(Fail::new(format_args!("not nine calls")));
    }
    let base = level.into_base();
    let mut choice = [0; 8192];
    let (moment, rest) = choice.split_at_mut(8);
    moment.fill(0xff);
    let mut shortest = base.image(&choice)?;
    choice.fill(0xff);
    let mut longest = base.image(&choice)?;
    Ok((lens(&mut shortest)?, lens(&mut longest)?))
}

#[test]
fn the_second_part_is_cut_and_synced_first(rt: HostRuntime) -> Result<(), Fail> {
    static LEFT: [(u64, [u64; 3], [u64; 3]); 9] = [
        (0, [1000, 500, 0], [1000, 500, 0]),
        (1, [1000, 500, 0], [1000, 500, 0]),
        (2, [1000, 0, 0], [1000, 500, 0]),
        (4, [1000, 0, 0], [1000, 500, 0]),
        (5, [1000, 0, 0], [1000, 0, 0]),
        (6, [1000, 0, 0], [2048, 0, 0]),
        (7, [1000, 0, 0], [2048, 0, 0]),
        (8, [2048, 0, 0], [2048, 552, 0]),
        (9, [2048, 0, 0], [2048, 552, 0]),
    ];
    for (calls, shortest, longest) in &LEFT {
        let left = stopped(rt.alloc(), *calls)?;
        assert_eq!(rt; left, (*shortest, *longest), "after {calls}");
    }
    Ok(())
}
