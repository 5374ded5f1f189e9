// Parity over a vault in memory.
use disk_memory::MemVault;
use disk_model::{Failed, Vault};
use parity_writer::{set_lengths, settle};
use std::test::Fail;

mod levels;
mod window;

#[test]
fn levels_are_cut_and_extended(rt: HostRuntime) -> Result<(), Fail> {
    let mut vault = MemVault::new(rt.alloc(), 2, 0)?;
    vault.set_parity(0, b"abcdef")?;
    vault.set_parity(1, b"ab")?;
    set_lengths(&mut vault, 4)?;
    let mut out = [9; 6];
    assert_eq!(rt; vault.parity_read(0, 0, &mut out)?, 4);
    assert_eq!(rt; out, *b"abcd\x09\x09");
    assert_eq!(rt; vault.parity_read(1, 0, &mut out)?, 4);
    assert_eq!(rt; out, *b"ab\0\0\x09\x09");
    Ok(())
}

// Calls one and two of `set_lengths` ask for a length and set it; each level is synced by a call.
#[test]
fn a_call_that_fails_is_told(rt: HostRuntime) -> Result<(), Fail> {
    for call in 1..5 {
        let mut vault = MemVault::new(rt.alloc(), 2, 0)?;
        vault.fail_at(call)?;
        assert_eq!(rt; set_lengths(&mut vault, 4), Err(Failed));
        assert_eq!(rt; vault.faults(), 1);
    }
    for call in 1..3 {
        let mut vault = MemVault::new(rt.alloc(), 2, 0)?;
        vault.fail_at(call)?;
        assert_eq!(rt; settle(&mut vault), Err(Failed));
    }
    let mut vault = MemVault::new(rt.alloc(), 2, 0)?;
    vault.fail_at(3)?;
    assert_eq!(rt; settle(&mut vault), Ok(()));
    Ok(())
}
