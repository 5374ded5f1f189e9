// What a vault in memory holds, and which of its calls fail.
use crate::tests::play::plays;
use crate::tests::steps::Answer::{self, Done, Missing, Size};
use crate::tests::steps::VaultStep::{
    self, ParityLen, ParityReads, Reads, Save, Seal, SetLen, Sync, Write,
};
use crate::tests::steps::{Failing, NONE};
use disk_memory::MemVault;
use disk_model::{Ahead, NoAhead, NoMemory, Vault};
use std::alloc::Global;
use std::test::Fail;

#[test]
fn parity_files_are_written_cut_and_extended(rt: HostRuntime) -> Result<(), Fail> {
    static STEPS: [(VaultStep, Answer); 9] = [
        (ParityLen, Size(0)),
        (Write(2, "abc"), Done),
        (ParityReads(0, 5, b"\0\0abc\x09"), Done),
        (Write(3, "x"), Done),
        (SetLen(4), Done),
        (Sync, Done),
        (SetLen(5), Done),
        (ParityReads(2, 3, b"ax\0\x09\x09\x09"), Done),
        (ParityReads(6, 0, b"\x09\x09\x09\x09\x09\x09"), Done),
    ];
    let mut vault = MemVault::new(rt.alloc(), 1, 0)?;
    assert_eq!(rt; vault.first_write(), 0);
    plays(&mut vault, &STEPS, NONE)?;
    assert_eq!(rt; vault.first_write(), 2);
    Ok(())
}

#[test]
fn a_draft_is_published_over_an_older_copy(rt: HostRuntime) -> Result<(), Fail> {
    static STEPS: [(VaultStep, Answer); 7] = [
        (VaultStep::Size, Missing),
        (Reads(0, 0, b"\x09\x09\x09\x09\x09\x09"), Done),
        (Save("o", "ld"), Done),
        (Seal("con", "tent"), Done),
        (VaultStep::Size, Size(3)),
        (Save("", "other"), Done),
        (Reads(1, 4, b"ther\x09\x09"), Done),
    ];
    let mut vault = MemVault::new(rt.alloc(), 0, 1)?;
    plays(&mut vault, &STEPS, NONE)
}

// A vault of one level and one copy, damaged from outside.
fn damaged(alloc: Global) -> Result<MemVault, NoMemory> {
    let mut vault = MemVault::new(alloc, 1, 1)?;
    vault.set_parity(0, b"parity")?;
    vault.set_content(0, Some(b"old"))?;
    Ok(vault)
}

#[test]
fn damage_from_outside_is_read(rt: HostRuntime) -> Result<(), Fail> {
    static STEPS: [(VaultStep, Answer); 4] = [
        (ParityLen, Size(6)),
        (ParityReads(0, 6, b"parity"), Done),
        (VaultStep::Size, Size(3)),
        (Reads(0, 3, b"old\x09\x09\x09"), Done),
    ];
    let mut vault = damaged(rt.alloc())?;
    plays(&mut vault, &STEPS, NONE)
}

// Plans, and takes and puts back what reads ahead. Whether there was nothing to take.
fn takes_nothing_ahead(alloc: Global, vault: &mut MemVault) -> Result<bool, NoMemory> {
    if vault.levels() > 0 {
        vault.plan_ahead(0, 1, 4);
    }
    let taken = vault.take_ahead();
    let mut nothing = NoAhead;
    nothing.fetch();
    vault.put_ahead(vec![in alloc; nothing]?);
    Ok(taken.is_none())
}

#[test]
fn nothing_is_read_ahead(rt: HostRuntime) -> Result<(), Fail> {
    static STEPS: [(VaultStep, Answer); 2] = [
        (ParityLen, Size(6)),
        (ParityReads(1, 5, b"arity\x09"), Done),
    ];
    let mut vault = damaged(rt.alloc())?;
    assert!(rt; takes_nothing_ahead(rt.alloc(), &mut vault)?);
    plays(&mut vault, &STEPS, NONE)
}

// Each call of a vault: the last step makes those from the eighth to the twelfth.
static ROUND: [(VaultStep, Answer); 8] = [
    (ParityLen, Size(0)),
    (ParityReads(0, 0, b"\x09\x09\x09\x09\x09\x09"), Done),
    (Sync, Done),
    (VaultStep::Size, Missing),
    (Reads(0, 0, b"\x09\x09\x09\x09\x09\x09"), Done),
    (Write(0, "ab"), Done),
    (SetLen(3), Done),
    (Save("con", "tent"), Done),
];

// What is held after it, by the number of the call that failed.
fn held_after(failing: u64) -> [(VaultStep, Answer); 2] {
    let parity: (usize, &'static [u8; 6]) = match failing {
        6 => (3, b"\0\0\0\x09\x09\x09"),
        7 => (2, b"ab\x09\x09\x09\x09"),
        _ => (3, b"ab\0\x09\x09\x09"),
    };
    let size = if failing < 8 { Size(7) } else { Missing };
    [
        (ParityReads(0, parity.0, parity.1), Done),
        (VaultStep::Size, size),
    ]
}

fn fails_at(alloc: Global, call: u64) -> Result<MemVault, NoMemory> {
    let mut vault = MemVault::new(alloc, 1, 1)?;
    vault.fail_at(call)?;
    Ok(vault)
}

#[test]
fn each_call_fails_where_it_is_told_to(rt: HostRuntime) -> Result<(), Fail> {
    for call in 1..13u64 {
        let mut vault = fails_at(rt.alloc(), call)?;
        let step = call.min(8);
        let failing = Failing {
            first: step,
            last: step,
        };
        plays(&mut vault, &ROUND, failing)?;
        plays(&mut vault, &held_after(call), NONE)?;
        assert_eq!(rt; vault.faults(), 1, "at call {call}");
    }
    Ok(())
}

fn stops_after(alloc: Global, calls: u64) -> Result<MemVault, NoMemory> {
    let mut vault = MemVault::new(alloc, 1, 1)?;
    vault.stop_after(calls);
    Ok(vault)
}

#[test]
fn each_call_after_a_stop_fails(rt: HostRuntime) -> Result<(), Fail> {
    for calls in 0..12u64 {
        let mut vault = stops_after(rt.alloc(), calls)?;
        let failing = Failing {
            first: calls.min(7) + 1,
            last: 8,
        };
        plays(&mut vault, &ROUND, failing)?;
        assert_eq!(rt; vault.faults(), 8 - calls.min(7), "after {calls}");
    }
    let mut vault = stops_after(rt.alloc(), 12)?;
    plays(&mut vault, &ROUND, NONE)?;
    assert_eq!(rt; vault.faults(), 0);
    Ok(())
}
