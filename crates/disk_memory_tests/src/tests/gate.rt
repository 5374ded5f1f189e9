// Gated objects are their bases, and see the other gate's flag where it is set.
use crate::tests::play::{of_file, of_vault};
use crate::tests::steps::{Answer, FileStep, VaultStep};
use disk_memory::{GateFolder, GateVault, MemFolder, MemVault};
use disk_model::Path;
use std::alloc::Global;
use std::sync::atomic::{AtomicBool, Ordering};
use std::test::Fail;

#[test]
fn a_gated_folder_waits_at_its_call(rt: HostRuntime) -> Result<(), Fail> {
    let alloc = rt.alloc();
    let one = AtomicBool::new(false);
    let two = AtomicBool::new(true);
    let path = Path::new(alloc, "a")?;
    let mut folder = GateFolder::new(MemFolder::new(alloc, true), 2, &one, &two);
    let looked = of_file(alloc, &mut folder, &path, FileStep::Look(false));
    assert_eq!(rt; looked, Answer::Missing);
    assert!(rt; !folder.saw());
    assert!(rt; !one.load(Ordering::SeqCst));
    let listed = of_file(alloc, &mut folder, &path, FileStep::Lists(&[]));
    assert_eq!(rt; listed, Answer::Done);
    assert!(rt; folder.saw());
    assert!(rt; one.load(Ordering::SeqCst));
    Ok(())
}

#[test]
fn a_gated_vault_waits_at_its_call(rt: HostRuntime) -> Result<(), Fail> {
    let alloc = rt.alloc();
    let one = AtomicBool::new(true);
    let two = AtomicBool::new(false);
    let mut vault = GateVault::new(MemVault::new(alloc, 1, 0)?, 1, &two, &one);
    let written = of_vault(&mut vault, VaultStep::Write(0, "ab"));
    assert_eq!(rt; written, Answer::Done);
    assert!(rt; vault.saw());
    assert!(rt; two.load(Ordering::SeqCst));
    assert_eq!(rt; of_vault(&mut vault, VaultStep::ParityLen), Answer::Size(2));
    let mut ungated = GateVault::new(MemVault::new(alloc, 1, 0)?, 0, &two, &one);
    assert_eq!(rt;
        of_vault(&mut ungated, VaultStep::ParityLen),
        Answer::Size(0)
    );
    assert!(rt; !ungated.saw());
    Ok(())
}

// A gate whose other flag stays unset goes on, and saw nothing.
fn saw_none(alloc: Global, own: &AtomicBool, unset: &AtomicBool) -> Result<bool, Fail> {
    let path = Path::new(alloc, "a")?;
    let folder = GateFolder::new(MemFolder::new(alloc, true), 1, own, unset);
    let mut folder = folder.with_turns(9);
    let listed = of_file(alloc, &mut folder, &path, FileStep::Lists(&[]));
    let vault = GateVault::new(MemVault::new(alloc, 1, 0)?, 1, own, unset);
    let mut vault = vault.with_turns(9);
    let len = of_vault(&mut vault, VaultStep::ParityLen);
    Ok(listed == Answer::Done && len == Answer::Size(0) && !folder.saw() && !vault.saw())
}

#[test]
fn a_gate_without_the_other_sees_nothing(rt: HostRuntime) -> Result<(), Fail> {
    let own = AtomicBool::new(false);
    let unset = AtomicBool::new(false);
    assert!(rt; saw_none(rt.alloc(), &own, &unset)?);
    assert!(rt; own.load(Ordering::SeqCst) && !unset.load(Ordering::SeqCst));
    Ok(())
}
