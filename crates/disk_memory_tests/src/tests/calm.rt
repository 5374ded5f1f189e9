// Calm objects hold what is written to them, and fail nowhere.
use crate::tests::opener::places;
use crate::tests::play::{of_file, plays};
use crate::tests::steps::Answer::{self, Done, Missing, Size};
use crate::tests::steps::{FileStep, NONE, STAMP, VaultStep};
use disk_memory::{CalmFolder, CalmOpener, CalmSink, CalmVault};
use disk_model::{Folder, Meta, OpenFault, Opener, Path, Sink, Vault};
use std::alloc::Global;
use std::test::Fail;

// A folder that holds one file.
fn folder(alloc: Global, path: &str, text: &str) -> Result<CalmFolder, Fail> {
    let mut folder = CalmFolder::new(alloc, true);
    folder.put(Path::new(alloc, path)?, STAMP, text.as_bytes())?;
    Ok(folder)
}

fn removes(folder: &mut CalmFolder, path: &Path) -> bool {
    folder.remove(path)
}

#[test]
fn a_calm_folder_holds_what_is_written(rt: HostRuntime) -> Result<(), Fail> {
    const META: Meta = Meta {
        size: 3,
        stamp: STAMP,
    };
    static STEPS: [(FileStep, Answer); 7] = [
        (FileStep::Write(1, "xyz"), Done),
        (FileStep::SetSize(3), Done),
        (FileStep::SetStamp(STAMP), Done),
        (FileStep::Look(false), Answer::Meta(META)),
        (FileStep::Look(true), Missing),
        (FileStep::Reads(false, 0, 3, b"oxy\x09\x09\x09"), Done),
        (FileStep::Lists(&[("a", 3)]), Done),
    ];
    let alloc = rt.alloc();
    let mut folder = folder(alloc, "a", "old")?;
    let path = Path::new(alloc, "a")?;
    for (step, answer) in &STEPS {
        assert_eq!(rt; of_file(alloc, &mut folder, &path, *step), *answer);
    }
    assert!(rt; removes(&mut folder, &path));
    assert!(rt; !removes(&mut folder, &path));
    assert_eq!(rt; folder.faults(), 0);
    Ok(())
}

// An empty folder takes each file that another one took.
fn makes(alloc: Global, path: &Path) -> Result<Answer, Fail> {
    let mut other = CalmFolder::new(alloc, false);
    let mut folder = CalmFolder::new(alloc, false);
    if !other.put(path.copy()?, STAMP, b"")? {
        return Ok(Answer::Differs);
    }
    folder.make(path)?;
    Ok(of_file(alloc, &mut folder, path, FileStep::Look(false)))
}

#[test]
fn a_calm_folder_makes_a_file(rt: HostRuntime) -> Result<(), Fail> {
    let alloc = rt.alloc();
    let made = makes(alloc, &Path::new(alloc, "a")?)?;
    assert!(rt; matches!(made, Answer::Meta(Meta { size: 0, .. })));
    Ok(())
}

fn opener(alloc: Global) -> Result<CalmOpener, Fail> {
    let folders = vec![in alloc; folder(alloc, "a", "old")?]?;
    let config = vec![in alloc; 7u8]?;
    let vault = CalmVault::new(alloc, 1, 1)?;
    Ok(CalmOpener::new(config, folders, vault))
}

fn config(alloc: Global, opener: &mut CalmOpener) -> Answer {
    match opener.config(alloc, "c") {
        Ok(bytes) if bytes.as_slice() == [7].as_slice() => Done,
        Err(OpenFault::Failed) => Answer::Failed,
        _ => Answer::Differs,
    }
}

fn is_given(alloc: Global, opener: &mut CalmOpener, copies: &[&str]) -> Result<bool, Fail> {
    let places = places(alloc, copies)?;
    Ok(opener.open(alloc, &places).is_ok())
}

#[test]
fn a_calm_opener_gives_its_objects_once(rt: HostRuntime) -> Result<(), Fail> {
    let alloc = rt.alloc();
    let mut opener = opener(alloc)?;
    assert_eq!(rt; config(alloc, &mut opener), Done);
    assert!(rt; !is_given(alloc, &mut opener, &[])?);
    assert!(rt; is_given(alloc, &mut opener, &["c"])?);
    assert!(rt; !is_given(alloc, &mut opener, &["c"])?);
    assert_eq!(rt; opener.faults(), 2);
    Ok(())
}

fn is_imported(opener: &mut CalmOpener) -> bool {
    opener.import("i").is_ok()
}

#[test]
fn a_calm_opener_gives_a_folder_to_import_once(rt: HostRuntime) -> Result<(), Fail> {
    let alloc = rt.alloc();
    let mut opener = opener(alloc)?;
    assert!(rt; !is_imported(&mut opener));
    opener.set_import(CalmFolder::new(alloc, true));
    assert!(rt; is_given(alloc, &mut opener, &["c"])?);
    assert!(rt; is_imported(&mut opener));
    assert!(rt; !is_imported(&mut opener));
    assert_eq!(rt; opener.faults(), 2);
    Ok(())
}

#[test]
fn a_calm_vault_holds_parity_and_content(rt: HostRuntime) -> Result<(), Fail> {
    static STEPS: [(VaultStep, Answer); 9] = [
        (VaultStep::Write(1, "ab"), Done),
        (VaultStep::SetLen(2), Done),
        (VaultStep::Sync, Done),
        (VaultStep::ParityReads(0, 2, b"\0a\x09\x09\x09\x09"), Done),
        (VaultStep::ParityLen, Size(2)),
        (VaultStep::Seal("o", "ld"), Done),
        (VaultStep::Size, Missing),
        (VaultStep::Save("n", "ew"), Done),
        (VaultStep::Reads(1, 2, b"ew\x09\x09\x09\x09"), Done),
    ];
    let mut vault = CalmVault::new(rt.alloc(), 1, 1)?;
    plays(&mut vault, &STEPS, NONE)?;
    assert_eq!(rt; vault.faults(), 0);
    Ok(())
}

#[test]
fn a_calm_sink_takes_all(rt: HostRuntime) -> Result<(), Fail> {
    let mut sink = CalmSink::new();
    sink.write(b"text")?;
    assert_eq!(rt; sink.faults(), 0);
    Ok(())
}
