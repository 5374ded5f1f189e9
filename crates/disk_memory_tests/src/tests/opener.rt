// What an opener in memory gives, once, and which of its calls fail.
ghost use Rattle.std.specs.Prelude.{IfOk};
ghost use Rattle.disk_model.specs.Vault.{IsSettled};
ghost use Rattle.disk_memory.specs.Given.{HasNoDraft};
ghost use Rattle.disk_memory.specs.Vault.{vault_view};

use crate::tests::play::{of_file, plays};
use crate::tests::steps::{Answer, FileStep, NONE, VaultStep};
use disk_memory::{MemFolder, MemOpener, MemVault};
use disk_model::{Folder, NoMemory, OpenFault, Opened, Opener, Path, Places, Text, Vault};
use std::alloc::Global;
use std::test::Fail;

type Array = MemOpener<MemFolder, MemVault>;

// A folder whose first call fails, and all after it.
fn folder(alloc: Global) -> Result<MemFolder, NoMemory> {
    let mut folder = MemFolder::new(alloc, true);
    folder.fail_at(1)?;
    folder.stop_after(0);
    Ok(folder)
}

// A vault with a content copy, whose third call fails, and all after the fifth.
fn vault(alloc: Global) -> Result<MemVault, NoMemory>
    ensures settled { IfOk result (λ vault. IsSettled (vault_view vault)) }
    ensures drafts { IfOk result (λ vault. HasNoDraft (vault_view vault)) }
{
    let mut vault = MemVault::new(alloc, 1, 1)?;
    vault.set_content(0, Some(b"content"))?;
    vault.fail_at(3)?;
    vault.stop_after(5);
    Ok(vault)
}

fn opener(alloc: Global) -> Result<Array, Fail> {
    let vault = vault(alloc)?;
    let folders = vec![in alloc; folder(alloc)?]?;
    let config = vec![in alloc; 7u8]?;
    Ok(MemOpener::new(alloc, config, folders, vault))
}

/// One folder and one level, and these copies.
pub(super) fn places(alloc: Global, copies: &[&str]) -> Result<Places, NoMemory> {
    let mut contents = Vec::new(alloc);
    for copy in copies {
        contents.push(Text::new(alloc, copy)?)?;
    }
    Ok(Places {
        dirs: vec![in alloc; Text::new(alloc, "d")?]?,
        parities: vec![in alloc; Text::new(alloc, "p")?]?,
        contents,
    })
}

fn config(alloc: Global, opener: &mut Array) -> Answer {
    match opener.config(alloc, "c") {
        Ok(bytes) if bytes.as_slice() == [7].as_slice() => Answer::Done,
        Err(OpenFault::Failed) => Answer::Failed,
        _ => Answer::Differs,
    }
}

// What is given, or none where the call fails.
fn open(
    alloc: Global,
    opener: &mut Array,
    copies: &[&str],
) -> Result<Option<Opened<MemFolder, MemVault>>, NoMemory> {
    let places = places(alloc, copies)?;
    match opener.open(alloc, &places) {
        Ok(opened) => Ok(Some(opened)),
        Err(OpenFault::Failed) => Ok(None),
        Err(OpenFault::Memory) => Err(NoMemory),
    }
}

// The folder to import, or none where the call fails.
fn import(opener: &mut Array) -> Result<Option<MemFolder>, NoMemory> {
    match opener.import("i") {
        Ok(folder) => Ok(Some(folder)),
        Err(OpenFault::Failed) => Ok(None),
        Err(OpenFault::Memory) => Err(NoMemory),
    }
}

fn is_imported(opener: &mut Array) -> Result<bool, NoMemory> {
    Ok(import(opener)?.is_some())
}

fn looked(alloc: Global, folder: &mut MemFolder) -> Result<Answer, Fail> {
    let path = Path::new(alloc, "a")?;
    Ok(of_file(alloc, folder, &path, FileStep::Look(false)))
}

fn is_given(alloc: Global, opener: &mut Array, copies: &[&str]) -> Result<bool, NoMemory> {
    Ok(open(alloc, opener, copies)?.is_some())
}

#[test]
fn an_opener_gives_what_fits_once(rt: HostRuntime) -> Result<(), Fail> {
    let alloc = rt.alloc();
    let mut opener = opener(alloc)?;
    assert_eq!(rt; config(alloc, &mut opener), Answer::Done);
    assert!(rt; !is_given(alloc, &mut opener, &[])?);
    assert!(rt; is_given(alloc, &mut opener, &["c"])?);
    assert!(rt; !is_given(alloc, &mut opener, &["c"])?);
    assert_eq!(rt; opener.faults(), 2);
    Ok(())
}

#[test]
fn what_is_given_is_as_it_was(rt: HostRuntime) -> Result<(), Fail> {
    static STEPS: [(VaultStep, Answer); 6] = [
        (VaultStep::Size, Answer::Size(7)),
        (VaultStep::Reads(4, 3, b"ent\x09\x09\x09"), Answer::Done),
        (VaultStep::Size, Answer::Failed),
        (VaultStep::ParityLen, Answer::Size(0)),
        (VaultStep::Sync, Answer::Done),
        (VaultStep::Sync, Answer::Failed),
    ];
    let alloc = rt.alloc();
    let Some(mut opened) = open(alloc, &mut opener(alloc)?, &["c"])? else {
        return Err(Fail::new("nothing is given"));
    };
    let looked = match opened.folders.get_mut(0) {
        Some(folder) => looked(alloc, folder)?,
        None => Answer::Missing,
    };
    assert_eq!(rt; looked, Answer::Failed);
    plays(&mut opened.vault, &STEPS, NONE)
}

#[test]
fn an_opener_gives_a_folder_to_import_once(rt: HostRuntime) -> Result<(), Fail> {
    let alloc = rt.alloc();
    let mut opener = opener(alloc)?;
    assert!(rt; !is_imported(&mut opener)?);
    opener.set_import(MemFolder::new(alloc, true));
    opener.set_import(folder(alloc)?);
    assert!(rt; is_given(alloc, &mut opener, &["c"])?);
    assert!(rt; is_imported(&mut opener)?);
    assert!(rt; !is_imported(&mut opener)?);
    assert_eq!(rt; opener.faults(), 2);
    Ok(())
}

// It has the three calls.
fn round(alloc: Global, opener: &mut Array) -> Result<(bool, bool, bool), NoMemory> {
    let read = config(alloc, opener) == Answer::Done;
    Ok((read, is_given(alloc, opener, &["c"])?, is_imported(opener)?))
}

// One with a folder to import.
fn with_import(alloc: Global) -> Result<Array, Fail> {
    let mut opener = opener(alloc)?;
    opener.set_import(folder(alloc)?);
    Ok(opener)
}

fn fails_at(alloc: Global, call: u64) -> Result<Array, Fail> {
    let mut opener = with_import(alloc)?;
    opener.fail_at(call)?;
    Ok(opener)
}

fn stops_after(alloc: Global, calls: u64) -> Result<Array, Fail> {
    let mut opener = with_import(alloc)?;
    opener.stop_after(calls);
    Ok(opener)
}

#[test]
fn each_call_fails_where_it_is_told_to(rt: HostRuntime) -> Result<(), Fail> {
    let alloc = rt.alloc();
    for call in 1..4u64 {
        let mut opener = fails_at(alloc, call)?;
        assert_eq!(rt;
            round(alloc, &mut opener)?,
            (call != 1, call != 2, call != 3)
        );
        assert_eq!(rt; round(alloc, &mut opener)?, (true, call == 2, call == 3));
    }
    for calls in 0..4u64 {
        let mut opener = stops_after(alloc, calls)?;
        assert_eq!(rt;
            round(alloc, &mut opener)?,
            (calls > 0, calls > 1, calls > 2)
        );
        assert_eq!(rt; opener.faults(), 3 - calls);
    }
    Ok(())
}
