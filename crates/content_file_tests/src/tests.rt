// Whole files, and copies of them.
ghost use Rattle.std.specs.Prelude.{◌≡◌, ◌<◌};
ghost use Rattle.disk_model.specs.Vault.{copies_of};
ghost use Rattle.disk_memory.specs.Vault.{vault_view};

use crate::samples::{NO_FILE, ONE_FILE, THREE_DISKS, is_one_file};
use content_file::{Damage, Encoder, Flaw, LoadFault, TableDigest, decode, load, save};
use disk_memory::MemVault;
use disk_model::{Failed, Vault};
use file_table::Table;
use sha2::{Digest, Sha256};
use std::alloc::{AllocError, Global};
use std::test::Fail;

#[test]
fn whole_files(rt: HostRuntime) -> Result<(), Fail> {
    assert!(rt; is_one_file(&decode(rt.alloc(), &ONE_FILE)?));
    let empty = decode(rt.alloc(), &NO_FILE)?;
    assert_eq!(rt; empty.disks(), 1);
    assert_eq!(rt; empty.length(), 0);
    Ok(())
}

// What loading gave.
#[derive(Clone, Copy, Debug, PartialEq, Eq)]
enum Loaded {
    Nothing,
    /// How many files the table has.
    Files(u32),
    Failed,
    /// How many copies are damaged, and the last of them.
    Damaged(u32, (u32, Damage)),
    Memory,
}

fn outcome_of(answer: Result<Option<Table>, LoadFault>) -> Loaded {
    match answer {
        Ok(Some(table)) if table.disks() == 1 => Loaded::Files(table.records(0)),
        Ok(_) => Loaded::Nothing,
        Err(LoadFault::Failed) => Loaded::Failed,
        Err(LoadFault::Damaged(damages)) if !damages.is_empty() => {
            let count = damages.len();
            Loaded::Damaged(count, damages.at(count - 1))
        }
        Err(_) => Loaded::Memory,
    }
}

// What the first good of two copies gives, where call `failing` of the vault fails.
fn load_of(alloc: Global, copies: [Option<&[u8]>; 2], failing: u64) -> Result<Loaded, Fail> {
    let mut vault = MemVault::new(alloc, 1, 2)?;
    vault.set_content(0, copies[0])?;
    vault.set_content(1, copies[1])?;
    vault.fail_at(failing)?;
    Ok(outcome_of(load(alloc, &mut vault)))
}

fn damaged(count: u32, copy: u32, offset: u64, why: Flaw) -> Loaded {
    Loaded::Damaged(count, (copy, Damage { offset, why }))
}

#[test]
fn copies_in_order(rt: HostRuntime) -> Result<(), Fail> {
    let whole = Some(ONE_FILE.as_slice());
    let empty = Some(NO_FILE.as_slice());
    let short = Some(&ONE_FILE[..126]);
    let other = Some(b"other".as_slice());
    for (copies, failing, answer) in [
        ([None, None], 0, Loaded::Nothing),
        ([None, whole], 0, Loaded::Files(1)),
        ([empty, whole], 0, Loaded::Files(0)),
        ([short, whole], 0, Loaded::Files(1)),
        ([whole, empty], 1, Loaded::Files(0)),
        ([whole, empty], 2, Loaded::Files(0)),
        ([whole, None], 2, Loaded::Failed),
        ([whole, short], 1, Loaded::Failed),
        ([short, None], 0, damaged(1, 0, 95, Flaw::Short)),
        ([None, short], 0, damaged(1, 1, 95, Flaw::Short)),
        ([short, other], 0, damaged(2, 1, 0, Flaw::Short)),
    ] {
        assert_eq!(rt; load_of(rt.alloc(), copies, failing)?, answer);
    }
    Ok(())
}

// A content file of one file of 8,000 blocks of 1 KiB, each in a pending stripe: 112,097 bytes.
fn long_file(alloc: Global) -> Result<Vec<u8>, Fail> {
    let blocks = 8_000u32;
    let mut file = Vec::from_slice(alloc, &ONE_FILE[..30])?;
    file.extend_from_slice(&blocks.to_le_bytes())?;
    file.extend_from_slice(&ONE_FILE[34..45])?;
    file.extend_from_slice(&(u64::from(blocks) * 1024).to_le_bytes())?;
    file.extend_from_slice(&ONE_FILE[53..65])?;
    for position in 0..blocks {
        file.extend_from_slice(&position.to_le_bytes())?;
        file.push(0)?;
    }
    for _ in 0..blocks {
        file.extend_from_slice(&[0; 9])?;
    }
    let digest = Sha256::digest(file.as_slice());
    file.extend_from_slice(digest.as_slice())?;
    Ok(file)
}

#[test]
fn a_copy_in_several_pieces(rt: HostRuntime) -> Result<(), Fail> {
    let long = long_file(rt.alloc())?;
    let whole = Some(long.as_slice());
    let one = Some(ONE_FILE.as_slice());
    let mut longer = Vec::from_slice(rt.alloc(), &ONE_FILE)?;
    longer.resize(200_000, 0)?;
    for (copies, failing, answer) in [
        ([whole, None], 0, Loaded::Files(1)),
        ([whole, None], 3, Loaded::Failed),
        ([whole, one], 3, Loaded::Files(1)),
        (
            [Some(longer.as_slice()), None],
            0,
            damaged(1, 0, 127, Flaw::Extra),
        ),
        ([Some(longer.as_slice()), None], 5, Loaded::Failed),
    ] {
        assert_eq!(rt; load_of(rt.alloc(), copies, failing)?, answer);
    }
    Ok(())
}

// What an encoder gives in so many pieces as long as the buffer.
fn pieces(alloc: Global, table: &Table, buffer: &mut [u8]) -> Result<Vec<u8>, AllocError> {
    let mut written = Vec::new(alloc);
    let mut encoder = Encoder::new(table, TableDigest::of(table));
    for _ in 0..300 {
        let count = encoder.next(buffer);
        written.extend_from_slice(&buffer[..count])?;
    }
    Ok(written)
}

#[test]
fn tables_written_as_they_were_read(rt: HostRuntime) -> Result<(), Fail> {
    for bytes in [ONE_FILE.as_slice(), &NO_FILE, &THREE_DISKS] {
        let table = decode(rt.alloc(), bytes)?;
        for size in [1, 7, 42, 127, 400] {
            let mut buffer = [0; 400];
            let written = pieces(rt.alloc(), &table, &mut buffer[..size])?;
            assert_eq!(rt; written.as_slice(), bytes);
        }
        assert!(rt; pieces(rt.alloc(), &table, &mut [])?.is_empty());
    }
    Ok(())
}

// Whether a copy holds these bytes.
fn holds(vault: &mut MemVault, copy: u32, bytes: &[u8]) -> Result<bool, Failed>
    requires { copy < copies_of (vault_view vault.old) }
    ensures { copies_of (vault_view vault.new) ≡ copies_of (vault_view vault.old) }
{
    let mut held = [0; 128];
    let count = vault.content_read(copy, 0, &mut held)?;
    Ok(&held[..count] == bytes)
}

// How a save into two copies by pieces of 50 bytes ends where call `failing` of the vault fails, and whether each
// copy holds the table then.
fn saved(alloc: Global, failing: u64) -> Result<(Result<(), Failed>, bool, bool), Fail> {
    let table = decode(alloc, &ONE_FILE)?;
    let mut vault = MemVault::new(alloc, 1, 2)?;
    vault.fail_at(failing)?;
    let digest = TableDigest::of(&table);
    let answer = save(&mut vault, &table, digest, &mut [0; 50]);
    let first = holds(&mut vault, 0, &ONE_FILE)?;
    let second = holds(&mut vault, 1, &ONE_FILE)?;
    Ok((answer, first, second))
}

#[test]
fn copies_saved_in_order(rt: HostRuntime) -> Result<(), Fail> {
    let failed = Err(Failed);
    for (failing, answer, first, second) in [
        (0, Ok(()), true, true),
        (1, failed, false, false),
        (6, failed, false, false),
        (7, failed, true, false),
        (12, failed, true, false),
    ] {
        assert_eq!(rt; saved(rt.alloc(), failing)?, (answer, first, second));
    }
    Ok(())
}

#[test]
fn a_copy_saved_in_one_piece(rt: HostRuntime) -> Result<(), Fail> {
    let table = decode(rt.alloc(), &ONE_FILE)?;
    let mut vault = MemVault::new(rt.alloc(), 1, 1)?;
    let digest = TableDigest::of(&table);
    assert!(rt; save(&mut vault, &table, digest, &mut [0; 200]).is_ok());
    assert!(rt; holds(&mut vault, 0, &ONE_FILE)?);
    Ok(())
}
