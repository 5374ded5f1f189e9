// What becomes of a vault between two runs.
ghost use Rattle.std.specs.Prelude.{IfOk};
ghost use Rattle.disk_model.specs.Vault.{IsSettled};
ghost use Rattle.disk_memory.specs.Given.{HasNoDraft};
ghost use Rattle.disk_memory.specs.Vault.{vault_view};

use crate::arrays::Left;
use disk_memory::MemVault;
use disk_model::Vault;
use std::alloc::Global;
use std::test::Fail;

/// The bytes of a content copy, or that there is none.
pub type Copied<'a> = Option<&'a [u8]>;

/// What becomes of the levels that a run left.
#[derive(Clone, Copy)]
pub enum Damage {
    Nothing,
    /// This is added to the byte of a level at a place.
    Byte(u32, usize, u8),
    /// The first three levels are cut to these lengths, where they are longer.
    Cut([usize; 3]),
}

/// The vault that a run left, opened anew, where its levels were damaged.
pub fn damaged(alloc: Global, left: &mut Left, damage: Damage) -> Result<MemVault, Fail>
    ensures settled { IfOk result (λ vault. IsSettled (vault_view vault)) }
    ensures drafts { IfOk result (λ vault. HasNoDraft (vault_view vault)) }
{
    match damage {
        Damage::Nothing => left.reopened(),
        Damage::Byte(level, place, byte) => changed(alloc, left, level, place, byte),
        Damage::Cut(lengths) => cut(alloc, left, lengths),
    }
}

// The vault opened anew, where a level has another byte.
fn changed(
    alloc: Global,
    left: &mut Left,
    level: u32,
    place: usize,
    byte: u8,
) -> Result<MemVault, Fail>
    ensures settled { IfOk result (λ vault. IsSettled (vault_view vault)) }
    ensures drafts { IfOk result (λ vault. HasNoDraft (vault_view vault)) }
{
    let mut bytes = left.parity(alloc, level)?;
    change(&mut bytes, place, byte);
    with_parity(left.reopened()?, level, bytes.as_slice())
}

fn change(bytes: &mut Vec<u8>, place: usize, byte: u8) {
    if let Some(found) = bytes.get_mut(place) {
        *found ^= byte;
    }
}

// The vault opened anew, where levels are shorter.
fn cut(alloc: Global, left: &mut Left, lengths: [usize; 3]) -> Result<MemVault, Fail>
    ensures settled { IfOk result (λ vault. IsSettled (vault_view vault)) }
    ensures drafts { IfOk result (λ vault. HasNoDraft (vault_view vault)) }
{
    let [first, second, third] = lengths;
    let vault = left.reopened()?;
    let vault = cut_level(alloc, left, vault, 0, first)?;
    let vault = cut_level(alloc, left, vault, 1, second)?;
    cut_level(alloc, left, vault, 2, third)
}

fn cut_level(
    alloc: Global,
    left: &mut Left,
    vault: MemVault,
    level: u32,
    length: usize,
) -> Result<MemVault, Fail>
    requires settled { IsSettled (vault_view vault) }
    requires drafts { HasNoDraft (vault_view vault) }
    ensures settled { IfOk result (λ vault. IsSettled (vault_view vault)) }
    ensures drafts { IfOk result (λ vault. HasNoDraft (vault_view vault)) }
{
    if level >= vault.levels() {
        return Ok(vault);
    }
    let mut bytes = left.parity(alloc, level)?;
    bytes.truncate(length);
    with_parity(vault, level, bytes.as_slice())
}

/// The vault, with these first content copies.
pub fn with_contents(vault: MemVault, put: &[Copied]) -> Result<MemVault, Fail>
    requires settled { IsSettled (vault_view vault) }
    requires drafts { HasNoDraft (vault_view vault) }
    ensures settled { IfOk result (λ vault. IsSettled (vault_view vault)) }
    ensures drafts { IfOk result (λ vault. HasNoDraft (vault_view vault)) }
{
    match put {
        [] => Ok(vault),
        [first] => with_content(vault, 0, *first),
        [first, second, ..] => with_content(with_content(vault, 0, *first)?, 1, *second),
    }
}

/// The vault with the bytes of a content copy, where it has that copy.
pub fn with_content(vault: MemVault, copy: u32, bytes: Copied) -> Result<MemVault, Fail>
    requires settled { IsSettled (vault_view vault) }
    requires drafts { HasNoDraft (vault_view vault) }
    ensures settled { IfOk result (λ vault. IsSettled (vault_view vault)) }
    ensures drafts { IfOk result (λ vault. HasNoDraft (vault_view vault)) }
{
    if copy >= vault.copies() {
        return Ok(vault);
    }
    let mut vault = vault;
    vault.set_content(copy, bytes)?;
    Ok(vault)
}

/// The vault with the bytes of a level, where it has that level.
pub fn with_parity(vault: MemVault, level: u32, bytes: &[u8]) -> Result<MemVault, Fail>
    requires settled { IsSettled (vault_view vault) }
    requires drafts { HasNoDraft (vault_view vault) }
    ensures settled { IfOk result (λ vault. IsSettled (vault_view vault)) }
    ensures drafts { IfOk result (λ vault. HasNoDraft (vault_view vault)) }
{
    if level >= vault.levels() {
        return Ok(vault);
    }
    let mut vault = vault;
    vault.set_parity(level, bytes)?;
    Ok(vault)
}
