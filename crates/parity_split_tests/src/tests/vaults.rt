// Split levels over vaults in memory.
ghost use Rattle.std.specs.Prelude.{◌≡◌, ℕ, ◌<◌, List, [], ◌∷◌, IfOk, OnOk};
ghost use Rattle.disk_model.specs.Vault.{IsSettled};
ghost use Rattle.disk_memory.specs.Vault.{vault_view};

use disk_memory::MemVault;
use disk_model::Vault;
use parity_split::{Shape, SplitVault};
use std::alloc::Global;
use std::test::Fail;

/// How many bytes a part holds where calls are made at random.
pub(super) const FEW: u64 = 5;

/// One level of three short parts.
pub(super) struct Short;

impl Shape for Short {
    ghost counts = { 3 ∷ [] };

    ghost capacity = { 5 };
}

/// One level of three parts of 2,048 bytes.
pub(super) struct Long;

impl Shape for Long {
    ghost counts = { 3 ∷ [] };

    ghost capacity = { 2048 };
}

/// Three levels of short parts.
pub(super) struct Three;

impl Shape for Three {
    ghost counts = { 2 ∷ 1 ∷ 3 ∷ [] };

    ghost capacity = { 5 };
}

/// One level of three parts.
pub(super) fn one_level<P: Shape>(
    alloc: Global,
    base: MemVault,
    capacity: u64,
) -> Result<SplitVault<MemVault, P>, Fail>
    requires settled { IsSettled (vault_view base) }
    requires counts { P.counts ≡ 3 ∷ [] }
    requires capacity { capacity ≡ P.capacity }
    requires some { 0 < capacity }
{
    if base.levels() != 3 {
        return Err(Fail::new(format_args!("not a base of three files")));
    }
    let parts = vec![in alloc; 3u32]?;
    Ok(SplitVault::new(base, parts, capacity))
}

/// Levels of two parts, one and three.
pub(super) fn three_levels(
    alloc: Global,
    base: MemVault,
) -> Result<SplitVault<MemVault, Three>, Fail>
    requires { IsSettled (vault_view base) }
{
    if base.levels() != 6 {
        return Err(Fail::new(format_args!("not a base of six files")));
    }
    let parts = vec![in alloc; 2u32, 1, 3]?;
    Ok(SplitVault::new(base, parts, FEW))
}

/// Gives a file of a base these bytes.
pub(super) fn put(base: &mut MemVault, file: u32, bytes: &[u8]) -> Result<(), Fail>
    requires { IsSettled (vault_view base.old) }
    ensures { OnOk result (IsSettled (vault_view base.new)) }
{
    if file >= base.levels() {
        return Err(Fail::new(format_args!("no file {file}")));
    }
    base.set_parity(file, bytes)?;
    Ok(())
}

/// Three files with these bytes.
pub(super) fn three_files(alloc: Global, files: [&[u8]; 3]) -> Result<MemVault, Fail>
    ensures { IfOk result (λ base. IsSettled (vault_view base)) }
{
    let mut base = MemVault::new(alloc, 3, 0)?;
    put(&mut base, 0, files[0])?;
    put(&mut base, 1, files[1])?;
    put(&mut base, 2, files[2])?;
    Ok(base)
}

/// Three files of which the second and the third stand behind the end of the level.
pub(super) static HIDDEN: [&[u8]; 3] = [b"ABC", b"DEFGHI", b"JKL"];

/// A file that holds what the level of these three does.
pub(super) fn plain_file(alloc: Global) -> Result<MemVault, Fail> {
    let mut plain = MemVault::new(alloc, 1, 0)?;
    put(&mut plain, 0, HIDDEN[0])?;
    Ok(plain)
}

/// How many bytes each of the first three files of a vault has.
pub(super) fn lens<V: Vault>(vault: &mut V) -> Result<[u64; 3], Fail> {
    if vault.levels() < 3 {
        return Err(Fail::new(format_args!("fewer than three files")));
    }
    let first = vault.parity_len(0)?;
    let second = vault.parity_len(1)?;
    let third = vault.parity_len(2)?;
    Ok([first, second, third])
}
