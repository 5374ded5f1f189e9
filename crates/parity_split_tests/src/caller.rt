// A vault is handed out with its levels split, and comes back: what was done is known of its levels, split as before.
ghost use Rattle.std.specs.Prelude.{◌≡◌, ◌<◌, length, OnOk};
ghost use Rattle.disk_model.specs.Bytes.{resized};
ghost use Rattle.disk_model.specs.Files.{parity_of, StretchesParity};
ghost use Rattle.disk_model.specs.Vault.{ChangesBy, Reads, IsSettled};
ghost use Rattle.parity_split.specs.Split.{AreParts, split_view};

use disk_model::{Failed, Vault};
use parity_split::{Shape, SplitVault};
use std::marker::Brand;

// The work of a command, on any vault.
fn work<V: Vault>(vault: &mut V, level: u32, len: u64) -> Result<(), Failed>
    requires { level < (V.view vault.old).levels }
    ensures written { OnOk result (Reads
        (λ files. parity_of files level ≡ resized (parity_of (V.view vault.old).files level) len)
        (V.view vault.new)) }
    ensures changes { ChangesBy (StretchesParity level len) (V.view vault.old) (V.view vault.new) }
{
    vault.parity_set_len(level, len)
}

// The same work, with the levels of the vault split.
fn work_shaped<V: Vault, P: Shape>(
    base: V,
    parts: Vec<u32>,
    capacity: u64,
    level: u32,
    len: u64,
) -> (V, Result<(), Failed>)
    requires counts { parts.items ≡ P.counts }
    requires capacity { capacity ≡ P.capacity }
    requires parts { AreParts P.counts P.capacity (V.view base).levels }
    requires settled { IsSettled (V.view base) }
    requires level { level < length P.counts }
    ensures written { OnOk result.1 (Reads
        (λ files. parity_of files level
        ≡ resized (parity_of (split_view P.counts P.capacity (V.view base)).files level) len)
        (split_view P.counts P.capacity (V.view result.0))) }
    ensures changes { ChangesBy (StretchesParity level len)
        (split_view P.counts P.capacity (V.view base)) (split_view P.counts P.capacity (V.view result.0)) }
{
    let mut split = SplitVault::<V, P>::new(base, parts, capacity);
    let done = work(&mut split, level, len);
    (split.into_base(), done)
}

/// Cuts a level of so many parts, or extends it with zeros. Gives the vault back.
pub fn work_split<V: Vault>(
    base: V,
    parts: Vec<u32>,
    capacity: u64,
    level: u32,
    len: u64,
) -> (V, Result<(), Failed>)
    requires parts { AreParts parts.items capacity (V.view base).levels }
    requires settled { IsSettled (V.view base) }
    requires level { level < length parts.items }
    ensures written { OnOk result.1 (Reads
        (λ files. parity_of files level
        ≡ resized (parity_of (split_view parts.items capacity (V.view base)).files level) len)
        (split_view parts.items capacity (V.view result.0))) }
    ensures changes { ChangesBy (StretchesParity level len)
        (split_view parts.items capacity (V.view base)) (split_view parts.items capacity (V.view result.0)) }
{
    work_shaped::<V, Brand>(base, parts, capacity, level, len)
}
