// A table from the content copies.
ghost use Rattle.std.specs.Prelude.{◌≡◌, ◌<◌, [], length, IfOk, IfErr, OnOk, OnErr, IsTrue};
ghost use Rattle.disk_model.specs.Files.{content_of};
ghost use Rattle.disk_model.specs.Vault.{copies_of};
ghost use Rattle.content_file.specs.Decoding.{HasFed};
ghost use Rattle.content_file.specs.InOrder.{FeedsToEnd, StopsAtPiece, ReadsCopyInOrder, IsReadInto, IsReadFor, ReadsInOrder, AreReadFor};
ghost use Rattle.content_file.specs.Load.{ReadsCopy, ReadsBelow, ReadsPieces, ReadsCopyInPieces, ReadsInPieces, most_pieces, IsFedBy, IsFedAll, Loads, LoadsNot, HasFailed, NoneFailed, IsCopyOf, GivesNoTable, most_read};

use crate::{Damage, Damages, DecodeFault, Decoder};
use disk_model::{Failed, Vault};
use file_table::Table;
use std::alloc::Global;

/// How many bytes of a copy are read at once, and how many a command writes to a draft at once.
pub const PIECE: usize = 65_536;

/// Why no table was loaded.
#[derive(Drop)]
pub enum LoadFault {
    /// No copy that could be read is a content file, and the reading of one failed.
    Failed,
    /// Copies are there, and none is a content file. Each of them is listed.
    Damaged(Damages),
    Memory,
}

// Why a copy gave no table.
#[derive(Clone, Copy)]
pub(crate) enum CopyFault {
    Failed,
    Damaged(Damage),
    Memory,
}

// Feeds a decoder with a copy that has so many bytes.
fn feed_copy<V: Vault>(
    vault: &mut V,
    copy: u32,
    size: u64,
    decoder: &mut Decoder,
    buffer: &mut [u8],
) -> Result<(), Failed>
    requires copy { copy < copies_of (V.view vault.old) }
    requires buffer { length buffer.old ≡ most_read }
    requires fresh { HasFed decoder.old [] }
    ensures reads { ReadsCopy copy (V.view vault.old) (V.view vault.new) }
    ensures pieces { ReadsPieces copy (most_pieces size) (V.view vault.old) (V.view vault.new) }
    ensures fed { OnOk result (IsTrue (V.view vault.old).tells → IsFedAll (content_of (V.view vault.old).files copy) size decoder.new) }
    ensures none_failed { OnOk result (NoneFailed (V.view vault.old) (V.view vault.new)) }
    ensures failed { OnErr result (HasFailed (V.view vault.old) (V.view vault.new) copy) }
    ensures order { OnOk result (FeedsToEnd copy size decoder.new (V.view vault.old) (V.view vault.new)) }
    ensures stopped { OnErr result (StopsAtPiece copy size (V.view vault.old) (V.view vault.new)) }
{
    let mut at = 0;
    while at < size {
        let want = buffer.len().min((size - at) as usize);
        let count = vault.content_read(copy, at, &mut buffer[..want])?;
        // A refusal is kept, and answered at the end.
        let _ = decoder.feed(&buffer[..count]);
        if count < want {
            return Ok(());
        }
        at += count as u64;
    }
    Ok(())
}

// A decoder that was fed the bytes of a copy, `None` where there is no file.
fn read_copy<V: Vault>(
    alloc: Global,
    vault: &mut V,
    copy: u32,
    buffer: &mut [u8],
) -> Result<Option<Decoder>, CopyFault>
    requires copy { copy < copies_of (V.view vault.old) }
    requires buffer { length buffer.old ≡ most_read }
    ensures reads { ReadsCopy copy (V.view vault.old) (V.view vault.new) }
    ensures pieces { ReadsCopyInPieces copy (V.view vault.old) (V.view vault.new) }
    ensures found { IsTrue (V.view vault.old).tells → IfOk result (λ decoder. IsFedBy decoder (content_of (V.view vault.old).files copy)) }
    ensures none_failed { OnOk result (NoneFailed (V.view vault.old) (V.view vault.new)) }
    ensures cause { IfErr result (GivesNoTable (V.view vault.old) (V.view vault.new) copy) }
    ensures order { ReadsCopyInOrder copy (IsReadInto result) (V.view vault.old) (V.view vault.new) }
{
    let Ok(size) = vault.content_size(copy) else {
        return Err(CopyFault::Failed);
    };
    let Some(size) = size else {
        return Ok(None);
    };
    let Ok(mut decoder) = Decoder::new(alloc) else {
        return Err(CopyFault::Memory);
    };
    match feed_copy(vault, copy, size, &mut decoder, buffer) {
        Ok(()) => Ok(Some(decoder)),
        Err(_) => Err(CopyFault::Failed),
    }
}

// The table of one copy, `None` where there is no file.
fn load_copy<V: Vault>(
    alloc: Global,
    vault: &mut V,
    copy: u32,
    buffer: &mut [u8],
) -> Result<Option<Table>, CopyFault>
    requires copy { copy < copies_of (V.view vault.old) }
    requires buffer { length buffer.old ≡ most_read }
    ensures reads { ReadsCopy copy (V.view vault.old) (V.view vault.new) }
    ensures pieces { ReadsCopyInPieces copy (V.view vault.old) (V.view vault.new) }
    ensures found { IfOk result (λ table. IsCopyOf (V.view vault.old) copy table) }
    ensures none_failed { OnOk result (NoneFailed (V.view vault.old) (V.view vault.new)) }
    ensures cause { IfErr result (GivesNoTable (V.view vault.old) (V.view vault.new) copy) }
    ensures order { ReadsCopyInOrder copy (IsReadFor result) (V.view vault.old) (V.view vault.new) }
{
    let decoder = match read_copy(alloc, vault, copy, buffer) {
        Ok(Some(decoder)) => decoder,
        Ok(None) => return Ok(None),
        Err(fault) => return Err(fault),
    };
    match decoder.finish() {
        Ok(table) => Ok(Some(table)),
        Err(DecodeFault::Damaged(damage)) => Err(CopyFault::Damaged(damage)),
        Err(DecodeFault::Memory) => Err(CopyFault::Memory),
    }
}

// The table of the first good copy. The copies are read through this buffer.
fn load_by<V: Vault>(
    alloc: Global,
    vault: &mut V,
    buffer: &mut [u8],
) -> Result<Option<Table>, LoadFault>
    requires { length buffer.old ≡ most_read }
    ensures reads { ReadsBelow (copies_of (V.view vault.old)) (V.view vault.old) (V.view vault.new) }
    ensures pieces { ReadsInPieces (copies_of (V.view vault.old)) (V.view vault.old) (V.view vault.new) }
    ensures loaded { IfOk result (Loads (V.view vault.old) (V.view vault.new)) }
    ensures cause { IfErr result (LoadsNot (V.view vault.old) (V.view vault.new)) }
    ensures order { ReadsInOrder (AreReadFor (copies_of (V.view vault.old)) result)
        (V.view vault.old) (V.view vault.new) }
{
    let mut failed = false;
    let mut damages = Damages::new(alloc);
    for copy in 0..vault.copies() {
        match load_copy(alloc, vault, copy, buffer) {
            Ok(Some(table)) => return Ok(Some(table)),
            Ok(None) => {}
            Err(CopyFault::Failed) => failed = true,
            Err(CopyFault::Damaged(damage)) => {
                if damages.push(copy, damage).is_err() {
                    return Err(LoadFault::Memory);
                }
            }
            Err(CopyFault::Memory) => return Err(LoadFault::Memory),
        }
    }
    if failed {
        return Err(LoadFault::Failed);
    }
    if damages.is_empty() {
        return Ok(None);
    }
    Err(LoadFault::Damaged(damages))
}

/// The table that the first good copy holds: the copies are tried in order, and the first that is there, is read
/// without failure and is a content file is taken. `None` where there is no copy. A copy is read by pieces, up to
/// its size or to a piece that is shorter than what was asked for.
pub fn load<V: Vault>(alloc: Global, vault: &mut V) -> Result<Option<Table>, LoadFault>
    ensures reads { ReadsBelow (copies_of (V.view vault.old)) (V.view vault.old) (V.view vault.new) }
    ensures pieces { ReadsInPieces (copies_of (V.view vault.old)) (V.view vault.old) (V.view vault.new) }
    ensures loaded { IfOk result (Loads (V.view vault.old) (V.view vault.new)) }
    ensures cause { IfErr result (LoadsNot (V.view vault.old) (V.view vault.new)) }
    ensures order { ReadsInOrder (AreReadFor (copies_of (V.view vault.old)) result)
        (V.view vault.old) (V.view vault.new) }
{
    match vec![in alloc; 0u8; PIECE] {
        Ok(mut buffer) => load_by(alloc, vault, buffer.as_mut_slice()),
        Err(_) => Err(LoadFault::Memory),
    }
}
