// What is done to the vault at the beginning of a sync, and at each checkpoint.
ghost use Rattle.std.specs.Prelude.{◌≡◌, ◌<◌, OnOk, OnErr, is_err, length, []};
ghost use Rattle.content_file.specs.Encoding.{IsDigestOf};
ghost use Rattle.content_file.specs.Save.{piece_size};
ghost use Rattle.disk_model.specs.Ran.{log_of};
ghost use Rattle.disk_model.specs.Vault.{SomeCalls, ChangesBy, state_of};
ghost use Rattle.snap_sync.specs.Calls.{SyncPlan, RanOpened};
ghost use Rattle.snap_sync.specs.Images.{MayStand};
ghost use Rattle.snap_sync.specs.Run.{Saves};
ghost use Rattle.snap_sync.specs.Work.{IsPlanFor, IsUnderway, VaultBroke};

use content_file::{TableDigest, save};
use disk_model::{Failed, Vault};
use file_table::Table;
use parity_writer::{set_lengths, settle};

/// Saves the laid out table, whose digest this is, to every copy, and then gives the levels their lengths.
pub(crate) fn open<V: Vault>(
    vault: &mut V,
    table: &Table,
    digest: TableDigest,
    piece: &mut [u8],
) -> Result<(), Failed>
    requires digest { IsDigestOf table.now digest }
    requires piece { 0 < length piece.old }
    requires levels { (V.view vault.old).levels ≡ table.now.shape.levels }
    ensures calls { SomeCalls (V.view vault.old) (V.view vault.new) }
    ensures broke { OnErr result (VaultBroke (V.view vault.old) (V.view vault.new)) }
    ensures ran { (plan : SyncPlan) → plan.start ≡ table.now → plan.piece ≡ length piece.old →
        IsPlanFor plan (V.view vault.old) →
        RanOpened plan [] (is_err result) (state_of (V.view vault.old)) (log_of (state_of (V.view vault.new))) }
    ensures changes { (plan : SyncPlan) → plan.start ≡ table.now → IsPlanFor plan (V.view vault.old) →
        ChangesBy (MayStand plan []) (V.view vault.old) (V.view vault.new) }
    ensures opened { OnOk result ((plan : SyncPlan) → plan.start ≡ table.now → plan.piece ≡ length piece.old →
        IsPlanFor plan (V.view vault.old) → IsUnderway plan [] 0 0 (V.view vault.old) (V.view vault.new)) }
{
    save(vault, table, digest, piece)?;
    let bytes = u64::from(table.length()) * u64::from(table.shape().block_size);
    set_lengths(vault, bytes)
}

/// Settles parity, and then saves a table, whose digest this is, to every copy.
pub(crate) fn checkpoint<V: Vault>(
    vault: &mut V,
    table: &Table,
    digest: TableDigest,
    piece: &mut [u8],
) -> Result<(), Failed>
    requires digest { IsDigestOf table.now digest }
    requires piece { length piece.old ≡ piece_size }
    ensures { Saves table.now result (V.view vault.old) (V.view vault.new) }
{
    settle(vault)?;
    save(vault, table, digest, piece)
}
