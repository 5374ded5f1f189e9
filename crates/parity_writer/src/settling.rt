// Levels synced to their disks.
ghost use Rattle.std.specs.Prelude.{OnOk, OnErr};
ghost use Rattle.disk_model.specs.Calls.{MakesThese, FailsAmong};
ghost use Rattle.disk_model.specs.Files.{Stays};
ghost use Rattle.disk_model.specs.Vault.{SomeCalls, ChangesBy, DraftsStay, Holds};
ghost use Rattle.parity_writer.specs.Calls.{sync_calls};
ghost use Rattle.parity_writer.specs.Keeps.{SameParities};

use disk_model::{Failed, Vault};

/// Syncs every level. Then a stop leaves the parity files as they read.
pub fn settle<V: Vault>(vault: &mut V) -> Result<(), Failed>
    ensures calls { SomeCalls (V.view vault.old) (V.view vault.new) }
    ensures made { OnOk result (MakesThese (sync_calls (V.view vault.old).levels) (V.view vault.old) (V.view vault.new)) }
    ensures cause { OnErr result (FailsAmong (sync_calls (V.view vault.old).levels) (V.view vault.old) (V.view vault.new)) }
    ensures changes { ChangesBy Stays (V.view vault.old) (V.view vault.new) }
    ensures drafts { DraftsStay (V.view vault.old) (V.view vault.new) }
    ensures settled { OnOk result (Holds (SameParities (V.view vault.old).levels (V.view vault.old).files) (V.view vault.new)) }
{
    for level in 0..vault.levels() {
        vault.parity_sync(level)?;
    }
    Ok(())
}
