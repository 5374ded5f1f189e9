// The lengths of the parity files.
ghost use Rattle.std.specs.Prelude.{◌≡◌, ◌<◌, OnOk, OnErr, IsTrue};
ghost use Rattle.disk_model.specs.Bytes.{resized};
ghost use Rattle.disk_model.specs.Calls.{Makes, FailsBy, MakesThese, FailsAmong};
ghost use Rattle.disk_model.specs.Files.{parity_of, StretchesParity};
ghost use Rattle.disk_model.specs.Vault.{SomeCalls, ChangesBy, DraftsStay, Reads};
ghost use Rattle.parity_writer.specs.Calls.{IsLengthCall, level_calls, length_calls};
ghost use Rattle.parity_writer.specs.Keeps.{KeepsAt};
ghost use Rattle.parity_writer.specs.Rows.{HasLengths};

use disk_model::{Failed, Vault};

// Sets the length of one level, where it differs.
fn set_length<V: Vault>(vault: &mut V, level: u32, bytes: u64) -> Result<(), Failed>
    requires { level < (V.view vault.old).levels }
    ensures calls { SomeCalls (V.view vault.old) (V.view vault.new) }
    ensures made { OnOk result (Makes (IsLengthCall bytes) (V.view vault.old) (V.view vault.new)) }
    ensures ordered { OnOk result (IsTrue (V.view vault.old).tells → MakesThese (level_calls bytes (V.view vault.old).files level) (V.view vault.old) (V.view vault.new)) }
    ensures cause { OnErr result (FailsBy (IsLengthCall bytes) (V.view vault.old) (V.view vault.new)) }
    ensures failed { OnErr result (IsTrue (V.view vault.old).tells → FailsAmong (level_calls bytes (V.view vault.old).files level) (V.view vault.old) (V.view vault.new)) }
    ensures changes { ChangesBy (StretchesParity level bytes) (V.view vault.old) (V.view vault.new) }
    ensures drafts { DraftsStay (V.view vault.old) (V.view vault.new) }
    ensures set { OnOk result (Reads (λ files. parity_of files level ≡ resized (parity_of (V.view vault.old).files level) bytes) (V.view vault.new)) }
{
    if vault.parity_len(level)? == bytes {
        return Ok(());
    }
    vault.parity_set_len(level, bytes)
}

/// Gives each level this length in bytes, where it has another: cut, or extended with zeros.
pub fn set_lengths<V: Vault>(vault: &mut V, bytes: u64) -> Result<(), Failed>
    ensures calls { SomeCalls (V.view vault.old) (V.view vault.new) }
    ensures made { OnOk result (Makes (IsLengthCall bytes) (V.view vault.old) (V.view vault.new)) }
    ensures ordered { OnOk result (IsTrue (V.view vault.old).tells → MakesThese (length_calls (V.view vault.old).levels bytes (V.view vault.old).files) (V.view vault.old) (V.view vault.new)) }
    ensures cause { OnErr result (FailsBy (IsLengthCall bytes) (V.view vault.old) (V.view vault.new)) }
    ensures failed { OnErr result (IsTrue (V.view vault.old).tells → FailsAmong (length_calls (V.view vault.old).levels bytes (V.view vault.old).files) (V.view vault.old) (V.view vault.new)) }
    ensures changes { ChangesBy (KeepsAt (λ i. i < bytes)) (V.view vault.old) (V.view vault.new) }
    ensures drafts { DraftsStay (V.view vault.old) (V.view vault.new) }
    ensures set { OnOk result (Reads (HasLengths (V.view vault.old).levels bytes (V.view vault.old).files) (V.view vault.new)) }
{
    for level in 0..vault.levels() {
        set_length(vault, level, bytes)?;
    }
    Ok(())
}
