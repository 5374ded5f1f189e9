// Reading a whole content file.
ghost use Rattle.std.specs.Prelude.{◌≡◌, ◌≢◌, IfOk, OnOk, IfErr, None};
ghost use Rattle.file_table.specs.Valid.{IsValid};
ghost use Rattle.content_file.specs.Decoding.{IsFaultOf};
ghost use Rattle.content_file.specs.FirstFlaw.{first_flaw};
ghost use Rattle.content_file.specs.Spelling.{IsContent, Spells};

use crate::{DecodeFault, Decoder};
use file_table::Table;
use std::alloc::Global;

/// The table that the bytes spell, or their first wrong field.
pub fn decode(alloc: Global, bytes: &[u8]) -> Result<Table, DecodeFault>
    ensures valid { IfOk result IsValid }
    ensures found { IfOk result (λ table. Spells table bytes.now) }
    ensures flawless { OnOk result (first_flaw bytes.now ≡ None) }
    ensures flawed { IfErr result (λ fault. IsFaultOf bytes.now fault) }
    ensures damaged { IfErr result (λ fault. fault ≢ DecodeFault.Memory → ¬ (IsContent bytes.now)) }
{
    let mut decoder = Decoder::new(alloc)?;
    decoder.feed(bytes)?;
    decoder.finish()
}
