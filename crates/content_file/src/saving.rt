// A table to the content copies.
ghost use Rattle.std.specs.Prelude.{◌≡◌, ◌<◌, ◌++◌, [], length, OnOk, OnErr, Some, true};
ghost use Rattle.disk_model.specs.Calls.{MakesThese, FailsAmong};
ghost use Rattle.disk_model.specs.Files.{content_of, MayPublish, Stays};
ghost use Rattle.disk_model.specs.Ran.{Ran};
ghost use Rattle.disk_model.specs.Vault.{copies_of, draft_of, staged_of, state_of, SomeCalls, ChangesBy, DraftIs, Holds};
ghost use Rattle.content_file.specs.Encoding.{IsDigestOf};
ghost use Rattle.content_file.specs.Save.{MaySave, HasSaved, HasNoDraft, append_calls, draft_calls, copy_calls, piecewise_calls};
ghost use Rattle.content_file.specs.Spelling.{spelling};

use crate::{Encoder, TableDigest};
use disk_model::{Draft, Failed, Vault};
use file_table::Table;

/// Saves a table, whose digest this is, to every copy, in order, each by a sealed draft in its place, in pieces as long as the buffer.
/// Whatever it answers and whenever it is stopped, each copy is the old one or the whole new one. It takes no memory.
pub fn save<V: Vault>(
    vault: &mut V,
    table: &Table,
    digest: TableDigest,
    buffer: &mut [u8],
) -> Result<(), Failed>
    requires digest { IsDigestOf table.now digest }
    requires buffer { 0 < length buffer.old }
    ensures calls { SomeCalls (V.view vault.old) (V.view vault.new) }
    ensures ran { Ran (piecewise_calls (length buffer.old) (copies_of (V.view vault.old)) (spelling table.now)) result
        (state_of (V.view vault.old)) (state_of (V.view vault.new)) }
    ensures changes { ChangesBy (MaySave (spelling table.now)) (V.view vault.old) (V.view vault.new) }
    ensures drafts { HasNoDraft (V.view vault.old) → HasNoDraft (V.view vault.new) }
    ensures saved { OnOk result (Holds (HasSaved (copies_of (V.view vault.old)) (spelling table.now)) (V.view vault.new)) }
    ensures gone { OnOk result (HasNoDraft (V.view vault.new)) }
{
    for copy in 0..vault.copies() {
        save_copy(vault, copy, table, digest, buffer)?;
    }
    Ok(())
}

// Writes the table to one copy: a stop leaves the old copy or the new one.
fn save_copy<V: Vault>(
    vault: &mut V,
    copy: u32,
    table: &Table,
    digest: TableDigest,
    buffer: &mut [u8],
) -> Result<(), Failed>
    requires digest { IsDigestOf table.now digest }
    requires copy { copy < copies_of (V.view vault.old) }
    requires buffer { 0 < length buffer.old }
    ensures calls { SomeCalls (V.view vault.old) (V.view vault.new) }
    ensures made { OnOk result (MakesThese (copy_calls (length buffer.old) (spelling table.now) copy) (V.view vault.old) (V.view vault.new)) }
    ensures changes { ChangesBy (MayPublish copy true (spelling table.now)) (V.view vault.old) (V.view vault.new) }
    ensures saved { OnOk result (Holds (λ files. content_of files copy ≡ Some (spelling table.now)) (V.view vault.new)) }
    ensures gone { DraftIs copy Draft.Absent [] (V.view vault.old) (V.view vault.new) }
    ensures cause { OnErr result (FailsAmong (copy_calls (length buffer.old) (spelling table.now) copy) (V.view vault.old) (V.view vault.new)) }
{
    write_draft(vault, copy, table, digest, buffer)?;
    vault.publish(copy)
}

// Makes a sealed draft of the table. The files stay.
fn write_draft<V: Vault>(
    vault: &mut V,
    copy: u32,
    table: &Table,
    digest: TableDigest,
    buffer: &mut [u8],
) -> Result<(), Failed>
    requires digest { IsDigestOf table.now digest }
    requires copy { copy < copies_of (V.view vault.old) }
    requires buffer { 0 < length buffer.old }
    ensures calls { SomeCalls (V.view vault.old) (V.view vault.new) }
    ensures made { OnOk result (MakesThese (draft_calls (length buffer.old) (spelling table.now) copy) (V.view vault.old) (V.view vault.new)) }
    ensures changes { ChangesBy Stays (V.view vault.old) (V.view vault.new) }
    ensures sealed { OnOk result (DraftIs copy Draft.Sealed (spelling table.now) (V.view vault.old) (V.view vault.new)) }
    ensures gone { OnErr result (DraftIs copy Draft.Absent [] (V.view vault.old) (V.view vault.new)) }
    ensures cause { OnErr result (FailsAmong (draft_calls (length buffer.old) (spelling table.now) copy) (V.view vault.old) (V.view vault.new)) }
{
    vault.draft_begin(copy)?;
    fill(vault, copy, table, digest, buffer)?;
    vault.draft_seal(copy)
}

// Writes the table to the open draft of a copy, in pieces.
fn fill<V: Vault>(
    vault: &mut V,
    copy: u32,
    table: &Table,
    digest: TableDigest,
    buffer: &mut [u8],
) -> Result<(), Failed>
    requires digest { IsDigestOf table.now digest }
    requires copy { copy < copies_of (V.view vault.old) }
    requires draft { draft_of (V.view vault.old) copy ≡ Draft.Open }
    requires buffer { 0 < length buffer.old }
    ensures calls { SomeCalls (V.view vault.old) (V.view vault.new) }
    ensures made { OnOk result (MakesThese (append_calls (length buffer.old) copy (spelling table.now)) (V.view vault.old) (V.view vault.new)) }
    ensures changes { ChangesBy Stays (V.view vault.old) (V.view vault.new) }
    ensures filled { OnOk result (DraftIs copy Draft.Open (staged_of (V.view vault.old) copy ++ spelling table.now) (V.view vault.old) (V.view vault.new)) }
    ensures gone { OnErr result (DraftIs copy Draft.Absent [] (V.view vault.old) (V.view vault.new)) }
    ensures cause { OnErr result (FailsAmong (append_calls (length buffer.old) copy (spelling table.now)) (V.view vault.old) (V.view vault.new)) }
{
    let mut encoder = Encoder::new(table, digest);
    while !encoder.is_done() {
        let count = encoder.next(buffer);
        vault.draft_append(copy, &buffer[..count])?;
    }
    Ok(())
}
