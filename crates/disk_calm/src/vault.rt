// A calm vault.
use crate::fault::fail;
use crate::store::Store;
use disk_model::{Answer, Draft, Failed, NoAhead, NoMemory, Vault, count_write};
use std::alloc::Global;

/// All parity files and content copies, in memory. It fails where memory refuses a growth, and nowhere else.
#[derive(Drop)]
pub struct CalmVault {
    faults: u64,
    writes: u64,
    store: Store,
}

impl CalmVault {
    ghost use Rattle.std.specs.Prelude.{◌≡◌, IfOk};
    ghost use Rattle.disk_calm.specs.Calm.{calm_value, fresh_calm_vault};

    /// Empty parity files, no content copy, no draft.
    pub fn new(alloc: Global, levels: u32, copies: u32) -> Result<CalmVault, NoMemory>
        ensures { IfOk result (λ vault. calm_value vault ≡ fresh_calm_vault levels copies) }
    {
        Ok(CalmVault {
            faults: 0,
            writes: 0,
            store: Store::new(alloc, levels, copies)?,
        })
    }
}

// Each call meets the trait's clauses. One by which nothing grows never fails (`calm`).
impl Vault for CalmVault {
    ghost use Rattle.std.specs.Prelude.{◌≡◌, ◌≢◌, ◌+◌, ◌^◌, ◌<◌, ◌≤◌, ◌++◌, [], length, take, IfOk, OnOk, OnErr, IsTrue, unwrap_or, is_err, Some};
    ghost use Rattle.std.specs.Option.{option_map};
    ghost use Rattle.disk_model.specs.Answer.{size_answer};
    ghost use Rattle.disk_model.specs.Bytes.{put, resized, read_from};
    ghost use Rattle.disk_model.specs.Files.{parity_of, content_of, TearsParity, StretchesParity, MayPublish, Stays};
    ghost use Rattle.disk_model.specs.Vault.{ParityLen, ParityRead, ParityWrite, ParitySetLen, ParitySync, ContentSize, ContentRead, DraftBegin, DraftAppend, DraftSeal, Publish};
    ghost use Rattle.disk_model.specs.Vault.{copies_of, draft_of, staged_of, is_sealed, IsCall, IsReading, IsUntouched, ChangesBy, Reads, Holds, DraftIs, DraftsStay};
    ghost use Rattle.disk_calm.specs.Calm.{calm_vault_view, IsCalm, IsCalmUnless};
    ghost use Rattle.disk_calm.specs.CalmLaws.{calm_vault_well_formed};

    type Ahead = NoAhead;

    ghost view = { calm_vault_view };

    ghost well_formed = { calm_vault_well_formed };

    fn faults(&self) -> u64 {
        self.faults
    }

    fn levels(&self) -> u32 {
        self.store.levels
    }

    fn copies(&self) -> u32 {
        self.store.copies
    }

    fn parity_len(&mut self, level: u32) -> Result<u64, Failed>
        requires { level < (calm_vault_view self.old).levels }
        ensures call { IsReading (ParityLen level) Answer.Bytes result (calm_vault_view self.old) (calm_vault_view self.new) }
        ensures found { IsTrue (calm_vault_view self.old).tells → IfOk result (λ n. n ≡ length (parity_of (calm_vault_view self.old).files level)) }
        ensures calm { IsCalm (is_err result) self.old.faults self.new.faults }
    {
        Ok(self.store.parity_len(level))
    }

    fn parity_read(&mut self, level: u32, at: u64, out: &mut [u8]) -> Result<usize, Failed>
        requires { level < (calm_vault_view self.old).levels }
        ensures call { IsReading (ParityRead level at (length out.old)) Answer.Bytes result (calm_vault_view self.old) (calm_vault_view self.new) }
        ensures bound { IfOk result (λ n. n ≤ length out.new) }
        ensures found { IsTrue (calm_vault_view self.old).tells → IfOk result (λ n. take n out.new ≡ read_from (parity_of (calm_vault_view self.old).files level) at (length out.old)) }
        ensures calm { IsCalm (is_err result) self.old.faults self.new.faults }
    {
        Ok(self.store.parity_read(level, at, out))
    }

    fn plan_ahead(&mut self, _level: u32, _at: u64, _len: usize) {}

    fn take_ahead(&mut self) -> Option<Vec<NoAhead>> {
        None
    }

    fn put_ahead(&mut self, _ahead: Vec<NoAhead>)
        ensures { IsUntouched (calm_vault_view self.old) (calm_vault_view self.new) }
    {}

    fn parity_write(&mut self, level: u32, at: u64, bytes: &[u8]) -> Result<(), Failed>
        requires level { level < (calm_vault_view self.old).levels }
        requires room { at + length bytes.now < 2 ^ 64 }
        ensures call { IsCall (ParityWrite level at bytes.now) result (calm_vault_view self.old) (calm_vault_view self.new) }
        ensures written { OnOk result (Reads (λ files. parity_of files level ≡ put (parity_of (calm_vault_view self.old).files level) at bytes.now) (calm_vault_view self.new)) }
        ensures changes { ChangesBy (TearsParity level at (length bytes.now)) (calm_vault_view self.old) (calm_vault_view self.new) }
        ensures drafts { DraftsStay (calm_vault_view self.old) (calm_vault_view self.new) }
        ensures calm { IsCalmUnless (length (parity_of (calm_vault_view self.old).files level) < at + length bytes.now)
            (is_err result) self.old.faults self.new.faults }
    {
        count_write(&mut self.writes);
        match self.store.parity_write(level, at, bytes) {
            Ok(()) => Ok(()),
            Err(NoMemory) => Err(fail(&mut self.faults)),
        }
    }

    fn parity_set_len(&mut self, level: u32, len: u64) -> Result<(), Failed>
        requires { level < (calm_vault_view self.old).levels }
        ensures call { IsCall (ParitySetLen level len) result (calm_vault_view self.old) (calm_vault_view self.new) }
        ensures written { OnOk result (Reads (λ files. parity_of files level ≡ resized (parity_of (calm_vault_view self.old).files level) len) (calm_vault_view self.new)) }
        ensures changes { ChangesBy (StretchesParity level len) (calm_vault_view self.old) (calm_vault_view self.new) }
        ensures drafts { DraftsStay (calm_vault_view self.old) (calm_vault_view self.new) }
        ensures calm { IsCalmUnless (length (parity_of (calm_vault_view self.old).files level) < len)
            (is_err result) self.old.faults self.new.faults }
    {
        count_write(&mut self.writes);
        match self.store.parity_set_len(level, len) {
            Ok(()) => Ok(()),
            Err(NoMemory) => Err(fail(&mut self.faults)),
        }
    }

    fn parity_sync(&mut self, level: u32) -> Result<(), Failed>
        requires { level < (calm_vault_view self.old).levels }
        ensures call { IsCall (ParitySync level) result (calm_vault_view self.old) (calm_vault_view self.new) }
        ensures changes { ChangesBy Stays (calm_vault_view self.old) (calm_vault_view self.new) }
        ensures drafts { DraftsStay (calm_vault_view self.old) (calm_vault_view self.new) }
        ensures synced { OnOk result (Holds (λ files. parity_of files level ≡ parity_of (calm_vault_view self.old).files level) (calm_vault_view self.new)) }
        ensures calm { IsCalm (is_err result) self.old.faults self.new.faults }
    {
        count_write(&mut self.writes);
        let _ = level;
        Ok(())
    }

    fn content_size(&mut self, copy: u32) -> Result<Option<u64>, Failed>
        requires { copy < copies_of (calm_vault_view self.old) }
        ensures call { IsReading (ContentSize copy) size_answer result (calm_vault_view self.old) (calm_vault_view self.new) }
        ensures found { IsTrue (calm_vault_view self.old).tells → IfOk result (λ n. n ≡ option_map length (content_of (calm_vault_view self.old).files copy)) }
        ensures calm { IsCalm (is_err result) self.old.faults self.new.faults }
    {
        Ok(self.store.content_size(copy))
    }

    fn content_read(&mut self, copy: u32, at: u64, out: &mut [u8]) -> Result<usize, Failed>
        requires { copy < copies_of (calm_vault_view self.old) }
        ensures call { IsReading (ContentRead copy at (length out.old)) Answer.Bytes result (calm_vault_view self.old) (calm_vault_view self.new) }
        ensures bound { IfOk result (λ n. n ≤ length out.new) }
        ensures found { IsTrue (calm_vault_view self.old).tells → IfOk result (λ n. take n out.new ≡ read_from (unwrap_or (content_of (calm_vault_view self.old).files copy) []) at (length out.old)) }
        ensures calm { IsCalm (is_err result) self.old.faults self.new.faults }
    {
        Ok(self.store.content_read(copy, at, out))
    }

    fn draft_begin(&mut self, copy: u32) -> Result<(), Failed>
        requires { copy < copies_of (calm_vault_view self.old) }
        ensures call { IsCall (DraftBegin copy) result (calm_vault_view self.old) (calm_vault_view self.new) }
        ensures begun { OnOk result (DraftIs copy Draft.Open [] (calm_vault_view self.old) (calm_vault_view self.new)) }
        ensures gone { OnErr result (DraftIs copy Draft.Absent [] (calm_vault_view self.old) (calm_vault_view self.new)) }
        ensures changes { ChangesBy Stays (calm_vault_view self.old) (calm_vault_view self.new) }
        ensures calm { IsCalm (is_err result) self.old.faults self.new.faults }
    {
        count_write(&mut self.writes);
        self.store.set_draft(copy, Draft::Open);
        Ok(())
    }

    fn draft_append(&mut self, copy: u32, bytes: &[u8]) -> Result<(), Failed>
        requires copy { copy < copies_of (calm_vault_view self.old) }
        requires draft { draft_of (calm_vault_view self.old) copy ≡ Draft.Open }
        ensures call { IsCall (DraftAppend copy bytes.now) result (calm_vault_view self.old) (calm_vault_view self.new) }
        ensures appended { OnOk result (DraftIs copy Draft.Open (staged_of (calm_vault_view self.old) copy ++ bytes.now) (calm_vault_view self.old) (calm_vault_view self.new)) }
        ensures gone { OnErr result (DraftIs copy Draft.Absent [] (calm_vault_view self.old) (calm_vault_view self.new)) }
        ensures changes { ChangesBy Stays (calm_vault_view self.old) (calm_vault_view self.new) }
        ensures calm { IsCalmUnless (0 < length bytes.now) (is_err result) self.old.faults self.new.faults }
    {
        count_write(&mut self.writes);
        match self.store.draft_append(copy, bytes) {
            Ok(()) => Ok(()),
            Err(NoMemory) => {
                self.store.set_draft(copy, Draft::Absent);
                Err(fail(&mut self.faults))
            }
        }
    }

    fn draft_seal(&mut self, copy: u32) -> Result<(), Failed>
        requires copy { copy < copies_of (calm_vault_view self.old) }
        requires draft { draft_of (calm_vault_view self.old) copy ≡ Draft.Open }
        ensures call { IsCall (DraftSeal copy) result (calm_vault_view self.old) (calm_vault_view self.new) }
        ensures sealed { OnOk result (DraftIs copy Draft.Sealed (staged_of (calm_vault_view self.old) copy) (calm_vault_view self.old) (calm_vault_view self.new)) }
        ensures gone { OnErr result (DraftIs copy Draft.Absent [] (calm_vault_view self.old) (calm_vault_view self.new)) }
        ensures changes { ChangesBy Stays (calm_vault_view self.old) (calm_vault_view self.new) }
        ensures calm { IsCalm (is_err result) self.old.faults self.new.faults }
    {
        count_write(&mut self.writes);
        self.store.draft_seal(copy);
        Ok(())
    }

    fn publish(&mut self, copy: u32) -> Result<(), Failed>
        requires copy { copy < copies_of (calm_vault_view self.old) }
        requires draft { draft_of (calm_vault_view self.old) copy ≢ Draft.Absent }
        ensures call { IsCall (Publish copy) result (calm_vault_view self.old) (calm_vault_view self.new) }
        ensures gone { DraftIs copy Draft.Absent [] (calm_vault_view self.old) (calm_vault_view self.new) }
        ensures published { OnOk result (draft_of (calm_vault_view self.old) copy ≡ Draft.Sealed →
            Holds (λ files. content_of files copy ≡ Some (staged_of (calm_vault_view self.old) copy)) (calm_vault_view self.new)) }
        ensures changes { ChangesBy (MayPublish copy (is_sealed (draft_of (calm_vault_view self.old) copy)) (staged_of (calm_vault_view self.old) copy)) (calm_vault_view self.old) (calm_vault_view self.new) }
        ensures calm { IsCalm (is_err result) self.old.faults self.new.faults }
    {
        count_write(&mut self.writes);
        self.store.publish(copy);
        Ok(())
    }
}
