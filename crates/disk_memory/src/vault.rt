// A vault in memory.
ghost use Rattle.std.specs.Prelude.{◌≡◌, IfOk, IfSome, false};
ghost use Rattle.std.specs.Option.{option_copied};
ghost use Rattle.disk_model.specs.Answer.{is_failure, size_answer};
ghost use Rattle.disk_model.specs.Bytes.{AreBytes};

use crate::calls::{VaultEntry, first_write_in};
use crate::recorded::Recorded;
use crate::schedule::Schedule;
use disk_calm::Bytes;
use disk_model::{Answer, Draft, Failed, NoAhead, NoMemory, Vault};
use std::alloc::Global;

/// All parity files and content copies, in memory.
#[derive(Drop)]
pub struct MemVault {
    alloc: Global,
    schedule: Schedule,
    recorded: Recorded,
}

// A content copy of its own, or none.
fn copied(alloc: Global, bytes: Option<&[u8]>) -> Result<Option<Bytes>, NoMemory>
    ensures same { IfOk result (λ content. content ≡ option_copied bytes.entry) }
    ensures bytes { IfOk result (λ content. IfSome content AreBytes) }
{
    match bytes {
        Some(bytes) => Ok(Some(Bytes::from_slice(alloc, bytes)?)),
        None => Ok(None),
    }
}

// What is kept of the size of a copy.
fn answer_of_size(size: Option<u64>) -> Answer
    ensures kept { result ≡ size_answer size }
    ensures given { is_failure result ≡ false }
{
    match size {
        Some(size) => Answer::Bytes(size),
        None => Answer::Missing,
    }
}

impl MemVault {
    ghost use Rattle.std.specs.Prelude.{◌<◌, [], ◌∷◌, ◌++◌, true, OnOk, OnErr, IsTrue, is_err};
    ghost use Rattle.disk_model.specs.Vault.{copies_of, IsSettled};
    ghost use Rattle.disk_memory.specs.Calls.{first_write, vault_call};
    ghost use Rattle.disk_memory.specs.Given.{HasNoDraft};
    ghost use Rattle.disk_memory.specs.Goes.{GoesBy, CountsFaults};
    ghost use Rattle.disk_memory.specs.Recorded.{is_quiet};
    ghost use Rattle.disk_memory.specs.Schedule.{fresh_plan};
    ghost use Rattle.disk_calm.specs.Store.{with_level, with_copy};
    ghost use Rattle.disk_memory.specs.Vault.{vault_value, vault_view, vault_plan, fresh_vault, image_at, opened_anew, IsDamaged, VaultObeysExactly};

    /// Empty parity files, no content copy, no draft.
    pub fn new(alloc: Global, levels: u32, copies: u32) -> Result<MemVault, NoMemory>
        ensures view { IfOk result (λ vault. vault_value vault ≡ fresh_vault levels copies) }
        ensures plan { IfOk result (λ vault. vault_plan vault ≡ fresh_plan) }
        ensures settled { IfOk result (λ vault. IsSettled (vault_view vault)) }
        ensures drafts { IfOk result (λ vault. HasNoDraft (vault_view vault)) }
    {
        Ok(MemVault {
            alloc,
            schedule: Schedule::new(alloc),
            recorded: Recorded::new(alloc, levels, copies)?,
        })
    }

    /// Sets the bytes of a parity file: damage from outside.
    pub fn set_parity(&mut self, level: u32, bytes: &[u8]) -> Result<(), NoMemory>
        requires level { level < (vault_view self.old).levels }
        requires settled { IsSettled (vault_view self.old) }
        ensures set { OnOk result (IsDamaged (with_level (vault_value self.old).held_now level bytes.now)
            (vault_value self.old) (vault_value self.new)) }
        ensures settled_now { OnOk result (IsSettled (vault_view self.new)) }
        ensures drafts { HasNoDraft (vault_view self.old) → HasNoDraft (vault_view self.new) }
        ensures err { OnErr result (vault_value self.new ≡ vault_value self.old) }
        ensures plan { vault_plan self.new ≡ vault_plan self.old }
    {
        let parity = Bytes::from_slice(self.alloc, bytes)?;
        self.recorded.set_parity(level, parity)
    }

    /// Sets a content copy, or takes it away: damage from outside.
    pub fn set_content(&mut self, copy: u32, bytes: Option<&[u8]>) -> Result<(), NoMemory>
        requires copy { copy < copies_of (vault_view self.old) }
        requires settled { IsSettled (vault_view self.old) }
        ensures set { OnOk result (IsDamaged (with_copy (vault_value self.old).held_now copy (option_copied bytes.entry))
            (vault_value self.old) (vault_value self.new)) }
        ensures settled_now { OnOk result (IsSettled (vault_view self.new)) }
        ensures drafts { HasNoDraft (vault_view self.old) → HasNoDraft (vault_view self.new) }
        ensures err { OnErr result (vault_value self.new ≡ vault_value self.old) }
        ensures plan { vault_plan self.new ≡ vault_plan self.old }
    {
        let content = copied(self.alloc, bytes)?;
        self.recorded.set_content(copy, content)
    }

    /// The image that the bytes pick, opened anew. The first eight tell after how many calls since it was opened the stop came,
    /// the lowest first. Then, for each parity file, eight tell its length, and a byte follows for each place; and for each
    /// content copy eight tell which of those that are left it is, or, where that may be any, 0 for none and else one more
    /// than the number of the bytes that follow. None is made where memory refused an entry of the record.
    pub fn image(&self, choice: &[u8]) -> Result<MemVault, NoMemory>
        ensures picked { IfOk result (λ made. vault_value made ≡
            opened_anew (vault_value self.now) (image_at (vault_value self.now) choice.now)) }
        ensures plan { IfOk result (λ made. vault_plan made ≡ fresh_plan) }
        ensures left { IfOk result (λ made. IsTrue (vault_view self.now).images.told × (vault_view self.now).images.since 0 (vault_view made).files) }
        ensures levels { IfOk result (λ made. (vault_view made).levels ≡ (vault_view self.now).levels) }
        ensures copies { IfOk result (λ made. copies_of (vault_view made) ≡ copies_of (vault_view self.now)) }
        ensures settled { IfOk result (λ made. IsSettled (vault_view made)) }
        ensures drafts { IfOk result (λ made. HasNoDraft (vault_view made)) }
    {
        if self.recorded.past.lost {
            return Err(NoMemory);
        }
        let store = self.recorded.image(choice)?;
        Ok(MemVault {
            alloc: self.alloc,
            schedule: Schedule::new(self.alloc),
            recorded: Recorded::opened(self.alloc, store)?,
        })
    }

    /// The number, from 1, of the first write to a parity file among the recorded calls, 0 where there is none.
    pub fn first_write(&self) -> u64
        ensures { result ≡ first_write (vault_value self.now).calls }
    {
        match first_write_in(&self.recorded.past.made) {
            Some(place) => place as u64 + 1,
            None => 0,
        }
    }

    // A call of which reads show nothing, and which gives this unless it fails.
    fn quiet(&mut self, entry: VaultEntry, given: Answer) -> Result<(), Failed>
        requires quiet { is_quiet (vault_call entry) ≡ true }
        requires given { is_failure given ≡ false }
        ensures goes { GoesBy (vault_call entry) given (is_err result) self.old.recorded self.new.recorded }
        ensures counts { CountsFaults (is_err result) self.old.schedule.faults self.new.schedule.faults }
        ensures scheduled { VaultObeysExactly (is_err result) self.old self.new }
    {
        let fails = self.schedule.next_call();
        let done = self.recorded.quiet(!fails, entry, given);
        self.schedule.answer(done)
    }

    /// Adds a number to the list of failing calls.
    pub fn fail_at(&mut self, call: u64) -> Result<(), NoMemory>
        ensures same { vault_value self.new ≡ vault_value self.old }
        ensures settled { IsSettled (vault_view self.old) → IsSettled (vault_view self.new) }
        ensures drafts { HasNoDraft (vault_view self.old) → HasNoDraft (vault_view self.new) }
        ensures added { OnOk result (vault_plan self.new ≡ record (vault_plan self.old) { failing = (vault_plan self.old).failing ++ call ∷ [] }) }
        ensures err { OnErr result (vault_plan self.new ≡ vault_plan self.old) }
    {
        self.schedule.fail_at(call)
    }

    /// Every call after so many fails; the greatest u64 means none.
    pub fn stop_after(&mut self, calls: u64)
        ensures same { vault_value self.new ≡ vault_value self.old }
        ensures settled { IsSettled (vault_view self.old) → IsSettled (vault_view self.new) }
        ensures drafts { HasNoDraft (vault_view self.old) → HasNoDraft (vault_view self.new) }
        ensures plan { vault_plan self.new ≡ record (vault_plan self.old) { stop = calls } }
    {
        self.schedule.stop_after(calls);
    }
}

// Each call meets the trait's clauses, and fails as its schedule says (`scheduled`).
impl Vault for MemVault {
    ghost use Rattle.std.specs.Prelude.{◌≡◌, ◌≢◌, ◌+◌, ◌^◌, ◌<◌, ◌≤◌, ◌++◌, [], length, take, IfOk, OnOk, OnErr, IsTrue, unwrap_or, is_err, Some};
    ghost use Rattle.std.specs.Option.{option_map};
    ghost use Rattle.disk_model.specs.Bytes.{put, resized, read_from};
    ghost use Rattle.disk_model.specs.Files.{parity_of, content_of, TearsParity, StretchesParity, MayPublish, Stays};
    ghost use Rattle.disk_model.specs.Vault.{ParityLen, ParityRead, ParityWrite, ParitySetLen, ParitySync, ContentSize, ContentRead, DraftBegin, DraftAppend, DraftSeal, Publish};
    ghost use Rattle.disk_model.specs.Vault.{copies_of, draft_of, staged_of, is_sealed, IsCall, IsReading, IsUntouched, ChangesBy, Reads, Holds, DraftIs, DraftsStay};
    ghost use Rattle.disk_memory.specs.Vault.{vault_view, VaultObeysExactly, VaultObeysUnless};
    ghost use Rattle.disk_memory.specs.VaultLaws.{vault_well_formed};

    type Ahead = NoAhead;

    ghost view = { vault_view };

    ghost well_formed = { vault_well_formed };

    fn faults(&self) -> u64 {
        self.schedule.faults
    }

    fn levels(&self) -> u32 {
        self.recorded.store.levels
    }

    fn copies(&self) -> u32 {
        self.recorded.store.copies
    }

    fn parity_len(&mut self, level: u32) -> Result<u64, Failed>
        requires { level < (vault_view self.old).levels }
        ensures call { IsReading (ParityLen level) Answer.Bytes result (vault_view self.old) (vault_view self.new) }
        ensures found { IsTrue (vault_view self.old).tells → IfOk result (λ n. n ≡ length (parity_of (vault_view self.old).files level)) }
        ensures scheduled { VaultObeysExactly (is_err result) self.old self.new }
    {
        let len = self.recorded.store.parity_len(level);
        match self.quiet(VaultEntry::ParityLen(level), Answer::Bytes(len)) {
            Ok(()) => Ok(len),
            Err(failed) => Err(failed),
        }
    }

    fn parity_read(&mut self, level: u32, at: u64, out: &mut [u8]) -> Result<usize, Failed>
        requires { level < (vault_view self.old).levels }
        ensures call { IsReading (ParityRead level at (length out.old)) Answer.Bytes result (vault_view self.old) (vault_view self.new) }
        ensures bound { IfOk result (λ n. n ≤ length out.new) }
        ensures found { IsTrue (vault_view self.old).tells → IfOk result (λ n. take n out.new ≡ read_from (parity_of (vault_view self.old).files level) at (length out.old)) }
        ensures scheduled { VaultObeysExactly (is_err result) self.old self.new }
    {
        let count = self.recorded.store.parity_count(level, at, out.len());
        let entry = VaultEntry::ParityRead(level, at, out.len());
        match self.quiet(entry, Answer::Bytes(count)) {
            Ok(()) => Ok(self.recorded.store.parity_read(level, at, out)),
            Err(failed) => Err(failed),
        }
    }

    fn plan_ahead(&mut self, _level: u32, _at: u64, _len: usize) {}

    fn take_ahead(&mut self) -> Option<Vec<NoAhead>> {
        None
    }

    fn put_ahead(&mut self, _ahead: Vec<NoAhead>)
        ensures { IsUntouched (vault_view self.old) (vault_view self.new) }
    {}

    fn parity_write(&mut self, level: u32, at: u64, bytes: &[u8]) -> Result<(), Failed>
        requires level { level < (vault_view self.old).levels }
        requires room { at + length bytes.now < 2 ^ 64 }
        ensures call { IsCall (ParityWrite level at bytes.now) result (vault_view self.old) (vault_view self.new) }
        ensures written { OnOk result (Reads (λ files. parity_of files level ≡ put (parity_of (vault_view self.old).files level) at bytes.now) (vault_view self.new)) }
        ensures changes { ChangesBy (TearsParity level at (length bytes.now)) (vault_view self.old) (vault_view self.new) }
        ensures drafts { DraftsStay (vault_view self.old) (vault_view self.new) }
        ensures scheduled { VaultObeysUnless (length (parity_of (vault_view self.old).files level) < at + length bytes.now) (is_err result) self.old self.new }
    {
        let fails = self.schedule.next_call();
        let done = self.recorded.parity_write(!fails, level, at, bytes);
        self.schedule.answer(done)
    }

    fn parity_set_len(&mut self, level: u32, len: u64) -> Result<(), Failed>
        requires { level < (vault_view self.old).levels }
        ensures call { IsCall (ParitySetLen level len) result (vault_view self.old) (vault_view self.new) }
        ensures written { OnOk result (Reads (λ files. parity_of files level ≡ resized (parity_of (vault_view self.old).files level) len) (vault_view self.new)) }
        ensures changes { ChangesBy (StretchesParity level len) (vault_view self.old) (vault_view self.new) }
        ensures drafts { DraftsStay (vault_view self.old) (vault_view self.new) }
        ensures scheduled { VaultObeysUnless (length (parity_of (vault_view self.old).files level) < len) (is_err result) self.old self.new }
    {
        let fails = self.schedule.next_call();
        let done = self.recorded.parity_set_len(!fails, level, len);
        self.schedule.answer(done)
    }

    fn parity_sync(&mut self, level: u32) -> Result<(), Failed>
        requires { level < (vault_view self.old).levels }
        ensures call { IsCall (ParitySync level) result (vault_view self.old) (vault_view self.new) }
        ensures changes { ChangesBy Stays (vault_view self.old) (vault_view self.new) }
        ensures drafts { DraftsStay (vault_view self.old) (vault_view self.new) }
        ensures synced { OnOk result (Holds (λ files. parity_of files level ≡ parity_of (vault_view self.old).files level) (vault_view self.new)) }
        ensures scheduled { VaultObeysExactly (is_err result) self.old self.new }
    {
        self.quiet(VaultEntry::ParitySync(level), Answer::Done)
    }

    fn content_size(&mut self, copy: u32) -> Result<Option<u64>, Failed>
        requires { copy < copies_of (vault_view self.old) }
        ensures call { IsReading (ContentSize copy) size_answer result (vault_view self.old) (vault_view self.new) }
        ensures found { IsTrue (vault_view self.old).tells → IfOk result (λ n. n ≡ option_map length (content_of (vault_view self.old).files copy)) }
        ensures scheduled { VaultObeysExactly (is_err result) self.old self.new }
    {
        let size = self.recorded.store.content_size(copy);
        match self.quiet(VaultEntry::ContentSize(copy), answer_of_size(size)) {
            Ok(()) => Ok(size),
            Err(failed) => Err(failed),
        }
    }

    fn content_read(&mut self, copy: u32, at: u64, out: &mut [u8]) -> Result<usize, Failed>
        requires { copy < copies_of (vault_view self.old) }
        ensures call { IsReading (ContentRead copy at (length out.old)) Answer.Bytes result (vault_view self.old) (vault_view self.new) }
        ensures bound { IfOk result (λ n. n ≤ length out.new) }
        ensures found { IsTrue (vault_view self.old).tells → IfOk result (λ n. take n out.new ≡ read_from (unwrap_or (content_of (vault_view self.old).files copy) []) at (length out.old)) }
        ensures scheduled { VaultObeysExactly (is_err result) self.old self.new }
    {
        let count = self.recorded.store.content_count(copy, at, out.len());
        let entry = VaultEntry::ContentRead(copy, at, out.len());
        match self.quiet(entry, Answer::Bytes(count)) {
            Ok(()) => Ok(self.recorded.store.content_read(copy, at, out)),
            Err(failed) => Err(failed),
        }
    }

    fn draft_begin(&mut self, copy: u32) -> Result<(), Failed>
        requires { copy < copies_of (vault_view self.old) }
        ensures call { IsCall (DraftBegin copy) result (vault_view self.old) (vault_view self.new) }
        ensures begun { OnOk result (DraftIs copy Draft.Open [] (vault_view self.old) (vault_view self.new)) }
        ensures gone { OnErr result (DraftIs copy Draft.Absent [] (vault_view self.old) (vault_view self.new)) }
        ensures changes { ChangesBy Stays (vault_view self.old) (vault_view self.new) }
        ensures scheduled { VaultObeysExactly (is_err result) self.old self.new }
    {
        let fails = self.schedule.next_call();
        let done = self.recorded.draft_begin(!fails, copy);
        self.schedule.answer(done)
    }

    fn draft_append(&mut self, copy: u32, bytes: &[u8]) -> Result<(), Failed>
        requires copy { copy < copies_of (vault_view self.old) }
        requires draft { draft_of (vault_view self.old) copy ≡ Draft.Open }
        ensures call { IsCall (DraftAppend copy bytes.now) result (vault_view self.old) (vault_view self.new) }
        ensures appended { OnOk result (DraftIs copy Draft.Open (staged_of (vault_view self.old) copy ++ bytes.now) (vault_view self.old) (vault_view self.new)) }
        ensures gone { OnErr result (DraftIs copy Draft.Absent [] (vault_view self.old) (vault_view self.new)) }
        ensures changes { ChangesBy Stays (vault_view self.old) (vault_view self.new) }
        ensures scheduled { VaultObeysUnless (0 < length bytes.now) (is_err result) self.old self.new }
    {
        let fails = self.schedule.next_call();
        let done = self.recorded.draft_append(!fails, copy, bytes);
        self.schedule.answer(done)
    }

    fn draft_seal(&mut self, copy: u32) -> Result<(), Failed>
        requires copy { copy < copies_of (vault_view self.old) }
        requires draft { draft_of (vault_view self.old) copy ≡ Draft.Open }
        ensures call { IsCall (DraftSeal copy) result (vault_view self.old) (vault_view self.new) }
        ensures sealed { OnOk result (DraftIs copy Draft.Sealed (staged_of (vault_view self.old) copy) (vault_view self.old) (vault_view self.new)) }
        ensures gone { OnErr result (DraftIs copy Draft.Absent [] (vault_view self.old) (vault_view self.new)) }
        ensures changes { ChangesBy Stays (vault_view self.old) (vault_view self.new) }
        ensures scheduled { VaultObeysExactly (is_err result) self.old self.new }
    {
        let fails = self.schedule.next_call();
        let done = self.recorded.draft_seal(!fails, copy);
        self.schedule.answer(done)
    }

    fn publish(&mut self, copy: u32) -> Result<(), Failed>
        requires copy { copy < copies_of (vault_view self.old) }
        requires draft { draft_of (vault_view self.old) copy ≢ Draft.Absent }
        ensures call { IsCall (Publish copy) result (vault_view self.old) (vault_view self.new) }
        ensures gone { DraftIs copy Draft.Absent [] (vault_view self.old) (vault_view self.new) }
        ensures published { OnOk result (draft_of (vault_view self.old) copy ≡ Draft.Sealed →
            Holds (λ files. content_of files copy ≡ Some (staged_of (vault_view self.old) copy)) (vault_view self.new)) }
        ensures changes { ChangesBy (MayPublish copy (is_sealed (draft_of (vault_view self.old) copy)) (staged_of (vault_view self.old) copy)) (vault_view self.old) (vault_view self.new) }
        ensures scheduled { VaultObeysExactly (is_err result) self.old self.new }
    {
        let fails = self.schedule.next_call();
        let done = self.recorded.publish(!fails, copy);
        self.schedule.answer(done)
    }
}
