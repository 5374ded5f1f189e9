// A store with the record of the calls that made it what it is.
ghost use Rattle.std.specs.Prelude.{◌≡◌, ◌⊎◌, ◌+◌, ◌<◌, ◌^◌, length, not, true, false, IfSome};
ghost use Rattle.disk_model.specs.Files.{parity_of};
ghost use Rattle.disk_model.specs.Vault.{VaultCall, ParityWrite, ParitySetLen, DraftBegin, DraftAppend, DraftSeal, Publish};
ghost use Rattle.disk_memory.specs.Calls.{vault_call};
ghost use Rattle.disk_calm.specs.Store.{held, draft_held, with_level, with_copy, SameCounts};
ghost use Rattle.disk_memory.specs.Recorded.{IsRecorded, held_after, is_quiet, opened_by, calls_since};
ghost use Rattle.disk_memory.specs.RecordedLaws.{IsRecorded-prop};

use crate::calls::{VaultEntry, append_entry, write_entry};
use crate::image::{number_of, skip};
use crate::past::Past;
use crate::replay::Replay;
use disk_calm::{Bytes, Store};
use disk_model::{Answer, Draft, NoMemory};
use std::alloc::Global;

/// What a vault holds, what it held when it was opened, and its calls.
#[derive(Drop)]
pub struct Recorded {
    alloc: Global,
    pub past: Past<VaultEntry>,
    // how many calls there were before it was opened
    pub base: usize,
    pub opened: Store,
    pub store: Store,
    ghost same_levels: { store.levels ≡ opened.levels },
    ghost same_copies: { store.copies ≡ opened.copies },
    ghost recorded: { IsRecorded past.lost base past.made.items (held opened) (held store) } by { IsRecorded-prop past.lost base past.made.items (held opened) (held store) },
}

impl Recorded {
    ghost use Rattle.std.specs.Prelude.{take, IfOk, OnOk, OnErr};
    ghost use Rattle.disk_model.specs.Answer.{is_failure};
    ghost use Rattle.disk_model.specs.Bytes.{AreBytes};
    ghost use Rattle.disk_memory.specs.Goes.{Goes, GoesBy, IsAnswered, IsAnsweredUnless, IsFreshRecord, IsOpenedRecord, Damages, SameRecord};
    ghost use Rattle.disk_model.specs.Machine.{replay};
    ghost use Rattle.disk_memory.specs.Choice.{picked_image};
    ghost use Rattle.disk_calm.specs.Store.{opened_held};

    /// Nothing is held, and no call was made.
    pub fn new(alloc: Global, levels: u32, copies: u32) -> Result<Recorded, NoMemory>
        ensures view { IfOk result (λ made. IsFreshRecord levels copies made) }
    {
        Ok(Recorded {
            alloc,
            past: Past::new(alloc),
            base: 0,
            opened: Store::new(alloc, levels, copies)?,
            store: Store::new(alloc, levels, copies)?,
        })
    }

    /// It holds this, and no call was made.
    pub fn opened(alloc: Global, store: Store) -> Result<Recorded, NoMemory>
        ensures view { IfOk result (λ made. IsOpenedRecord store made) }
    {
        let opened = store.copy()?;
        Ok(Recorded {
            alloc,
            past: Past::new(alloc),
            base: 0,
            opened,
            store,
        })
    }

    /// The vault after so many calls since it was opened, or after all.
    pub fn after(&self, moment: u64) -> Result<Replay, NoMemory>
        ensures { IfOk result (λ replayed. replayed ≡ replay (opened_by (held self.now.opened)) (take moment (calls_since self.now.base self.now.past.made.items))) }
    {
        let mut replayed = Replay::opened(self.alloc, &self.opened)?;
        let (_, since) = self.past.made.as_slice().split_at(self.base);
        let end = since.len().min(moment as usize);
        let (calls, _) = since.split_at(end);
        replayed.go(calls)?;
        Ok(replayed)
    }

    /// The files that the bytes pick of those that a stop may leave, with no draft. The first eight tell after how many
    /// calls since it was opened the stop came.
    pub fn image(&self, choice: &[u8]) -> Result<Store, NoMemory>
        ensures held { IfOk result (λ store. held store ≡ opened_held self.now.store.copies
            (picked_image (opened_by (held self.now.opened)) (calls_since self.now.base self.now.past.made.items) choice.now)) }
        ensures same { IfOk result (λ store. SameCounts self.now.store store) }
    {
        let replayed = self.after(number_of(choice))?;
        let bytes = skip(choice, 8);
        let parities = replayed.parities_image(bytes)?;
        let contents = replayed.contents_image(bytes)?;
        let levels = self.store.levels;
        let copies = self.store.copies;
        let store = Store::of(self.alloc, levels, copies, parities, contents)?;
        Ok(store)
    }

    // Sets a parity file: damage from outside. What it held before is forgotten, but for a record that is lost.
    pub fn set_parity(&mut self, level: u32, bytes: Bytes) -> Result<(), NoMemory>
        requires level { level < self.old.store.levels }
        requires bytes { AreBytes bytes }
        ensures set { OnOk result (Damages (with_level (held self.old.store) level bytes) self.old self.new) }
        ensures err { OnErr result (SameRecord self.old self.new) }
    {
        let mut store = self.store.copy()?;
        store.set_parity(level, bytes);
        self.reopen(store)
    }

    // Sets a content copy, or takes it away: damage from outside.
    pub fn set_content(&mut self, copy: u32, content: Option<Bytes>) -> Result<(), NoMemory>
        requires copy { copy < self.old.store.copies }
        requires bytes { IfSome content AreBytes }
        ensures set { OnOk result (Damages (with_copy (held self.old.store) copy content) self.old self.new) }
        ensures err { OnErr result (SameRecord self.old self.new) }
    {
        let mut store = self.store.copy()?;
        store.set_content(copy, content);
        self.reopen(store)
    }

    // From now on it holds this, as if it had been opened so in the midst of its calls.
    fn reopen(&mut self, store: Store) -> Result<(), NoMemory>
        requires { SameCounts self.old.store store }
        ensures set { OnOk result (Damages (held store) self.old self.new) }
        ensures err { OnErr result (SameRecord self.old self.new) }
    {
        if self.past.lost {
            self.store = store;
            return Ok(());
        }
        self.opened = store.copy()?;
        self.base = self.past.made.len();
        self.store = store;
        Ok(())
    }

    // A call of which reads show nothing, and which gives this unless it fails.
    pub fn quiet(&mut self, may: bool, entry: VaultEntry, given: Answer) -> bool
        requires quiet { is_quiet (vault_call entry) ≡ true }
        requires given { is_failure given ≡ false }
        ensures goes { GoesBy (vault_call entry) given (not result) self.old self.new }
        ensures answer { IsAnswered may result self.old self.new }
    {
        let done = self.past.admit(may, Some(entry));
        self.past.end_if(done, given);
        done
    }

    pub fn parity_write(&mut self, may: bool, level: u32, at: u64, bytes: &[u8]) -> bool
        requires level { level < self.old.store.levels }
        requires room { at + length bytes.now < 2 ^ 64 }
        ensures goes { Goes (ParityWrite level at bytes.now) (not result) self.old self.new }
        ensures answer { IsAnsweredUnless (length (parity_of (held self.old.store).files level) < at + length bytes.now) may result self.old self.new }
    {
        let entry = write_entry(self.alloc, level, at, bytes);
        let may = self.past.admit(may, entry);
        let done = write_parity(&mut self.store, may, level, at, bytes);
        self.past.end_if(done, Answer::Done);
        done
    }

    pub fn parity_set_len(&mut self, may: bool, level: u32, len: u64) -> bool
        requires { level < self.old.store.levels }
        ensures goes { Goes (ParitySetLen level len) (not result) self.old self.new }
        ensures answer { IsAnsweredUnless (length (parity_of (held self.old.store).files level) < len) may result self.old self.new }
    {
        let may = self
            .past
            .admit(may, Some(VaultEntry::ParitySetLen(level, len)));
        let done = set_parity_len(&mut self.store, may, level, len);
        self.past.end_if(done, Answer::Done);
        done
    }

    pub fn draft_begin(&mut self, may: bool, copy: u32) -> bool
        requires { copy < self.old.store.copies }
        ensures goes { Goes (DraftBegin copy) (not result) self.old self.new }
        ensures answer { IsAnswered may result self.old self.new }
    {
        let done = self.past.admit(may, Some(VaultEntry::DraftBegin(copy)));
        begin_draft(&mut self.store, done, copy);
        self.past.end_if(done, Answer::Done);
        done
    }

    pub fn draft_append(&mut self, may: bool, copy: u32, bytes: &[u8]) -> bool
        requires copy { copy < self.old.store.copies }
        requires draft { draft_held (held self.old.store) copy ≡ Draft.Open }
        ensures goes { Goes (DraftAppend copy bytes.now) (not result) self.old self.new }
        ensures answer { IsAnsweredUnless (0 < length bytes.now) may result self.old self.new }
    {
        let entry = append_entry(self.alloc, copy, bytes);
        let may = self.past.admit(may, entry);
        let done = append_draft(&mut self.store, may, copy, bytes);
        self.past.end_if(done, Answer::Done);
        done
    }

    pub fn draft_seal(&mut self, may: bool, copy: u32) -> bool
        requires { copy < self.old.store.copies }
        ensures goes { Goes (DraftSeal copy) (not result) self.old self.new }
        ensures answer { IsAnswered may result self.old self.new }
    {
        let done = self.past.admit(may, Some(VaultEntry::DraftSeal(copy)));
        seal_draft(&mut self.store, done, copy);
        self.past.end_if(done, Answer::Done);
        done
    }

    pub fn publish(&mut self, may: bool, copy: u32) -> bool
        requires { copy < self.old.store.copies }
        ensures goes { Goes (Publish copy) (not result) self.old self.new }
        ensures answer { IsAnswered may result self.old self.new }
    {
        let done = self.past.admit(may, Some(VaultEntry::Publish(copy)));
        publish_draft(&mut self.store, done, copy);
        self.past.end_if(done, Answer::Done);
        done
    }
}

fn write_parity(store: &mut Store, may: bool, level: u32, at: u64, bytes: &[u8]) -> bool
    requires level { level < store.old.levels }
    requires room { at + length bytes.now < 2 ^ 64 }
    ensures now { held store.new ≡ held_after (held store.old) (ParityWrite level at bytes.now) (not result) }
    ensures may { may ≡ false → result ≡ false }
    ensures full { result ≡ false → (may ≡ false) ⊎ (length (parity_of (held store.old).files level) < at + length bytes.now) }
    ensures same { SameCounts store.old store.new }
{
    may && store.parity_write(level, at, bytes).is_ok()
}

fn set_parity_len(store: &mut Store, may: bool, level: u32, len: u64) -> bool
    requires { level < store.old.levels }
    ensures now { held store.new ≡ held_after (held store.old) (ParitySetLen level len) (not result) }
    ensures may { may ≡ false → result ≡ false }
    ensures full { result ≡ false → (may ≡ false) ⊎ (length (parity_of (held store.old).files level) < len) }
    ensures same { SameCounts store.old store.new }
{
    may && store.parity_set_len(level, len).is_ok()
}

fn begin_draft(store: &mut Store, done: bool, copy: u32)
    requires { copy < store.old.copies }
    ensures now { held store.new ≡ held_after (held store.old) (DraftBegin copy) (not done) }
    ensures same { SameCounts store.old store.new }
{
    if done {
        store.set_draft(copy, Draft::Open);
    } else {
        store.set_draft(copy, Draft::Absent);
    }
}

fn append_draft(store: &mut Store, may: bool, copy: u32, bytes: &[u8]) -> bool
    requires copy { copy < store.old.copies }
    requires draft { draft_held (held store.old) copy ≡ Draft.Open }
    ensures now { held store.new ≡ held_after (held store.old) (DraftAppend copy bytes.now) (not result) }
    ensures may { may ≡ false → result ≡ false }
    ensures full { result ≡ false → (may ≡ false) ⊎ (0 < length bytes.now) }
    ensures same { SameCounts store.old store.new }
{
    if may && store.draft_append(copy, bytes).is_ok() {
        return true;
    }
    store.set_draft(copy, Draft::Absent);
    false
}

fn seal_draft(store: &mut Store, done: bool, copy: u32)
    requires { copy < store.old.copies }
    ensures now { held store.new ≡ held_after (held store.old) (DraftSeal copy) (not done) }
    ensures same { SameCounts store.old store.new }
{
    if done {
        store.draft_seal(copy);
    } else {
        store.set_draft(copy, Draft::Absent);
    }
}

fn publish_draft(store: &mut Store, done: bool, copy: u32)
    requires { copy < store.old.copies }
    ensures now { held store.new ≡ held_after (held store.old) (Publish copy) (not done) }
    ensures same { SameCounts store.old store.new }
{
    if done {
        store.publish(copy);
    } else {
        store.set_draft(copy, Draft::Absent);
    }
}
