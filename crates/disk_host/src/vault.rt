// Parity files and content copies of the system.
ghost use Rattle.std.specs.Prelude.{◌≡◌, ◌<◌, ◌^◌, length, map, vec_len};
ghost use Rattle.disk_host.specs.Drafts.{state_of};
ghost use Rattle.disk_model.specs.Vault.{quiet_vault, quiet_vault-well_formed, IsUntouched};

use crate::ahead::{AheadFile, AheadFiles};
use crate::contents::ContentFile;
use crate::failures::{Failure, Failures, Request};
use crate::faults::counted;
use crate::parity::ParityFile;
use disk_model::{Failed, Vault, count_write};
use std::alloc::Global;
use std::io;
use std::io::ErrorKind;
use std::os::unix::fs::FileExt;
use std::rt::Files;

/// The files of the system that hold parity and content.
#[derive(Drop)]
pub struct DiskVault<R: Files> {
    rt: R,
    parities: Vec<ParityFile<R>>,
    contents: Vec<ContentFile<R>>,
    ahead: AheadFiles<R>,
    faults: u64,
    writes: u64,
    failures: Failures,
    // whether content is there, or was once the parity files were made for it
    has_content: bool,
    ghost levels_fit: { vec_len parities < 2 ^ 32 },
    ghost copies_fit: { vec_len contents < 2 ^ 32 },
}

impl<R: Files> DiskVault<R> {
    pub(crate) fn new(
        alloc: Global,
        rt: R,
        parities: Vec<ParityFile<R>>,
        contents: Vec<ContentFile<R>>,
        ahead: AheadFiles<R>,
    ) -> DiskVault<R>
        requires levels { vec_len parities < 2 ^ 32 }
        requires copies { vec_len contents < 2 ^ 32 }
        ensures faults { result.faults ≡ 0 }
        ensures writes { result.writes ≡ 0 }
        ensures parities { result.parities.items ≡ parities.items }
        ensures contents { result.contents.items ≡ contents.items }
    {
        DiskVault {
            rt,
            parities,
            contents,
            ahead,
            faults: 0,
            writes: 0,
            failures: Failures::none(alloc),
            has_content: false,
        }
    }

    /// What failed so far.
    pub fn failures(&self) -> &[Failure] {
        self.failures.as_slice()
    }
}

// Makes the parity files that are not there, unless there is content.
fn made_all<R: Files>(
    rt: &R,
    has_content: bool,
    parities: &[ParityFile<R>],
    failures: &mut Failures,
) -> io::Result<()>
where
    R::File: FileExt,
{
    if has_content {
        return Ok(());
    }
    for parity in parities {
        let made = parity.make(rt);
        failures.note(Request::Make, parity.name(), &made);
        made?;
    }
    Ok(())
}

// Keeps why a draft was not renamed, where it was asked for that.
fn note_rename(failures: &mut Failures, was_asked: bool, name: &str, answer: &io::Result<()>) {
    if was_asked {
        failures.note(Request::Rename, name, answer);
    }
}

// Looks for a parity file, and keeps that it is not there.
fn look_for<R: Files>(rt: &R, level: u32, parity: &mut ParityFile<R>, failures: &mut Failures)
where
    R::File: FileExt,
{
    if let Ok(false) = parity.look_for(rt) {
        failures.note_missing(level, parity.name());
    }
}

// Looks for the parity files, and keeps which are not there, or were not before a write of this run. Answers whether one
// is kept. A file that cannot be opened is left to the call that needs it.
fn lacked_one<R: Files>(rt: &R, parities: &mut [ParityFile<R>], failures: &mut Failures) -> bool
where
    R::File: FileExt,
    requires { length parities.old < 2 ^ 32 }
{
    let mut lacked = false;
    for level in 0..parities.len() {
        let _ = parities[level].look_for(rt);
        if parities[level].was_missing() {
            failures.note_missing(level as u32, parities[level].name());
            lacked = true;
        }
    }
    lacked
}

impl<R: Files + Drop + Send> Vault for DiskVault<R>
where
    R::File: FileExt + Send,
{
    type Ahead = AheadFile<R>;

    ghost view = { λ s. quiet_vault s.faults s.writes (vec_len s.parities) (map (λ content. state_of content.draft.stage) s.contents.items) };

    ghost well_formed = { λ s. quiet_vault-well_formed s.faults s.writes (vec_len s.parities) (map (λ content. state_of content.draft.stage) s.contents.items) };

    fn faults(&self) -> u64 {
        self.faults
    }

    fn levels(&self) -> u32 {
        self.parities.len() as u32
    }

    fn copies(&self) -> u32 {
        self.contents.len() as u32
    }

    fn parity_len(&mut self, level: u32) -> Result<u64, Failed> {
        let answer = self.parities[level as usize].len(&self.rt);
        self.failures.note(Request::Look, self.parities[level as usize].name(), &answer);
        if self.has_content {
            look_for(
                &self.rt,
                level,
                &mut self.parities[level as usize],
                &mut self.failures,
            );
        }
        counted(&mut self.faults, answer)
    }

    // What was read ahead is of a file that is there.
    fn parity_read(&mut self, level: u32, at: u64, out: &mut [u8]) -> Result<usize, Failed> {
        if self
            .ahead
            .fill(self.parities[level as usize].name(), at, out)
        {
            return Ok(out.len());
        }
        let answer = self.parities[level as usize].read(&self.rt, at, out);
        self.failures.note(Request::Read, self.parities[level as usize].name(), &answer);
        if answer.is_ok() && !self.parities[level as usize].is_open() {
            self.failures
                .note_missing(level, self.parities[level as usize].name());
        }
        counted(&mut self.faults, answer)
    }

    #[tactic(auto, using(disk_model::proofs::UntouchedLemmas::untouched_here))]
    fn plan_ahead(&mut self, level: u32, at: u64, len: usize) {
        self.ahead
            .plan(self.parities[level as usize].name(), at, len);
    }

    #[tactic(auto, using(disk_model::proofs::UntouchedLemmas::untouched_here))]
    fn take_ahead(&mut self) -> Option<Vec<AheadFile<R>>> {
        self.ahead.take()
    }

    #[tactic(auto, using(disk_model::proofs::UntouchedLemmas::untouched_here))]
    fn put_ahead(&mut self, ahead: Vec<AheadFile<R>>)
        ensures { IsUntouched (⟦<DiskVault<R> as Vault>⟧.view self.old) (⟦<DiskVault<R> as Vault>⟧.view self.new) }
    {
        self.ahead.put(ahead);
    }

    fn parity_write(&mut self, level: u32, at: u64, bytes: &[u8]) -> Result<(), Failed> {
        count_write(&mut self.writes);
        self.ahead.forget(self.parities[level as usize].name());
        if self.has_content {
            look_for(
                &self.rt,
                level,
                &mut self.parities[level as usize],
                &mut self.failures,
            );
        }
        let answer = self.parities[level as usize].write(&self.rt, at, bytes);
        self.failures.note(
            Request::Write,
            self.parities[level as usize].name(),
            &answer,
        );
        if answer.is_ok() {
            self.failures.forget_missing(level);
        }
        counted(&mut self.faults, answer)
    }

    fn parity_set_len(&mut self, level: u32, len: u64) -> Result<(), Failed> {
        count_write(&mut self.writes);
        self.ahead.forget(self.parities[level as usize].name());
        if self.has_content
            && lacked_one(&self.rt, self.parities.as_mut_slice(), &mut self.failures)
        {
            let answer: io::Result<()> = Err(io::Error::from(ErrorKind::NotFound));
            return counted(&mut self.faults, answer);
        }
        let answer = self.parities[level as usize].set_len(&self.rt, len);
        self.failures.note(
            Request::Resize,
            self.parities[level as usize].name(),
            &answer,
        );
        counted(&mut self.faults, answer)
    }

    fn parity_sync(&mut self, level: u32) -> Result<(), Failed> {
        count_write(&mut self.writes);
        self.ahead.forget(self.parities[level as usize].name());
        let answer = self.parities[level as usize].sync(&self.rt);
        self.failures.note(Request::Sync, self.parities[level as usize].name(), &answer);
        counted(&mut self.faults, answer)
    }

    fn content_size(&mut self, copy: u32) -> Result<Option<u64>, Failed> {
        let answer = self.contents[copy as usize].size(&self.rt);
        if let Ok(Some(_)) = &answer {
            self.has_content = true;
        }
        self.failures.note(Request::Look, self.contents[copy as usize].name(), &answer);
        counted(&mut self.faults, answer)
    }

    fn content_read(&mut self, copy: u32, at: u64, out: &mut [u8]) -> Result<usize, Failed> {
        let answer = self.contents[copy as usize].read(&self.rt, at, out);
        self.failures.note(Request::Read, self.contents[copy as usize].name(), &answer);
        counted(&mut self.faults, answer)
    }

    fn draft_begin(&mut self, copy: u32) -> Result<(), Failed> {
        count_write(&mut self.writes);
        let answer = self.contents[copy as usize].begin_draft(&self.rt);
        self.failures.note(
            Request::Make,
            self.contents[copy as usize].draft.name(),
            &answer,
        );
        counted(&mut self.faults, answer)
    }

    fn draft_append(&mut self, copy: u32, bytes: &[u8]) -> Result<(), Failed> {
        count_write(&mut self.writes);
        let answer = self.contents[copy as usize].draft.append(&self.rt, bytes);
        self.failures.note(
            Request::Write,
            self.contents[copy as usize].draft.name(),
            &answer,
        );
        counted(&mut self.faults, answer)
    }

    fn draft_seal(&mut self, copy: u32) -> Result<(), Failed> {
        count_write(&mut self.writes);
        let answer = self.contents[copy as usize].draft.seal(&self.rt);
        self.failures.note(
            Request::Sync,
            self.contents[copy as usize].draft.name(),
            &answer,
        );
        counted(&mut self.faults, answer)
    }

    fn publish(&mut self, copy: u32) -> Result<(), Failed> {
        count_write(&mut self.writes);
        let ready = made_all(
            &self.rt,
            self.has_content,
            self.parities.as_slice(),
            &mut self.failures,
        );
        let is_ready = ready.is_ok();
        let answer = self.contents[copy as usize].publish(&self.rt, ready);
        let name = self.contents[copy as usize].draft.name();
        note_rename(&mut self.failures, is_ready, name, &answer);
        self.has_content = is_ready;
        counted(&mut self.faults, answer)
    }
}
