// A content copy of the system, with its draft.
ghost use Rattle.std.specs.Prelude.{◌≡◌, ◌≤◌, length, IfOk, OnOk, OnErr};
ghost use Rattle.disk_host.specs.Drafts.{state_of};
ghost use Rattle.disk_model.specs.declared.draft.Draft.{Draft};

use crate::drafts::DraftFile;
use crate::files::{open_regular, read_front};
use disk_model::{NoMemory, Text};
use std::alloc::Global;
use std::fs::OpenFile;
use std::io;
use std::os::unix::fs::FileExt;
use std::rt::Files;

/// A content copy. It stays open from the question for its size on, so that all reads are of one file.
#[derive(Drop)]
pub struct ContentFile<R: Files> {
    name: Text,
    file: Option<R::File>,
    pub draft: DraftFile<R>,
}

impl<R: Files> ContentFile<R>
where
    R::File: FileExt,
{
    pub fn new(alloc: Global, name: &Text) -> Result<ContentFile<R>, NoMemory>
        ensures { IfOk result (λ made. state_of made.draft.stage ≡ Draft.Absent) }
    {
        let beside = format!(in alloc; "{}.tmp", name.as_str())?;
        Ok(ContentFile {
            name: name.copy()?,
            file: None,
            draft: DraftFile::new(Text::new(alloc, beside.as_str())?),
        })
    }

    pub fn name(&self) -> &str {
        self.name.as_str()
    }

    /// Begins an empty draft.
    pub fn begin_draft(&mut self, rt: &R) -> io::Result<()>
        ensures ok { OnOk result (state_of self.new.draft.stage ≡ Draft.Open) }
        ensures err { OnErr result (state_of self.new.draft.stage ≡ Draft.Absent) }
    {
        self.draft.begin(rt, self.name.as_str())
    }

    /// Opens it anew. `None` where there is no file.
    pub fn size(&mut self, rt: &R) -> io::Result<Option<u64>>
        ensures { self.new.draft ≡ self.old.draft }
    {
        self.file = None;
        self.file = open_regular(rt, self.name.as_str())?;
        match &self.file {
            Some(file) => Ok(Some(file.metadata()?.len())),
            None => Ok(None),
        }
    }

    /// Fills a front of `out`, with no byte where there is no file.
    pub fn read(&mut self, rt: &R, at: u64, out: &mut [u8]) -> io::Result<usize>
        ensures bound { IfOk result (λ n. n ≤ length out.new) }
        ensures draft { self.new.draft ≡ self.old.draft }
    {
        if self.file.is_none() {
            self.file = open_regular(rt, self.name.as_str())?;
        }
        match &self.file {
            Some(file) => read_front(file, at, out),
            None => Ok(0),
        }
    }

    /// Puts the draft in its place, if that may be.
    pub fn publish(&mut self, rt: &R, may: io::Result<()>) -> io::Result<()>
        ensures { state_of self.new.draft.stage ≡ Draft.Absent }
    {
        self.file = None;
        self.draft.publish(rt, self.name.as_str(), may)
    }
}
