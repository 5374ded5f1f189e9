// What failed of an object, in words for whoever has to mend it.
use crate::faults::is_memory;
use crate::places::name_of;
use disk_model::Path;
use std::alloc::{AllocError, Global};
use std::io;
use std::io::ErrorKind;

// The most failures that an object keeps.
const MANY: usize = 20;

// Begins what the system's words end with, a number for programs.
const NUMBER: &str = " (os error ";

// Said of a folder that holds such a name.
const NOT_UTF8: &str = "a name in it is not UTF-8";

/// What the system was asked for.
#[derive(Clone, Copy, Debug, PartialEq, Eq)]
pub enum Request {
    List,
    Look,
    Read,
    Make,
    Open,
    Write,
    Resize,
    SetTime,
    Rename,
    Sync,
    /// The parity file of this number: to read it, or to look for it where there is content.
    FindParity(u32),
    /// To work on a file or folder that is another one too.
    Use,
}

impl Request {
    /// The request in a word or two.
    pub fn as_str(self) -> &'static str {
        match self {
            Request::List => "list",
            Request::Look => "look at",
            Request::Read => "read",
            Request::Make => "make",
            Request::Open => "open",
            Request::Write => "write",
            Request::Resize => "resize",
            Request::SetTime => "set the time of",
            Request::Rename => "rename",
            Request::Sync => "sync",
            Request::FindParity(_) => "find",
            Request::Use => "use",
        }
    }

    /// Whether it only reads a file, so that a run mostly goes on after it failed.
    pub fn is_reading(self) -> bool {
        matches!(self, Request::Look | Request::Read)
    }
}

// How two names clash.
#[derive(Clone, Copy)]
pub(crate) enum Clash {
    SameFile,
    SameFolder,
    Inside,
}

impl Clash {
    // What stands between the two names, and what behind them.
    fn words(self) -> (&'static str, &'static str) {
        match self {
            Clash::SameFile => (" and ", " are the same file"),
            Clash::SameFolder => (" and ", " are the same folder"),
            Clash::Inside => (" is inside of ", ""),
        }
    }
}

/// A request that failed, the name of its file or folder, and the system's words for why.
#[derive(Drop)]
pub struct Failure {
    pub request: Request,
    pub name: String,
    pub why: String,
}

/// The failures of one object, each request and name once. Of more than twenty the last stands in the place of the one
/// before it.
#[derive(Drop)]
pub struct Failures {
    alloc: Global,
    kept: Vec<Failure>,
}

impl Failures {
    pub fn none(alloc: Global) -> Failures {
        Failures {
            alloc,
            kept: Vec::new(alloc),
        }
    }

    pub fn as_slice(&self) -> &[Failure] {
        self.kept.as_slice()
    }

    // Keeps why an answer is none. A failure that there is no memory for is left out.
    pub fn note<T>(&mut self, request: Request, name: &str, answer: &io::Result<T>) {
        if let Some(error) = failure_of(answer) {
            if let Ok(name) = String::from_str(self.alloc, name) {
                let _ = self.keep(request, name, error);
            }
        }
    }

    // The same of a file of a data folder.
    pub fn note_file<T>(
        &mut self,
        request: Request,
        dir: &str,
        path: &Path,
        lost: bool,
        answer: &io::Result<T>,
    ) {
        if let Some(error) = failure_of(answer) {
            if let Ok(name) = name_of(self.alloc, dir, path.as_str(), lost) {
                let _ = self.keep(request, name, error);
            }
        }
    }

    // Keeps that a parity file was looked for and not there, which is no failure of the call.
    pub fn note_missing(&mut self, file: u32, name: &str) {
        let answer: io::Result<()> = Err(io::Error::from(ErrorKind::NotFound));
        self.note(Request::FindParity(file), name, &answer);
    }

    // Takes back what was kept of a parity file that was missing: it was made since.
    pub fn forget_missing(&mut self, file: u32) {
        self.kept
            .retain(|failure| failure.request != Request::FindParity(file));
    }

    // Keeps that two names may not be used together.
    pub(crate) fn note_clash(&mut self, clash: Clash, name: &str, other: &str) {
        let _ = self.keep_clash(clash, name, other);
    }

    fn keep_clash(&mut self, clash: Clash, name: &str, other: &str) -> Result<(), AllocError> {
        let (between, behind) = clash.words();
        let why = format!(in self.alloc; "'{name}'{between}'{other}'{behind}")?;
        self.push(Request::Use, String::from_str(self.alloc, name)?, why)
    }

    fn keep(&mut self, request: Request, name: String, error: io::Error) -> Result<(), AllocError> {
        if self.has(request, name.as_str()) {
            return Ok(());
        }
        let why = words_of(self.alloc, error)?;
        self.push(request, name, why)
    }

    fn push(&mut self, request: Request, name: String, why: String) -> Result<(), AllocError> {
        if self.kept.len() >= MANY {
            self.kept.pop();
        }
        self.kept.push(Failure { request, name, why })?;
        Ok(())
    }

    fn has(&self, request: Request, name: &str) -> bool {
        for failure in &self.kept {
            if failure.request == request && failure.name.as_str() == name {
                return true;
            }
        }
        false
    }
}

// Why an answer is none, but for want of memory.
fn failure_of<T>(answer: &io::Result<T>) -> Option<io::Error> {
    match answer {
        Err(error) if !is_memory(error) => Some(*error),
        _ => None,
    }
}

// The system's words, without the number of the error.
fn words_of(alloc: Global, error: io::Error) -> Result<String, AllocError> {
    if error.kind() == ErrorKind::InvalidFilename && error.raw_os_error().is_none() {
        return String::from_str(alloc, NOT_UTF8);
    }
    let text = format!(in alloc; "{error}")?;
    match text.split_once(NUMBER) {
        Some((words, _)) => String::from_str(alloc, words),
        None => Ok(text),
    }
}
