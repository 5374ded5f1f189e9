// Parity files of the system, a part of which is read ahead of the calls that ask for it.
ghost use Rattle.std.specs.Prelude.{◌≡◌, length, IfSome};

use crate::files::{open_regular, read_front};
use disk_model::{Ahead, NoMemory, Text};
use std::alloc::Global;
use std::io;
use std::mem::swap;
use std::os::unix::fs::FileExt;
use std::rt::Files;

// The most bytes of a file that are read ahead at once. Twice as many are in memory: while they serve calls, the next
// ones are read.
const LONGEST_AHEAD: usize = 16 << 20;

// Bytes of a file: a front of the buffer is what the file has from this byte on.
#[derive(Drop)]
struct Stretch {
    at: u64,
    count: usize,
    buffer: Vec<u8>,
}

impl Stretch {
    fn new(alloc: Global) -> Stretch {
        Stretch {
            at: 0,
            count: 0,
            buffer: Vec::new(alloc),
        }
    }

    fn forget(&mut self) {
        self.count = 0;
    }

    // Without its memory too.
    fn free(&mut self, alloc: Global) {
        self.forget();
        self.buffer = Vec::new(alloc);
    }

    // The bytes from a place on, if all of them are held, and one at least: then the file is there.
    fn held(&self, at: u64, len: usize) -> Option<&[u8]>
        ensures { IfSome result (λ bytes. length bytes.now ≡ len) }
    {
        let start = usize::try_from(at.checked_sub(self.at)?).ok()?;
        let end = start.checked_add(len)?;
        if len == 0 || end > self.count {
            return None;
        }
        self.buffer.as_slice().get(start..end)
    }
}

/// A parity file, open by a handle of its own so that another thread may read it, and the bytes that it read last.
#[derive(Drop)]
pub struct AheadFile<R: Files> {
    alloc: Global,
    rt: R,
    name: Text,
    file: Option<R::File>,
    // what is to be read next: from which byte on, and how many
    plan: Option<(u64, usize)>,
    fetched: Stretch,
}

impl<R: Files> AheadFile<R> {
    fn new(alloc: Global, rt: R, name: Text) -> AheadFile<R> {
        AheadFile {
            alloc,
            rt,
            name,
            file: None,
            plan: None,
            fetched: Stretch::new(alloc),
        }
    }

    fn is_of(&self, name: &str) -> bool {
        self.name.as_str() == name
    }
}

impl<R: Files> AheadFile<R>
where
    R::File: FileExt,
{
    // How many bytes came. The buffer is as long as the longest part that was read so far.
    fn read(&mut self, at: u64, len: usize) -> io::Result<usize> {
        if self.file.is_none() {
            self.file = open_regular(&self.rt, self.name.as_str())?;
        }
        let Some(file) = &self.file else {
            return Ok(0);
        };
        if self.fetched.buffer.len() < len {
            self.fetched.free(self.alloc);
            self.fetched.buffer = vec![in self.alloc; 0u8; len]?;
        }
        read_front(file, at, &mut self.fetched.buffer[..len])
    }
}

impl<R: Files + Send> Ahead for AheadFile<R>
where
    R::File: FileExt + Send,
{
    // Where nothing was planned, nothing is held afterwards, and no memory is kept for it: so of the files that a level is
    // split into, those that are read have buffers.
    fn fetch(&mut self) {
        match self.plan.take() {
            Some((at, len)) => {
                self.fetched.forget();
                let answer = self.read(at, len.min(LONGEST_AHEAD));
                self.fetched.at = at;
                self.fetched.count = answer.unwrap_or(0);
            }
            None => self.fetched.free(self.alloc),
        }
    }
}

// What calls for a parity file are served from.
#[derive(Drop)]
struct Served {
    name: Text,
    stretch: Stretch,
}

impl Served {
    fn is_of(&self, name: &str) -> bool {
        self.name.as_str() == name
    }

    // From now on calls are served from what the file read last, which reads into the memory that served them so far.
    fn exchange<R: Files>(&mut self, file: &mut AheadFile<R>) {
        if file.is_of(self.name.as_str()) {
            swap(&mut self.stretch, &mut file.fetched);
            file.fetched.forget();
        }
    }
}

/// What reads the parity files of a vault ahead, and what it read before: that serves calls, also while the next bytes are
/// read. All is found by the names of files, so that nothing rests on their order.
#[derive(Drop)]
pub struct AheadFiles<R: Files> {
    // either here or handed out
    files: Option<Vec<AheadFile<R>>>,
    served: Vec<Served>,
    // whether a parity file was to be changed while they were handed out
    is_outdated: bool,
}

impl<R: Files + Drop> AheadFiles<R> {
    /// One for each name.
    pub fn new(alloc: Global, rt: &R, names: &[Text]) -> Result<AheadFiles<R>, NoMemory>
    where
        R: Clone,
    {
        Ok(AheadFiles {
            files: Some(files_of(alloc, rt, names)?),
            served: served_of(alloc, names)?,
            is_outdated: false,
        })
    }

    /// Says which bytes of a parity file are read next.
    pub fn plan(&mut self, name: &str, at: u64, len: usize) {
        if let Some(files) = &mut self.files {
            for file in files {
                if file.is_of(name) {
                    file.plan = Some((at, len));
                }
            }
        }
    }

    pub fn take(&mut self) -> Option<Vec<AheadFile<R>>> {
        self.files.take()
    }

    /// Takes them back. Calls are served from what they read, unless a parity file was to be changed meanwhile.
    pub fn put(&mut self, files: Vec<AheadFile<R>>) {
        let mut files = files;
        for file in &mut files {
            if self.is_outdated {
                file.fetched.forget();
            }
            exchange(&mut self.served, file);
        }
        self.is_outdated = false;
        self.files = Some(files);
    }

    /// Drops what was read ahead of a parity file, before it is changed.
    pub fn forget(&mut self, name: &str) {
        for served in &mut self.served {
            if served.is_of(name) {
                served.stretch.forget();
            }
        }
        if self.files.is_none() {
            self.is_outdated = true;
        }
    }

    /// Fills all of `out`, if that was read ahead. Otherwise `out` stays.
    pub fn fill(&self, name: &str, at: u64, out: &mut [u8]) -> bool {
        match self.held(name, at, out.len()) {
            Some(bytes) => {
                out.copy_from_slice(bytes);
                true
            }
            None => false,
        }
    }

    fn held(&self, name: &str, at: u64, len: usize) -> Option<&[u8]>
        ensures { IfSome result (λ bytes. length bytes.now ≡ len) }
    {
        for served in &self.served {
            if served.is_of(name) {
                return served.stretch.held(at, len);
            }
        }
        None
    }
}

fn exchange<R: Files>(all: &mut [Served], file: &mut AheadFile<R>) {
    for served in all {
        served.exchange(file);
    }
}

fn files_of<R: Files + Clone>(
    alloc: Global,
    rt: &R,
    names: &[Text],
) -> Result<Vec<AheadFile<R>>, NoMemory> {
    let mut files = Vec::new(alloc);
    for name in names {
        files.push(AheadFile::new(alloc, rt.clone()?, name.copy()?))?;
    }
    Ok(files)
}

fn served_of(alloc: Global, names: &[Text]) -> Result<Vec<Served>, NoMemory> {
    let mut all = Vec::new(alloc);
    for name in names {
        all.push(Served {
            name: name.copy()?,
            stretch: Stretch::new(alloc),
        })?;
    }
    Ok(all)
}
