// The draft of a content copy: a file beside it, until it takes its place.
ghost use Rattle.std.specs.Prelude.{◌≡◌, ◌++◌, IfOk, OnOk, OnErr};
ghost use Rattle.disk_host.specs.Drafts.{state_of};
ghost use Rattle.disk_model.specs.declared.draft.Draft.{Draft};

use crate::files::{PRIVATE, is_regular, sync_folder_of};
use disk_model::Text;
use std::fs::{OpenFile, OpenOptions, Permissions};
use std::io::{ErrorKind, Write};
use std::os::unix::fs::{MetadataExt, OpenOptionsExt, PermissionsExt};
use std::rt::Files;
use std::{fs, io, mem};

// Who may read, write and run a file: its owner, its group and all others.
const ALL: u32 = 0o777;

/// How far a draft has come.
#[derive(Drop)]
pub enum Stage<F> {
    Absent,
    Open(F),
    Sealed,
}

/// A draft, by the name of its file. The file of a draft that is absent is never read.
#[derive(Drop)]
pub struct DraftFile<R: Files> {
    name: Text,
    pub stage: Stage<R::File>,
}

impl<R: Files> DraftFile<R> {
    pub fn new(name: Text) -> DraftFile<R>
        ensures { state_of result.stage ≡ Draft.Absent }
    {
        DraftFile {
            name,
            stage: Stage::Absent,
        }
    }

    pub fn name(&self) -> &str {
        self.name.as_str()
    }

    /// Makes an empty file in place of an older one, with the mode of the file that it is to replace.
    pub fn begin(&mut self, rt: &R, over: &str) -> io::Result<()>
        ensures ok { OnOk result (state_of self.new.stage ≡ Draft.Open) }
        ensures err { OnErr result (state_of self.new.stage ≡ Draft.Absent) }
    {
        self.stage = Stage::Absent;
        self.stage = Stage::Open(new_file(rt, self.name.as_str(), over)?);
        Ok(())
    }

    /// Appends bytes to an open one.
    pub fn append(&mut self, rt: &R, bytes: &[u8]) -> io::Result<()>
        ensures ok { OnOk result (state_of self.new.stage ≡ Draft.Open) }
        ensures err { OnErr result (state_of self.new.stage ≡ Draft.Absent) }
    {
        let longer = appended(mem::replace(&mut self.stage, Stage::Absent), bytes);
        self.keep(rt, longer)
    }

    /// Hands an open one to the disk, and closes it.
    pub fn seal(&mut self, rt: &R) -> io::Result<()>
        ensures ok { OnOk result (state_of self.new.stage ≡ Draft.Sealed) }
        ensures err { OnErr result (state_of self.new.stage ≡ Draft.Absent) }
    {
        let synced = synced(mem::replace(&mut self.stage, Stage::Absent));
        self.keep(rt, synced)
    }

    /// Renames it over a file, or where there is none, if that may be.
    pub fn publish(&mut self, rt: &R, over: &str, may: io::Result<()>) -> io::Result<()>
        ensures { state_of self.new.stage ≡ Draft.Absent }
    {
        let placed = placed(rt, self.name.as_str(), over, may);
        self.keep(rt, placed)?;
        sync_folder_of(rt, over)
    }

    // The next stage, or none, and then no file, as far as the system lets it go.
    fn keep(&mut self, rt: &R, next: io::Result<Stage<R::File>>) -> io::Result<()>
        ensures ok { OnOk result (next ≡ Ok self.new.stage) }
        ensures err { OnErr result (state_of self.new.stage ≡ Draft.Absent) }
    {
        match next {
            Ok(stage) => {
                self.stage = stage;
                Ok(())
            }
            Err(error) => {
                self.stage = Stage::Absent;
                self.remove(rt);
                Err(error)
            }
        }
    }

    fn remove(&self, rt: &R) {
        let _ = fs::remove_file(rt, self.name.as_str());
    }
}

// An empty file, in place of an older one.
fn new_file<R: Files>(rt: &R, name: &str, over: &str) -> io::Result<R::File> {
    if is_regular(fs::symlink_metadata(rt, name))? {
        fs::remove_file(rt, name)?;
    }
    let file = OpenOptions::new()
        .write(true)
        .create_new(true)
        .mode(PRIVATE)
        .open(rt, name)?;
    take_mode(rt, &file, over);
    Ok(file)
}

// Gives a new file the mode of the one that it is to replace. Where there is none it stays its owner's alone, and so it
// does where the system keeps no modes.
fn take_mode<R: Files>(rt: &R, file: &R::File, over: &str) {
    if let Ok(seen) = fs::metadata(rt, over) {
        let mode = seen.mode() & ALL;
        if seen.is_file() && mode != PRIVATE {
            let _ = file.set_permissions(Permissions::from_mode(mode));
        }
    }
}

fn appended<F: Write + Drop>(stage: Stage<F>, bytes: &[u8]) -> io::Result<Stage<F>>
    ensures { IfOk result (λ stage. state_of stage ≡ Draft.Open) }
{
    match stage {
        Stage::Open(mut file) => {
            file.write_all(bytes)?;
            Ok(Stage::Open(file))
        }
        _ => Err(io::Error::from(ErrorKind::NotFound)),
    }
}

fn synced<F: OpenFile + Drop>(stage: Stage<F>) -> io::Result<Stage<F>>
    ensures { IfOk result (λ stage. state_of stage ≡ Draft.Sealed) }
{
    match stage {
        Stage::Open(file) => {
            file.sync_all()?;
            Ok(Stage::Sealed)
        }
        _ => Err(io::Error::from(ErrorKind::NotFound)),
    }
}

// A folder, fifo or device is not renamed over.
fn placed<R: Files>(
    rt: &R,
    name: &str,
    over: &str,
    may: io::Result<()>,
) -> io::Result<Stage<R::File>>
    ensures { IfOk result (λ stage. state_of stage ≡ Draft.Absent) }
{
    may?;
    is_regular(fs::metadata(rt, over))?;
    fs::rename(rt, name, over)?;
    Ok(Stage::Absent)
}
