// A folder that this process alone has, and what is done to the files in it.
use std::alloc::{AllocError, Global};
use std::fs::{FileTimes, OpenOptions};
use std::os::unix::fs::MetadataExt;
use std::test::Fail;
use std::time::{Duration, UNIX_EPOCH};
use std::{env, fs, io, process};

// All files were changed last half a second after some second.
const HALF: u32 = 500_000_000;

// A file: its bytes, each piece so many times, and when it was changed last, in whole seconds.
#[derive(Clone, Copy)]
pub struct File {
    pub name: &'static str,
    pub bytes: &'static [(&'static [u8], usize)],
    pub seconds: u64,
}

// What is done, or what is wanted.
pub enum Act {
    Folder(&'static str),
    Put(File),
    Move(&'static str, &'static str),
    Remove(&'static str),
    // It is there, with these bytes and this time.
    Find(File),
}

// Makes a folder, and goes there. Gives its name.
pub fn enter(rt: HostRuntime, name: &str) -> io::Result<String> {
    let process = process::id(rt.process());
    let top = format!(in rt.alloc(); "{}/{name}{process}", env::temp_dir(&rt)?.as_str())?;
    fs::create_dir(&rt, top.as_str())?;
    env::set_current_dir(&rt, top.as_str())?;
    Ok(top)
}

pub fn leave(rt: HostRuntime, top: &str) -> io::Result<()> {
    fs::remove_dir_all(&rt, top)
}

fn bytes_of(alloc: Global, pieces: &[(&[u8], usize)]) -> Result<Vec<u8>, AllocError> {
    let mut bytes = Vec::new(alloc);
    for (piece, times) in pieces {
        for _ in 0..*times {
            bytes.extend_from_slice(piece)?;
        }
    }
    Ok(bytes)
}

fn put(rt: HostRuntime, file: &File) -> Result<(), Fail> {
    fs::write(&rt, file.name, bytes_of(rt.alloc(), file.bytes)?)?;
    let Some(time) = UNIX_EPOCH.checked_add(Duration::new(file.seconds, HALF)) else {
        return Err("no such time".into());
    };
    let held = OpenOptions::new().write(true).open(&rt, file.name)?;
    Ok(held.set_times(FileTimes::new().set_modified(time))?)
}

fn is_found(rt: HostRuntime, file: &File) -> Result<bool, Fail> {
    let seen = fs::metadata(&rt, file.name)?;
    let bytes = bytes_of(rt.alloc(), file.bytes)?;
    Ok(
        i64::try_from(file.seconds) == Ok(seen.mtime())
            && seen.mtime_nsec() == i64::from(HALF)
            && fs::read(&rt, file.name)?.as_slice() == bytes.as_slice(),
    )
}

// Does it. The number of the step is told where it is wanted and is not so.
pub fn make(rt: HostRuntime, number: usize, act: &Act) -> Result<(), Fail> {
    match act {
        Act::Folder(name) => Ok(fs::create_dir_all(&rt, name)?),
        Act::Put(file) => put(rt, file),
        Act::Move(from, to) => Ok(fs::rename(&rt, from, to)?),
        Act::Remove(name) => Ok(fs::remove_file(&rt, name)?),
        Act::Find(file) => {
            if !is_found(rt, file)? {
                return Err(Fail::new(format_args!("step {number}: another file")));
            }
            Ok(())
        }
    }
}
