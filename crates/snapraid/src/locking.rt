// One run at a time: the configuration file is locked while a run works on its array.
use disk_model::{NoMemory, Sink, Text};
use snap_config::{Command, Options, WordsFault, read_words};
use snap_report::{Lines, Piece};
use std::fs::{File, OpenOptions, TryLockError};
use std::{fs, io};

/// What a run holds of its configuration, to its end.
#[derive(Drop)]
pub enum Hold {
    /// Nothing: it needs no lock, or none can be had, as of a pipe, or on a file system without locks.
    Nothing,
    Lock(File),
    /// Another run has the lock. The configuration has this name.
    Refused(Text),
}

// Whom a run lets work beside it.
#[derive(Clone, Copy, Debug, PartialEq, Eq)]
enum Beside {
    Anybody,
    Readers,
    Nobody,
}

/// Locks the configuration that the words name, as their command needs it. The system drops the lock with the process.
pub fn lock_configuration(rt: &HostRuntime, words: &[String]) -> Result<Hold, NoMemory> {
    match read_words(rt.alloc(), words) {
        Ok(asked) => Ok(hold_asked(rt, asked)),
        Err(WordsFault::Memory) => Err(NoMemory),
        Err(_) => Ok(Hold::Nothing),
    }
}

fn hold_asked(rt: &HostRuntime, asked: Options) -> Hold {
    let beside = let_in(&asked.command);
    if beside == Beside::Anybody {
        return Hold::Nothing;
    }
    match lock_file(rt, asked.conf.as_str(), beside) {
        Ok(file) => Hold::Lock(file),
        Err(TryLockError::WouldBlock) => Hold::Refused(asked.conf),
        Err(TryLockError::Error(_)) => Hold::Nothing,
    }
}

// The commands that write let nobody in. A check writes nothing, but what it compares must stand still.
fn let_in(command: &Command) -> Beside {
    match command {
        Command::Sync(_) | Command::Scrub(_) | Command::Fix(_) => Beside::Nobody,
        Command::Check(_) | Command::Audit(_) => Beside::Readers,
        Command::List | Command::Status | Command::Dup | Command::Exercise(_) => Beside::Anybody,
    }
}

// Opening a pipe would take what stands in it, so it is looked at first.
fn lock_file(rt: &HostRuntime, name: &str, beside: Beside) -> Result<File, TryLockError> {
    let file = open_regular(rt, name).map_err(TryLockError::Error)?;
    match beside {
        Beside::Nobody => file.try_lock()?,
        Beside::Readers | Beside::Anybody => file.try_lock_shared()?,
    }
    Ok(file)
}

// It is opened to be written too, where that may be: file systems over a network lock no other file for one alone.
fn open_regular(rt: &HostRuntime, name: &str) -> io::Result<File> {
    if !fs::metadata(rt, name)?.is_file() {
        return Err(io::Error::from(io::ErrorKind::Unsupported));
    }
    match OpenOptions::new().read(true).write(true).open(rt, name) {
        Ok(file) => Ok(file),
        Err(_) => File::open(rt, name),
    }
}

/// Says that another run has the configuration of this name.
pub fn print_refusal<W: Sink>(err: &mut W, conf: &str) {
    let mut lines = Lines::over(err);
    lines.put_all(&[
        Piece::Text("snapraid: configuration or opening failed\n"),
        Piece::Text("snapraid: lock '"),
        Piece::Printed(conf),
        Piece::Text("': another run has locked it\n"),
    ]);
    lines.hand_on();
}
