// The log file of a run.
ghost use Rattle.std.specs.Prelude.{◌≡◌};
ghost use Rattle.disk_model.specs.Sink.{quiet_sink};

use crate::failures::{Failures, Request};
use crate::faults::counted;
use crate::files::PRIVATE;
use disk_model::{Failed, Sink, Text};
use std::fs::OpenOptions;
use std::io::{ErrorKind, Write};
use std::os::unix::fs::OpenOptionsExt;
use std::rt::Files;
use std::{fs, io};

// How far a log has come.
#[derive(Drop)]
enum Stage<F> {
    Closed,
    Open(F),
    Failed,
}

/// A log file, which is emptied at the first write, and made where there is none. One that could not be opened then fails
/// at each write.
#[derive(Drop)]
pub struct LogSink<R: Files> {
    rt: R,
    name: Text,
    stage: Stage<R::File>,
    faults: u64,
}

impl<R: Files> LogSink<R> {
    /// Touches no file.
    pub fn new(rt: R, name: Text) -> LogSink<R>
        ensures { result.faults ≡ 0 }
    {
        LogSink {
            rt,
            name,
            stage: Stage::Closed,
            faults: 0,
        }
    }

    fn write_whole(&mut self, bytes: &[u8]) -> io::Result<()>
        ensures { self.new.faults ≡ self.old.faults }
    {
        if let Stage::Closed = &self.stage {
            self.stage = Stage::Failed;
            self.stage = Stage::Open(empty_file(&self.rt, self.name.as_str())?);
        }
        match &mut self.stage {
            Stage::Open(file) => file.write_all(bytes),
            _ => Err(io::Error::from(ErrorKind::NotFound)),
        }
    }
}

impl<R: Files> Sink for LogSink<R> {
    ghost view = { λ s. quiet_sink s.faults };

    fn faults(&self) -> u64 {
        self.faults
    }

    fn write(&mut self, bytes: &[u8]) -> Result<(), Failed> {
        let answer = self.write_whole(bytes);
        counted(&mut self.faults, answer)
    }
}

// Empties a file, or makes it. One is never made at the end of a link, since nobody knows then whether it is another
// file of the run.
fn empty_file<R: Files>(rt: &R, name: &str) -> io::Result<R::File> {
    let is_there = is_something(rt, name)?;
    OpenOptions::new()
        .write(true)
        .truncate(is_there)
        .create_new(!is_there)
        .mode(PRIVATE)
        .open(rt, name)
}

fn is_something<R: Files>(rt: &R, name: &str) -> io::Result<bool> {
    match fs::metadata(rt, name) {
        Ok(_) => Ok(true),
        Err(error) if error.kind() == ErrorKind::NotFound => Ok(false),
        Err(error) => Err(error),
    }
}

// Empties the log before the run has a line for it. A pipe or a device is left until then: it has nothing to be emptied
// of, and its other end would see it end. A folder is no log.
pub(crate) fn empty_log<R: Files>(rt: &R, name: &str, failures: &mut Failures) {
    let emptied = match fs::metadata(rt, name) {
        Ok(seen) if seen.is_dir() => Err(io::Error::from(ErrorKind::IsADirectory)),
        Ok(seen) if !seen.is_file() => Ok(()),
        _ => empty_file(rt, name).map(|_file| ()),
    };
    failures.note(Request::Open, name, &emptied);
}
