// Steps of an opener, and of what text goes to: a configuration that is read, lines that are written.
use crate::answer::{Answer, done};
use crate::system::Host;
use crate::words::first_of;
use disk_host::{DiskFolder, DiskOpener, LogSink, StreamSink};
use disk_model::{OpenFault, Opener, Sink, Text};
use std::alloc::Global;
use std::fs;

/// How many bytes of a configuration come, or why none do.
pub fn config_step(alloc: Global, opener: &mut DiskOpener<Host>, name: &str) -> Answer {
    match opener.config(alloc, name) {
        Ok(bytes) => Answer::Number(bytes.len() as u64),
        Err(OpenFault::Memory) => Answer::OutOfMemory,
        Err(OpenFault::Failed) => Answer::Failed,
    }
}

/// A folder that is only to be read is the last one from then on.
pub fn import_step(
    opener: &mut DiskOpener<Host>,
    folders: &mut Vec<DiskFolder<Host>>,
    dir: &str,
) -> Answer {
    match opener.import(dir) {
        Ok(folder) => done(folders.push(folder)),
        Err(OpenFault::Memory) => Answer::OutOfMemory,
        Err(OpenFault::Failed) => Answer::Failed,
    }
}

/// The count of faults of the opener.
pub fn opener_faults(opener: &DiskOpener<Host>) -> Answer {
    Answer::Number(opener.faults())
}

/// How many faults there are where two lines are written to a file: to a new one by a stream, to one that was opened
/// to be read, or to a log.
pub fn sink_step(rt: HostRuntime, step: &str) -> Option<Answer> {
    let (kind, name) = first_of(step);
    match kind {
        "stream" => Some(faults_of(&mut StreamSink::new(fs::create(&rt, name).ok()?))),
        "closed" => Some(faults_of(&mut StreamSink::new(fs::open(&rt, name).ok()?))),
        "log" => {
            let name = Text::new(rt.alloc(), name).ok()?;
            Some(faults_of(&mut LogSink::new(rt, name)))
        }
        _ => None,
    }
}

fn faults_of<S: Sink>(sink: &mut S) -> Answer {
    let _ = sink.write(b"one\n");
    let _ = sink.write(b"");
    let _ = sink.write(b"two\n");
    Answer::Number(sink.faults())
}
