// What a step answers.
use disk_model::{FileFault, Meta, Stamp};
use std::fmt;

/// What a step answers.
#[derive(Clone, Copy)]
pub enum Answer {
    Done,
    /// Not what the step wanted.
    Differs,
    Failed,
    Missing,
    OutOfMemory,
    Number(u64),
    Seen(Meta),
}

impl fmt::Display for Answer {
    fn fmt<W: fmt::Write>(&self, f: &mut fmt::Formatter<W>) -> fmt::Result {
        match self {
            Answer::Done => write!(f, "done"),
            Answer::Differs => write!(f, "differs"),
            Answer::Failed => write!(f, "failed"),
            Answer::Missing => write!(f, "missing"),
            Answer::OutOfMemory => write!(f, "out of memory"),
            Answer::Number(number) => write!(f, "{number}"),
            Answer::Seen(meta) => write_meta(*meta, f),
        }
    }
}

// A size, and a stamp in seconds and nanoseconds.
fn write_meta<W: fmt::Write>(meta: Meta, f: &mut fmt::Formatter<W>) -> fmt::Result {
    let Stamp { seconds, nanos } = meta.stamp;
    write!(f, "{} {seconds} {nanos}", meta.size)
}

/// Done, or not what was wanted.
pub fn is_done(is: bool) -> Answer {
    if is { Answer::Done } else { Answer::Differs }
}

/// Done, or failed.
pub fn done<E: Drop>(answer: Result<(), E>) -> Answer {
    match answer {
        Ok(()) => Answer::Done,
        Err(_) => Answer::Failed,
    }
}

/// Done, or why not.
pub fn file_done(answer: Result<(), FileFault>) -> Answer {
    match answer {
        Ok(()) => Answer::Done,
        Err(fault) => file_fault(fault),
    }
}

pub fn file_fault(fault: FileFault) -> Answer {
    match fault {
        FileFault::Missing => Answer::Missing,
        FileFault::Failed => Answer::Failed,
    }
}
