// What a test does, step by step, and what a step answers. Bytes that are wanted are part of the step.
use disk_model::{Meta, Stamp};

/// A buffer after a read, with nines where nothing was read.
pub(super) type Buffer = [u8; 6];

pub(super) const STAMP: Stamp = Stamp {
    seconds: 7,
    nanos: 5,
};

/// A file of a listing with its size. Its stamp is `STAMP`.
pub(super) type Listed = (&'static str, u64);

/// Of the one parity file, or the one content copy, of a vault.
#[derive(Clone, Copy)]
pub(super) enum VaultStep {
    ParityLen,
    /// From this place on so many bytes, which leaves this buffer.
    ParityReads(u32, usize, &'static Buffer),
    Write(u32, &'static str),
    SetLen(u64),
    Sync,
    Size,
    Reads(u32, usize, &'static Buffer),
    /// A draft is begun, appended to by these two pieces and sealed.
    Seal(&'static str, &'static str),
    /// The same, and it is published.
    Save(&'static str, &'static str),
}

/// Of one file of a folder; what is `true` names PATH`.unrecoverable`.
#[derive(Clone, Copy)]
pub(super) enum FileStep {
    /// The folder has these files in this order.
    Lists(&'static [Listed]),
    Look(bool),
    /// From this place on so many bytes, which leaves this buffer.
    Reads(bool, u32, usize, &'static Buffer),
    Make,
    Write(u32, &'static str),
    SetSize(u64),
    SetStamp(Stamp),
    Rename(bool),
}

/// What a step answers.
#[derive(Clone, Copy, Debug, PartialEq, Eq)]
pub(super) enum Answer {
    Done,
    /// Not what the step wanted.
    Differs,
    Failed,
    Missing,
    /// The folder keeps no stamps.
    NotKept,
    Size(u64),
    Meta(Meta),
}

/// The numbers, from 1, of the steps that are to fail.
#[derive(Clone, Copy)]
pub(super) struct Failing {
    pub(super) first: u64,
    pub(super) last: u64,
}

pub(super) const NONE: Failing = Failing { first: 1, last: 0 };

/// What the step of this number is to answer.
pub(super) fn wanted(failing: Failing, number: u64, usual: Answer) -> Answer {
    if failing.first <= number && number <= failing.last {
        Answer::Failed
    } else {
        usual
    }
}
