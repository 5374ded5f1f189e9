// What is kept of a call's answer.
use crate::Meta;

/// What a call answered.
#[derive(Clone, Copy, Debug, PartialEq, Eq)]
pub enum Answer {
    /// The device failed.
    Failed,
    /// There was no memory for a listing.
    OutOfMemory,
    /// There is no such file.
    Missing,
    /// It was done, and answers nothing more.
    Done,
    /// The size and the stamp of a file.
    Saw(Meta),
    /// A number of bytes: those that came, or those of a file.
    Bytes(u64),
    /// Whether a stamp was kept.
    Kept(bool),
}
