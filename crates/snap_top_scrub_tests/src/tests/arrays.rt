// Words, and four disks of one file each with what stands for them in two levels.
use crate::tests::contents::{FOUR_BAD, FOUR_SCRUBBED, FOUR_SYNCED};
use snap_top_memory::cases::{Case, SYNCED};
pub use snap_top_memory::four::{FIRST, FOUR, FOURTH, SECOND, THIRD};

/// All stripes are checked.
pub const FULL: &[&str] = &["snapraid", "scrub", "-c", "FILE", "-p", "full"];

/// Just the bad ones are.
pub const BAD: &[&str] = &["snapraid", "scrub", "-c", "FILE", "-p", "bad"];

pub const STATUS: &[&str] = &["snapraid", "status", "-c", "FILE"];

/// The four disks, synced.
pub const BEFORE: Case = Case {
    array: FOUR,
    contents: &[FOUR_SYNCED],
    levels: &[&[b"\x0f"], &[b"\x55"]],
    ..SYNCED
};

/// A scrub of them that finds nothing.
pub const SCRUBBED: Case = Case {
    words: FULL,
    array: FOUR,
    now: 200,
    out: "scrub: 1 stripes checked, 0 findings\n",
    stays: Some(0),
    contents: &[FOUR_SCRUBBED],
    ..SYNCED
};

/// One that finds something that makes the stripe bad.
pub const FOUND: Case = Case {
    status: 1,
    contents: &[FOUR_BAD],
    ..SCRUBBED
};

/// One that finds something that marks nothing.
pub const UNMARKED: Case = Case {
    contents: &[FOUR_SYNCED],
    ..FOUND
};
