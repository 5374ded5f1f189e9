// What the cases of this crate have in common.
use snap_top_memory::cases::{Case, LISTED};
use snap_top_memory::contents::ONE_FILE;

pub const STATUS: &[&str] = &["snapraid", "status", "-c", "FILE"];

pub const DUP: &[&str] = &["snapraid", "dup", "-c", "FILE"];

/// A list over the content of one file that was synced, which prints nothing.
pub const KEPT: Case = Case {
    put: &[Some(ONE_FILE)],
    ..LISTED
};

/// A run that is refused before anything is opened.
pub const REFUSED: Case = Case {
    status: 2,
    is_opened: false,
    ..KEPT
};
