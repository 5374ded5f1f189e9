// Three disks of one file each, and what stands for them in three levels.
use snap_top_memory::arrays::{Array, Disk, EMPTY};
use snap_top_memory::cases::{Case, SYNCED};
use snap_top_memory::left::Level;

pub const FIX: &[&str] = &["snapraid", "fix", "-c", "FILE"];

pub const FIRST: Disk = &[("a", b"\x01", 1, 5)];

pub const SECOND: Disk = &[("a", b"\x02", 1, 5)];

pub const THIRD: Disk = &[("a", b"\x04", 1, 5)];

pub const DISKS: &[Disk] = &[FIRST, SECOND, THIRD];

pub const WHOLE: Array = Array {
    config: "blocksize 1\nparity p\n2-parity q\n3-parity r\ncontent c\ndata d1 a\ndata d2 b\ndata d3 e\n",
    levels: 3,
    disks: DISKS,
    ..EMPTY
};

pub const TWO_LEVELS: Array = Array {
    config: "blocksize 1\nparity p\n2-parity q\ncontent c\ndata d1 a\ndata d2 b\ndata d3 e\n",
    levels: 2,
    ..WHOLE
};

/// The first two are lost.
pub const LOST: &[Disk] = &[&[], &[], THIRD];

pub const EMPTIED: Array = Array {
    disks: LOST,
    ..WHOLE
};

/// The three levels.
pub const SUMS: &[Level] = &[&[b"\x07"], &[b"\x15"], &[b"\x99"]];

/// The three disks, synced.
pub const BEFORE: Case = Case {
    array: WHOLE,
    levels: SUMS,
    ..SYNCED
};

/// A fix of them that leaves all as it was synced.
pub const FIXED: Case = Case {
    words: FIX,
    out: "fix: 0 blocks and 0 parities fixed, 0 findings left\n",
    keeps: true,
    left: Some(DISKS),
    ..BEFORE
};
