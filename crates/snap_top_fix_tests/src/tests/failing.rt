// Each call of a fix of two lost disks that fails, and the next fix.
use crate::tests::arrays::{BEFORE, EMPTIED, FIXED};
use snap_top_memory::arrays::{Failing, NONE};
use snap_top_memory::cases::{Case, each_follows};
use snap_top_memory::damage::Damage;
use snap_top_memory::next::{TORN, WRITTEN, each_is_followed};
use std::test::Fail;

/// The first two disks are lost, and the first level has a 0 in the place of its first byte.
pub const LOST: Case = Case {
    array: EMPTIED,
    damage: Damage::Byte(0, 0, 7),
    out: "changed d1:a recorded 1 1.000000005 found nothing\n\
          changed d2:a recorded 1 1.000000005 found nothing\n\
          wrong-parity 0 parity\n\
          fixed 0 d1:a 0\n\
          fixed 0 d2:a 0\n\
          fixed-parity 0 parity\n\
          restored d1:a\n\
          restored d2:a\n\
          fix: 2 blocks and 1 parities fixed, 0 findings left\n",
    keeps: false,
    levels: &[],
    left: None,
    ..FIXED
};

const UNREAD_PARITY: Case = Case {
    out: "changed d1:a recorded 1 1.000000005 found nothing\n\
          changed d2:a recorded 1 1.000000005 found nothing\n\
          io-parity 0 parity\n\
          fixed 0 d1:a 0\n\
          fixed 0 d2:a 0\n\
          restored d1:a\n\
          restored d2:a\n\
          fix: 2 blocks and 0 parities fixed, 0 findings left\n",
    keeps: true,
    ..LOST
};

const UNREAD_SECOND: Case = Case {
    status: 1,
    out: "changed d1:a recorded 1 1.000000005 found nothing\n\
          changed d2:a recorded 1 1.000000005 found nothing\n\
          io-parity 0 2-parity\n\
          unrecoverable 0 d1:a 0\n\
          unrecoverable 0 d2:a 0\n\
          fix: 0 blocks and 0 parities fixed, 2 findings left\n",
    ..UNREAD_PARITY
};

const UNREAD_THIRD: Case = Case {
    out: "changed d1:a recorded 1 1.000000005 found nothing\n\
          changed d2:a recorded 1 1.000000005 found nothing\n\
          io-parity 0 3-parity\n\
          unrecoverable 0 d1:a 0\n\
          unrecoverable 0 d2:a 0\n\
          fix: 0 blocks and 0 parities fixed, 2 findings left\n",
    ..UNREAD_SECOND
};

const UNREAD_FILE: Case = Case {
    out: "changed d1:a recorded 1 1.000000005 found nothing\n\
          changed d2:a recorded 1 1.000000005 found nothing\n\
          io 0 d3:a 0\n\
          unrecoverable 0 d1:a 0\n\
          unrecoverable 0 d2:a 0\n\
          unrecoverable 0 d3:a 0\n\
          renamed d3:a\n\
          fix: 0 blocks and 0 parities fixed, 3 findings left\n",
    ..UNREAD_SECOND
};

const NO_VAULT: Case = Case {
    status: 3,
    out: "",
    err: "snapraid: parity or content failed\n",
    ..UNREAD_PARITY
};

const NO_FIRST: Case = Case {
    err: "snapraid: disk 'd1' failed\n",
    ..NO_VAULT
};

const NO_SECOND: Case = Case {
    err: "snapraid: disk 'd2' failed\n",
    ..NO_VAULT
};

const NO_THIRD: Case = Case {
    err: "snapraid: disk 'd3' failed\n",
    ..NO_VAULT
};

// What was found before the first block is written.
const FOUND: &str = "changed d1:a recorded 1 1.000000005 found nothing\n\
                     changed d2:a recorded 1 1.000000005 found nothing\n\
                     wrong-parity 0 parity\n";

// The same, and that the first block is written, or both, or the level too.
const FIRST_WRITTEN: &str = "changed d1:a recorded 1 1.000000005 found nothing\n\
                             changed d2:a recorded 1 1.000000005 found nothing\n\
                             wrong-parity 0 parity\n\
                             fixed 0 d1:a 0\n";

const BLOCKS_WRITTEN: &str = "changed d1:a recorded 1 1.000000005 found nothing\n\
                              changed d2:a recorded 1 1.000000005 found nothing\n\
                              wrong-parity 0 parity\n\
                              fixed 0 d1:a 0\n\
                              fixed 0 d2:a 0\n";

const ALL_WRITTEN: &str = "changed d1:a recorded 1 1.000000005 found nothing\n\
                           changed d2:a recorded 1 1.000000005 found nothing\n\
                           wrong-parity 0 parity\n\
                           fixed 0 d1:a 0\n\
                           fixed 0 d2:a 0\n\
                           fixed-parity 0 parity\n";

// All was written, and the first file is done.
const FIRST_RESTORED: &str = "changed d1:a recorded 1 1.000000005 found nothing\n\
                              changed d2:a recorded 1 1.000000005 found nothing\n\
                              wrong-parity 0 parity\n\
                              fixed 0 d1:a 0\n\
                              fixed 0 d2:a 0\n\
                              fixed-parity 0 parity\n\
                              restored d1:a\n";

// What the next fix leaves: all as it was synced.
static NEXT: Case = FIXED;

static SYNCED: Case = BEFORE;

// The vault is asked for the content's size, content is read, each level is read, and one is written and handed to
// the disk. A lost disk is listed, and a file made, written and given its stamp. The disk that is there is listed,
// and its file looked at and read.
static BROKEN: [Case; 18] = [
    Case {
        failing: Failing { vault: 1, ..NONE },
        ..NO_VAULT
    },
    Case {
        failing: Failing { vault: 2, ..NONE },
        ..NO_VAULT
    },
    Case {
        failing: Failing { vault: 3, ..NONE },
        ..UNREAD_PARITY
    },
    Case {
        failing: Failing { vault: 4, ..NONE },
        ..UNREAD_SECOND
    },
    Case {
        failing: Failing { vault: 5, ..NONE },
        ..UNREAD_THIRD
    },
    Case {
        failing: Failing { vault: 6, ..NONE },
        out: BLOCKS_WRITTEN,
        ..NO_VAULT
    },
    Case {
        failing: Failing { vault: 7, ..NONE },
        out: ALL_WRITTEN,
        ..NO_VAULT
    },
    Case {
        failing: Failing { folder: 1, ..NONE },
        ..NO_FIRST
    },
    Case {
        failing: Failing { folder: 2, ..NONE },
        out: FOUND,
        ..NO_FIRST
    },
    Case {
        failing: Failing { folder: 3, ..NONE },
        out: FOUND,
        ..NO_FIRST
    },
    Case {
        failing: Failing { folder: 4, ..NONE },
        out: ALL_WRITTEN,
        ..NO_FIRST
    },
    Case {
        failing: Failing {
            disk: 1,
            folder: 1,
            ..NONE
        },
        ..NO_SECOND
    },
    Case {
        failing: Failing {
            disk: 1,
            folder: 2,
            ..NONE
        },
        out: FIRST_WRITTEN,
        ..NO_SECOND
    },
    Case {
        failing: Failing {
            disk: 1,
            folder: 3,
            ..NONE
        },
        out: FIRST_WRITTEN,
        ..NO_SECOND
    },
    Case {
        failing: Failing {
            disk: 1,
            folder: 4,
            ..NONE
        },
        out: FIRST_RESTORED,
        ..NO_SECOND
    },
    Case {
        failing: Failing {
            disk: 2,
            folder: 1,
            ..NONE
        },
        ..NO_THIRD
    },
    Case {
        failing: Failing {
            disk: 2,
            folder: 2,
            ..NONE
        },
        ..UNREAD_FILE
    },
    Case {
        failing: Failing {
            disk: 2,
            folder: 3,
            ..NONE
        },
        ..UNREAD_FILE
    },
];

// There are no more calls of an object.
static UNDISTURBED: [Case; 4] = [
    Case {
        failing: Failing { vault: 8, ..NONE },
        ..LOST
    },
    Case {
        failing: Failing { folder: 5, ..NONE },
        ..LOST
    },
    Case {
        failing: Failing {
            disk: 1,
            folder: 5,
            ..NONE
        },
        ..LOST
    },
    Case {
        failing: Failing {
            disk: 2,
            folder: 4,
            ..NONE
        },
        ..LOST
    },
];

#[test]
fn each_call_of_a_fix_fails_once_and_the_next_fix_restores_all(
    rt: HostRuntime,
) -> Result<(), Fail> {
    let alloc = rt.alloc();
    each_is_followed(&rt, alloc, &SYNCED, &BROKEN, &NEXT, WRITTEN)?;
    each_is_followed(&rt, alloc, &SYNCED, &BROKEN, &NEXT, TORN)?;
    each_follows(&rt, alloc, &SYNCED, &UNDISTURBED)
}

#[test]
fn a_file_that_was_not_read_is_renamed_and_renamed_back(rt: HostRuntime) -> Result<(), Fail> {
    static CASES: [Case; 1] = [Case {
        failing: Failing {
            disk: 2,
            folder: 3,
            ..NONE
        },
        stays: Some(0),
        left: Some(&[&[], &[], &[("a.unrecoverable", b"\x04", 1, 5)]]),
        ..UNREAD_FILE
    }];
    each_is_followed(&rt, rt.alloc(), &SYNCED, &CASES, &NEXT, WRITTEN)
}
