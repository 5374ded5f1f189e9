// Each call of each object fails in turn: in a sync and a check of four disks.
use snap_top_memory::arrays::{Failing, NONE};
use snap_top_memory::cases::{Case, SYNCED, each_follows, plays};
use snap_top_memory::four::{FOUR, FOUR_PENDING, FOUR_SUMS, FOUR_SYNCED};
use snap_top_memory::next::{TORN, WRITTEN};
use snap_top_memory::turns::{Calls, Ended, Turns, each_call_fails};
use std::test::Fail;

/// A sync of the four disks.
pub const WHOLE: Case = Case {
    array: FOUR,
    contents: &[FOUR_SYNCED, FOUR_SYNCED, FOUR_SYNCED],
    levels: FOUR_SUMS,
    ..SYNCED
};

/// The first call of each object, of a disk by its number.
pub const OPENER: Failing = Failing { opener: 1, ..NONE };

pub const VAULT: Failing = Failing { vault: 1, ..NONE };

pub const OUTPUT: Failing = Failing { out: 1, ..NONE };

pub const ERRORS: Failing = Failing { err: 1, ..NONE };

pub const FIRST_DISK: Failing = Failing { folder: 1, ..NONE };

pub const SECOND_DISK: Failing = Failing {
    disk: 1,
    ..FIRST_DISK
};

pub const THIRD_DISK: Failing = Failing {
    disk: 2,
    ..FIRST_DISK
};

pub const FOURTH_DISK: Failing = Failing {
    disk: 3,
    ..FIRST_DISK
};

pub const UNOPENED: Ended = (3, "", "snapraid: configuration or opening failed\n");

const NO_VAULT: Ended = (3, "", "snapraid: parity or content failed\n");

pub const FIRST_FAILED: &str = "snapraid: disk 'd1' failed\n";

pub const SECOND_FAILED: &str = "snapraid: disk 'd2' failed\n";

pub const NO_FIRST: Ended = (3, "", FIRST_FAILED);

pub const NO_SECOND: Ended = (3, "", SECOND_FAILED);

pub const NO_THIRD: Ended = (3, "", "snapraid: disk 'd3' failed\n");

pub const NO_FOURTH: Ended = (3, "", "snapraid: disk 'd4' failed\n");

const UNTOLD: Ended = (3, "", "snapraid: output failed\n");

// The configuration is read, and all is opened. The last line is written at once. Nothing is written to the other stream.
const TOLD: [Calls; 3] = [
    Calls {
        first: OPENER,
        ends: &[UNOPENED, UNOPENED],
    },
    Calls {
        first: OUTPUT,
        ends: &[UNTOLD],
    },
    Calls {
        first: ERRORS,
        ends: &[],
    },
];

// Three calls look for the content, and each of two saves of three copies takes twelve. Two set the length of each level,
// and one writes it and one hands it to the disk. Of a disk the first call lists its file, the second looks at it, and the
// third reads it.
#[test]
fn each_call_of_a_sync_fails_and_the_next_sync_is_done(rt: HostRuntime) -> Result<(), Fail> {
    static TURNS: Turns = Turns {
        before: None,
        whole: WHOLE,
        next: WHOLE,
    };
    static OBJECTS: [Calls; 5] = [
        Calls {
            first: VAULT,
            ends: &[NO_VAULT; 35],
        },
        Calls {
            first: FIRST_DISK,
            ends: &[
                NO_FIRST,
                (1, "io 0 d1:a 0\nsync: 0 stripes synced, 1 pending\n", ""),
                (1, "io 0 d1:a 0\nsync: 0 stripes synced, 1 pending\n", ""),
            ],
        },
        Calls {
            first: SECOND_DISK,
            ends: &[
                NO_SECOND,
                (1, "io 0 d2:a 0\nsync: 0 stripes synced, 1 pending\n", ""),
                (1, "io 0 d2:a 0\nsync: 0 stripes synced, 1 pending\n", ""),
            ],
        },
        Calls {
            first: THIRD_DISK,
            ends: &[
                NO_THIRD,
                (1, "io 0 d3:a 0\nsync: 0 stripes synced, 1 pending\n", ""),
                (1, "io 0 d3:a 0\nsync: 0 stripes synced, 1 pending\n", ""),
            ],
        },
        Calls {
            first: FOURTH_DISK,
            ends: &[
                NO_FOURTH,
                (1, "io 0 d4:a 0\nsync: 0 stripes synced, 1 pending\n", ""),
                (1, "io 0 d4:a 0\nsync: 0 stripes synced, 1 pending\n", ""),
            ],
        },
    ];
    let alloc = rt.alloc();
    each_call_fails(&rt, alloc, &TURNS, &OBJECTS, TORN)?;
    each_call_fails(&rt, alloc, &TURNS, &TOLD, WRITTEN)
}

// Where the second disk is not listed, nothing is written. The calls of the vault up to the 21st look for the content, save the
// pending table, set the lengths and write both levels; the 22nd hands the first level to the disk, and the 23rd the other.
#[test]
fn a_sync_that_fails_has_written_nothing_or_the_pending_table(rt: HostRuntime) -> Result<(), Fail> {
    static CASES: [Case; 4] = [
        Case {
            failing: SECOND_DISK,
            status: 3,
            out: "",
            err: SECOND_FAILED,
            contents: &[b"", b"", b""],
            levels: &[&[], &[]],
            ..WHOLE
        },
        Case {
            failing: Failing { vault: 21, ..NONE },
            levels: &[],
            ..UNSAVED
        },
        Case {
            failing: Failing { vault: 22, ..NONE },
            ..UNSAVED
        },
        Case {
            failing: Failing { vault: 23, ..NONE },
            ..UNSAVED
        },
    ];
    plays(&rt, rt.alloc(), &CASES)
}

// The rows are in parity, and every copy has the table from before them.
const UNSAVED: Case = Case {
    status: 3,
    out: "",
    err: "snapraid: parity or content failed\n",
    contents: &[FOUR_PENDING, FOUR_PENDING, FOUR_PENDING],
    ..WHOLE
};

// A check of the four disks, which were synced.
const CHECKED: Case = Case {
    words: &["snapraid", "check", "-c", "FILE"],
    out: "check: 0 findings\n",
    keeps: true,
    stays: Some(0),
    ..WHOLE
};

const NO_FINDING: Ended = (0, "check: 0 findings\n", "");

// The first copy is asked for its size and read, or else the second is; then each level is read.
#[test]
fn each_call_of_a_check_fails_and_the_next_one_finds_nothing(rt: HostRuntime) -> Result<(), Fail> {
    static TURNS: Turns = Turns {
        before: Some(WHOLE),
        whole: CHECKED,
        next: CHECKED,
    };
    static OBJECTS: [Calls; 5] = [
        Calls {
            first: VAULT,
            ends: &[
                NO_FINDING,
                NO_FINDING,
                (1, "io-parity 0 parity\ncheck: 1 findings\n", ""),
                (1, "io-parity 0 2-parity\ncheck: 1 findings\n", ""),
            ],
        },
        Calls {
            first: FIRST_DISK,
            ends: &[
                NO_FIRST,
                (1, "io 0 d1:a 0\ncheck: 1 findings\n", ""),
                (1, "io 0 d1:a 0\ncheck: 1 findings\n", ""),
            ],
        },
        Calls {
            first: SECOND_DISK,
            ends: &[
                NO_SECOND,
                (1, "io 0 d2:a 0\ncheck: 1 findings\n", ""),
                (1, "io 0 d2:a 0\ncheck: 1 findings\n", ""),
            ],
        },
        Calls {
            first: THIRD_DISK,
            ends: &[
                NO_THIRD,
                (1, "io 0 d3:a 0\ncheck: 1 findings\n", ""),
                (1, "io 0 d3:a 0\ncheck: 1 findings\n", ""),
            ],
        },
        Calls {
            first: FOURTH_DISK,
            ends: &[
                NO_FOURTH,
                (1, "io 0 d4:a 0\ncheck: 1 findings\n", ""),
                (1, "io 0 d4:a 0\ncheck: 1 findings\n", ""),
            ],
        },
    ];
    let alloc = rt.alloc();
    each_call_fails(&rt, alloc, &TURNS, &OBJECTS, WRITTEN)?;
    each_call_fails(&rt, alloc, &TURNS, &TOLD, WRITTEN)
}

// A check of the four disks, where the first copy is of the table from before the stripe was synced.
const OLDER: Case = Case {
    put: &[Some(FOUR_PENDING)],
    status: 1,
    out: "unsynced 0\ncheck: 1 findings\n",
    keeps: false,
    contents: &[FOUR_PENDING, FOUR_SYNCED, FOUR_SYNCED],
    ..CHECKED
};

// The first copy is taken; where it can't be asked for its size, or is no content, the second one is, and else the third one.
#[test]
fn a_check_takes_the_first_copy_that_it_can_read(rt: HostRuntime) -> Result<(), Fail> {
    static CASES: [Case; 4] = [
        OLDER,
        Case {
            failing: VAULT,
            status: 0,
            out: "check: 0 findings\n",
            ..OLDER
        },
        Case {
            put: &[Some(b""), Some(FOUR_PENDING)],
            contents: &[b"", FOUR_PENDING, FOUR_SYNCED],
            ..OLDER
        },
        Case {
            put: &[Some(FOUR_PENDING), Some(b"")],
            failing: VAULT,
            status: 0,
            out: "check: 0 findings\n",
            contents: &[FOUR_PENDING, b"", FOUR_SYNCED],
            ..OLDER
        },
    ];
    each_follows(&rt, rt.alloc(), &WHOLE, &CASES)
}
