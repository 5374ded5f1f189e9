// Which stripes a scrub checks.
use crate::tests::arrays::{BAD, FULL, STATUS};
use crate::tests::contents::{ONE_BAD, ONE_SCRUBBED, THIRD_BAD, THREE_SCRUBBED, TWO_SCRUBBED};
use snap_top_memory::arrays::{Array, FIVE, Failing, NONE};
use snap_top_memory::cases::{Case, SYNCED, each_follows, follows};
use snap_top_memory::contents::{FIVE_SYNCED, ONE_FILE};
use std::test::Fail;

// It asks for the size of the content and reads it. No other call is made of the vault, and none of the disk.
const NOTHING: Case = Case {
    words: BAD,
    now: 200,
    out: "scrub: 0 stripes checked, 0 findings\n",
    failing: Failing {
        vault: 3,
        folder: 1,
        stops: true,
        ..NONE
    },
    keeps: true,
    stays: Some(0),
    ..SYNCED
};

// One stripe is synced at 100.
static ONE_SYNCED: Case = Case {
    contents: &[ONE_FILE],
    ..SYNCED
};

// It is checked at 200.
const CHECKED: Case = Case {
    out: "scrub: 1 stripes checked, 0 findings\n",
    failing: NONE,
    keeps: false,
    contents: &[ONE_SCRUBBED],
    ..NOTHING
};

// It is checked at another time.
const LATER: Case = Case {
    contents: &[],
    ..CHECKED
};

const DEFAULT: &[&str] = &["snapraid", "scrub", "-c", "FILE"];

const DAY_OLD: &[&str] = &["snapraid", "scrub", "-c", "FILE", "-p", "100", "-o", "1"];

const CENTURY_OLD: &[&str] = &["snapraid", "scrub", "-c", "FILE", "-p", "1", "-o", "36500"];

// A day has 86,400 seconds. Ten days are asked for where no number is given.
#[test]
fn a_stripe_is_checked_when_it_is_old_enough(rt: HostRuntime) -> Result<(), Fail> {
    static CASES: [Case; 12] = [
        Case {
            words: DEFAULT,
            now: 864_099,
            ..NOTHING
        },
        Case {
            words: DEFAULT,
            now: 864_100,
            ..LATER
        },
        Case {
            words: DAY_OLD,
            now: 86_499,
            ..NOTHING
        },
        Case {
            words: DAY_OLD,
            now: 86_500,
            ..LATER
        },
        Case {
            words: CENTURY_OLD,
            now: 3_153_600_099,
            ..NOTHING
        },
        Case {
            words: CENTURY_OLD,
            now: 3_153_600_100,
            ..LATER
        },
        NOTHING,
        Case {
            words: &["snapraid", "scrub", "-c", "FILE", "-p", "0", "-o", "0"],
            ..NOTHING
        },
        // the age counts for percentages alone
        Case {
            words: &[
                "snapraid", "scrub", "-c", "FILE", "-p", "full", "-o", "36500",
            ],
            ..CHECKED
        },
        Case {
            words: &["snapraid", "scrub", "-c", "FILE", "-p", "new"],
            ..CHECKED
        },
        // a bad one is checked besides
        Case {
            put: &[Some(ONE_BAD)],
            words: &["snapraid", "scrub", "-c", "FILE", "-p", "0"],
            ..CHECKED
        },
        Case {
            put: &[Some(ONE_BAD)],
            ..CHECKED
        },
    ];
    each_follows(&rt, rt.alloc(), &ONE_SYNCED, &CASES)
}

// Five stripes are synced at 100.
const FIVE_BEFORE: Case = Case {
    array: FIVE,
    out: "sync: 5 stripes synced, 0 pending\n",
    contents: &[FIVE_SYNCED],
    ..SYNCED
};

// Two of them are checked at 200.
const TWO_CHECKED: Case = Case {
    words: &["snapraid", "scrub", "-c", "FILE", "-p", "40", "-o", "0"],
    array: FIVE,
    out: "scrub: 2 stripes checked, 0 findings\n",
    contents: &[TWO_SCRUBBED],
    ..CHECKED
};

const NEW: &[&str] = &["snapraid", "scrub", "-c", "FILE", "-p", "new"];

#[test]
fn those_checked_longest_ago_come_first(rt: HostRuntime) -> Result<(), Fail> {
    static CASES: [Case; 6] = [
        FIVE_BEFORE,
        TWO_CHECKED,
        // a part of a stripe is a whole one, and the oldest come first
        Case {
            words: &["snapraid", "scrub", "-c", "FILE", "-p", "1", "-o", "0"],
            out: "scrub: 1 stripes checked, 0 findings\n",
            contents: &[THREE_SCRUBBED],
            ..TWO_CHECKED
        },
        Case {
            words: &["snapraid", "scrub", "-c", "FILE", "-p", "21", "-o", "0"],
            contents: &[],
            ..TWO_CHECKED
        },
        Case {
            words: NEW,
            array: FIVE,
            ..NOTHING
        },
        Case {
            words: STATUS,
            array: FIVE,
            out: "files 5\nbytes 5\nstripes 5\nsynced 5\npending 0\nfresh 0\nbad 0\noldest 200\n\
                  disk d1 files 5 blocks 5 free 0\n",
            ..NOTHING
        },
    ];
    follows(&rt, rt.alloc(), &CASES)
}

// The third of the five files is rotten.
const THIRD_ROTTEN: Array = Array {
    disks: &[&[
        ("a", b"a", 1, 5),
        ("b", b"b", 1, 5),
        ("c", b"C", 1, 5),
        ("d", b"d", 1, 5),
        ("e", b"e", 1, 5),
    ]],
    ..FIVE
};

// That is found at 200.
const ROTTEN: Case = Case {
    words: NEW,
    array: THIRD_ROTTEN,
    status: 1,
    out: "silent 2 d1:c 0 recorded e3500687d2c267af055d4acd75d79631 \
          found 79122a5d00206d0349fa62441b34a43b\n\
          scrub: 3 stripes checked, 1 findings\n",
    contents: &[THIRD_BAD],
    ..CHECKED
};

#[test]
fn just_the_new_and_just_the_bad_are_checked(rt: HostRuntime) -> Result<(), Fail> {
    static CASES: [Case; 6] = [
        FIVE_BEFORE,
        TWO_CHECKED,
        ROTTEN,
        Case {
            words: BAD,
            out: "silent 2 d1:c 0 recorded e3500687d2c267af055d4acd75d79631 \
                  found 79122a5d00206d0349fa62441b34a43b\n\
                  scrub: 1 stripes checked, 1 findings\n",
            ..ROTTEN
        },
        // a stripe that was found bad stays a new one
        Case {
            words: NEW,
            array: FIVE,
            ..LATER
        },
        Case {
            array: FIVE,
            ..NOTHING
        },
    ];
    follows(&rt, rt.alloc(), &CASES)
}

const FOUR_LEFT: Array = Array {
    disks: &[&[
        ("a", b"a", 1, 5),
        ("b", b"b", 1, 5),
        ("d", b"d", 1, 5),
        ("e", b"e", 1, 5),
    ]],
    ..FIVE
};

// The third file is gone, and its stripe holds no block. It stays new.
#[test]
fn a_stripe_without_a_block_is_never_checked(rt: HostRuntime) -> Result<(), Fail> {
    static CASES: [Case; 5] = [
        FIVE_BEFORE,
        Case {
            array: FOUR_LEFT,
            ..SYNCED
        },
        Case {
            words: FULL,
            array: FOUR_LEFT,
            out: "scrub: 4 stripes checked, 0 findings\n",
            ..LATER
        },
        Case {
            words: NEW,
            array: FOUR_LEFT,
            ..NOTHING
        },
        Case {
            words: STATUS,
            array: FOUR_LEFT,
            out: "files 4\nbytes 4\nstripes 5\nsynced 5\npending 0\nfresh 1\nbad 0\noldest 200\n\
                  disk d1 files 4 blocks 4 free 1\n",
            ..NOTHING
        },
    ];
    follows(&rt, rt.alloc(), &CASES)
}
