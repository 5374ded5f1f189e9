// Words of a scrub that are refused, and content that it does not take.
use crate::tests::arrays::{FOUR, FULL};
use snap_top_memory::arrays::{Array, EMPTY, Failing, NONE};
use snap_top_memory::cases::{Case, SYNCED, plays};
use snap_top_memory::contents::{ONE_FILE, ONE_PENDING, ONE_SHORT};
use std::test::Fail;

// Nothing is opened.
const REFUSED: Case = Case {
    status: 2,
    out: "",
    is_opened: false,
    ..SYNCED
};

const BAD_PLAN: Case = Case {
    err: "snapraid: bad value for '--plan'\n",
    ..REFUSED
};

const BAD_AGE: Case = Case {
    err: "snapraid: bad value for '--older-than'\n",
    ..REFUSED
};

#[test]
fn words_that_are_no_scrub(rt: HostRuntime) -> Result<(), Fail> {
    static CASES: [Case; 10] = [
        Case {
            words: &["snapraid", "sync", "-c", "FILE", "-p", "5"],
            err: "snapraid: option '--plan' does not go with 'sync'\n",
            ..REFUSED
        },
        Case {
            words: &["snapraid", "frob", "-p", "101"],
            err: "snapraid: unknown command 'frob'\n",
            ..REFUSED
        },
        Case {
            words: &["snapraid", "scrub", "-p", "101"],
            ..BAD_PLAN
        },
        Case {
            words: &["snapraid", "scrub", "-p", "x", "-o", "x"],
            ..BAD_PLAN
        },
        Case {
            words: &["snapraid", "scrub", "-p", ""],
            ..BAD_PLAN
        },
        Case {
            words: &["snapraid", "scrub", "-o", "x"],
            ..BAD_AGE
        },
        Case {
            words: &["snapraid", "scrub", "-p", "full", "-o", "36501"],
            ..BAD_AGE
        },
        Case {
            words: &["snapraid", "scrub", "-p", "101", "-e"],
            err: "snapraid: option '--filter-error' does not go with 'scrub'\n",
            ..REFUSED
        },
        Case {
            words: &["snapraid", "scrub", "--readers", "17"],
            err: "snapraid: bad value for '--readers'\n",
            ..REFUSED
        },
        // the standard error fails
        Case {
            failing: Failing { err: 1, ..NONE },
            words: &["snapraid", "scrub", "-p", "101"],
            ..REFUSED
        },
    ];
    plays(&rt, rt.alloc(), &CASES)
}

// The copies stay as they were, and no level is made.
const SCRUB: Case = Case {
    words: FULL,
    now: 200,
    out: "scrub: 0 stripes checked, 0 findings\n",
    levels: &[&[]],
    ..SYNCED
};

#[test]
fn content_that_has_nothing_to_scrub(rt: HostRuntime) -> Result<(), Fail> {
    static CASES: [Case; 5] = [
        // there is none
        Case {
            contents: &[b""],
            ..SCRUB
        },
        // no stripe is synced
        Case {
            put: &[Some(ONE_PENDING)],
            contents: &[ONE_PENDING],
            ..SCRUB
        },
        Case {
            put: &[Some(ONE_SHORT)],
            status: 5,
            out: "",
            err: "snapraid: content 1 is damaged at byte 95: too short\n",
            contents: &[ONE_SHORT],
            ..SCRUB
        },
        Case {
            array: Array {
                config: "blocksize 2\nparity p\ncontent content\ndata d1 d\n",
                ..EMPTY
            },
            put: &[Some(ONE_FILE)],
            status: 2,
            out: "",
            err: "snapraid: content has block size 1024, the configuration 2048\n",
            contents: &[ONE_FILE],
            ..SCRUB
        },
        Case {
            array: FOUR,
            put: &[Some(ONE_FILE)],
            status: 2,
            out: "",
            err: "snapraid: content has 1 levels, the configuration 2\n",
            contents: &[ONE_FILE, b"", b""],
            ..SCRUB
        },
    ];
    plays(&rt, rt.alloc(), &CASES)
}
