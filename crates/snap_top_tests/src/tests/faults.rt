// Each call of a list, of a status and of a list of duplicates failing in turn, and failures beside others.
use crate::tests::usual::{DUP, KEPT, REFUSED, STATUS};
use snap_top_memory::arrays::{Failing, NONE};
use snap_top_memory::cases::{Case, plays};
use snap_top_memory::contents::ONE_FILE;
use snap_top_memory::next::WRITTEN;
use snap_top_memory::turns::{Calls, Ended, Turns, each_call_fails};
use std::test::Fail;

const LISTED: Case = Case {
    out: "10 1.000000005 d1:a\n1 files, 10 bytes\n",
    contents: &[ONE_FILE],
    levels: &[&[]],
    left: Some(&[&[]]),
    ..KEPT
};

const SHOWN: Case = Case {
    words: STATUS,
    out: "files 1\nbytes 10\nstripes 1\nsynced 1\npending 0\nfresh 1\nbad 0\noldest 100\n\
          disk d1 files 1 blocks 1 free 0\n",
    ..LISTED
};

const PAIRED: Case = Case {
    words: DUP,
    out: "dup: 0 pairs\n",
    ..LISTED
};

const UNOPENED: Ended = (3, "", "snapraid: configuration or opening failed\n");

const NO_VAULT: Ended = (3, "", "snapraid: parity or content failed\n");

// The configuration is read, and all is opened. The content is asked for its size and read. All lines are written at once.
// No folder is asked for anything, and nothing is written to the other stream.
#[test]
fn each_call_of_what_prints_a_table_fails(rt: HostRuntime) -> Result<(), Fail> {
    static LISTS: Turns = Turns {
        before: None,
        whole: LISTED,
        next: LISTED,
    };
    static SHOWS: Turns = Turns {
        before: None,
        whole: SHOWN,
        next: SHOWN,
    };
    static PAIRS: Turns = Turns {
        before: None,
        whole: PAIRED,
        next: PAIRED,
    };
    static OBJECTS: [Calls; 5] = [
        Calls {
            first: Failing { opener: 1, ..NONE },
            ends: &[UNOPENED, UNOPENED],
        },
        Calls {
            first: Failing { vault: 1, ..NONE },
            ends: &[NO_VAULT, NO_VAULT],
        },
        Calls {
            first: Failing { folder: 1, ..NONE },
            ends: &[],
        },
        Calls {
            first: Failing { out: 1, ..NONE },
            ends: &[(3, "", "snapraid: output failed\n")],
        },
        Calls {
            first: Failing { err: 1, ..NONE },
            ends: &[],
        },
    ];
    let alloc = rt.alloc();
    each_call_fails(&rt, alloc, &LISTS, &OBJECTS, WRITTEN)?;
    each_call_fails(&rt, alloc, &SHOWS, &OBJECTS, WRITTEN)?;
    each_call_fails(&rt, alloc, &PAIRS, &OBJECTS, WRITTEN)
}

// A standard error that fails changes no status of a run that is refused or aborted.
#[test]
fn a_failing_standard_error_changes_no_status(rt: HostRuntime) -> Result<(), Fail> {
    static CASES: [Case; 2] = [
        Case {
            failing: Failing {
                vault: 1,
                err: 1,
                ..NONE
            },
            status: 3,
            ..KEPT
        },
        Case {
            words: &["snapraid", "frob"],
            failing: Failing { err: 1, ..NONE },
            ..REFUSED
        },
    ];
    plays(&rt, rt.alloc(), &CASES)
}
