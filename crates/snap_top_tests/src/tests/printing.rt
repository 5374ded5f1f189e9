// What `list` and `status` print.
use crate::tests::contents::{BACKSLASH, BAD_STRIPE};
use crate::tests::usual::{KEPT, STATUS};
use snap_top_memory::arrays::{EMPTY, LIST, run_first};
use snap_top_memory::cases::{Case, LISTED, plays};
use snap_top_memory::contents::NO_FILE;
use std::test::Fail;

#[test]
fn files_of_the_last_sync(rt: HostRuntime) -> Result<(), Fail> {
    static CASES: [Case; 4] = [
        Case {
            out: "10 1.000000005 d1:a\n1 files, 10 bytes\n",
            ..KEPT
        },
        Case {
            put: &[Some(BACKSLASH)],
            out: "10 1.000000005 d1:a\\x5c\n1 files, 10 bytes\n",
            ..LISTED
        },
        Case {
            put: &[Some(NO_FILE)],
            out: "0 files, 0 bytes\n",
            ..LISTED
        },
        Case {
            out: "0 files, 0 bytes\n",
            ..LISTED
        },
    ];
    plays(&rt, rt.alloc(), &CASES)?;
    let left = run_first(&rt, rt.alloc(), LIST, EMPTY)?;
    assert_eq!(rt; left.outcome.folders.len(), 1);
    Ok(())
}

#[test]
fn what_is_known_of_the_stripes(rt: HostRuntime) -> Result<(), Fail> {
    static CASES: [Case; 3] = [
        Case {
            words: STATUS,
            out: "files 1\nbytes 10\nstripes 1\nsynced 1\npending 0\nfresh 1\nbad 0\noldest 100\n\
                  disk d1 files 1 blocks 1 free 0\n",
            ..KEPT
        },
        Case {
            words: STATUS,
            put: &[Some(BAD_STRIPE)],
            status: 1,
            out: "files 1\nbytes 10\nstripes 1\nsynced 1\npending 0\nfresh 1\nbad 1\noldest 100\n\
                  disk d1 files 1 blocks 1 free 0\nbad stripe 0\n",
            ..LISTED
        },
        Case {
            words: STATUS,
            out: "files 0\nbytes 0\nstripes 0\nsynced 0\npending 0\nfresh 0\nbad 0\noldest -\n\
                  disk d1 files 0 blocks 0 free 0\n",
            ..LISTED
        },
    ];
    plays(&rt, rt.alloc(), &CASES)
}
