// Each content copy in turn missing, damaged or unreadable.
use snap_top_memory::arrays::{Array, Failing, LIST, NONE, ONE};
use snap_top_memory::cases::{Case, SYNCED, plays};
use snap_top_memory::contents::{ONE_FILE, ONE_SHORT};
use std::alloc::Global;
use std::test::Fail;
use std::thread::Threads;

const TWO_COPIES: Array = Array {
    config: "blocksize 1\nparity p\ncontent content\ncontent copy\ndata d1 d\n",
    copies: 2,
    ..ONE
};

// Both copies are whole, and so they are after a sync, which has nothing to do.
const DONE: Case = Case {
    array: TWO_COPIES,
    put: &[Some(ONE_FILE), Some(ONE_FILE)],
    out: "sync: 0 stripes synced, 0 pending\n",
    contents: &[ONE_FILE, ONE_FILE],
    ..SYNCED
};

const FIRST_CALL: Failing = Failing { vault: 1, ..NONE };

const SECOND_CALL: Failing = Failing { vault: 2, ..NONE };

const THIRD_CALL: Failing = Failing { vault: 3, ..NONE };

// No copy is taken, and none is changed.
const FAILED: Case = Case {
    status: 3,
    out: "",
    err: "snapraid: parity or content failed\n",
    ..DONE
};

// What a list prints in the place of a sync.
fn listing(status: u8) -> &'static str {
    match status {
        0 => "10 1.000000005 d1:a\n1 files, 10 bytes\n",
        _ => "",
    }
}

// A list takes the same copy as a sync.
fn plays_and_lists<R: Threads + Sync>(rt: &R, alloc: Global, cases: &[Case]) -> Result<(), Fail> {
    plays(rt, alloc, cases)?;
    for case in cases {
        let listed = Case {
            words: LIST,
            out: listing(case.status),
            contents: &[],
            ..*case
        };
        plays(rt, alloc, &[listed])?;
    }
    Ok(())
}

// The first copy that is whole is taken, and a sync makes all whole again. Where none is, nothing is changed.
#[test]
fn the_first_whole_copy_is_taken(rt: HostRuntime) -> Result<(), Fail> {
    static TAKEN: [Case; 7] = [
        DONE,
        Case {
            put: &[Some(ONE_FILE), None],
            ..DONE
        },
        Case {
            put: &[None, Some(ONE_FILE)],
            ..DONE
        },
        Case {
            put: &[Some(ONE_FILE), Some(ONE_SHORT)],
            ..DONE
        },
        Case {
            put: &[Some(ONE_SHORT), Some(ONE_FILE)],
            ..DONE
        },
        // the size of the first is not told, then its bytes
        Case {
            failing: FIRST_CALL,
            ..DONE
        },
        Case {
            failing: SECOND_CALL,
            ..DONE
        },
    ];
    static NONE_IS_TAKEN: [Case; 5] = [
        Case {
            put: &[Some(ONE_FILE), None],
            failing: SECOND_CALL,
            contents: &[ONE_FILE, b""],
            ..FAILED
        },
        Case {
            put: &[Some(ONE_FILE), Some(ONE_SHORT)],
            failing: FIRST_CALL,
            contents: &[ONE_FILE, ONE_SHORT],
            ..FAILED
        },
        // the size of the second is not told
        Case {
            put: &[Some(ONE_SHORT), Some(ONE_FILE)],
            failing: THIRD_CALL,
            contents: &[ONE_SHORT, ONE_FILE],
            ..FAILED
        },
        Case {
            put: &[None, Some(ONE_FILE)],
            failing: SECOND_CALL,
            contents: &[b"", ONE_FILE],
            ..FAILED
        },
        Case {
            put: &[Some(ONE_SHORT), None],
            status: 5,
            err: "snapraid: content 1 is damaged at byte 95: too short\n",
            contents: &[ONE_SHORT, b""],
            ..FAILED
        },
    ];
    plays_and_lists(&rt, rt.alloc(), &TAKEN)?;
    plays_and_lists(&rt, rt.alloc(), &NONE_IS_TAKEN)
}
