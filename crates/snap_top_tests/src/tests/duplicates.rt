// Which files hold the same, as `dup` prints it.
use crate::tests::usual::{DUP, KEPT};
use snap_top_memory::arrays::{Array, EMPTY, Failing, NONE};
use snap_top_memory::cases::{Case, LISTED, SYNCED, follows, plays};
use snap_top_memory::contents::FIVE_PENDING;
use std::test::Fail;

// Three files have one content and one has another; two are empty.
const SIX: Array = Array {
    config: "blocksize 1\nparity p\ncontent content\ndata d1 d\ndata d2 e\n",
    disks: &[
        &[
            ("a", b"x", 1, 5),
            ("b", b"x", 1, 5),
            ("c", b"y", 1, 5),
            ("e", b"", 1, 5),
            ("f", b"", 1, 5),
        ],
        &[("z", b"x", 1, 5)],
    ],
    ..EMPTY
};

const PAIRS: Case = Case {
    words: DUP,
    array: SIX,
    out: "dup 1 d1:a d1:b\ndup 1 d1:a d2:z\ndup 1 d1:b d2:z\ndup: 3 pairs\n",
    keeps: true,
    stays: Some(0),
    ..SYNCED
};

#[test]
fn files_that_hold_the_same(rt: HostRuntime) -> Result<(), Fail> {
    static CASES: [Case; 3] = [
        Case {
            array: SIX,
            out: "sync: 3 stripes synced, 0 pending\n",
            ..SYNCED
        },
        PAIRS,
        Case {
            failing: Failing { out: 1, ..NONE },
            status: 3,
            out: "",
            err: "snapraid: output failed\n",
            ..PAIRS
        },
    ];
    follows(&rt, rt.alloc(), &CASES)
}

// No file is there without content, and five files of one byte have no hashes where their sync was aborted.
#[test]
fn nothing_that_is_known_to_be_the_same(rt: HostRuntime) -> Result<(), Fail> {
    static CASES: [Case; 3] = [
        Case {
            words: DUP,
            out: "dup: 0 pairs\n",
            ..LISTED
        },
        Case {
            words: DUP,
            out: "dup: 0 pairs\n",
            ..KEPT
        },
        Case {
            words: DUP,
            put: &[Some(FIVE_PENDING)],
            out: "dup: 0 pairs\n",
            ..LISTED
        },
    ];
    plays(&rt, rt.alloc(), &CASES)
}
