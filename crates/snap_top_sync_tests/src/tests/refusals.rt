// Words and configurations of a sync that are refused.
use snap_top_memory::arrays::{Array, ONE};
use snap_top_memory::cases::{Case, LISTED, SYNCED, follows, plays};
use snap_top_memory::contents::ONE_FILE;
use std::test::Fail;

// Nothing is opened.
const REFUSED: Case = Case {
    status: 2,
    out: "",
    is_opened: false,
    ..SYNCED
};

#[test]
fn refused_words(rt: HostRuntime) -> Result<(), Fail> {
    static CASES: [Case; 6] = [
        Case {
            words: &["snapraid", "sync", "-p", "5"],
            err: "snapraid: option '--plan' does not go with 'sync'\n",
            ..REFUSED
        },
        Case {
            words: &["snapraid", "frob"],
            err: "snapraid: unknown command 'frob'\n",
            ..REFUSED
        },
        Case {
            words: &["snapraid", "sync", "--save-every", "0"],
            err: "snapraid: bad value for '--save-every'\n",
            ..REFUSED
        },
        Case {
            words: &["snapraid", "sync", "--readers", "17"],
            err: "snapraid: bad value for '--readers'\n",
            ..REFUSED
        },
        Case {
            words: &["snapraid", "sync", "--readers", "17", "--save-every", "x"],
            err: "snapraid: bad value for '--save-every'\n",
            ..REFUSED
        },
        Case {
            words: &["snapraid", "sync", "-Z", "-Z"],
            err: "snapraid: cannot read the arguments\n",
            ..REFUSED
        },
    ];
    plays(&rt, rt.alloc(), &CASES)
}

// The array is as it was synced.
const OTHER: Case = Case {
    status: 2,
    out: "",
    contents: &[ONE_FILE],
    levels: &[&[b"qrstuvwxyz"]],
    ..SYNCED
};

const STILL_LISTED: Case = Case {
    array: ONE,
    out: "10 1.000000005 d1:a\n1 files, 10 bytes\n",
    ..LISTED
};

// Another block size than the content's, and another disk.
#[test]
fn another_array_is_refused_and_left_alone(rt: HostRuntime) -> Result<(), Fail> {
    static CASES: [Case; 5] = [
        SYNCED,
        Case {
            array: Array {
                config: "blocksize 2\nparity p\ncontent content\ndata d1 d\n",
                ..ONE
            },
            err: "snapraid: content has block size 1024, the configuration 2048\n",
            ..OTHER
        },
        STILL_LISTED,
        Case {
            array: Array {
                config: "blocksize 1\nparity p\ncontent content\ndata d2 d\n",
                ..ONE
            },
            err: "snapraid: content has disk 'd1' in column 0, the configuration 'd2'\n",
            ..OTHER
        },
        STILL_LISTED,
    ];
    follows(&rt, rt.alloc(), &CASES)
}
