// Syncs over the content of a sync before.
use snap_top_memory::arrays::{Array, Disk, EMPTY};
use snap_top_memory::cases::{Case, LISTED, SYNCED, follows};
use std::test::Fail;

const FILES: Disk<'static> = &[
    ("a", b"", 1, 5),
    ("b", b"1", 1, 5),
    ("c", &[8; 1024], 1, 5),
    ("d", &[7; 1025], 1, 5),
];

// These files are synced.
const BEFORE: Case = Case {
    array: Array {
        disks: &[FILES],
        ..EMPTY
    },
    out: "sync: 4 stripes synced, 0 pending\n",
    levels: &[&[b"1", &[8; 1024], &[7; 1024], b"\x07"]],
    ..SYNCED
};

// One stripe is synced after that.
const AFTER: Case = Case {
    out: "sync: 1 stripes synced, 0 pending\n",
    ..BEFORE
};

// None is.
const STAYS: Case = Case {
    out: "sync: 0 stripes synced, 0 pending\n",
    ..BEFORE
};

#[test]
fn files_come_go_move_and_change(rt: HostRuntime) -> Result<(), Fail> {
    static NOTHING_CHANGED: [Case; 2] = [BEFORE, STAYS];
    static ONE_GONE_AND_ONE_MORE_THAT_TAKES_THE_FREE_POSITION_FIRST: [Case; 2] = [
        BEFORE,
        Case {
            array: Array {
                disks: &[&[
                    ("a", b"", 1, 5),
                    ("b", b"1", 1, 5),
                    ("d", &[7; 1025], 1, 5),
                    ("e", &[6; 2049], 1, 5),
                ]],
                ..EMPTY
            },
            out: "sync: 3 stripes synced, 0 pending\n",
            levels: &[&[b"1", &[6; 1024], &[7; 1024], b"\x07", &[6; 1024], b"\x06"]],
            ..BEFORE
        },
    ];
    static A_NEW_NAME: [Case; 2] = [
        BEFORE,
        Case {
            array: Array {
                disks: &[&[
                    ("a", b"", 1, 5),
                    ("c", &[8; 1024], 1, 5),
                    ("d", &[7; 1025], 1, 5),
                    ("z", b"1", 1, 5),
                ]],
                ..EMPTY
            },
            ..STAYS
        },
    ];
    static MOVED_BELOW_ITS_OWN_NAME: [Case; 2] = [
        BEFORE,
        Case {
            array: Array {
                disks: &[&[
                    ("a", b"", 1, 5),
                    ("b", b"1", 1, 5),
                    ("c", &[8; 1024], 1, 5),
                    ("d/y", &[7; 1025], 1, 5),
                ]],
                ..EMPTY
            },
            ..STAYS
        },
    ];
    static A_NEW_NAME_WHERE_STAMPS_HAVE_NO_NANOSECONDS: [Case; 2] = [
        Case {
            array: Array {
                disks: &[&[
                    ("a", b"", 1, 0),
                    ("b", b"1", 1, 0),
                    ("c", &[8; 1024], 1, 0),
                    ("d", &[7; 1025], 1, 0),
                ]],
                ..EMPTY
            },
            ..BEFORE
        },
        Case {
            array: Array {
                disks: &[&[
                    ("a", b"", 1, 0),
                    ("c", &[8; 1024], 1, 0),
                    ("d", &[7; 1025], 1, 0),
                    ("z", b"1", 1, 0),
                ]],
                ..EMPTY
            },
            ..AFTER
        },
    ];
    static WRITTEN_ANEW: [Case; 2] = [
        BEFORE,
        Case {
            array: Array {
                disks: &[&[
                    ("a", b"", 1, 5),
                    ("b", b"2", 2, 5),
                    ("c", &[8; 1024], 1, 5),
                    ("d", &[7; 1025], 1, 5),
                ]],
                ..EMPTY
            },
            levels: &[&[b"2", &[8; 1024], &[7; 1024], b"\x07"]],
            ..AFTER
        },
    ];
    let alloc = rt.alloc();
    follows(&rt, alloc, &NOTHING_CHANGED)?;
    follows(
        &rt,
        alloc,
        &ONE_GONE_AND_ONE_MORE_THAT_TAKES_THE_FREE_POSITION_FIRST,
    )?;
    follows(&rt, alloc, &A_NEW_NAME)?;
    follows(&rt, alloc, &MOVED_BELOW_ITS_OWN_NAME)?;
    follows(&rt, alloc, &A_NEW_NAME_WHERE_STAMPS_HAVE_NO_NANOSECONDS)?;
    follows(&rt, alloc, &WRITTEN_ANEW)
}

const EMPTIED: Array = Array {
    disks: &[&[
        ("a", b"", 1, 5),
        ("b", b"1", 1, 5),
        ("c", &[8; 1024], 1, 5),
        ("d", b"", 2, 5),
    ]],
    ..EMPTY
};

// Refused, it leaves the content copy and the level as they were.
#[test]
fn a_file_that_became_empty_is_refused(rt: HostRuntime) -> Result<(), Fail> {
    static CASES: [Case; 3] = [
        BEFORE,
        Case {
            array: EMPTIED,
            status: 2,
            out: "",
            err: "snapraid: file 'd1:d' has become empty, use --force-zero\n",
            keeps: true,
            ..BEFORE
        },
        Case {
            words: &["snapraid", "sync", "-Z", "-c", "FILE"],
            array: EMPTIED,
            levels: &[&[b"1", &[8; 1024]]],
            ..STAYS
        },
    ];
    follows(&rt, rt.alloc(), &CASES)
}

const TWO_DISKS: Array = Array {
    config: "blocksize 1\nparity p\ncontent content\ndata d1 d\ndata d2 e\n",
    disks: &[
        &[("x", b"qrstuvwxyz", 1, 5)],
        &[("v", b"1", 1, 5), ("w", b"2", 1, 5)],
    ],
    ..EMPTY
};

const CHANGED: Array = Array {
    disks: &[
        &[("x", b"Qrstuvwxyz", 1, 5)],
        &[("v", b"3", 2, 5), ("w", b"2", 1, 5)],
    ],
    ..TWO_DISKS
};

const MENDED: Array = Array {
    disks: &[
        &[("x", b"qrstuvwxyz", 1, 5)],
        &[("v", b"3", 2, 5), ("w", b"2", 1, 5)],
    ],
    ..TWO_DISKS
};

// The file of the second disk was written anew, so its stripe is pending. The other block of that stripe is not the one
// that was synced, though its file looks the same.
#[test]
fn a_silent_error_keeps_its_stripe_pending(rt: HostRuntime) -> Result<(), Fail> {
    static CASES: [Case; 4] = [
        Case {
            array: TWO_DISKS,
            out: "sync: 2 stripes synced, 0 pending\n",
            ..SYNCED
        },
        Case {
            array: CHANGED,
            status: 1,
            out: "silent 0 d1:x 0 recorded c3fcd3d76192e4007dfb496cca67e13b \
                  found ad73815073524e821191349523af938b\n\
                  sync: 0 stripes synced, 1 pending\n",
            ..SYNCED
        },
        Case {
            array: MENDED,
            levels: &[&[
                &[
                    b'q' ^ b'3',
                    b'r',
                    b's',
                    b't',
                    b'u',
                    b'v',
                    b'w',
                    b'x',
                    b'y',
                    b'z',
                ],
                b"2",
            ]],
            ..SYNCED
        },
        Case {
            array: MENDED,
            out: "10 1.000000005 d1:x\n1 2.000000005 d2:v\n1 1.000000005 d2:w\n3 files, 12 bytes\n",
            ..LISTED
        },
    ];
    follows(&rt, rt.alloc(), &CASES)
}
