// First syncs, and what content and parity are then.
use snap_top_memory::arrays::{Array, EMPTY, ONE};
use snap_top_memory::cases::{Case, LISTED, SYNCED, follows};
use snap_top_memory::contents::{NO_FILE, ONE_FILE};
use snap_top_memory::left::Level;
use std::test::Fail;

#[test]
fn one_file_is_synced_and_listed(rt: HostRuntime) -> Result<(), Fail> {
    static CASES: [Case; 2] = [
        Case {
            contents: &[ONE_FILE],
            levels: &[&[b"qrstuvwxyz"]],
            ..SYNCED
        },
        Case {
            array: ONE,
            out: "10 1.000000005 d1:a\n1 files, 10 bytes\n",
            ..LISTED
        },
    ];
    follows(&rt, rt.alloc(), &CASES)
}

// The vault has a file for each part. Each but the last of a level may hold almost a gigabyte.
const IN_PARTS: Array = Array {
    config: "blocksize 1\nsplitsize 1\nparity p,q,r\ncontent content\ndata d1 d\n",
    levels: 3,
    ..ONE
};

#[test]
fn a_level_in_three_files(rt: HostRuntime) -> Result<(), Fail> {
    static CASES: [Case; 3] = [
        Case {
            array: IN_PARTS,
            contents: &[ONE_FILE],
            levels: &[&[b"qrstuvwxyz"], &[], &[]],
            ..SYNCED
        },
        Case {
            array: IN_PARTS,
            out: "10 1.000000005 d1:a\n1 files, 10 bytes\n",
            ..LISTED
        },
        Case {
            array: Array {
                disks: &[&[]],
                ..IN_PARTS
            },
            words: &["snapraid", "sync", "-E", "-c", "FILE"],
            out: "sync: 0 stripes synced, 0 pending\n",
            levels: &[&[], &[], &[]],
            ..SYNCED
        },
    ];
    follows(&rt, rt.alloc(), &CASES)
}

#[test]
fn no_file_at_all(rt: HostRuntime) -> Result<(), Fail> {
    static CASES: [Case; 2] = [
        Case {
            array: EMPTY,
            out: "sync: 0 stripes synced, 0 pending\n",
            contents: &[NO_FILE],
            levels: &[&[]],
            ..SYNCED
        },
        Case {
            out: "0 files, 0 bytes\n",
            ..LISTED
        },
    ];
    follows(&rt, rt.alloc(), &CASES)
}

const THREE_DISKS: Array = Array {
    config: "blocksize 1\nparity p\n2-parity q\n3-parity r\n4-parity s\n5-parity t\n6-parity u\n\
             content content\ndata d1 d\ndata d2 e\ndata d3 f\n",
    levels: 6,
    copies: 1,
    disks: &[
        &[("a", b"\x01", 1, 5)],
        &[("a", b"\x02", 1, 5)],
        &[("a", b"\x04", 1, 5)],
    ],
};

const EMPTIED: Array = Array {
    disks: &[&[("a", b"\x01", 1, 5)], &[], &[("a", b"\x04", 1, 5)]],
    ..THREE_DISKS
};

// The levels of all three files, and of two.
const OF_THREE: &[Level] = &[
    &[b"\x07"],
    &[b"\x15"],
    &[b"\x99"],
    &[b"\xc8"],
    &[b"\xd3"],
    &[b"\xab"],
];

const OF_TWO: &[Level] = &[
    &[b"\x05"],
    &[b"\x11"],
    &[b"\x6e"],
    &[b"\xa3"],
    &[b"\xe0"],
    &[b"\xfd"],
];

#[test]
fn six_levels_of_three_disks_and_then_one_disk_emptied(rt: HostRuntime) -> Result<(), Fail> {
    static CASES: [Case; 3] = [
        Case {
            array: THREE_DISKS,
            levels: OF_THREE,
            ..SYNCED
        },
        Case {
            array: EMPTIED,
            status: 2,
            out: "",
            err: "snapraid: all files of disk 'd2' are missing or rewritten, use --force-empty\n",
            keeps: true,
            levels: OF_THREE,
            ..SYNCED
        },
        Case {
            words: &["snapraid", "sync", "-E", "-c", "FILE"],
            array: EMPTIED,
            levels: OF_TWO,
            ..SYNCED
        },
    ];
    follows(&rt, rt.alloc(), &CASES)
}

const RULED: Array = Array {
    config: "blocksize 1\nparity p\ncontent /d/c.txt\ndata d1 /d\nexclude /a/\ninclude *.txt\n",
    disks: &[&[
        ("a/x.txt", b"1", 1, 5),
        ("b/x.jpg", b"2", 1, 5),
        ("b/x.txt", b"3", 1, 5),
        ("c.txt", b"4", 1, 5),
        ("c.txt.tmp", b"5", 1, 5),
    ]],
    ..EMPTY
};

// The array's own content file and draft are left out, and so is what the rules leave out; what no rule matches too, since
// the last one includes.
#[test]
fn only_kept_files_are_synced(rt: HostRuntime) -> Result<(), Fail> {
    static CASES: [Case; 2] = [
        Case {
            array: RULED,
            ..SYNCED
        },
        Case {
            array: RULED,
            out: "1 1.000000005 d1:b/x.txt\n1 files, 1 bytes\n",
            ..LISTED
        },
    ];
    follows(&rt, rt.alloc(), &CASES)
}
