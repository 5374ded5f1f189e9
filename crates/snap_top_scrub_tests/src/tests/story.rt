// A block rots. A scrub finds it, a fix mends it, and the next scrub finds it right.
use crate::tests::arrays::{BAD, FULL, STATUS};
use crate::tests::contents::{ONE_BAD, ONE_BAD_AGAIN, ONE_SCRUBBED};
use snap_top_memory::arrays::{Array, Disk, ONE};
use snap_top_memory::cases::{Case, SYNCED, follows};
use snap_top_memory::contents::ONE_FILE;
use std::test::Fail;

const WHOLE: Disk = &[("a", b"qrstuvwxyz", 1, 5)];

// A bit of its first byte is another one, and its size and stamp are as they were.
const ROTTEN: Array = Array {
    disks: &[&[("a", b"prstuvwxyz", 1, 5)]],
    ..ONE
};

// One file, synced at 100.
const BEFORE: Case = Case {
    contents: &[ONE_FILE],
    levels: &[&[b"qrstuvwxyz"]],
    ..SYNCED
};

// The block is rotten, and that is found.
const FOUND: Case = Case {
    words: FULL,
    array: ROTTEN,
    status: 1,
    out: "silent 0 d1:a 0 recorded c3fcd3d76192e4007dfb496cca67e13b \
          found cacf602bdc61eaf40bdf96bc73aec2e2\n\
          scrub: 1 stripes checked, 1 findings\n",
    contents: &[ONE_BAD],
    ..BEFORE
};

// Nothing more is marked.
const KNOWN: Case = Case {
    keeps: true,
    ..FOUND
};

// The bad stripe is checked and found right.
const CLEARED: Case = Case {
    words: BAD,
    now: 200,
    out: "scrub: 1 stripes checked, 0 findings\n",
    contents: &[ONE_SCRUBBED],
    ..BEFORE
};

// It is mended by what is bad.
const FIXED: Case = Case {
    words: &["snapraid", "fix", "-c", "FILE", "-e"],
    status: 0,
    out: "silent 0 d1:a 0 recorded c3fcd3d76192e4007dfb496cca67e13b \
          found cacf602bdc61eaf40bdf96bc73aec2e2\n\
          fixed 0 d1:a 0\n\
          restored d1:a\n\
          fix: 1 blocks and 0 parities fixed, 0 findings left\n",
    left: Some(&[WHOLE]),
    ..KNOWN
};

#[test]
fn a_rotten_block_is_found_and_fixed_and_cleared(rt: HostRuntime) -> Result<(), Fail> {
    static CASES: [Case; 9] = [
        BEFORE,
        FOUND,
        Case {
            words: STATUS,
            out: "files 1\nbytes 10\nstripes 1\nsynced 1\npending 0\nfresh 1\nbad 1\noldest 100\n\
                  disk d1 files 1 blocks 1 free 0\nbad stripe 0\n",
            ..KNOWN
        },
        Case {
            words: &["snapraid", "check", "-c", "FILE", "-e"],
            out: "silent 0 d1:a 0 recorded c3fcd3d76192e4007dfb496cca67e13b \
                  found cacf602bdc61eaf40bdf96bc73aec2e2\n\
                  check: 1 findings\n",
            ..KNOWN
        },
        Case {
            words: BAD,
            now: 200,
            ..KNOWN
        },
        FIXED,
        CLEARED,
        Case {
            words: STATUS,
            out: "files 1\nbytes 10\nstripes 1\nsynced 1\npending 0\nfresh 0\nbad 0\noldest 200\n\
                  disk d1 files 1 blocks 1 free 0\n",
            keeps: true,
            ..CLEARED
        },
        Case {
            now: 300,
            out: "scrub: 0 stripes checked, 0 findings\n",
            keeps: true,
            ..CLEARED
        },
    ];
    follows(&rt, rt.alloc(), &CASES)
}

// A stripe that is found bad later keeps when it was found right last, and a sync keeps that it is bad.
#[test]
fn a_stripe_that_was_right_becomes_bad_and_stays_so(rt: HostRuntime) -> Result<(), Fail> {
    static CASES: [Case; 5] = [
        BEFORE,
        Case {
            words: FULL,
            ..CLEARED
        },
        Case {
            now: 300,
            contents: &[ONE_BAD_AGAIN],
            ..FOUND
        },
        Case {
            array: ROTTEN,
            now: 400,
            out: "sync: 0 stripes synced, 0 pending\n",
            keeps: true,
            contents: &[],
            ..BEFORE
        },
        // it was changed since, which marks nothing
        Case {
            words: BAD,
            array: Array {
                disks: &[&[("a", b"prstuvwxyz", 2, 5)]],
                ..ONE
            },
            now: 500,
            out: "changed-block 0 d1:a 0 recorded 10 1.000000005 found 10 2.000000005 got 10\n\
                  scrub: 1 stripes checked, 1 findings\n",
            contents: &[ONE_BAD_AGAIN],
            ..KNOWN
        },
    ];
    follows(&rt, rt.alloc(), &CASES)
}
