// What a scrub finds, and which stripes that marks.
use crate::tests::arrays::{
    BEFORE, FIRST, FOUND, FOUR, FOURTH, FULL, SCRUBBED, SECOND, THIRD, UNMARKED,
};
use snap_top_memory::arrays::{Array, Disk, EMPTY, Failing, NONE};
use snap_top_memory::cases::{Case, SYNCED, each_follows, follows};
use snap_top_memory::damage::Damage;
use std::test::Fail;

static SYNCED_FOUR: Case = BEFORE;

const SECOND_ROTTEN: Disk = &[("a", b"\x03", 1, 5)];

const FOURTH_ROTTEN: Disk = &[("a", b"\x09", 1, 5)];

#[test]
fn rotten_blocks_and_rotten_parity_make_a_stripe_bad(rt: HostRuntime) -> Result<(), Fail> {
    static CASES: [Case; 7] = [
        SCRUBBED,
        Case {
            array: Array {
                disks: &[FIRST, SECOND_ROTTEN, THIRD, FOURTH],
                ..FOUR
            },
            out: "silent 0 d2:a 0 recorded 6f089fc28e783140e096e62d987df68c \
                  found e137cb75b3016da78309c3be02c03175\n\
                  scrub: 1 stripes checked, 1 findings\n",
            ..FOUND
        },
        // the levels are looked at only where all blocks are right
        Case {
            array: Array {
                disks: &[FIRST, SECOND_ROTTEN, THIRD, FOURTH_ROTTEN],
                ..FOUR
            },
            damage: Damage::Byte(0, 0, 1),
            out: "silent 0 d2:a 0 recorded 6f089fc28e783140e096e62d987df68c \
                  found e137cb75b3016da78309c3be02c03175\n\
                  silent 0 d4:a 0 recorded 270261cf4d893cd5020c9d14b7809b67 \
                  found ed9bc3c1d8821a202faaba2794c2e21b\n\
                  scrub: 1 stripes checked, 2 findings\n",
            ..FOUND
        },
        Case {
            damage: Damage::Byte(1, 0, 1),
            out: "wrong-parity 0 2-parity\nscrub: 1 stripes checked, 1 findings\n",
            ..FOUND
        },
        Case {
            damage: Damage::Byte(0, 1023, 1),
            out: "wrong-parity 0 parity\nscrub: 1 stripes checked, 1 findings\n",
            ..FOUND
        },
        // a level is a byte short, and both are gone
        Case {
            damage: Damage::Cut([1023, 1024, 0]),
            out: "wrong-parity 0 parity\nscrub: 1 stripes checked, 1 findings\n",
            ..FOUND
        },
        Case {
            damage: Damage::Cut([0, 0, 0]),
            out: "wrong-parity 0 parity\nwrong-parity 0 2-parity\n\
                  scrub: 1 stripes checked, 2 findings\n",
            ..FOUND
        },
    ];
    each_follows(&rt, rt.alloc(), &SYNCED_FOUR, &CASES)
}

const FIRST_LATER: Disk = &[("a", b"\x01", 2, 5)];

#[test]
fn files_that_changed_mark_nothing(rt: HostRuntime) -> Result<(), Fail> {
    static CASES: [Case; 6] = [
        Case {
            array: Array {
                disks: &[FIRST_LATER, SECOND, THIRD, FOURTH],
                ..FOUR
            },
            out: "changed-block 0 d1:a 0 recorded 1 1.000000005 found 1 2.000000005 got 1\n\
                  scrub: 1 stripes checked, 1 findings\n",
            ..UNMARKED
        },
        // other bytes of another stamp, and a level that is not looked at
        Case {
            array: Array {
                disks: &[FIRST, &[("a", b"\x03", 1, 6)], THIRD, FOURTH],
                ..FOUR
            },
            damage: Damage::Byte(0, 0, 1),
            out: "changed-block 0 d2:a 0 recorded 1 1.000000005 found 1 1.000000006 got 1\n\
                  scrub: 1 stripes checked, 1 findings\n",
            ..UNMARKED
        },
        Case {
            array: Array {
                disks: &[FIRST, SECOND, &[], &[("a", b"", 1, 5)]],
                ..FOUR
            },
            out: "changed-block 0 d3:a 0 recorded 1 1.000000005 found nothing got 0\n\
                  changed-block 0 d4:a 0 recorded 1 1.000000005 found 0 1.000000005 got 0\n\
                  scrub: 1 stripes checked, 2 findings\n",
            ..UNMARKED
        },
        Case {
            array: Array {
                disks: &[FIRST, SECOND, THIRD, &[("a", b"\x08\x08", 1, 5)]],
                ..FOUR
            },
            out: "changed-block 0 d4:a 0 recorded 1 1.000000005 found 2 1.000000005 got 1\n\
                  scrub: 1 stripes checked, 1 findings\n",
            ..UNMARKED
        },
        // another block of the stripe is rotten, or is not read
        Case {
            array: Array {
                disks: &[FIRST_LATER, SECOND_ROTTEN, THIRD, FOURTH],
                ..FOUR
            },
            out: "changed-block 0 d1:a 0 recorded 1 1.000000005 found 1 2.000000005 got 1\n\
                  silent 0 d2:a 0 recorded 6f089fc28e783140e096e62d987df68c \
                  found e137cb75b3016da78309c3be02c03175\n\
                  scrub: 1 stripes checked, 2 findings\n",
            ..FOUND
        },
        Case {
            array: Array {
                disks: &[FIRST_LATER, SECOND, THIRD, FOURTH],
                ..FOUR
            },
            failing: Failing {
                disk: 2,
                folder: 1,
                ..NONE
            },
            out: "changed-block 0 d1:a 0 recorded 1 1.000000005 found 1 2.000000005 got 1\n\
                  io 0 d3:a 0\n\
                  scrub: 1 stripes checked, 2 findings\n",
            ..FOUND
        },
    ];
    each_follows(&rt, rt.alloc(), &SYNCED_FOUR, &CASES)
}

// A block of each disk is wrong in another way.
const ALL_WRONG: Case = Case {
    array: Array {
        disks: &[FIRST, &[], FIRST_LATER, FOURTH_ROTTEN],
        ..FOUR
    },
    failing: Failing { folder: 2, ..NONE },
    out: "io 0 d1:a 0\n\
          changed-block 0 d2:a 0 recorded 1 1.000000005 found nothing got 0\n\
          changed-block 0 d3:a 0 recorded 1 1.000000005 found 1 2.000000005 got 1\n\
          silent 0 d4:a 0 recorded 270261cf4d893cd5020c9d14b7809b67 \
          found ed9bc3c1d8821a202faaba2794c2e21b\n\
          scrub: 1 stripes checked, 4 findings\n",
    ..FOUND
};

#[test]
fn any_number_of_readers_finds_the_same(rt: HostRuntime) -> Result<(), Fail> {
    static CASES: [Case; 4] = [
        ALL_WRONG,
        Case {
            words: &[
                "snapraid",
                "scrub",
                "-c",
                "FILE",
                "-p",
                "full",
                "--readers",
                "1",
            ],
            ..ALL_WRONG
        },
        Case {
            words: &[
                "snapraid",
                "scrub",
                "-c",
                "FILE",
                "-p",
                "full",
                "--readers",
                "3",
            ],
            ..ALL_WRONG
        },
        Case {
            words: &[
                "snapraid",
                "scrub",
                "-c",
                "FILE",
                "-p",
                "full",
                "--readers",
                "16",
            ],
            ..ALL_WRONG
        },
    ];
    each_follows(&rt, rt.alloc(), &SYNCED_FOUR, &CASES)
}

// Blocks of which a window has sixteen.
const LARGE: &str = "blocksize 64\nparity p\ncontent content\ndata d1 d\n";

// One file a stripe, and one more than a window has.
const SEVENTEEN: Array = Array {
    config: LARGE,
    disks: &[&[
        ("a", b"1", 1, 5),
        ("b", b"1", 1, 5),
        ("c", b"1", 1, 5),
        ("d", b"1", 1, 5),
        ("e", b"1", 1, 5),
        ("f", b"1", 1, 5),
        ("g", b"1", 1, 5),
        ("h", b"1", 1, 5),
        ("i", b"1", 1, 5),
        ("j", b"1", 1, 5),
        ("k", b"1", 1, 5),
        ("l", b"1", 1, 5),
        ("m", b"1", 1, 5),
        ("n", b"1", 1, 5),
        ("o", b"1", 1, 5),
        ("p", b"1", 1, 5),
        ("q", b"1", 1, 5),
    ]],
    ..EMPTY
};

// Some of them are changed, one is gone, and the last is rotten.
const SOME_WRONG: Array = Array {
    config: LARGE,
    disks: &[&[
        ("a", b"1", 1, 5),
        ("b", b"2", 1, 5),
        ("c", b"1", 1, 5),
        ("d", b"1", 1, 5),
        ("e", b"1", 1, 5),
        ("f", b"1", 1, 5),
        ("g", b"1", 1, 5),
        ("h", b"1", 1, 5),
        ("i", b"1", 1, 5),
        ("j", b"1", 1, 5),
        ("k", b"1", 1, 5),
        ("l", b"1", 1, 5),
        ("m", b"1", 1, 5),
        ("n", b"1", 1, 5),
        ("p", b"1", 2, 5),
        ("q", b"2", 1, 5),
    ]],
    ..EMPTY
};

// The level has another byte in the twelfth stripe.
#[test]
fn findings_are_told_stripe_by_stripe(rt: HostRuntime) -> Result<(), Fail> {
    static CASES: [Case; 3] = [
        Case {
            array: SEVENTEEN,
            out: "sync: 17 stripes synced, 0 pending\n",
            ..SYNCED
        },
        Case {
            words: FULL,
            array: SOME_WRONG,
            damage: Damage::Byte(0, 720896, 1),
            status: 1,
            out: "silent 1 d1:b 0 recorded 8611fc1b5d381b860185571bc86ac5d9 \
                  found 965f82b06ede3d8a5666cf4bdd27bec2\n\
                  wrong-parity 11 parity\n\
                  changed-block 14 d1:o 0 recorded 1 1.000000005 found nothing got 0\n\
                  changed-block 15 d1:p 0 recorded 1 1.000000005 found 1 2.000000005 got 1\n\
                  silent 16 d1:q 0 recorded 8611fc1b5d381b860185571bc86ac5d9 \
                  found 965f82b06ede3d8a5666cf4bdd27bec2\n\
                  scrub: 17 stripes checked, 5 findings\n",
            stays: Some(0),
            ..SYNCED
        },
        Case {
            words: &["snapraid", "status", "-c", "FILE"],
            array: SEVENTEEN,
            status: 1,
            out: "files 17\nbytes 17\nstripes 17\nsynced 17\npending 0\nfresh 5\nbad 3\noldest 100\n\
                  disk d1 files 17 blocks 17 free 0\n\
                  bad stripe 1\nbad stripe 11\nbad stripe 16\n",
            keeps: true,
            ..SYNCED
        },
    ];
    follows(&rt, rt.alloc(), &CASES)
}
