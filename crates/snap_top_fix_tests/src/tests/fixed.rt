// What a fix restores, and what it leaves as it is.
use crate::tests::arrays::{BEFORE, EMPTIED, FIRST, FIXED, LOST, SECOND, THIRD, TWO_LEVELS, WHOLE};
use snap_top_memory::arrays::{Array, Disk, EMPTY};
use snap_top_memory::cases::{Case, SYNCED, follows};
use snap_top_memory::damage::Damage;
use std::test::Fail;

#[test]
fn two_lost_disks_come_back_by_the_levels_that_are_right(rt: HostRuntime) -> Result<(), Fail> {
    static CASES: [Case; 2] = [
        BEFORE,
        // the first level has a 0 in the place of its first byte
        Case {
            array: EMPTIED,
            damage: Damage::Byte(0, 0, 7),
            out: "changed d1:a recorded 1 1.000000005 found nothing\n\
                  changed d2:a recorded 1 1.000000005 found nothing\n\
                  wrong-parity 0 parity\n\
                  fixed 0 d1:a 0\n\
                  fixed 0 d2:a 0\n\
                  fixed-parity 0 parity\n\
                  restored d1:a\n\
                  restored d2:a\n\
                  fix: 2 blocks and 1 parities fixed, 0 findings left\n",
            ..FIXED
        },
    ];
    follows(&rt, rt.alloc(), &CASES)
}

// What is there is not changed.
const UNCHANGED: Case = Case {
    stays: Some(0),
    levels: &[],
    ..FIXED
};

#[test]
fn what_is_lost_is_named_and_nothing_is_made(rt: HostRuntime) -> Result<(), Fail> {
    static CASES: [Case; 2] = [
        Case {
            array: TWO_LEVELS,
            levels: &[&[b"\x07"], &[b"\x15"]],
            ..BEFORE
        },
        // the second level has a 0 in the place of its first byte
        Case {
            array: Array {
                disks: LOST,
                ..TWO_LEVELS
            },
            damage: Damage::Byte(1, 0, 0x15),
            status: 1,
            out: "changed d1:a recorded 1 1.000000005 found nothing\n\
                  changed d2:a recorded 1 1.000000005 found nothing\n\
                  unrecoverable 0 d1:a 0\n\
                  unrecoverable 0 d2:a 0\n\
                  fix: 0 blocks and 0 parities fixed, 2 findings left\n",
            left: Some(LOST),
            ..UNCHANGED
        },
    ];
    follows(&rt, rt.alloc(), &CASES)
}

const SEVEN_DISKS: &[Disk] = &[
    FIRST,
    SECOND,
    &[("a", b"\x03", 1, 5)],
    THIRD,
    &[("a", b"\x05", 1, 5)],
    &[("a", b"\x06", 1, 5)],
    &[("a", b"\x07", 1, 5)],
];

const SEVEN: Array = Array {
    config: "blocksize 1\nparity p\n2-parity q\n3-parity r\n4-parity s\n5-parity t\n6-parity u\ncontent c\n\
             data d1 a\ndata d2 b\ndata d3 d\ndata d4 e\ndata d5 f\ndata d6 g\ndata d7 h\n",
    levels: 6,
    disks: SEVEN_DISKS,
    ..EMPTY
};

#[test]
fn six_lost_disks_of_seven_come_back(rt: HostRuntime) -> Result<(), Fail> {
    static CASES: [Case; 2] = [
        Case {
            array: SEVEN,
            ..SYNCED
        },
        Case {
            array: Array {
                disks: &[&[], &[], &[], THIRD, &[], &[], &[]],
                ..SEVEN
            },
            out: "changed d1:a recorded 1 1.000000005 found nothing\n\
                  changed d2:a recorded 1 1.000000005 found nothing\n\
                  changed d3:a recorded 1 1.000000005 found nothing\n\
                  changed d5:a recorded 1 1.000000005 found nothing\n\
                  changed d6:a recorded 1 1.000000005 found nothing\n\
                  changed d7:a recorded 1 1.000000005 found nothing\n\
                  fixed 0 d1:a 0\n\
                  fixed 0 d2:a 0\n\
                  fixed 0 d3:a 0\n\
                  fixed 0 d5:a 0\n\
                  fixed 0 d6:a 0\n\
                  fixed 0 d7:a 0\n\
                  restored d1:a\n\
                  restored d2:a\n\
                  restored d3:a\n\
                  restored d5:a\n\
                  restored d6:a\n\
                  restored d7:a\n\
                  fix: 6 blocks and 0 parities fixed, 0 findings left\n",
            left: Some(SEVEN_DISKS),
            ..UNCHANGED
        },
    ];
    follows(&rt, rt.alloc(), &CASES)
}

const EIGHT: Array = Array {
    config: "blocksize 1\nparity p\n2-parity q\n3-parity r\n4-parity s\n5-parity t\n6-parity u\ncontent c\n\
             data d1 a\ndata d2 b\ndata d3 d\ndata d4 e\ndata d5 f\ndata d6 g\ndata d7 h\ndata d8 i\n",
    levels: 6,
    disks: &[
        FIRST,
        SECOND,
        &[("a", b"\x03", 1, 5)],
        THIRD,
        &[("a", b"\x05", 1, 5)],
        &[("a", b"\x06", 1, 5)],
        &[("a", b"\x07", 1, 5)],
        &[("a", b"\x08", 1, 5)],
    ],
    ..EMPTY
};

const ONE_OF_EIGHT: &[Disk] = &[&[], &[], &[("a", b"\x03", 1, 5)], &[], &[], &[], &[], &[]];

#[test]
fn seven_lost_disks_of_eight_do_not(rt: HostRuntime) -> Result<(), Fail> {
    static CASES: [Case; 2] = [
        Case {
            array: EIGHT,
            ..SYNCED
        },
        Case {
            array: Array {
                disks: ONE_OF_EIGHT,
                ..EIGHT
            },
            status: 1,
            out: "changed d1:a recorded 1 1.000000005 found nothing\n\
                  changed d2:a recorded 1 1.000000005 found nothing\n\
                  changed d4:a recorded 1 1.000000005 found nothing\n\
                  changed d5:a recorded 1 1.000000005 found nothing\n\
                  changed d6:a recorded 1 1.000000005 found nothing\n\
                  changed d7:a recorded 1 1.000000005 found nothing\n\
                  changed d8:a recorded 1 1.000000005 found nothing\n\
                  unrecoverable 0 d1:a 0\n\
                  unrecoverable 0 d2:a 0\n\
                  unrecoverable 0 d4:a 0\n\
                  unrecoverable 0 d5:a 0\n\
                  unrecoverable 0 d6:a 0\n\
                  unrecoverable 0 d7:a 0\n\
                  unrecoverable 0 d8:a 0\n\
                  fix: 0 blocks and 0 parities fixed, 7 findings left\n",
            left: Some(ONE_OF_EIGHT),
            ..UNCHANGED
        },
    ];
    follows(&rt, rt.alloc(), &CASES)
}

const SIX_LEVELS: Array = Array {
    config: "blocksize 1\nparity p\n2-parity q\n3-parity r\n4-parity s\n5-parity t\n6-parity u\ncontent c\n\
             data d1 a\ndata d2 b\ndata d3 e\n",
    levels: 6,
    ..WHOLE
};

const BLOCKED: &[Disk] = &[&[("a/x", b"\x07", 1, 5)], SECOND, THIRD];

#[test]
fn a_file_in_the_way_stays_and_blocks(rt: HostRuntime) -> Result<(), Fail> {
    static CASES: [Case; 2] = [
        Case {
            array: SIX_LEVELS,
            ..SYNCED
        },
        Case {
            array: Array {
                disks: BLOCKED,
                ..SIX_LEVELS
            },
            status: 1,
            out: "changed d1:a recorded 1 1.000000005 found nothing\n\
                  blocked d1:a\n\
                  fix: 0 blocks and 0 parities fixed, 1 findings left\n",
            left: Some(BLOCKED),
            ..UNCHANGED
        },
    ];
    follows(&rt, rt.alloc(), &CASES)
}

const LONG: Disk = &[("p", &[7; 3072], 1, 5)];

const PICKED: Array = Array {
    config: "blocksize 1\nparity p\ncontent c\ndata d1 a\ndata d2 b\n",
    disks: &[
        LONG,
        &[
            ("x.txt", b"x", 1, 5),
            ("y.txt", b"y", 1, 5),
            ("z.jpg", b"z", 1, 5),
        ],
    ],
    ..EMPTY
};

#[test]
fn only_what_is_selected_is_restored(rt: HostRuntime) -> Result<(), Fail> {
    static CASES: [Case; 2] = [
        Case {
            array: PICKED,
            out: "sync: 3 stripes synced, 0 pending\n",
            ..SYNCED
        },
        Case {
            words: &[
                "snapraid", "fix", "-c", "FILE", "-m", "-d", "d2", "-f", "*.txt",
            ],
            array: Array {
                disks: &[LONG, &[("y.txt", b"Y", 2, 5)]],
                ..PICKED
            },
            out: "changed d2:x.txt recorded 1 1.000000005 found nothing\n\
                  fixed 0 d2:x.txt 0\n\
                  restored d2:x.txt\n\
                  fix: 1 blocks and 0 parities fixed, 0 findings left\n",
            left: Some(&[LONG, &[("x.txt", b"x", 1, 5), ("y.txt", b"Y", 2, 5)]]),
            ..UNCHANGED
        },
    ];
    follows(&rt, rt.alloc(), &CASES)
}
