// What stands in the way of a file, what an earlier fix left under its other name, and levels that are not whole.
use crate::tests::arrays::{BEFORE, FIXED, SECOND, THIRD, WHOLE};
use snap_top_memory::arrays::{Array, Disk, Failing, NONE};
use snap_top_memory::cases::{Case, each_follows};
use snap_top_memory::damage::Damage;
use std::test::Fail;

// The first disk has its one file in a directory.
const DISKS: &[Disk] = &[&[("s/a", b"\x01", 1, 5)], SECOND, THIRD];

const ARRAY: Array = Array {
    disks: DISKS,
    ..WHOLE
};

static SYNCED: Case = Case {
    array: ARRAY,
    ..BEFORE
};

// A fix that leaves all as it was synced.
const USUAL: Case = Case {
    array: ARRAY,
    left: Some(DISKS),
    ..FIXED
};

const BLOCKED: Case = Case {
    status: 1,
    out: "changed d1:s/a recorded 1 1.000000005 found nothing\n\
          blocked d1:s/a\n\
          fix: 0 blocks and 0 parities fixed, 1 findings left\n",
    ..USUAL
};

const A_DIRECTORY: &[Disk] = &[&[("s/a/x", b"\x07", 1, 5)], SECOND, THIRD];

const NO_DIRECTORY: &[Disk] = &[&[("s", b"\x07", 1, 5)], SECOND, THIRD];

const WHOLE_BESIDE_A_DIRECTORY: &[Disk] = &[
    &[
        ("s/a", b"\x01", 1, 5),
        ("s/a.unrecoverable/x", b"\x07", 1, 5),
    ],
    SECOND,
    THIRD,
];

const CHANGED_BESIDE_A_DIRECTORY: &[Disk] = &[
    &[
        ("s/a", b"\x09", 2, 5),
        ("s/a.unrecoverable/x", b"\x07", 1, 5),
    ],
    SECOND,
    THIRD,
];

const BESIDE_ANOTHER: &[Disk] = &[
    &[("s/a", b"\x01", 1, 5), ("s/b", b"\x07", 1, 5)],
    SECOND,
    THIRD,
];

#[test]
fn what_stands_in_the_way_of_a_file_stays_and_blocks(rt: HostRuntime) -> Result<(), Fail> {
    static CASES: [Case; 5] = [
        // a directory in the place of the file
        Case {
            array: Array {
                disks: A_DIRECTORY,
                ..WHOLE
            },
            left: Some(A_DIRECTORY),
            ..BLOCKED
        },
        // a file in the place of its directory
        Case {
            array: Array {
                disks: NO_DIRECTORY,
                ..WHOLE
            },
            left: Some(NO_DIRECTORY),
            ..BLOCKED
        },
        // a directory in the place of its other name, where it is whole and where it is not
        Case {
            array: Array {
                disks: WHOLE_BESIDE_A_DIRECTORY,
                ..WHOLE
            },
            left: Some(WHOLE_BESIDE_A_DIRECTORY),
            out: "blocked d1:s/a\n\
                  fix: 0 blocks and 0 parities fixed, 1 findings left\n",
            ..BLOCKED
        },
        Case {
            array: Array {
                disks: CHANGED_BESIDE_A_DIRECTORY,
                ..WHOLE
            },
            left: Some(CHANGED_BESIDE_A_DIRECTORY),
            out: "changed d1:s/a recorded 1 1.000000005 found 1 2.000000005\n\
                  blocked d1:s/a\n\
                  fix: 0 blocks and 0 parities fixed, 1 findings left\n",
            ..BLOCKED
        },
        // a file that no record has
        Case {
            array: Array {
                disks: BESIDE_ANOTHER,
                ..WHOLE
            },
            left: Some(BESIDE_ANOTHER),
            ..USUAL
        },
    ];
    each_follows(&rt, rt.alloc(), &SYNCED, &CASES)
}

const RENAMED: Case = Case {
    out: "changed d1:s/a recorded 1 1.000000005 found nothing\n\
          restored d1:s/a\n\
          fix: 0 blocks and 0 parities fixed, 0 findings left\n",
    ..USUAL
};

#[test]
fn a_file_gets_its_bytes_its_size_its_time_and_its_name(rt: HostRuntime) -> Result<(), Fail> {
    static CASES: [Case; 7] = [
        // an earlier fix renamed it: its bytes are right, there are more of them, and they are wrong
        Case {
            array: Array {
                disks: &[&[("s/a.unrecoverable", b"\x01", 7, 5)], SECOND, THIRD],
                ..WHOLE
            },
            ..RENAMED
        },
        Case {
            array: Array {
                disks: &[&[("s/a.unrecoverable", b"\x01xyz", 7, 5)], SECOND, THIRD],
                ..WHOLE
            },
            ..RENAMED
        },
        Case {
            array: Array {
                disks: &[&[("s/a.unrecoverable", b"\x09", 1, 5)], SECOND, THIRD],
                ..WHOLE
            },
            out: "changed d1:s/a recorded 1 1.000000005 found nothing\n\
                  fixed 0 d1:s/a 0\n\
                  restored d1:s/a\n\
                  fix: 1 blocks and 0 parities fixed, 0 findings left\n",
            ..USUAL
        },
        // it was written anew since: what is under the other name stays
        Case {
            array: Array {
                disks: &[
                    &[("s/a", b"\x09", 2, 5), ("s/a.unrecoverable", b"\x08", 3, 5)],
                    SECOND,
                    THIRD,
                ],
                ..WHOLE
            },
            out: "changed d1:s/a recorded 1 1.000000005 found 1 2.000000005\n\
                  fixed 0 d1:s/a 0\n\
                  restored d1:s/a\n\
                  fix: 1 blocks and 0 parities fixed, 0 findings left\n",
            left: Some(&[
                &[("s/a", b"\x01", 1, 5), ("s/a.unrecoverable", b"\x08", 3, 5)],
                SECOND,
                THIRD,
            ]),
            ..USUAL
        },
        // it is longer, empty, and of another time
        Case {
            array: Array {
                disks: &[&[("s/a", b"\x01xyz", 1, 5)], SECOND, THIRD],
                ..WHOLE
            },
            out: "changed d1:s/a recorded 1 1.000000005 found 4 1.000000005\n\
                  restored d1:s/a\n\
                  fix: 0 blocks and 0 parities fixed, 0 findings left\n",
            ..USUAL
        },
        Case {
            array: Array {
                disks: &[&[("s/a", b"", 1, 5)], SECOND, THIRD],
                ..WHOLE
            },
            out: "changed d1:s/a recorded 1 1.000000005 found 0 1.000000005\n\
                  fixed 0 d1:s/a 0\n\
                  restored d1:s/a\n\
                  fix: 1 blocks and 0 parities fixed, 0 findings left\n",
            ..USUAL
        },
        Case {
            array: Array {
                disks: &[&[("s/a", b"\x01", 9, 5)], SECOND, THIRD],
                ..WHOLE
            },
            out: "changed d1:s/a recorded 1 1.000000005 found 1 9.000000005\n\
                  restored d1:s/a\n\
                  fix: 0 blocks and 0 parities fixed, 0 findings left\n",
            ..USUAL
        },
    ];
    each_follows(&rt, rt.alloc(), &SYNCED, &CASES)
}

// No level has the stripe's block, and none is changed.
const UNRECOVERABLE: Case = Case {
    damage: Damage::Cut([0, 1023, 500]),
    status: 1,
    out: "changed d1:s/a recorded 1 1.000000005 found nothing\n\
          unrecoverable 0 d1:s/a 0\n\
          fix: 0 blocks and 0 parities fixed, 1 findings left\n",
    stays: Some(0),
    levels: &[],
    ..USUAL
};

const NO_FILE: &[Disk] = &[&[], SECOND, THIRD];

const OTHER_NAME: &[Disk] = &[&[("s/a.unrecoverable", b"\x08", 3, 5)], SECOND, THIRD];

#[test]
fn what_no_level_restores_keeps_its_bytes_under_its_other_name(
    rt: HostRuntime,
) -> Result<(), Fail> {
    static CASES: [Case; 3] = [
        Case {
            array: Array {
                disks: NO_FILE,
                ..WHOLE
            },
            left: Some(NO_FILE),
            ..UNRECOVERABLE
        },
        Case {
            array: Array {
                disks: OTHER_NAME,
                ..WHOLE
            },
            left: Some(OTHER_NAME),
            ..UNRECOVERABLE
        },
        Case {
            array: Array {
                disks: &[
                    &[("s/a", b"\x09", 2, 5), ("s/a.unrecoverable", b"\x08", 3, 5)],
                    SECOND,
                    THIRD,
                ],
                ..WHOLE
            },
            out: "changed d1:s/a recorded 1 1.000000005 found 1 2.000000005\n\
                  unrecoverable 0 d1:s/a 0\n\
                  renamed d1:s/a\n\
                  fix: 0 blocks and 0 parities fixed, 1 findings left\n",
            left: Some(&[&[("s/a.unrecoverable", b"\x09", 2, 5)], SECOND, THIRD]),
            ..UNRECOVERABLE
        },
    ];
    each_follows(&rt, rt.alloc(), &SYNCED, &CASES)
}

// The file is lost, and comes back.
const RESTORED: Case = Case {
    array: Array {
        disks: NO_FILE,
        ..WHOLE
    },
    out: "changed d1:s/a recorded 1 1.000000005 found nothing\n\
          wrong-parity 0 parity\n\
          fixed 0 d1:s/a 0\n\
          fixed-parity 0 parity\n\
          restored d1:s/a\n\
          fix: 1 blocks and 1 parities fixed, 0 findings left\n",
    ..USUAL
};

// The first level is read by this call.
const UNREAD: Failing = Failing { vault: 3, ..NONE };

#[test]
fn a_level_that_is_missing_short_or_unread_is_not_asked(rt: HostRuntime) -> Result<(), Fail> {
    static CASES: [Case; 5] = [
        Case {
            damage: Damage::Cut([0, 1024, 1024]),
            ..RESTORED
        },
        Case {
            damage: Damage::Cut([500, 1024, 1024]),
            ..RESTORED
        },
        // nothing else is damaged
        Case {
            damage: Damage::Cut([1024, 1023, 0]),
            out: "wrong-parity 0 2-parity\n\
                  wrong-parity 0 3-parity\n\
                  fixed-parity 0 2-parity\n\
                  fixed-parity 0 3-parity\n\
                  fix: 0 blocks and 2 parities fixed, 0 findings left\n",
            ..USUAL
        },
        // where its reading fails, it is not written
        Case {
            failing: UNREAD,
            out: "changed d1:s/a recorded 1 1.000000005 found nothing\n\
                  io-parity 0 parity\n\
                  fixed 0 d1:s/a 0\n\
                  restored d1:s/a\n\
                  fix: 1 blocks and 0 parities fixed, 0 findings left\n",
            ..RESTORED
        },
        Case {
            array: Array {
                disks: NO_FILE,
                ..WHOLE
            },
            damage: Damage::Cut([1024, 0, 0]),
            failing: UNREAD,
            out: "changed d1:s/a recorded 1 1.000000005 found nothing\n\
                  io-parity 0 parity\n\
                  unrecoverable 0 d1:s/a 0\n\
                  fix: 0 blocks and 0 parities fixed, 1 findings left\n",
            left: Some(NO_FILE),
            ..UNRECOVERABLE
        },
    ];
    each_follows(&rt, rt.alloc(), &SYNCED, &CASES)
}
