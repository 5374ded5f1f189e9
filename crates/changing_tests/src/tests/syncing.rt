// Files that change during a sync. A stripe that was not read whole stays pending, and its parity as it was.
use crate::tests::cases::{A, B, Case, K, LARGE, SYNCED, WHOLE, WIDE, WIDE_SUMS, plays};
use crate::tests::disks::{Disk, Runs};
use std::test::Fail;

// The second and the third stripe stay pending.
const PART: Case = Case {
    status: 1,
    left: &[K],
    level: &[(0x11, 1024), (0, 2048), (8, 100), (0, 924)],
    checked: "unsynced 1\nunsynced 2\ncheck: 2 findings\n",
    ..SYNCED
};

const FEWER: Runs = &[(1, 1024), (2, 476)];

const MORE: Runs = &[(1, 1024), (2, 1024), (3, 952), (9, 1000)];

const OTHERS: Runs = &[(7, 3000)];

// Call 4 looks at the file for its second block, and call 5 reads that.
#[test]
fn what_changes_between_two_blocks_stays_pending(rt: HostRuntime) -> Result<(), Fail> {
    static CASES: [Case; 11] = [
        SYNCED,
        Case {
            script: &[(4, "a", None)],
            out: "changed-block 1 d1:a 1 recorded 3000 1.000000005 found nothing got 0\n\
                  changed-block 2 d1:a 2 recorded 3000 1.000000005 found nothing got 0\n\
                  sync: 2 stripes synced, 2 pending\n",
            ..PART
        },
        Case {
            script: &[(4, "a", Some((FEWER, 1)))],
            out: "changed-block 1 d1:a 1 recorded 3000 1.000000005 found 1500 1.000000005 got 476\n\
                  changed-block 2 d1:a 2 recorded 3000 1.000000005 found 1500 1.000000005 got 0\n\
                  sync: 2 stripes synced, 2 pending\n",
            left: &[("a", FEWER, 1), K],
            ..PART
        },
        Case {
            script: &[(4, "a", Some((MORE, 2)))],
            out: "changed-block 1 d1:a 1 recorded 3000 1.000000005 found 4000 2.000000005 got 1024\n\
                  changed-block 2 d1:a 2 recorded 3000 1.000000005 found 4000 2.000000005 got 952\n\
                  sync: 2 stripes synced, 2 pending\n",
            left: &[("a", MORE, 2), K],
            ..PART
        },
        Case {
            script: &[(4, "a", Some((OTHERS, 2)))],
            out: "changed-block 1 d1:a 1 recorded 3000 1.000000005 found 3000 2.000000005 got 1024\n\
                  changed-block 2 d1:a 2 recorded 3000 1.000000005 found 3000 2.000000005 got 952\n\
                  sync: 2 stripes synced, 2 pending\n",
            left: &[("a", OTHERS, 2), K],
            ..PART
        },
        Case {
            script: &[(5, "a", None)],
            out: "changed-block 1 d1:a 1 recorded 3000 1.000000005 found 3000 1.000000005 got 0\n\
                  changed-block 2 d1:a 2 recorded 3000 1.000000005 found nothing got 0\n\
                  sync: 2 stripes synced, 2 pending\n",
            ..PART
        },
        Case {
            script: &[(5, "a", Some((FEWER, 1)))],
            out: "changed-block 1 d1:a 1 recorded 3000 1.000000005 found 3000 1.000000005 got 476\n\
                  changed-block 2 d1:a 2 recorded 3000 1.000000005 found 1500 1.000000005 got 0\n\
                  sync: 2 stripes synced, 2 pending\n",
            left: &[("a", FEWER, 1), K],
            ..PART
        },
        // what came of the second block is what the file held then, and no later look told that it was another
        Case {
            script: &[(5, "a", Some((OTHERS, 2)))],
            out: "changed-block 2 d1:a 2 recorded 3000 1.000000005 found 3000 2.000000005 got 952\n\
                  sync: 3 stripes synced, 1 pending\n",
            left: &[("a", OTHERS, 2), K],
            level: &[(0x11, 1024), (0x27, 1024), (0, 1024), (8, 100), (0, 924)],
            checked: "silent 1 d1:a 1 recorded 2f4440d26b0c9f9557fcd5bdb148c043 \
                      found 7d087eccf6ed4ba323bfd0a4729f83ba\n\
                      unsynced 2\ncheck: 2 findings\n",
            ..PART
        },
        // the parity of what was synced before stays
        Case {
            synced: WHOLE,
            disks: LATER,
            script: &[(4, "a", None)],
            out: "changed-block 1 d1:a 1 recorded 3000 2.000000005 found nothing got 0\n\
                  changed-block 2 d1:a 2 recorded 3000 2.000000005 found nothing got 0\n\
                  sync: 1 stripes synced, 2 pending\n",
            level: &[
                (0x14, 1024),
                (0x22, 1024),
                (0x33, 952),
                (0x30, 72),
                (8, 100),
                (0, 924),
            ],
            later: LATER,
            ..PART
        },
        // a call of the second disk fails besides, which reads its second block
        Case {
            script: &[(6, "a", None)],
            fault: (1, 5),
            out: "io 1 d2:b 1\n\
                  changed-block 2 d1:a 2 recorded 3000 1.000000005 found nothing got 0\n\
                  sync: 2 stripes synced, 2 pending\n",
            ..PART
        },
        Case {
            fault: (1, 4),
            out: "io 1 d2:b 1\nsync: 3 stripes synced, 1 pending\n",
            left: &[A, K],
            level: &[
                (0x11, 1024),
                (0, 1024),
                (0x33, 952),
                (0x30, 72),
                (8, 100),
                (0, 924),
            ],
            checked: "unsynced 1\ncheck: 1 findings\n",
            ..PART
        },
    ];
    plays(&rt, rt.alloc(), &CASES)
}

// The first file as it was written anew after a sync.
const LATER: &[Disk] = &[&[("a", &[(4, 1024), (5, 1024), (6, 952)], 2), K], &[B]];

const LAST_PENDING: Case = Case {
    config: LARGE,
    disks: WIDE,
    status: 1,
    left: &[],
    level: &[(0x11, 1048576), (0, 65536)],
    later: WIDE,
    checked: "unsynced 16\ncheck: 1 findings\n",
    ..SYNCED
};

const WIDE_FEWER: Runs = &[(1, 1048576), (2, 500)];

const WIDE_OTHERS: Runs = &[(7, 1114112)];

const WIDE_MORE: Runs = &[(1, 1048576), (2, 65536), (9, 1000)];

// Call 34 looks at the file for its last block, which is alone in the second window, and call 35 reads that.
#[test]
fn what_changes_between_two_windows_stays_pending(rt: HostRuntime) -> Result<(), Fail> {
    static CASES: [Case; 6] = [
        Case {
            status: 0,
            out: "sync: 17 stripes synced, 0 pending\n",
            left: &[("a", &[(1, 1048576), (2, 65536)], 1)],
            level: WIDE_SUMS,
            checked: "check: 0 findings\n",
            ..LAST_PENDING
        },
        Case {
            script: &[(34, "a", None)],
            out: "changed-block 16 d1:a 16 recorded 1114112 1.000000005 found nothing got 0\n\
                  sync: 16 stripes synced, 1 pending\n",
            ..LAST_PENDING
        },
        Case {
            script: &[(35, "a", None)],
            out: "changed-block 16 d1:a 16 recorded 1114112 1.000000005 found 1114112 1.000000005 got 0\n\
                  sync: 16 stripes synced, 1 pending\n",
            ..LAST_PENDING
        },
        Case {
            script: &[(35, "a", Some((WIDE_FEWER, 1)))],
            out: "changed-block 16 d1:a 16 recorded 1114112 1.000000005 found 1114112 1.000000005 got 500\n\
                  sync: 16 stripes synced, 1 pending\n",
            left: &[("a", WIDE_FEWER, 1)],
            ..LAST_PENDING
        },
        Case {
            script: &[(34, "a", Some((WIDE_OTHERS, 2)))],
            out: "changed-block 16 d1:a 16 recorded 1114112 1.000000005 found 1114112 2.000000005 got 65536\n\
                  sync: 16 stripes synced, 1 pending\n",
            left: &[("a", WIDE_OTHERS, 2)],
            ..LAST_PENDING
        },
        Case {
            script: &[(34, "a", Some((WIDE_MORE, 2)))],
            out: "changed-block 16 d1:a 16 recorded 1114112 1.000000005 found 1115112 2.000000005 got 65536\n\
                  sync: 16 stripes synced, 1 pending\n",
            left: &[("a", WIDE_MORE, 2)],
            ..LAST_PENDING
        },
    ];
    plays(&rt, rt.alloc(), &CASES)
}
