// Files that change during a fix. What is gone when it is to be written is lost, and what is gone when it is to be
// finished is blocked.
use crate::tests::cases::{A, B, CHECKED, Case, K, LARGE, WIDE, WIDE_SUMS, plays};
use crate::tests::disks::{Disk, Runs};
use std::test::Fail;

const FEWER: Runs = &[(1, 1024), (2, 476)];

const MORE: Runs = &[(1, 1024), (2, 1024), (3, 952), (9, 1000)];

const OTHERS: Runs = &[(7, 3000)];

const FLIPPED: Runs = &[(1, 1024), (7, 1024), (3, 952)];

const FIXED: Case = Case {
    words: &["snapraid", "fix", "-c", "FILE"],
    out: "fix: 0 blocks and 0 parities fixed, 0 findings left\n",
    ..CHECKED
};

// The second block has other bytes.
const SILENT: Case = Case {
    disks: &[&[("a", FLIPPED, 1), K], &[B]],
    status: 1,
    left: &[K],
    ..FIXED
};

const WIDE_FIXED: Case = Case {
    config: LARGE,
    synced: WIDE,
    disks: WIDE,
    level: WIDE_SUMS,
    later: WIDE,
    ..FIXED
};

// Calls 2 to 9 look at the blocks and read them, call 10 writes the second, and call 11 sets the stamp.
#[test]
fn what_changes_while_it_is_fixed_is_lost_or_blocked(rt: HostRuntime) -> Result<(), Fail> {
    static CASES: [Case; 15] = [
        Case {
            status: 0,
            out: "silent 1 d1:a 1 recorded 7d087eccf6ed4ba323bfd0a4729f83ba \
                  found 2f4440d26b0c9f9557fcd5bdb148c043\n\
                  fixed 1 d1:a 1\n\
                  restored d1:a\n\
                  fix: 1 blocks and 0 parities fixed, 0 findings left\n",
            left: &[A, K],
            ..SILENT
        },
        // gone before the block is written, and before the stamp is set
        Case {
            script: &[(10, "a", None)],
            out: "silent 1 d1:a 1 recorded 7d087eccf6ed4ba323bfd0a4729f83ba \
                  found 2f4440d26b0c9f9557fcd5bdb148c043\n\
                  unrecoverable 1 d1:a 1\n\
                  blocked d1:a\n\
                  fix: 0 blocks and 0 parities fixed, 2 findings left\n",
            ..SILENT
        },
        Case {
            script: &[(11, "a", None)],
            out: "silent 1 d1:a 1 recorded 7d087eccf6ed4ba323bfd0a4729f83ba \
                  found 2f4440d26b0c9f9557fcd5bdb148c043\n\
                  fixed 1 d1:a 1\n\
                  blocked d1:a\n\
                  fix: 1 blocks and 0 parities fixed, 1 findings left\n",
            ..SILENT
        },
        // gone after it was made and its first block was written: the calls are 4 and 5
        Case {
            disks: &[&[K], &[B]],
            script: &[(6, "a", None)],
            out: "changed d1:a recorded 3000 1.000000005 found nothing\n\
                  fixed 0 d1:a 0\n\
                  unrecoverable 1 d1:a 1\n\
                  unrecoverable 2 d1:a 2\n\
                  blocked d1:a\n\
                  fix: 1 blocks and 0 parities fixed, 3 findings left\n",
            ..SILENT
        },
        // gone before it is renamed back
        Case {
            disks: &[&[("a.unrecoverable", FLIPPED, 9), K], &[B]],
            script: &[(10, "a.unrecoverable", None)],
            out: "changed d1:a recorded 3000 1.000000005 found nothing\n\
                  unrecoverable 1 d1:a 1\n\
                  fix: 0 blocks and 0 parities fixed, 1 findings left\n",
            ..SILENT
        },
        // gone between two readings
        Case {
            script: &[(4, "a", None)],
            status: 1,
            out: "unrecoverable 1 d1:a 1\n\
                  unrecoverable 2 d1:a 2\n\
                  blocked d1:a\n\
                  fix: 0 blocks and 0 parities fixed, 3 findings left\n",
            left: &[K],
            ..FIXED
        },
        // the same, where the level does not give it
        Case {
            disks: &[&[A, K], &[]],
            script: &[(5, "a", None)],
            status: 1,
            out: "changed d2:b recorded 3072 1.000000005 found nothing\n\
                  fixed 0 d2:b 0\n\
                  unrecoverable 1 d1:a 1\n\
                  unrecoverable 1 d2:b 1\n\
                  unrecoverable 2 d1:a 2\n\
                  unrecoverable 2 d2:b 2\n\
                  blocked d1:a\n\
                  renamed d2:b\n\
                  fix: 1 blocks and 0 parities fixed, 5 findings left\n",
            left: &[K],
            ..FIXED
        },
        // what was cut is written again
        Case {
            script: &[(4, "a", Some((FEWER, 1)))],
            out: "fixed 1 d1:a 1\n\
                  fixed 2 d1:a 2\n\
                  restored d1:a\n\
                  fix: 2 blocks and 0 parities fixed, 0 findings left\n",
            ..FIXED
        },
        Case {
            script: &[(5, "a", Some((FEWER, 1)))],
            out: "fixed 1 d1:a 1\n\
                  fixed 2 d1:a 2\n\
                  restored d1:a\n\
                  fix: 2 blocks and 0 parities fixed, 0 findings left\n",
            ..FIXED
        },
        // the recorded bytes are there still, and nobody asks for the size and the stamp again
        Case {
            script: &[(4, "a", Some((MORE, 2)))],
            left: &[("a", MORE, 2), K],
            ..FIXED
        },
        // the first block was read before
        Case {
            script: &[(4, "a", Some((OTHERS, 2)))],
            out: "silent 1 d1:a 1 recorded 7d087eccf6ed4ba323bfd0a4729f83ba \
                  found 2f4440d26b0c9f9557fcd5bdb148c043\n\
                  fixed 1 d1:a 1\n\
                  silent 2 d1:a 2 recorded 1697afb48caf0ea79dcdbb52459c0d67 \
                  found 679614e11df2bc45077c9ab57aa9c3e7\n\
                  fixed 2 d1:a 2\n\
                  restored d1:a\n\
                  fix: 2 blocks and 0 parities fixed, 0 findings left\n",
            left: &[("a", &[(7, 1024), (2, 1024), (3, 952)], 1), K],
            ..FIXED
        },
        // between two windows: call 34 looks at the last block
        Case {
            left: &[("a", &[(1, 1048576), (2, 65536)], 1)],
            ..WIDE_FIXED
        },
        Case {
            script: &[(34, "a", None)],
            status: 1,
            out: "unrecoverable 16 d1:a 16\n\
                  blocked d1:a\n\
                  fix: 0 blocks and 0 parities fixed, 2 findings left\n",
            left: &[],
            ..WIDE_FIXED
        },
        Case {
            script: &[(35, "a", Some((&[(1, 1048576)], 2)))],
            out: "fixed 16 d1:a 16\n\
                  restored d1:a\n\
                  fix: 1 blocks and 0 parities fixed, 0 findings left\n",
            left: &[("a", &[(1, 1048576), (2, 65536)], 1)],
            ..WIDE_FIXED
        },
        // no stripe is bad
        Case {
            words: &["snapraid", "fix", "-c", "FILE", "-e"],
            status: 0,
            left: &[("a", FLIPPED, 1), K],
            ..SILENT
        },
    ];
    plays(&rt, rt.alloc(), &CASES)
}
