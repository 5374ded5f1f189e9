// Files that change during a check. What is not there when it is read is damaged, and lost where the level does not
// give it.
use crate::tests::cases::{A, CHECKED, Case, K, LARGE, WIDE, WIDE_SUMS, plays};
use crate::tests::disks::{Disk, Runs};
use std::test::Fail;

const FEWER: Runs = &[(1, 1024), (2, 476)];

const MORE: Runs = &[(1, 1024), (2, 1024), (3, 952), (9, 1000)];

const OTHERS: Runs = &[(7, 3000)];

// The second disk is lost, so that the level gives nothing of the first.
const HALF: &[Disk] = &[&[A, K], &[]];

const LOST: Case = Case {
    disks: HALF,
    status: 1,
    out: "changed d2:b recorded 3072 1.000000005 found nothing\n\
          unrecoverable 1 d1:a 1\n\
          unrecoverable 1 d2:b 1\n\
          unrecoverable 2 d1:a 2\n\
          unrecoverable 2 d2:b 2\n\
          check: 5 findings\n",
    left: &[K],
    ..CHECKED
};

const TWO_SILENT: &str = "silent 1 d1:a 1 recorded 7d087eccf6ed4ba323bfd0a4729f83ba \
    found 2f4440d26b0c9f9557fcd5bdb148c043\n\
    silent 2 d1:a 2 recorded 1697afb48caf0ea79dcdbb52459c0d67 \
    found 679614e11df2bc45077c9ab57aa9c3e7\n\
    check: 2 findings\n";

const SILENT: Case = Case {
    status: 1,
    out: TWO_SILENT,
    left: &[("a", OTHERS, 2), K],
    ..CHECKED
};

// Call 4 looks at the file for its second block, and call 5 reads that.
#[test]
fn what_changes_while_it_is_checked_is_damaged(rt: HostRuntime) -> Result<(), Fail> {
    static CASES: [Case; 16] = [
        CHECKED,
        // the level gives what is gone, and the listing had it
        Case {
            script: &[(4, "a", None)],
            left: &[K],
            ..CHECKED
        },
        Case {
            script: &[(4, "a", Some((OTHERS, 2)))],
            ..SILENT
        },
        Case {
            script: &[(5, "a", Some((OTHERS, 2)))],
            ..SILENT
        },
        Case {
            words: &["snapraid", "check", "-c", "FILE", "-a"],
            script: &[(4, "a", Some((OTHERS, 2)))],
            ..SILENT
        },
        Case {
            words: &["snapraid", "check", "-c", "FILE", "-a"],
            script: &[(4, "a", None)],
            left: &[K],
            ..CHECKED
        },
        Case {
            script: &[(4, "a", None)],
            ..LOST
        },
        Case {
            script: &[(5, "a", None)],
            ..LOST
        },
        Case {
            script: &[(4, "a", Some((FEWER, 1)))],
            left: &[("a", FEWER, 1), K],
            ..LOST
        },
        Case {
            script: &[(5, "a", Some((FEWER, 1)))],
            left: &[("a", FEWER, 1), K],
            ..LOST
        },
        // the recorded bytes are there still
        Case {
            script: &[(4, "a", Some((MORE, 2)))],
            out: "changed d2:b recorded 3072 1.000000005 found nothing\ncheck: 1 findings\n",
            left: &[("a", MORE, 2), K],
            ..LOST
        },
        // between two windows
        Case {
            config: LARGE,
            synced: WIDE,
            disks: &[&[("a", &[(1, 1048576), (2, 65536)], 1)], &[]],
            script: &[(34, "a", None)],
            out: "changed d2:b recorded 1114112 1.000000005 found nothing\n\
                  unrecoverable 16 d1:a 16\n\
                  unrecoverable 16 d2:b 16\n\
                  check: 3 findings\n",
            left: &[],
            level: WIDE_SUMS,
            later: WIDE,
            ..LOST
        },
        // the look fails, and the reading
        Case {
            fault: (0, 4),
            status: 1,
            out: "io 1 d1:a 1\ncheck: 1 findings\n",
            ..CHECKED
        },
        Case {
            fault: (0, 5),
            status: 1,
            out: "io 1 d1:a 1\ncheck: 1 findings\n",
            ..CHECKED
        },
        Case {
            fault: (0, 5),
            out: "changed d2:b recorded 3072 1.000000005 found nothing\n\
                  io 1 d1:a 1\n\
                  unrecoverable 1 d1:a 1\n\
                  unrecoverable 1 d2:b 1\n\
                  check: 4 findings\n",
            left: &[A, K],
            ..LOST
        },
        // no stripe is bad
        Case {
            words: &["snapraid", "check", "-c", "FILE", "-e"],
            disks: &[&[("a", OTHERS, 1), K], &[]],
            left: &[("a", OTHERS, 1), K],
            ..CHECKED
        },
    ];
    plays(&rt, rt.alloc(), &CASES)
}
