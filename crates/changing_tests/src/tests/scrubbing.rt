// Files that change during a scrub. What is not there when it is read is a changed block, which marks nothing.
use crate::tests::cases::{CHECKED, Case, K, LARGE, WIDE, WIDE_SUMS, plays};
use crate::tests::disks::Runs;
use std::test::Fail;

const FEWER: Runs = &[(1, 1024), (2, 476)];

const OTHERS: Runs = &[(7, 3000)];

// All stripes are checked, and then the bad ones, over the files as they were synced.
const SCRUBBED: Case = Case {
    words: &["snapraid", "scrub", "-c", "FILE", "-p", "full"],
    out: "scrub: 4 stripes checked, 0 findings\n",
    next: &["snapraid", "scrub", "-c", "FILE", "-p", "bad"],
    checked: "scrub: 0 stripes checked, 0 findings\n",
    ..CHECKED
};

const FOUND: Case = Case {
    status: 1,
    left: &[K],
    ..SCRUBBED
};

// Call 3 looks at the file for its second block, and call 4 reads that.
#[test]
fn what_changes_while_it_is_scrubbed_is_told(rt: HostRuntime) -> Result<(), Fail> {
    static CASES: [Case; 10] = [
        SCRUBBED,
        Case {
            script: &[(3, "a", None)],
            out: "changed-block 1 d1:a 1 recorded 3000 1.000000005 found nothing got 0\n\
                  changed-block 2 d1:a 2 recorded 3000 1.000000005 found nothing got 0\n\
                  scrub: 4 stripes checked, 2 findings\n",
            ..FOUND
        },
        Case {
            script: &[(4, "a", None)],
            out: "changed-block 1 d1:a 1 recorded 3000 1.000000005 found 3000 1.000000005 got 0\n\
                  changed-block 2 d1:a 2 recorded 3000 1.000000005 found nothing got 0\n\
                  scrub: 4 stripes checked, 2 findings\n",
            ..FOUND
        },
        Case {
            script: &[(4, "a", Some((FEWER, 1)))],
            out: "changed-block 1 d1:a 1 recorded 3000 1.000000005 found 3000 1.000000005 got 476\n\
                  changed-block 2 d1:a 2 recorded 3000 1.000000005 found 1500 1.000000005 got 0\n\
                  scrub: 4 stripes checked, 2 findings\n",
            left: &[("a", FEWER, 1), K],
            ..FOUND
        },
        // it was as recorded when it was looked at, and other bytes came
        Case {
            script: &[(4, "a", Some((OTHERS, 2)))],
            out: "silent 1 d1:a 1 recorded 7d087eccf6ed4ba323bfd0a4729f83ba \
                  found 2f4440d26b0c9f9557fcd5bdb148c043\n\
                  changed-block 2 d1:a 2 recorded 3000 1.000000005 found 3000 2.000000005 got 952\n\
                  scrub: 4 stripes checked, 2 findings\n",
            left: &[("a", OTHERS, 2), K],
            checked: "scrub: 1 stripes checked, 0 findings\n",
            ..FOUND
        },
        Case {
            script: &[(3, "a", Some((OTHERS, 1)))],
            out: "silent 1 d1:a 1 recorded 7d087eccf6ed4ba323bfd0a4729f83ba \
                  found 2f4440d26b0c9f9557fcd5bdb148c043\n\
                  silent 2 d1:a 2 recorded 1697afb48caf0ea79dcdbb52459c0d67 \
                  found 679614e11df2bc45077c9ab57aa9c3e7\n\
                  scrub: 4 stripes checked, 2 findings\n",
            left: &[("a", OTHERS, 1), K],
            checked: "scrub: 2 stripes checked, 0 findings\n",
            ..FOUND
        },
        // a call of the second disk fails besides, which reads its second block
        Case {
            script: &[(5, "a", None)],
            fault: (1, 4),
            out: "io 1 d2:b 1\n\
                  changed-block 2 d1:a 2 recorded 3000 1.000000005 found nothing got 0\n\
                  scrub: 4 stripes checked, 2 findings\n",
            checked: "scrub: 1 stripes checked, 0 findings\n",
            ..FOUND
        },
        // between two windows
        Case {
            config: LARGE,
            synced: WIDE,
            disks: WIDE,
            script: &[(33, "a", None)],
            out: "changed-block 16 d1:a 16 recorded 1114112 1.000000005 found nothing got 0\n\
                  scrub: 17 stripes checked, 1 findings\n",
            left: &[],
            level: WIDE_SUMS,
            later: WIDE,
            ..FOUND
        },
        Case {
            config: LARGE,
            synced: WIDE,
            disks: WIDE,
            script: &[(34, "a", Some((&[(1, 1048576), (2, 500)], 1)))],
            out: "changed-block 16 d1:a 16 recorded 1114112 1.000000005 found 1114112 1.000000005 got 500\n\
                  scrub: 17 stripes checked, 1 findings\n",
            left: &[("a", &[(1, 1048576), (2, 500)], 1)],
            level: WIDE_SUMS,
            later: WIDE,
            ..FOUND
        },
        // eight calls are all that the disk gets
        Case {
            script: &[(9, "a", None)],
            left: &[K],
            ..SCRUBBED
        },
    ];
    plays(&rt, rt.alloc(), &CASES)
}
