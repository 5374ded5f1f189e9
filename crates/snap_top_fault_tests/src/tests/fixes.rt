// Each call of each object fails in turn in a fix of four disks, of which two are lost.
use crate::tests::calls::{
    ERRORS, FIRST_DISK, FIRST_FAILED, FOURTH_DISK, NO_FIRST, NO_FOURTH, NO_SECOND, NO_THIRD,
    OPENER, OUTPUT, SECOND_DISK, SECOND_FAILED, THIRD_DISK, UNOPENED, VAULT, WHOLE,
};
use snap_top_memory::arrays::{Array, Disk};
use snap_top_memory::cases::{Case, each_follows};
use snap_top_memory::four::{FIRST, FOUR, FOURTH, SECOND, THIRD};
use snap_top_memory::next::WRITTEN;
use snap_top_memory::turns::{Calls, Ended, Turns, each_call_fails};
use std::test::Fail;

const DISKS: &[Disk] = &[FIRST, SECOND, THIRD, FOURTH];

const ALL_RESTORED: &str = "changed d1:a recorded 1 1.000000005 found nothing\n\
                            changed d2:a recorded 1 1.000000005 found nothing\n\
                            fixed 0 d1:a 0\n\
                            fixed 0 d2:a 0\n\
                            restored d1:a\n\
                            restored d2:a\n\
                            fix: 2 blocks and 0 parities fixed, 0 findings left\n";

// A fix of the four disks, of which the first two are lost.
const FIXED: Case = Case {
    words: &["snapraid", "fix", "-c", "FILE"],
    array: Array {
        disks: &[&[], &[], THIRD, FOURTH],
        ..FOUR
    },
    out: ALL_RESTORED,
    left: Some(DISKS),
    ..WHOLE
};

const BOTH_FIXED: Ended = (0, ALL_RESTORED, "");

// The same where one more block is not read.
const FOURTH_UNREAD: Ended = (
    1,
    "changed d1:a recorded 1 1.000000005 found nothing\n\
     changed d2:a recorded 1 1.000000005 found nothing\n\
     io 0 d4:a 0\n\
     unrecoverable 0 d1:a 0\n\
     unrecoverable 0 d2:a 0\n\
     unrecoverable 0 d4:a 0\n\
     renamed d4:a\n\
     fix: 0 blocks and 0 parities fixed, 3 findings left\n",
    "",
);

const THIRD_UNREAD: Ended = (
    1,
    "changed d1:a recorded 1 1.000000005 found nothing\n\
     changed d2:a recorded 1 1.000000005 found nothing\n\
     io 0 d3:a 0\n\
     unrecoverable 0 d1:a 0\n\
     unrecoverable 0 d2:a 0\n\
     unrecoverable 0 d3:a 0\n\
     renamed d3:a\n\
     fix: 0 blocks and 0 parities fixed, 3 findings left\n",
    "",
);

// Where a level is not read, one is too few.
const FIRST_LEVEL_UNREAD: Ended = (
    1,
    "changed d1:a recorded 1 1.000000005 found nothing\n\
     changed d2:a recorded 1 1.000000005 found nothing\n\
     io-parity 0 parity\n\
     unrecoverable 0 d1:a 0\n\
     unrecoverable 0 d2:a 0\n\
     fix: 0 blocks and 0 parities fixed, 2 findings left\n",
    "",
);

const SECOND_LEVEL_UNREAD: Ended = (
    1,
    "changed d1:a recorded 1 1.000000005 found nothing\n\
     changed d2:a recorded 1 1.000000005 found nothing\n\
     io-parity 0 2-parity\n\
     unrecoverable 0 d1:a 0\n\
     unrecoverable 0 d2:a 0\n\
     fix: 0 blocks and 0 parities fixed, 2 findings left\n",
    "",
);

// A file is not made, or not written, or not finished.
const FIRST_UNMADE: Ended = (
    3,
    "changed d1:a recorded 1 1.000000005 found nothing\n\
     changed d2:a recorded 1 1.000000005 found nothing\n",
    FIRST_FAILED,
);

const FIRST_UNFINISHED: Ended = (
    3,
    "changed d1:a recorded 1 1.000000005 found nothing\n\
     changed d2:a recorded 1 1.000000005 found nothing\n\
     fixed 0 d1:a 0\n\
     fixed 0 d2:a 0\n",
    FIRST_FAILED,
);

const SECOND_UNMADE: Ended = (
    3,
    "changed d1:a recorded 1 1.000000005 found nothing\n\
     changed d2:a recorded 1 1.000000005 found nothing\n\
     fixed 0 d1:a 0\n",
    SECOND_FAILED,
);

const SECOND_UNFINISHED: Ended = (
    3,
    "changed d1:a recorded 1 1.000000005 found nothing\n\
     changed d2:a recorded 1 1.000000005 found nothing\n\
     fixed 0 d1:a 0\n\
     fixed 0 d2:a 0\n\
     restored d1:a\n",
    SECOND_FAILED,
);

const OUTPUT_FAILED: &str = "snapraid: output failed\n";

// A line is written at once. Where one is not written, those after it are left out.
const TOLD_IN_PART: [Ended; 7] = [
    (3, "", OUTPUT_FAILED),
    (
        3,
        "changed d1:a recorded 1 1.000000005 found nothing\n",
        OUTPUT_FAILED,
    ),
    (
        3,
        "changed d1:a recorded 1 1.000000005 found nothing\n\
         changed d2:a recorded 1 1.000000005 found nothing\n",
        OUTPUT_FAILED,
    ),
    (
        3,
        "changed d1:a recorded 1 1.000000005 found nothing\n\
         changed d2:a recorded 1 1.000000005 found nothing\n\
         fixed 0 d1:a 0\n",
        OUTPUT_FAILED,
    ),
    (
        3,
        "changed d1:a recorded 1 1.000000005 found nothing\n\
         changed d2:a recorded 1 1.000000005 found nothing\n\
         fixed 0 d1:a 0\n\
         fixed 0 d2:a 0\n",
        OUTPUT_FAILED,
    ),
    (
        3,
        "changed d1:a recorded 1 1.000000005 found nothing\n\
         changed d2:a recorded 1 1.000000005 found nothing\n\
         fixed 0 d1:a 0\n\
         fixed 0 d2:a 0\n\
         restored d1:a\n",
        OUTPUT_FAILED,
    ),
    (
        3,
        "changed d1:a recorded 1 1.000000005 found nothing\n\
         changed d2:a recorded 1 1.000000005 found nothing\n\
         fixed 0 d1:a 0\n\
         fixed 0 d2:a 0\n\
         restored d1:a\n\
         restored d2:a\n",
        OUTPUT_FAILED,
    ),
];

// A lost disk is listed, and its file made, written and given its stamp. One that is there is listed, and its file looked
// at and read.
#[test]
fn each_call_of_a_fix_of_four_disks_fails_and_the_next_fix_restores_all(
    rt: HostRuntime,
) -> Result<(), Fail> {
    static TURNS: Turns = Turns {
        before: Some(WHOLE),
        whole: FIXED,
        next: FIXED,
    };
    static OBJECTS: [Calls; 8] = [
        Calls {
            first: OPENER,
            ends: &[UNOPENED, UNOPENED],
        },
        Calls {
            first: VAULT,
            ends: &[
                BOTH_FIXED,
                BOTH_FIXED,
                FIRST_LEVEL_UNREAD,
                SECOND_LEVEL_UNREAD,
            ],
        },
        Calls {
            first: FIRST_DISK,
            ends: &[NO_FIRST, FIRST_UNMADE, FIRST_UNMADE, FIRST_UNFINISHED],
        },
        Calls {
            first: SECOND_DISK,
            ends: &[NO_SECOND, SECOND_UNMADE, SECOND_UNMADE, SECOND_UNFINISHED],
        },
        Calls {
            first: THIRD_DISK,
            ends: &[NO_THIRD, THIRD_UNREAD, THIRD_UNREAD],
        },
        Calls {
            first: FOURTH_DISK,
            ends: &[NO_FOURTH, FOURTH_UNREAD, FOURTH_UNREAD],
        },
        Calls {
            first: OUTPUT,
            ends: &TOLD_IN_PART,
        },
        Calls {
            first: ERRORS,
            ends: &[],
        },
    ];
    // all is restored without a line
    static UNTOLD: [Case; 1] = [Case {
        failing: OUTPUT,
        status: 3,
        out: "",
        err: OUTPUT_FAILED,
        ..FIXED
    }];
    let alloc = rt.alloc();
    each_call_fails(&rt, alloc, &TURNS, &OBJECTS, WRITTEN)?;
    each_follows(&rt, alloc, &WHOLE, &UNTOLD)
}
