// An exercise opens nothing, so it needs no opener that works.
use crate::tests::usual::REFUSED;
use snap_top_memory::arrays::{Failing, NONE};
use snap_top_memory::cases::{Case, plays};
use std::test::Fail;

const EXERCISED: Case = Case {
    words: &["snapraid", "exercise", "3"],
    failing: Failing { opener: 1, ..NONE },
    status: 0,
    out: "exercise 3: 32 files, 33600 bytes, 6 stripes\n\
          sync: 6 stripes synced, 0 pending\n\
          fix: 15 blocks and 0 parities fixed, 0 findings left\n\
          check: 0 findings\n\
          trees equal\n",
    ..REFUSED
};

#[test]
fn exercises_over_an_opener_that_fails(rt: HostRuntime) -> Result<(), Fail> {
    static CASES: [Case; 3] = [
        EXERCISED,
        Case {
            words: &["snapraid", "-c", "NONE", "exercise", "3", "-l", "LOG"],
            ..EXERCISED
        },
        Case {
            failing: Failing {
                opener: 1,
                out: 1,
                ..NONE
            },
            status: 3,
            out: "",
            err: "snapraid: output failed\n",
            ..EXERCISED
        },
    ];
    plays(&rt, rt.alloc(), &CASES)
}
