// Each call of a scrub that fails, what it leaves, and the next scrub.
use crate::tests::arrays::{BEFORE, FOUND, SCRUBBED};
use crate::tests::contents::{FOUR_SCRUBBED, FOUR_SYNCED};
use snap_top_memory::arrays::{Failing, Left, NONE};
use snap_top_memory::cases::{Case, each_follows, follow};
use snap_top_memory::damage::Damage;
use snap_top_memory::next::{TORN, WRITTEN, has_failed, run_next};
use snap_top_memory::turns::{Calls, Ended, Turns, each_call_fails};
use std::alloc::Global;
use std::test::Fail;
use std::thread::Threads;

static SYNCED_FOUR: Case = BEFORE;

static NEXT: Case = SCRUBBED;

const RIGHT: Ended = (0, "scrub: 1 stripes checked, 0 findings\n", "");

const NO_VAULT: Ended = (3, "", "snapraid: parity or content failed\n");

const NO_OPENER: Ended = (3, "", "snapraid: configuration or opening failed\n");

// The first copy is asked for its size and read, or else the second is. Then each level is read, and four calls save each of
// the three copies. The file of a disk is looked at, and its block read. Nothing is listed. The last line is written at once.
#[test]
fn each_call_of_a_scrub_fails_and_the_next_scrub_is_done(rt: HostRuntime) -> Result<(), Fail> {
    static TURNS: Turns = Turns {
        before: Some(BEFORE),
        whole: SCRUBBED,
        next: SCRUBBED,
    };
    static OBJECTS: [Calls; 8] = [
        Calls {
            first: Failing { opener: 1, ..NONE },
            ends: &[NO_OPENER; 2],
        },
        Calls {
            first: Failing { vault: 1, ..NONE },
            ends: &[
                RIGHT,
                RIGHT,
                (
                    1,
                    "io-parity 0 parity\nscrub: 1 stripes checked, 1 findings\n",
                    "",
                ),
                (
                    1,
                    "io-parity 0 2-parity\nscrub: 1 stripes checked, 1 findings\n",
                    "",
                ),
                NO_VAULT,
                NO_VAULT,
                NO_VAULT,
                NO_VAULT,
                NO_VAULT,
                NO_VAULT,
                NO_VAULT,
                NO_VAULT,
                NO_VAULT,
                NO_VAULT,
                NO_VAULT,
                NO_VAULT,
            ],
        },
        Calls {
            first: Failing { folder: 1, ..NONE },
            ends: &[(1, "io 0 d1:a 0\nscrub: 1 stripes checked, 1 findings\n", ""); 2],
        },
        Calls {
            first: Failing {
                disk: 1,
                folder: 1,
                ..NONE
            },
            ends: &[(1, "io 0 d2:a 0\nscrub: 1 stripes checked, 1 findings\n", ""); 2],
        },
        Calls {
            first: Failing {
                disk: 2,
                folder: 1,
                ..NONE
            },
            ends: &[(1, "io 0 d3:a 0\nscrub: 1 stripes checked, 1 findings\n", ""); 2],
        },
        Calls {
            first: Failing {
                disk: 3,
                folder: 1,
                ..NONE
            },
            ends: &[(1, "io 0 d4:a 0\nscrub: 1 stripes checked, 1 findings\n", ""); 2],
        },
        Calls {
            first: Failing { out: 1, ..NONE },
            ends: &[(3, "", "snapraid: output failed\n")],
        },
        Calls {
            first: Failing { err: 1, ..NONE },
            ends: &[],
        },
    ];
    each_call_fails(&rt, rt.alloc(), &TURNS, &OBJECTS, TORN)
}

// A block is not read.
const FIRST_UNREAD: Case = Case {
    out: "io 0 d1:a 0\nscrub: 1 stripes checked, 1 findings\n",
    ..FOUND
};

const SECOND_UNREAD: Case = Case {
    out: "io 0 d2:a 0\nscrub: 1 stripes checked, 1 findings\n",
    ..FOUND
};

const THIRD_UNREAD: Case = Case {
    out: "io 0 d3:a 0\nscrub: 1 stripes checked, 1 findings\n",
    ..FOUND
};

const FOURTH_UNREAD: Case = Case {
    out: "io 0 d4:a 0\nscrub: 1 stripes checked, 1 findings\n",
    ..FOUND
};

#[test]
fn what_is_not_read_makes_its_stripe_bad(rt: HostRuntime) -> Result<(), Fail> {
    static CASES: [Case; 12] = [
        Case {
            failing: Failing { folder: 1, ..NONE },
            ..FIRST_UNREAD
        },
        Case {
            failing: Failing { folder: 2, ..NONE },
            ..FIRST_UNREAD
        },
        Case {
            failing: Failing {
                disk: 1,
                folder: 1,
                ..NONE
            },
            ..SECOND_UNREAD
        },
        Case {
            failing: Failing {
                disk: 1,
                folder: 2,
                ..NONE
            },
            ..SECOND_UNREAD
        },
        Case {
            failing: Failing {
                disk: 2,
                folder: 1,
                ..NONE
            },
            ..THIRD_UNREAD
        },
        Case {
            failing: Failing {
                disk: 2,
                folder: 2,
                ..NONE
            },
            ..THIRD_UNREAD
        },
        Case {
            failing: Failing {
                disk: 3,
                folder: 1,
                ..NONE
            },
            ..FOURTH_UNREAD
        },
        Case {
            failing: Failing {
                disk: 3,
                folder: 2,
                ..NONE
            },
            ..FOURTH_UNREAD
        },
        Case {
            failing: Failing { vault: 1, ..NONE },
            ..SCRUBBED
        },
        Case {
            failing: Failing { vault: 2, ..NONE },
            ..SCRUBBED
        },
        Case {
            failing: Failing { vault: 3, ..NONE },
            out: "io-parity 0 parity\nscrub: 1 stripes checked, 1 findings\n",
            ..FOUND
        },
        Case {
            failing: Failing { vault: 4, ..NONE },
            out: "io-parity 0 2-parity\nscrub: 1 stripes checked, 1 findings\n",
            ..FOUND
        },
    ];
    each_follows(&rt, rt.alloc(), &SYNCED_FOUR, &CASES)
}

// A call of the vault that saves fails.
const UNSAVED: Case = Case {
    status: 3,
    out: "",
    err: "snapraid: parity or content failed\n",
    contents: &[],
    ..SCRUBBED
};

// Whether a copy is what may stand after the failure of a call: the old one up to its publication, which is the last of
// the four calls that save it, and then the new one.
fn may_stand(content: &[u8], copy: u32, call: u64) -> bool {
    let published = 8 + 4 * u64::from(copy);
    let before = call <= published && content == FOUR_SYNCED;
    let after = call >= published && content == FOUR_SCRUBBED;
    before || after
}

fn all_may_stand(alloc: Global, left: &mut Left, call: u64) -> Result<bool, Fail> {
    for copy in 0..3 {
        if !may_stand(left.content(alloc, copy)?.as_slice(), copy, call) {
            return Ok(false);
        }
    }
    Ok(true)
}

// Whether that is so, and the next scrub over what these bytes pick is done.
fn save_fails<R: Threads + Sync>(
    rt: &R,
    alloc: Global,
    call: u64,
    choice: &[u8],
) -> Result<bool, Fail> {
    let before = follow(rt, alloc, call, None, &SYNCED_FOUR)?;
    let mut whole = before.reopened()?;
    let mut case = UNSAVED;
    case.failing.vault = call;
    let mut left = follow(rt, alloc, call, Some(before), &case)?;
    if !has_failed(&left) || !all_may_stand(alloc, &mut left, call)? {
        return Ok(false);
    }
    run_next(rt, alloc, call, left, &mut whole, &NEXT, choice)?;
    Ok(true)
}

// Four calls save each of the three copies.
#[test]
fn each_call_that_saves_leaves_old_copies_or_new_ones(rt: HostRuntime) -> Result<(), Fail> {
    let alloc = rt.alloc();
    for call in 5..17 {
        assert!(rt; save_fails(&rt, alloc, call, WRITTEN)?, "{call}");
        assert!(rt; save_fails(&rt, alloc, call, TORN)?, "{call}, torn");
    }
    Ok(())
}

// The opener gives nothing.
const UNOPENED: Case = Case {
    status: 3,
    out: "",
    err: "snapraid: configuration or opening failed\n",
    is_opened: false,
    stays: None,
    contents: &[],
    ..SCRUBBED
};

// A level is wrong. A line is written at once.
const UNTOLD: Case = Case {
    damage: Damage::Byte(0, 0, 1),
    status: 3,
    err: "snapraid: output failed\n",
    ..FOUND
};

#[test]
fn a_failed_output_stops_its_lines_alone(rt: HostRuntime) -> Result<(), Fail> {
    static CASES: [Case; 5] = [
        Case {
            failing: Failing { opener: 1, ..NONE },
            ..UNOPENED
        },
        Case {
            failing: Failing { opener: 2, ..NONE },
            ..UNOPENED
        },
        Case {
            failing: Failing { out: 1, ..NONE },
            status: 3,
            out: "",
            err: "snapraid: output failed\n",
            ..SCRUBBED
        },
        Case {
            failing: Failing { out: 1, ..NONE },
            out: "",
            ..UNTOLD
        },
        Case {
            failing: Failing { out: 2, ..NONE },
            out: "wrong-parity 0 parity\n",
            ..UNTOLD
        },
    ];
    each_follows(&rt, rt.alloc(), &SYNCED_FOUR, &CASES)
}
