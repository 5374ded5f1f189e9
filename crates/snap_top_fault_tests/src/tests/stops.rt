// A sync that is stopped after each of its calls of the vault, and the next ones.
use crate::tests::stopping::{Known, Stops, plays_stops};
use disk_memory::MemVault;
use snap_top_memory::arrays::{
    Array, FIVE, Failing, Left, NONE, SYNC, content, limited, parity, picking, run_over, vault,
};
use snap_top_memory::cases::{Case, SYNCED, each_follows, plays};
use snap_top_memory::contents::{FIVE_PENDING, FIVE_SYNCED, FOUR_OF_FIVE, TWO_OF_FIVE};
use std::alloc::Global;
use std::test::Fail;
use std::thread::Threads;

const TWO_COPIES: Array = Array {
    config: "blocksize 1\nparity p\ncontent content\ncontent copy\ndata d1 d\n",
    copies: 2,
    ..FIVE
};

/// What content may be left, with as many stripes synced. The sum of a stripe is the block of the one disk.
pub const KNOWN: &[Known] = &[
    Known {
        content: b"",
        sums: &[],
    },
    Known {
        content: FIVE_PENDING,
        sums: &[],
    },
    Known {
        content: TWO_OF_FIVE,
        sums: &[(0, b"a"), (1, b"b")],
    },
    Known {
        content: FOUR_OF_FIVE,
        sums: &[(0, b"a"), (1, b"b"), (2, b"c"), (3, b"d")],
    },
    Known {
        content: FIVE_SYNCED,
        sums: &[(0, b"a"), (1, b"b"), (2, b"c"), (3, b"d"), (4, b"e")],
    },
];

// Five stripes are synced.
const DONE: Case = Case {
    array: FIVE,
    out: "sync: 5 stripes synced, 0 pending\n",
    contents: &[FIVE_SYNCED],
    levels: &[&[b"a", b"b", b"c", b"d", b"e"]],
    ..SYNCED
};

// Two copies are looked for, eight calls save, two set the length; then come five writes, a sync, and eight calls to
// save.
#[test]
fn the_next_sync_ends_as_one_never_stopped(rt: HostRuntime) -> Result<(), Fail> {
    static STOPS: Stops = Stops {
        before: None,
        whole: Case {
            array: TWO_COPIES,
            contents: &[FIVE_SYNCED, FIVE_SYNCED],
            ..DONE
        },
        calls: 26,
        known: KNOWN,
    };
    plays_stops(&rt, rt.alloc(), &STOPS)
}

// Whether both copies call all stripes pending.
fn are_pending(alloc: Global, vault: &mut MemVault) -> Result<bool, Fail> {
    Ok(
        content(alloc, vault, 0)?.as_slice() == FIVE_PENDING
            && content(alloc, vault, 1)?.as_slice() == FIVE_PENDING,
    )
}

// Whether that is so in what may be left, and parity has this byte everywhere.
fn leaves_any(alloc: Global, left: &Left, byte: u8) -> Result<bool, Fail> {
    let choice = picking(alloc, byte)?;
    let mut image = left.stopped(choice.as_slice())?;
    let level = parity(alloc, &mut image, 0)?;
    Ok(
        level.len() == 5120
            && level.iter().all(|other| *other == byte)
            && are_pending(alloc, &mut image)?,
    )
}

// Whether the next sync over it is done, and says just that.
fn all_are_synced_next<R: Threads + Sync>(
    rt: &R,
    alloc: Global,
    left: &Left,
    byte: u8,
) -> Result<bool, Fail> {
    let choice = picking(alloc, byte)?;
    let next = run_over(
        rt,
        alloc,
        SYNC,
        TWO_COPIES,
        left.stopped(choice.as_slice())?,
    )?;
    Ok(next.is(0, DONE.out, ""))
}

// The fourteenth call is the second write.
#[test]
fn a_stop_within_the_second_write_leaves_any_parity(rt: HostRuntime) -> Result<(), Fail> {
    let alloc = rt.alloc();
    let vault = limited(vault(alloc, TWO_COPIES)?, 13);
    let left = run_over(&rt, alloc, DONE.words, TWO_COPIES, vault)?;
    for byte in [1, 0x5a, 0xff] {
        assert!(rt; leaves_any(alloc, &left, byte)?, "{byte}");
        assert!(rt; all_are_synced_next(&rt, alloc, &left, byte)?, "{byte}");
    }
    Ok(())
}

const AFTER_TWO_STRIPES: &[&str] = &["snapraid", "sync", "-c", "FILE", "--save-every", "2"];

// A checkpoint after each two stripes.
const AFTER_TWO: Case = Case {
    words: AFTER_TWO_STRIPES,
    ..DONE
};

// It is stopped, and this is what is in the content copy then.
const STOPPED: Case = Case {
    status: 3,
    out: "",
    err: "snapraid: parity or content failed\n",
    levels: &[],
    ..AFTER_TWO
};

// Calls with one copy: one looks for it, four save, two set the length; then come two writes, a sync and four to
// save, the same again, and a write, a sync and four to save.
#[test]
fn each_checkpoint_is_sound_within_and_after(rt: HostRuntime) -> Result<(), Fail> {
    static STOPS: Stops = Stops {
        before: None,
        whole: AFTER_TWO,
        calls: 27,
        known: KNOWN,
    };
    // the first call that fails
    static CASES: [Case; 6] = [
        Case {
            failing: Failing {
                vault: 14,
                stops: true,
                ..NONE
            },
            contents: &[FIVE_PENDING],
            ..STOPPED
        },
        Case {
            failing: Failing {
                vault: 15,
                stops: true,
                ..NONE
            },
            contents: &[TWO_OF_FIVE],
            ..STOPPED
        },
        Case {
            failing: Failing {
                vault: 21,
                stops: true,
                ..NONE
            },
            contents: &[TWO_OF_FIVE],
            ..STOPPED
        },
        Case {
            failing: Failing {
                vault: 22,
                stops: true,
                ..NONE
            },
            contents: &[FOUR_OF_FIVE],
            ..STOPPED
        },
        Case {
            failing: Failing {
                vault: 27,
                stops: true,
                ..NONE
            },
            contents: &[FOUR_OF_FIVE],
            ..STOPPED
        },
        Case {
            failing: Failing {
                vault: 28,
                stops: true,
                ..NONE
            },
            ..AFTER_TWO
        },
    ];
    let alloc = rt.alloc();
    plays_stops(&rt, alloc, &STOPS)?;
    plays(&rt, alloc, &CASES)
}

const FOUR: Array = Array {
    disks: &[&[
        ("a", b"a", 1, 5),
        ("b", b"b", 1, 5),
        ("c", b"c", 1, 5),
        ("d", b"d", 1, 5),
    ]],
    ..FIVE
};

// `autosave` is in units of 10^9 bytes.
const AUTOSAVE: Array = Array {
    config: "blocksize 1\nparity p\ncontent content\ndata d1 d\nautosave 1\n",
    ..FIVE
};

const AFTER_FIVE_STRIPES: &[&str] = &["snapraid", "sync", "-c", "FILE", "--save-every", "5"];

// It ends, and of what it leaves nothing is looked at.
const ENDED: Case = Case {
    contents: &[],
    levels: &[],
    ..DONE
};

// The same where it is stopped.
const BROKEN: Case = Case {
    words: SYNC,
    contents: &[],
    ..STOPPED
};

// One call looks for the content, or two look for it and read it. A save takes four calls, a checkpoint one more, a
// stripe one, and the length two or, where it is right, one. All is done with so many calls, and with one fewer it is
// not.
#[test]
fn a_checkpoint_after_as_many_stripes_as_are_asked_for(rt: HostRuntime) -> Result<(), Fail> {
    // the first call that fails
    static CASES: [Case; 10] = [
        Case {
            failing: Failing {
                vault: 18,
                stops: true,
                ..NONE
            },
            ..ENDED
        },
        Case {
            failing: Failing {
                vault: 17,
                stops: true,
                ..NONE
            },
            ..BROKEN
        },
        Case {
            words: AFTER_FIVE_STRIPES,
            failing: Failing {
                vault: 18,
                stops: true,
                ..NONE
            },
            ..ENDED
        },
        Case {
            words: AFTER_FIVE_STRIPES,
            failing: Failing {
                vault: 17,
                stops: true,
                ..NONE
            },
            ..BROKEN
        },
        Case {
            words: AFTER_TWO_STRIPES,
            failing: Failing {
                vault: 28,
                stops: true,
                ..NONE
            },
            ..ENDED
        },
        Case {
            words: AFTER_TWO_STRIPES,
            failing: Failing {
                vault: 27,
                stops: true,
                ..NONE
            },
            ..BROKEN
        },
        Case {
            words: AFTER_TWO_STRIPES,
            array: FOUR,
            failing: Failing {
                vault: 22,
                stops: true,
                ..NONE
            },
            out: "sync: 4 stripes synced, 0 pending\n",
            ..ENDED
        },
        Case {
            words: AFTER_TWO_STRIPES,
            array: FOUR,
            failing: Failing {
                vault: 21,
                stops: true,
                ..NONE
            },
            ..BROKEN
        },
        Case {
            array: AUTOSAVE,
            failing: Failing {
                vault: 18,
                stops: true,
                ..NONE
            },
            ..ENDED
        },
        Case {
            array: AUTOSAVE,
            failing: Failing {
                vault: 17,
                stops: true,
                ..NONE
            },
            ..BROKEN
        },
    ];
    static NEXT: [Case; 2] = [
        Case {
            failing: Failing {
                vault: 13,
                stops: true,
                ..NONE
            },
            out: "sync: 0 stripes synced, 0 pending\n",
            ..ENDED
        },
        Case {
            failing: Failing {
                vault: 12,
                stops: true,
                ..NONE
            },
            ..BROKEN
        },
    ];
    let alloc = rt.alloc();
    plays(&rt, alloc, &CASES)?;
    each_follows(&rt, alloc, &DONE, &NEXT)
}
