// A second sync that is stopped after each of its calls of the vault, and the next ones.
use crate::tests::stopping::{Known, Stops, Sum, plays_stops};
use snap_top_memory::arrays::{Array, FIVE};
use snap_top_memory::cases::{Case, SYNCED};
use snap_top_memory::contents::{CHANGED_IN_PART, CHANGED_PENDING, CHANGED_SYNCED, FIVE_SYNCED};
use std::test::Fail;

// One of the five files was written anew, and one of two blocks was added.
const CHANGED: Array = Array {
    disks: &[&[
        ("a", b"a", 1, 5),
        ("b", b"b", 1, 5),
        ("c", b"C", 2, 5),
        ("d", b"d", 1, 5),
        ("e", b"e", 1, 5),
        ("f", &[b'f'; 1025], 1, 5),
    ]],
    ..FIVE
};

// The sum of a stripe is the block of the one disk.
const OLD: &[Sum] = &[(0, b"a"), (1, b"b"), (2, b"c"), (3, b"d"), (4, b"e")];

const STILL_SYNCED: &[Sum] = &[(0, b"a"), (1, b"b"), (3, b"d"), (4, b"e")];

const ALL_BUT_THE_LAST: &[Sum] = &[
    (0, b"a"),
    (1, b"b"),
    (2, b"C"),
    (3, b"d"),
    (4, b"e"),
    (5, &[b'f'; 1024]),
];

const ALL: &[Sum] = &[
    (0, b"a"),
    (1, b"b"),
    (2, b"C"),
    (3, b"d"),
    (4, b"e"),
    (5, &[b'f'; 1024]),
    (6, b"f"),
];

// Two calls look for the content and read it, four save, two set the length; then come two writes, a sync and four
// calls to save, and one write, a sync and four to save.
#[test]
fn each_stop_of_a_second_sync_is_sound_and_resumed(rt: HostRuntime) -> Result<(), Fail> {
    static STOPS: Stops = Stops {
        before: Some(Case {
            array: FIVE,
            out: "sync: 5 stripes synced, 0 pending\n",
            ..SYNCED
        }),
        whole: Case {
            words: &["snapraid", "sync", "-c", "FILE", "--save-every", "2"],
            array: CHANGED,
            out: "sync: 3 stripes synced, 0 pending\n",
            contents: &[CHANGED_SYNCED],
            levels: &[&[b"a", b"b", b"C", b"d", b"e", &[b'f'; 1024], b"f"]],
            ..SYNCED
        },
        calls: 21,
        known: &[
            Known {
                content: FIVE_SYNCED,
                sums: OLD,
            },
            Known {
                content: CHANGED_PENDING,
                sums: STILL_SYNCED,
            },
            Known {
                content: CHANGED_IN_PART,
                sums: ALL_BUT_THE_LAST,
            },
            Known {
                content: CHANGED_SYNCED,
                sums: ALL,
            },
        ],
    };
    plays_stops(&rt, rt.alloc(), &STOPS)
}
