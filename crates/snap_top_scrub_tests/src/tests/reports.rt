// Logs that are told the events of a scrub of two rotten blocks, of which one fails.
use crate::tests::arrays::{BEFORE, FIRST, FOUND, FOUR, THIRD};
use snap_top_memory::arrays::Array;
use snap_top_memory::cases::Case;
use snap_top_memory::logged::{Logged, is_logged};
use std::test::Fail;

static SYNCED: [Case; 1] = [BEFORE];

// The stripe is bad, and the levels are as they were synced.
static SCRUBBED: Case = Case {
    array: Array {
        disks: &[
            FIRST,
            &[("a", b"\x03", 1, 5)],
            THIRD,
            &[("a", b"\x09", 1, 5)],
        ],
        ..FOUR
    },
    out: "silent 0 d2:a 0 recorded 6f089fc28e783140e096e62d987df68c \
          found e137cb75b3016da78309c3be02c03175\n\
          silent 0 d4:a 0 recorded 270261cf4d893cd5020c9d14b7809b67 \
          found ed9bc3c1d8821a202faaba2794c2e21b\n\
          scrub: 1 stripes checked, 2 findings\n",
    levels: &[&[b"\x0f"], &[b"\x55"]],
    ..FOUND
};

// The second log fails at its first event.
#[test]
fn a_failed_log_changes_nothing_else_of_a_scrub(rt: HostRuntime) -> Result<(), Fail> {
    let logged = Logged {
        lines: "silent 0 d2:a 0 recorded 6f089fc28e783140e096e62d987df68c \
                found e137cb75b3016da78309c3be02c03175\n\
                silent 0 d4:a 0 recorded 270261cf4d893cd5020c9d14b7809b67 \
                found ed9bc3c1d8821a202faaba2794c2e21b\n",
        room: 0,
        taken: "",
    };
    is_logged(&rt, rt.alloc(), &SYNCED, &SCRUBBED, logged)
}
