// Logs that are told the events of a fix and of a check of two lost disks, of which one fails.
use crate::tests::arrays::{BEFORE, DISKS, EMPTIED, LOST as LEFT, SUMS};
use crate::tests::damaged::CHECKED;
use crate::tests::failing::LOST;
use snap_top_memory::cases::Case;
use snap_top_memory::damage::Damage;
use snap_top_memory::logged::{Logged, is_logged};
use std::test::Fail;

static SYNCED: [Case; 1] = [BEFORE];

// The content of the three disks, synced, spelled by hand from its format. A fix and a check leave it as it is.
const CONTENT: &[u8] = b"\
    \x53\x4e\x41\x50\x52\x43\x46\x01\x01\x00\x00\x00\x03\x01\x61\x62\
    \x63\x64\x65\x66\x67\x68\x69\x6a\x6b\x6c\x6d\x6e\x6f\x70\x01\x00\
    \x00\x00\x03\x02\x64\x31\x01\x00\x00\x00\x01\x00\x61\x01\x00\x00\
    \x00\x00\x00\x00\x00\x01\x00\x00\x00\x00\x00\x00\x00\x05\x00\x00\
    \x00\x00\x00\x00\x00\x01\xab\x39\xbd\xee\x4f\x2f\x74\x74\xf7\x75\
    \x34\xe2\x4a\x9f\x64\x7e\x02\x64\x32\x01\x00\x00\x00\x01\x00\x61\
    \x01\x00\x00\x00\x00\x00\x00\x00\x01\x00\x00\x00\x00\x00\x00\x00\
    \x05\x00\x00\x00\x00\x00\x00\x00\x01\x6f\x08\x9f\xc2\x8e\x78\x31\
    \x40\xe0\x96\xe6\x2d\x98\x7d\xf6\x8c\x02\x64\x33\x01\x00\x00\x00\
    \x01\x00\x61\x01\x00\x00\x00\x00\x00\x00\x00\x01\x00\x00\x00\x00\
    \x00\x00\x00\x05\x00\x00\x00\x00\x00\x00\x00\x01\x5d\x4d\x61\xe4\
    \xde\xee\xd0\x83\xea\xa1\x30\x75\x0f\x9e\x74\xde\x05\x64\x00\x00\
    \x00\x00\x00\x00\x00\x41\xa0\x6c\x7a\x63\x5c\x22\xed\x08\xb0\x21\
    \x45\xf6\x07\x5f\x8f\x45\xd0\xc6\x72\x9c\xa1\x11\x68\x26\xab\xe2\
    \x76\xb3\xfe\x97\x78\
";

// All is as it was synced.
static FIXED: Case = Case {
    contents: &[CONTENT],
    levels: SUMS,
    left: Some(DISKS),
    ..LOST
};

// The second log fails at its third event.
#[test]
fn a_failed_log_changes_nothing_else_of_a_fix(rt: HostRuntime) -> Result<(), Fail> {
    let logged = Logged {
        lines: "changed d1:a recorded 1 1.000000005 found nothing\n\
                changed d2:a recorded 1 1.000000005 found nothing\n\
                wrong-parity 0 parity\n\
                fixed 0 d1:a 0\n\
                fixed 0 d2:a 0\n\
                fixed-parity 0 parity\n\
                restored d1:a\n\
                restored d2:a\n",
        room: 2,
        taken: "changed d1:a recorded 1 1.000000005 found nothing\n\
                changed d2:a recorded 1 1.000000005 found nothing\n",
    };
    is_logged(&rt, rt.alloc(), &SYNCED, &FIXED, logged)
}

// A level is wrong, and all is left as it is.
static UNCHANGED: Case = Case {
    array: EMPTIED,
    damage: Damage::Byte(0, 0, 1),
    out: "changed d1:a recorded 1 1.000000005 found nothing\n\
          changed d2:a recorded 1 1.000000005 found nothing\n\
          wrong-parity 0 parity\n\
          check: 3 findings\n",
    contents: &[CONTENT],
    levels: &[&[b"\x06"], &[b"\x15"], &[b"\x99"]],
    left: Some(LEFT),
    ..CHECKED
};

// The second log fails at its second event.
#[test]
fn a_failed_log_changes_nothing_else_of_a_check(rt: HostRuntime) -> Result<(), Fail> {
    let logged = Logged {
        lines: "changed d1:a recorded 1 1.000000005 found nothing\n\
                changed d2:a recorded 1 1.000000005 found nothing\n\
                wrong-parity 0 parity\n",
        room: 1,
        taken: "changed d1:a recorded 1 1.000000005 found nothing\n",
    };
    is_logged(&rt, rt.alloc(), &SYNCED, &UNCHANGED, logged)
}
