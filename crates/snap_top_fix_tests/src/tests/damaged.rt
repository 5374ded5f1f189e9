// What a check finds where files or parity are damaged.
use crate::tests::arrays::{BEFORE, EMPTIED, FIRST, LOST, SECOND, THIRD, TWO_LEVELS, WHOLE};
use snap_top_memory::arrays::Array;
use snap_top_memory::cases::{Case, SYNCED, follows};
use snap_top_memory::damage::Damage;
use std::test::Fail;

/// What a check prints of the three files, which were synced before.
pub const CHECKED: Case = Case {
    words: &["snapraid", "check", "-c", "FILE"],
    array: WHOLE,
    status: 1,
    keeps: true,
    stays: Some(0),
    ..SYNCED
};

#[test]
fn two_lost_disks_are_known_by_the_levels_that_are_right(rt: HostRuntime) -> Result<(), Fail> {
    static CASES: [Case; 4] = [
        BEFORE,
        Case {
            status: 0,
            out: "check: 0 findings\n",
            ..CHECKED
        },
        Case {
            array: EMPTIED,
            out: "changed d1:a recorded 1 1.000000005 found nothing\n\
                  changed d2:a recorded 1 1.000000005 found nothing\n\
                  check: 2 findings\n",
            ..CHECKED
        },
        Case {
            array: EMPTIED,
            damage: Damage::Byte(0, 0, 1),
            out: "changed d1:a recorded 1 1.000000005 found nothing\n\
                  changed d2:a recorded 1 1.000000005 found nothing\n\
                  wrong-parity 0 parity\n\
                  check: 3 findings\n",
            ..CHECKED
        },
    ];
    follows(&rt, rt.alloc(), &CASES)
}

#[test]
fn more_blocks_are_lost_than_levels_are_right(rt: HostRuntime) -> Result<(), Fail> {
    static CASES: [Case; 2] = [
        Case {
            array: TWO_LEVELS,
            ..SYNCED
        },
        Case {
            array: Array {
                disks: LOST,
                ..TWO_LEVELS
            },
            damage: Damage::Byte(1, 0, 1),
            out: "changed d1:a recorded 1 1.000000005 found nothing\n\
                  changed d2:a recorded 1 1.000000005 found nothing\n\
                  unrecoverable 0 d1:a 0\n\
                  unrecoverable 0 d2:a 0\n\
                  check: 4 findings\n",
            ..CHECKED
        },
    ];
    follows(&rt, rt.alloc(), &CASES)
}

#[test]
fn a_changed_bit_and_a_file_in_the_way_are_told(rt: HostRuntime) -> Result<(), Fail> {
    static CASES: [Case; 3] = [
        BEFORE,
        Case {
            array: Array {
                disks: &[FIRST, &[("a", b"\x03", 1, 5)], THIRD],
                ..WHOLE
            },
            out: "silent 0 d2:a 0 recorded 6f089fc28e783140e096e62d987df68c \
                  found e137cb75b3016da78309c3be02c03175\n\
                  check: 1 findings\n",
            ..CHECKED
        },
        Case {
            array: Array {
                disks: &[&[("a/x", b"\x07", 1, 5)], SECOND, THIRD],
                ..WHOLE
            },
            out: "changed d1:a recorded 1 1.000000005 found nothing\nblocked d1:a\ncheck: 2 findings\n",
            ..CHECKED
        },
    ];
    follows(&rt, rt.alloc(), &CASES)
}
