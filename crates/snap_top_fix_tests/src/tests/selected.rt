// What a check is for.
use snap_top_memory::arrays::{Array, EMPTY};
use snap_top_memory::cases::{Case, SYNCED, follows};
use std::test::Fail;

const WHOLE: Array = Array {
    config: "blocksize 1\nparity p\ncontent c\ndata d1 a\ndata d2 b\n",
    disks: &[
        &[("p", &[7; 3072], 1, 5)],
        &[
            ("x.txt", b"x", 1, 5),
            ("y.txt", b"y", 1, 5),
            ("z.jpg", b"z", 1, 5),
        ],
    ],
    ..EMPTY
};

// What is there of it when it is checked.
const CHECKED: Case = Case {
    array: Array {
        disks: &[&[("p", &[7; 3072], 1, 5)], &[("y.txt", b"Y", 2, 5)]],
        ..WHOLE
    },
    status: 1,
    out: "changed d2:x.txt recorded 1 1.000000005 found nothing\ncheck: 1 findings\n",
    keeps: true,
    stays: Some(0),
    ..SYNCED
};

#[test]
fn only_what_is_selected_is_looked_at(rt: HostRuntime) -> Result<(), Fail> {
    static CASES: [Case; 5] = [
        Case {
            array: WHOLE,
            out: "sync: 3 stripes synced, 0 pending\n",
            ..SYNCED
        },
        Case {
            words: &[
                "snapraid", "check", "-c", "FILE", "-m", "-d", "d2", "-f", "*.txt",
            ],
            ..CHECKED
        },
        Case {
            words: &["snapraid", "check", "-c", "FILE", "-d", "d1"],
            status: 0,
            out: "check: 0 findings\n",
            ..CHECKED
        },
        Case {
            words: &[
                "snapraid", "check", "-c", "FILE", "-a", "-d", "d2", "-f", "x.txt",
            ],
            ..CHECKED
        },
        // nothing is opened
        Case {
            words: &["snapraid", "check", "-c", "FILE", "-d", "d1", "-d", "d3"],
            status: 2,
            out: "",
            err: "snapraid: no disk 'd3'\n",
            is_opened: false,
            keeps: false,
            stays: None,
            ..CHECKED
        },
    ];
    follows(&rt, rt.alloc(), &CASES)
}
