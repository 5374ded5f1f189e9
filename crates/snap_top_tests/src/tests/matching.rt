// Content of another array than the configuration's.
use crate::tests::usual::{KEPT, STATUS};
use snap_top_memory::arrays::{Array, EMPTY};
use snap_top_memory::cases::{Case, LISTED, plays};
use std::test::Fail;

const OTHER: Case = Case { status: 2, ..KEPT };

const OTHER_SIZE: Case = Case {
    array: Array {
        config: "blocksize 2\nparity p\ncontent content\ndata d2 d\n",
        ..EMPTY
    },
    err: "snapraid: content has block size 1024, the configuration 2048\n",
    ..OTHER
};

const OTHER_LEVELS: Case = Case {
    array: Array {
        config: "blocksize 1\nparity p\n2-parity q\ncontent content\ndata d2 d\n",
        levels: 2,
        ..EMPTY
    },
    err: "snapraid: content has 1 levels, the configuration 2\n",
    ..OTHER
};

const OTHER_NAME: Case = Case {
    array: Array {
        config: "blocksize 1\nparity p\ncontent content\ndata d2 d\n",
        ..EMPTY
    },
    err: "snapraid: content has disk 'd1' in column 0, the configuration 'd2'\n",
    ..OTHER
};

#[test]
fn another_configuration_is_refused(rt: HostRuntime) -> Result<(), Fail> {
    static CASES: [Case; 6] = [
        OTHER_SIZE,
        Case {
            words: STATUS,
            ..OTHER_SIZE
        },
        OTHER_LEVELS,
        OTHER_NAME,
        Case {
            array: Array {
                config: "blocksize 1\nparity p\ncontent content\ndata d1 d\ndata d2 e\n",
                disks: &[&[], &[]],
                ..EMPTY
            },
            err: "snapraid: content has disk '-' in column 1, the configuration 'd2'\n",
            ..OTHER
        },
        Case {
            array: Array {
                config: "blocksize 2\nparity p\ncontent content\ndata d2 d\n",
                ..EMPTY
            },
            out: "0 files, 0 bytes\n",
            ..LISTED
        },
    ];
    plays(&rt, rt.alloc(), &CASES)
}
