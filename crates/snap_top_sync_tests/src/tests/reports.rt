// Logs that are told the events of a sync, of which one fails.
use snap_top_memory::arrays::{Array, Disk, EMPTY, Failing, NONE};
use snap_top_memory::cases::{Case, SYNCED};
use snap_top_memory::logged::{Logged, is_logged};
use std::test::Fail;

const FILES: Disk<'static> = &[("a", b"1", 1, 5), ("b", b"2", 1, 5), ("c", b"3", 1, 5)];

// The content of three pending stripes, spelled by hand from its format.
const PENDING: &[u8] = b"\
    \x53\x4e\x41\x50\x52\x43\x46\x01\x01\x00\x00\x00\x01\x01\x61\x62\
    \x63\x64\x65\x66\x67\x68\x69\x6a\x6b\x6c\x6d\x6e\x6f\x70\x03\x00\
    \x00\x00\x01\x02\x64\x31\x03\x00\x00\x00\x01\x00\x61\x01\x00\x00\
    \x00\x00\x00\x00\x00\x01\x00\x00\x00\x00\x00\x00\x00\x05\x00\x00\
    \x00\x00\x00\x00\x00\x00\x01\x00\x62\x01\x00\x00\x00\x00\x00\x00\
    \x00\x01\x00\x00\x00\x00\x00\x00\x00\x05\x00\x00\x00\x01\x00\x00\
    \x00\x00\x01\x00\x63\x01\x00\x00\x00\x00\x00\x00\x00\x01\x00\x00\
    \x00\x00\x00\x00\x00\x05\x00\x00\x00\x02\x00\x00\x00\x00\x00\x00\
    \x00\x00\x00\x00\x00\x00\x00\x00\x00\x00\x00\x00\x00\x00\x00\x00\
    \x00\x00\x00\x00\x00\x00\x00\x00\x00\xe2\xb8\x28\x3b\xce\xb9\xb2\
    \xf3\x09\x57\x0f\x52\xd1\xf2\xbe\xe1\x07\x5d\x61\x36\xa4\x8c\x75\
    \x6d\x52\x3c\x06\xea\xcf\x3b\xe6\xb8\
";

// All calls of the folder but its listing fail.
static UNREAD: Case = Case {
    array: Array {
        disks: &[FILES],
        ..EMPTY
    },
    failing: Failing {
        folder: 2,
        stops: true,
        ..NONE
    },
    status: 1,
    out: "io 0 d1:a 0\nio 1 d1:b 0\nio 2 d1:c 0\nsync: 0 stripes synced, 3 pending\n",
    contents: &[PENDING],
    ..SYNCED
};

// The records are those of the table that the sync laid out.
#[test]
fn a_failed_log_changes_nothing_else_of_a_sync(rt: HostRuntime) -> Result<(), Fail> {
    let logged = Logged {
        lines: "io 0 d1:a 0\nio 1 d1:b 0\nio 2 d1:c 0\n",
        room: 2,
        taken: "io 0 d1:a 0\nio 1 d1:b 0\n",
    };
    is_logged(&rt, rt.alloc(), &[], &UNREAD, logged)
}
