// Each instance is met.
mod found;
mod refusals;
mod restores;
mod stops;

use snap_top_breaks::broken::break_a_fix;
use snap_top_breaks::broken_scrub::break_a_scrub;
use snap_top_breaks::broken_sync::break_a_sync;
use snap_top_breaks::front_of_sync::break_a_sync_and_sync;
use snap_top_instances::resumed::stop_and_sync_in_full;
use snap_top_instances::smooth::sync_smoothly;
use snap_top_memory::arrays::{Array, FIVE, SYNC};
use snap_top_pairs::twice::{fix_twice, scrub_twice, sync_twice};
use std::test::Fail;

// Two disks with files whose blocks share stripes.
const TWO: Array = Array {
    config: "blocksize 1\nparity p\ncontent content\ndata d1 d\ndata d2 e\n",
    levels: 1,
    copies: 1,
    disks: &[
        &[("a", b"a", 1, 5), ("b", b"bb", 1, 5)],
        &[("c", b"ccc", 1, 5)],
    ],
};

// The same, and one more file.
const TWO_AND_ONE: Array = Array {
    disks: &[
        &[("a", b"a", 1, 5), ("b", b"bb", 1, 5)],
        &[("c", b"ccc", 1, 5), ("d", b"d", 1, 5)],
    ],
    ..TWO
};

const SYNC_BY_MANY: &[&str] = &["snapraid", "sync", "-c", "FILE", "--readers", "16"];

const SCRUB: &[&str] = &["snapraid", "scrub", "-c", "FILE", "-p", "full"];

const SCRUB_BY_MANY: &[&str] = &[
    "snapraid",
    "scrub",
    "-c",
    "FILE",
    "-p",
    "full",
    "--readers",
    "16",
];

const FIX: &[&str] = &["snapraid", "fix", "-c", "FILE"];

const FIX_BY_MANY: &[&str] = &["snapraid", "fix", "-c", "FILE", "--readers", "16"];

// What a stop after nine calls leaves, with other bytes wherever one was written and not handed to the disk.
const WITHIN_A_WRITE: &[u8] = &[9, 0, 0, 0, 0, 0, 0, 0, 0xff, 0xff, 0xff, 0xff];

#[test]
fn a_sync_is_resumed_in_full_and_another_one_is_smooth(rt: HostRuntime) -> Result<(), Fail> {
    let alloc = rt.alloc();
    assert!(rt; stop_and_sync_in_full(&rt, alloc, FIVE, SYNC, WITHIN_A_WRITE)? == 0);
    assert!(rt; sync_smoothly(&rt, alloc, FIVE, SYNC)? == 0);
    Ok(())
}

#[test]
fn two_runs_are_left_alike(rt: HostRuntime) -> Result<(), Fail> {
    let alloc = rt.alloc();
    assert!(rt; sync_twice(&rt, alloc, TWO, SYNC, SYNC_BY_MANY)? == 0);
    assert!(rt; scrub_twice(&rt, alloc, TWO, SYNC, SCRUB, SCRUB_BY_MANY)? == 0);
    assert!(rt; fix_twice(&rt, alloc, FIVE, SYNC, FIX, FIX_BY_MANY, "a")? == 0);
    Ok(())
}

#[test]
fn runs_break_off(rt: HostRuntime) -> Result<(), Fail> {
    let alloc = rt.alloc();
    // The folder is listed, and then a file made and written, and the next.
    assert!(rt; break_a_fix(&rt, alloc, FIVE, SYNC, FIX, FIX_BY_MANY, 5)? == 0);
    // The copy is read, and five blocks of parity; and then a draft of the copy is begun and written.
    assert!(rt; break_a_scrub(&rt, alloc, FIVE, SYNC, SCRUB, SCRUB_BY_MANY, "c", 9)? == 1);
    // The copy is saved, parity made longer, written and synced; and then the copy saved again.
    assert!(rt; break_a_sync(&rt, alloc, FIVE, SYNC, 15)? == 3);
    Ok(())
}

#[test]
fn a_sync_breaks_off_that_found_something(rt: HostRuntime) -> Result<(), Fail> {
    let alloc = rt.alloc();
    // The stripe of the file that is gone has a block of other bytes, which is printed before this call.
    assert!(rt;
        break_a_sync_and_sync(&rt, alloc, TWO_AND_ONE, SYNC, SYNC_BY_MANY, "a", "c", 9)? == 1
    );
    Ok(())
}
