// Stopped runs: what the laws suppose of them is met.
use snap_top_memory::arrays::{Array, FIVE, SYNC};
use snap_top_stops::kept::sync_and_keep;
use snap_top_stops::stays_sound::sync_over_a_lost_level;
use snap_top_stops::stopped::{Kept, stop_a_fix};
use snap_top_stops::stopped_runs::resume_stopped_runs;
use std::test::Fail;

const FIX_MISSING: &[&str] = &["snapraid", "fix", "-c", "FILE", "-m"];

// A stripe of two files.
const TWO_DISKS: Array = Array {
    config: "blocksize 1\nparity p\ncontent content\ndata d1 d\ndata d2 e\n",
    levels: 1,
    copies: 1,
    disks: &[&[("c", b"c", 1, 5)], &[("a", b"a", 1, 5)]],
};

const BESIDE: Kept = Kept {
    stripe: 0,
    disk: 1,
    path: "a",
};

// What a stop before any call leaves.
const UNCALLED: &[u8] = &[0; 8];

const STATUS: &[&str] = &["snapraid", "status", "-c", "FILE"];

// What a stop after so many calls leaves, and parity as long as it was at most.
const WITHIN_LONGEST: &[u8] = &[
    9, 0, 0, 0, 0, 0, 0, 0, 0xff, 0xff, 0xff, 0xff, 0xff, 0xff, 0xff, 0xff, 0xff, 0xff, 0xff, 0xff,
];

#[test]
fn a_fix_is_stopped(rt: HostRuntime) -> Result<(), Fail> {
    let alloc = rt.alloc();
    assert!(rt;
        stop_a_fix(
            &rt,
            alloc,
            TWO_DISKS,
            SYNC,
            FIX_MISSING,
            UNCALLED,
            "c",
            BESIDE
        )? == 0
    );
    Ok(())
}

#[test]
fn stopped_runs_are_resumed_and_copies_stay_sound(rt: HostRuntime) -> Result<(), Fail> {
    let alloc = rt.alloc();
    assert!(rt; resume_stopped_runs(&rt, alloc, FIVE, SYNC, STATUS, WITHIN_LONGEST)? == 0);
    assert!(rt; sync_over_a_lost_level(&rt, alloc, FIVE, SYNC, WITHIN_LONGEST)? == 0);
    assert!(rt; sync_and_keep(&rt, alloc, FIVE, SYNC, "e")? == 0);
    Ok(())
}
