// Each call failing in turn.
use snap_top_memory::arrays::{
    Array, Disk, FIVE, Failing, Left, NONE, ONE, SYNC, failing_at, run_over, vault,
};
use snap_top_memory::cases::{Case, LISTED, SYNCED, follows, plays};
use snap_top_memory::contents::{
    FIVE_BUT_THE_THIRD, FIVE_PENDING, FIVE_SYNCED, ONE_FILE, ONE_PENDING,
};
use std::alloc::Global;
use std::test::Fail;
use std::thread::Threads;

const FILE: Disk<'static> = &[("a", b"qrstuvwxyz", 1, 5)];

// The block is not read.
const UNREAD: Case = Case {
    status: 1,
    out: "io 0 d1:a 0\nsync: 0 stripes synced, 1 pending\n",
    contents: &[ONE_PENDING],
    ..SYNCED
};

// The folder's first call lists it, its second looks at the file, and its third reads the block.
#[test]
fn a_folder_fails(rt: HostRuntime) -> Result<(), Fail> {
    static CASES: [Case; 4] = [
        Case {
            failing: Failing { folder: 1, ..NONE },
            status: 3,
            out: "",
            err: "snapraid: disk 'd1' failed\n",
            contents: &[b""],
            ..SYNCED
        },
        Case {
            failing: Failing { folder: 2, ..NONE },
            ..UNREAD
        },
        Case {
            failing: Failing { folder: 3, ..NONE },
            ..UNREAD
        },
        Case {
            failing: Failing { folder: 4, ..NONE },
            contents: &[ONE_FILE],
            ..SYNCED
        },
    ];
    plays(&rt, rt.alloc(), &CASES)
}

// The folder's seventh call reads the third file, after it was listed, and two files were looked at and read.
#[test]
fn one_block_that_is_not_read_leaves_its_stripe_alone_pending(rt: HostRuntime) -> Result<(), Fail> {
    static CASES: [Case; 2] = [
        Case {
            array: FIVE,
            failing: Failing { folder: 7, ..NONE },
            status: 1,
            out: "io 2 d1:c 0\nsync: 4 stripes synced, 1 pending\n",
            contents: &[FIVE_BUT_THE_THIRD],
            ..SYNCED
        },
        Case {
            array: FIVE,
            contents: &[FIVE_SYNCED],
            ..SYNCED
        },
    ];
    follows(&rt, rt.alloc(), &CASES)
}

#[test]
fn a_folder_that_cannot_be_listed_stops_all(rt: HostRuntime) -> Result<(), Fail> {
    static CASES: [Case; 1] = [Case {
        array: Array {
            config: "blocksize 1\nparity p\ncontent content\ndata d1 d\ndata d2 e\n",
            disks: &[FILE, FILE],
            ..ONE
        },
        failing: Failing {
            disk: 1,
            folder: 1,
            ..NONE
        },
        status: 3,
        out: "",
        err: "snapraid: disk 'd2' failed\n",
        contents: &[b""],
        levels: &[&[]],
        ..SYNCED
    }];
    plays(&rt, rt.alloc(), &CASES)
}

// Runs a sync over an array of which one call of the vault fails.
fn failing<R: Threads + Sync>(
    rt: &R,
    alloc: Global,
    array: Array,
    call: u64,
) -> Result<Left, Fail> {
    let vault = failing_at(vault(alloc, array)?, call)?;
    run_over(rt, alloc, SYNC, array, vault)
}

// Whether a content copy is what may stand after the failure of a call: not there up to the first publication, which is the
// fifth, then the pending table up to the last, which is the thirteenth, and then the synced one. A publication that failed
// leaves the old copy or the new one.
fn may_stand(content: &[u8], call: u64) -> bool {
    let before = call <= 5 && content.is_empty();
    let between = call >= 5 && call <= 13 && content == ONE_PENDING;
    let after = call >= 13 && content == ONE_FILE;
    before || between || after
}

// Whether a sync ended as one does of which this call failed, where the call after the last is none.
fn ends_so(alloc: Global, left: &mut Left, call: u64) -> Result<bool, Fail> {
    let broken = left.is(3, "", "snapraid: parity or content failed\n");
    let done = left.is(0, "sync: 1 stripes synced, 0 pending\n", "");
    let ended = if call == 14 { done } else { broken };
    Ok(ended && may_stand(left.content(alloc, 0)?.as_slice(), call))
}

// Whether that is so, and the next sync is done.
fn fails_at<R: Threads + Sync>(rt: &R, alloc: Global, call: u64) -> Result<bool, Fail> {
    // there is no call 14, and no call 0
    let mut left = failing(rt, alloc, ONE, call % 14)?;
    if !ends_so(alloc, &mut left, call)? {
        return Ok(false);
    }
    let next = run_over(rt, alloc, SYNC, ONE, left.reopened()?)?;
    Ok(next.outcome.status == 0)
}

// One call looks for the content, four save it, two set the length, two write and sync the parity, and four save again. The
// write of the parity fails where its disk is full.
#[test]
fn each_call_of_the_vault_fails_in_turn(rt: HostRuntime) -> Result<(), Fail> {
    for call in 1..15 {
        assert!(rt; fails_at(&rt, rt.alloc(), call)?, "{call}");
    }
    Ok(())
}

// The eighteenth call is the first sync of the parity: two look for the content, eight save it, two set the length, and five
// write.
#[test]
fn parity_that_is_not_settled_leaves_every_copy_pending(rt: HostRuntime) -> Result<(), Fail> {
    static CASES: [Case; 1] = [Case {
        array: Array {
            config: "blocksize 1\nparity p\ncontent content\ncontent copy\ndata d1 d\n",
            copies: 2,
            ..FIVE
        },
        failing: Failing { vault: 18, ..NONE },
        status: 3,
        out: "",
        err: "snapraid: parity or content failed\n",
        contents: &[FIVE_PENDING, FIVE_PENDING],
        ..SYNCED
    }];
    plays(&rt, rt.alloc(), &CASES)
}

#[test]
fn a_failed_output_stops_its_lines_alone(rt: HostRuntime) -> Result<(), Fail> {
    static CASES: [Case; 2] = [
        Case {
            failing: Failing { out: 1, ..NONE },
            status: 3,
            out: "",
            err: "snapraid: output failed\n",
            contents: &[ONE_FILE],
            ..SYNCED
        },
        Case {
            array: ONE,
            out: "10 1.000000005 d1:a\n1 files, 10 bytes\n",
            ..LISTED
        },
    ];
    follows(&rt, rt.alloc(), &CASES)
}
