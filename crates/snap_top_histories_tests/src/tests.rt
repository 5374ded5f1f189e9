// Histories in memory: what the laws of `snap_top` suppose is proved of them, and here they are met.
use snap_top_histories::changed::three_changes;
use snap_top_histories::lived::{Lived, Told, three_runs_from_nothing};
use snap_top_histories::repeated::{check_twice, lose_and_fix_twice};
use snap_top_histories::resumed::{fix_at_last, stop_and_sync_again, sync_at_last};
use snap_top_histories::taken::lose_and_fix;
use snap_top_memory::arrays::{FIVE, SYNC};
use snap_top_memory::left::is_there;
use snap_top_memory::next::{TORN, WRITTEN};
use std::test::Fail;

const SCRUB: &[&str] = &["snapraid", "scrub", "-c", "FILE", "-p", "full"];

const STATUS: &[&str] = &["snapraid", "status", "-c", "FILE"];

const FIX: &[&str] = &["snapraid", "fix", "-c", "FILE"];

const CHECK: &[&str] = &["snapraid", "check", "-c", "FILE"];

// What a stop after nine calls leaves, with other bytes wherever one was written and not handed to the disk.
const WITHIN_A_WRITE: &[u8] = &[9, 0, 0, 0, 0, 0, 0, 0, 0xff, 0xff, 0xff, 0xff];

#[test]
fn a_history_of_a_stopped_sync_another_one_and_a_scrub(rt: HostRuntime) -> Result<(), Fail> {
    static RUNS: [Told; 3] = [(SYNC, WITHIN_A_WRITE), (SYNC, TORN), (SCRUB, WRITTEN)];
    let alloc = rt.alloc();
    let lived = three_runs_from_nothing(&rt, alloc, FIVE, &RUNS)?;
    let Lived { statuses, .. } = &lived;
    assert!(rt; statuses.as_slice() == [0, 0, 0].as_slice());
    assert!(rt; fix_at_last(&rt, alloc, lived, FIX)? == 0);
    assert!(rt; stop_and_sync_again(&rt, alloc, FIVE, SYNC, STATUS, WITHIN_A_WRITE)? == 0);
    Ok(())
}

// The level stands in another file.
const OTHER_LEVEL: &str = "blocksize 1\nparity q\ncontent content\ndata d1 d\n";

// The scrubs find that the level is empty.
#[test]
fn a_file_that_was_lost_is_restored_and_the_array_is_changed(rt: HostRuntime) -> Result<(), Fail> {
    static FIRST: [Told; 2] = [(SYNC, TORN), (FIX, TORN)];
    static LATER: [Told; 3] = [(SYNC, WITHIN_A_WRITE), (SCRUB, WRITTEN), (SCRUB, WRITTEN)];
    let alloc = rt.alloc();
    {
        let mut lived = lose_and_fix(&rt, alloc, FIVE, "c", &FIRST)?;
        assert!(rt; is_there(alloc, &mut lived.folders, 0, "c", b"c")?);
    }
    {
        let lived = lose_and_fix(&rt, alloc, FIVE, "c", &FIRST)?;
        assert!(rt; check_twice(&rt, alloc, lived, CHECK)? == 0);
    }
    assert!(rt; lose_and_fix_twice(&rt, alloc, FIVE, "c", &FIRST)? == 0);
    let lived = lose_and_fix(&rt, alloc, FIVE, "c", &FIRST)?;
    let lived = three_changes(&rt, alloc, lived, "e", OTHER_LEVEL, &LATER)?;
    let Lived { statuses, .. } = &lived;
    assert!(rt; statuses.as_slice() == [0, 0, 0, 1, 1].as_slice());
    assert!(rt; sync_at_last(&rt, alloc, lived, SYNC)? == 0);
    Ok(())
}
