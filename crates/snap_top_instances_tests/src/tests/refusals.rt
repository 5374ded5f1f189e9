// Runs that are silent, refused or not heard, and exercises: what is said of them is met.
use snap_top_histories::changed::configure;
use snap_top_histories::lived::{begin, live_on};
use snap_top_memory::arrays::{FIVE, SYNC};
use snap_top_memory::next::WRITTEN;
use snap_top_refusals::exercised::exercise_smoothly;
use snap_top_refusals::refused::{refuse_over_content, refuse_over_damage, refuse_unopened};
use snap_top_refusals::silent::run_silently;
use snap_top_refusals::unheard::sync_unheard;
use std::test::Fail;

// Blocks of another size.
const OTHER_SIZE: &str = "blocksize 2\nparity p\ncontent content\ndata d1 d\n";

#[test]
fn a_run_is_silent_and_an_exercise_is_smooth(rt: HostRuntime) -> Result<(), Fail> {
    let alloc = rt.alloc();
    assert!(rt; run_silently(&rt, alloc, FIVE, SYNC)? == 0);
    assert!(rt; exercise_smoothly(&rt, alloc, &["snapraid", "exercise", "1"])? == 0);
    Ok(())
}

#[test]
fn a_sync_goes_to_its_end_unheard(rt: HostRuntime) -> Result<(), Fail> {
    let alloc = rt.alloc();
    assert!(rt; sync_unheard(&rt, alloc, FIVE, SYNC)? == 3);
    Ok(())
}

#[test]
fn refused_runs_touch_nothing(rt: HostRuntime) -> Result<(), Fail> {
    let alloc = rt.alloc();
    let lived = begin(alloc, FIVE)?;
    let lived = live_on(&rt, alloc, lived, SYNC, WRITTEN)?;
    let lived = configure(lived, OTHER_SIZE, 0, b"")?;
    assert!(rt; refuse_over_content(&rt, alloc, lived, SYNC)? == 2);
    let lived = begin(alloc, FIVE)?;
    let lived = live_on(&rt, alloc, lived, SYNC, WRITTEN)?;
    assert!(rt; refuse_over_damage(&rt, alloc, lived, SYNC, 0, b"x")? == 5);
    assert!(rt; refuse_unopened(&rt, alloc, FIVE, &["snapraid"], "a")? == 2);
    Ok(())
}
