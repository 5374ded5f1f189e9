// A fix that restores, and a check that names what is lost: what the laws suppose of them is met.
use snap_top_memory::arrays::{Array, FIVE, SYNC};
use snap_top_restores::named::check_what_is_lost;
use snap_top_restores::reached::reach_a_block;
use std::test::Fail;

const CHECK: &[&str] = &["snapraid", "check", "-c", "FILE"];

const FIX: &[&str] = &["snapraid", "fix", "-c", "FILE"];

// A stripe of two files.
const TWO_DISKS: Array = Array {
    config: "blocksize 1\nparity p\ncontent content\ndata d1 d\ndata d2 e\n",
    levels: 1,
    copies: 1,
    disks: &[&[("c", b"c", 1, 5)], &[("a", b"a", 1, 5)]],
};

#[test]
fn a_block_is_restored_by_counting_levels(rt: HostRuntime) -> Result<(), Fail> {
    let alloc = rt.alloc();
    assert!(rt; reach_a_block(&rt, alloc, FIVE, SYNC, FIX, "c")? == 0);
    Ok(())
}

#[test]
fn a_lost_block_is_named(rt: HostRuntime) -> Result<(), Fail> {
    let alloc = rt.alloc();
    assert!(rt; check_what_is_lost(&rt, alloc, TWO_DISKS, SYNC, CHECK, FIX)? == 1);
    Ok(())
}
