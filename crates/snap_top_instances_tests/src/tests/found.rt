// What prints a text of one table prints the same, and what checks one array finds the same.
use snap_top_memory::arrays::{Array, EMPTY, FIVE, File, LIST, SYNC};
use snap_top_pairs::audited::audit_changed;
use snap_top_pairs::found::{check_and_fix, check_lost_twice};
use snap_top_pairs::listed::{list_duplicates_twice, list_twice, tell_status_twice};
use std::test::Fail;

const STATUS: &[&str] = &["snapraid", "status", "-c", "FILE"];

const DUP: &[&str] = &["snapraid", "dup", "-c", "FILE"];

const CHECK: &[&str] = &["snapraid", "check", "-c", "FILE"];

const CHECK_BY_MANY: &[&str] = &["snapraid", "check", "-c", "FILE", "--readers", "16"];

const AUDIT: &[&str] = &["snapraid", "check", "-c", "FILE", "-a"];

const FIX: &[&str] = &["snapraid", "fix", "-c", "FILE"];

// Two files that hold the same.
const TWINS: Array = Array {
    disks: &[&[("a", b"x", 1, 5), ("b", b"x", 1, 5)]],
    ..EMPTY
};

// The byte is another one, and the stamp the same.
const ROTTEN: File = ("c", b"x", 1, 5);

#[test]
fn what_prints_a_table_prints_the_same_twice(rt: HostRuntime) -> Result<(), Fail> {
    let alloc = rt.alloc();
    assert!(rt; list_twice(&rt, alloc, FIVE, SYNC, LIST, LIST)? == 0);
    assert!(rt; tell_status_twice(&rt, alloc, FIVE, SYNC, STATUS, STATUS)? == 0);
    assert!(rt; list_duplicates_twice(&rt, alloc, TWINS, SYNC, DUP, DUP)? == 0);
    Ok(())
}

#[test]
fn what_is_lost_and_what_is_rotten_is_found(rt: HostRuntime) -> Result<(), Fail> {
    let alloc = rt.alloc();
    assert!(rt; audit_changed(&rt, alloc, FIVE, SYNC, ROTTEN, AUDIT)? == 1);
    assert!(rt; check_lost_twice(&rt, alloc, FIVE, SYNC, CHECK, CHECK_BY_MANY)? == 1);
    assert!(rt; check_and_fix(&rt, alloc, FIVE, SYNC, CHECK, FIX)? == 0);
    Ok(())
}
