// The texts of `list` and `status`, and the last lines of the commands.
use crate::tests::{table, table_of};
use disk_memory::MemSink;
use snap_report::{Lines, list_text, status_text};
use std::str;
use std::test::Fail;

const OF_THREE: &str = "10 1.000000005 d1:a
10 1.000000005 d2:a
10 1.000000005 d3:a
3 files, 30 bytes
files 3
bytes 30
stripes 2
synced 1
pending 1
fresh 1
bad 1
oldest 100
disk d1 files 1 blocks 1 free 1
disk d2 files 1 blocks 1 free 1
disk d3 files 1 blocks 1 free 1
bad stripe 0
";

const OF_NONE: &str = "0 1.000000005 d1:b/c
1 files, 0 bytes
files 1
bytes 0
stripes 0
synced 0
pending 0
fresh 0
bad 0
oldest -
disk d1 files 1 blocks 0 free 0
";

const LAST_LINES: &str = "sync: 3 stripes synced, 1 pending
scrub: 4294967295 stripes checked, 18446744073709551615 findings
check: 1 findings
fix: 18446744073709551615 blocks and 1 parities fixed, 2 findings left
";

#[test]
fn list_and_status(rt: HostRuntime) -> Result<(), Fail> {
    let alloc = rt.alloc();
    let tables = [
        (table(alloc)?, OF_THREE),
        (table_of(alloc, "b/c")?, OF_NONE),
    ];
    for (table, text) in &tables {
        let mut out = MemSink::new(alloc);
        let mut lines = Lines::over(&mut out);
        list_text(&mut lines, table);
        status_text(&mut lines, table);
        assert!(rt; !lines.failed());
        assert_eq!(rt; str::from_utf8(out.bytes())?, *text);
    }
    Ok(())
}

#[test]
fn the_last_lines_of_the_commands(rt: HostRuntime) -> Result<(), Fail> {
    let mut out = MemSink::new(rt.alloc());
    let mut lines = Lines::over(&mut out);
    lines.end_sync(3, 1);
    lines.end_scrub(u32::MAX, u64::MAX);
    lines.end_check(1);
    lines.end_fix(u64::MAX, 1, 2);
    assert!(rt; !lines.failed());
    assert_eq!(rt; str::from_utf8(out.bytes())?, LAST_LINES);
    Ok(())
}
