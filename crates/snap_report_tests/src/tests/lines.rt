// The lines of events.
use crate::tests::reports::log_of;
use crate::tests::table_of;
use block_hash::Digest16;
use disk_memory::MemSink;
use disk_model::{Meta, Sink, Stamp};
use snap_report::events::Event;
use snap_report::{Lines, Piece, Report, tell, tell_all};
use std::str;
use std::test::Fail;

const FOUND: Option<Meta> = Some(Meta {
    size: 9,
    stamp: Stamp {
        seconds: -2,
        nanos: 0,
    },
});

const GREATEST: Option<Meta> = Some(Meta {
    size: u64::MAX,
    stamp: Stamp {
        seconds: i64::MIN,
        nanos: 999_999_999,
    },
});

const EVERY_KIND: [Event; 18] = [
    Event::Changed {
        disk: 0,
        rec: 0,
        found: FOUND,
    },
    Event::Changed {
        disk: 0,
        rec: 0,
        found: None,
    },
    Event::ChangedBlock {
        stripe: 7,
        disk: 0,
        rec: 0,
        index: 3,
        found: FOUND,
        got: 12,
    },
    Event::ChangedBlock {
        stripe: 7,
        disk: 0,
        rec: 0,
        index: 3,
        found: None,
        got: 0,
    },
    Event::Silent {
        stripe: 7,
        disk: 0,
        rec: 0,
        index: 3,
        recorded: Digest16([0x0f; 16]),
        found: Digest16([0xa0; 16]),
    },
    Event::Io {
        stripe: 7,
        disk: 0,
        rec: 0,
        index: 3,
    },
    Event::ParityIo {
        stripe: 7,
        level: 0,
    },
    Event::Parity {
        stripe: 7,
        level: 1,
    },
    Event::Parity {
        stripe: 7,
        level: 5,
    },
    Event::Unsynced { stripe: 7 },
    Event::Lost {
        stripe: 7,
        disk: 0,
        rec: 0,
        index: 3,
    },
    Event::Blocked { disk: 0, rec: 0 },
    Event::Fixed {
        stripe: 7,
        disk: 0,
        rec: 0,
        index: 3,
    },
    Event::FixedParity {
        stripe: 7,
        level: 2,
    },
    Event::Restored { disk: 0, rec: 0 },
    Event::Renamed { disk: 0, rec: 0 },
    Event::NoStamp { disk: 0, rec: 0 },
    Event::ChangedBlock {
        stripe: u32::MAX,
        disk: 0,
        rec: 0,
        index: u32::MAX,
        found: GREATEST,
        got: u32::MAX,
    },
];

const THEIR_LINES: &str =
    "changed d1:a\\x5c\\x0a\\x7f\u{e9} recorded 0 1.000000005 found 9 -2.000000000
changed d1:a\\x5c\\x0a\\x7f\u{e9} recorded 0 1.000000005 found nothing
changed-block 7 d1:a\\x5c\\x0a\\x7f\u{e9} 3 recorded 0 1.000000005 found 9 -2.000000000 got 12
changed-block 7 d1:a\\x5c\\x0a\\x7f\u{e9} 3 recorded 0 1.000000005 found nothing got 0
silent 7 d1:a\\x5c\\x0a\\x7f\u{e9} 3 recorded 0f0f0f0f0f0f0f0f0f0f0f0f0f0f0f0f found a0a0a0a0a0a0a0a0a0a0a0a0a0a0a0a0
io 7 d1:a\\x5c\\x0a\\x7f\u{e9} 3
io-parity 7 parity
wrong-parity 7 2-parity
wrong-parity 7 6-parity
unsynced 7
unrecoverable 7 d1:a\\x5c\\x0a\\x7f\u{e9} 3
blocked d1:a\\x5c\\x0a\\x7f\u{e9}
fixed 7 d1:a\\x5c\\x0a\\x7f\u{e9} 3
fixed-parity 7 3-parity
restored d1:a\\x5c\\x0a\\x7f\u{e9}
renamed d1:a\\x5c\\x0a\\x7f\u{e9}
no-stamp d1:a\\x5c\\x0a\\x7f\u{e9}
changed-block 4294967295 d1:a\\x5c\\x0a\\x7f\u{e9} 4294967295 recorded 0 1.000000005 found 18446744073709551615 -9223372036854775808.999999999 got 4294967295
";

#[test]
fn each_kind_has_its_line(rt: HostRuntime) -> Result<(), Fail> {
    let alloc = rt.alloc();
    let table = table_of(alloc, "a\\\n\u{7f}\u{e9}")?;
    assert!(rt; table.disks() == 1);
    assert!(rt; table.records(0) == 1);
    let mut reports: Vec<Box<dyn Report>> = Vec::new(alloc);
    let mut out = MemSink::new(alloc);
    let mut lines = Lines::over(&mut out);
    tell_all(&mut reports, &mut lines, &table, &EVERY_KIND);
    assert!(rt; !lines.failed());
    assert_eq!(rt; str::from_utf8(out.bytes())?, THEIR_LINES);
    Ok(())
}

#[test]
fn a_log_has_the_line_of_each_kind(rt: HostRuntime) -> Result<(), Fail> {
    let alloc = rt.alloc();
    let table = table_of(alloc, "a\\\n\u{7f}\u{e9}")?;
    assert!(rt; table.disks() == 1);
    assert!(rt; table.records(0) == 1);
    let log = log_of(alloc, &table, &EVERY_KIND);
    assert!(rt; !log.failed());
    assert_eq!(rt; str::from_utf8(log.sink().bytes())?, THEIR_LINES);
    Ok(())
}

// What stands in a sink whose write of this number fails.
static WRITTEN: [(u64, &str); 6] = [
    (1, ""),
    (2, "unsynced 0\n"),
    (3, "unsynced 0\nunsynced 1\n"),
    (4, "unsynced 0\nunsynced 1\nunsynced 2\n"),
    (5, "unsynced 0\nunsynced 1\nunsynced 2\nunsynced 3\n"),
    (
        6,
        "unsynced 0\nunsynced 1\nunsynced 2\nunsynced 3\nunsynced 4\n",
    ),
];

// Six events, over a sink whose write of each number fails: the lines before it stand there, and no other.
#[test]
fn nothing_is_written_after_a_failed_write(rt: HostRuntime) -> Result<(), Fail> {
    let alloc = rt.alloc();
    let table = table_of(alloc, "a")?;
    for (failing, written) in &WRITTEN {
        let mut reports: Vec<Box<dyn Report>> = Vec::new(alloc);
        let mut out = MemSink::new(alloc);
        out.fail_at(*failing)?;
        let mut lines = Lines::over(&mut out);
        for stripe in 0..6 {
            tell(
                &mut reports,
                &mut lines,
                &table,
                &Event::Unsynced { stripe },
            );
        }
        lines.end_sync(0, 6);
        assert!(rt; lines.failed());
        assert_eq!(rt; out.faults(), 1);
        assert_eq!(rt; str::from_utf8(out.bytes())?, *written);
    }
    Ok(())
}

// Texts of 3,000 bytes go through the page, one of 5,000 at once: its write is the third, and fails. The two texts
// before it stand there, and nothing else.
#[test]
fn pages_stop_at_the_first_failure(rt: HostRuntime) -> Result<(), Fail> {
    let alloc = rt.alloc();
    let mut sink = MemSink::new(alloc);
    sink.fail_at(3)?;
    let middle = "b".repeat(alloc, 3000)?;
    let long = "c".repeat(alloc, 5000)?;
    let mut lines = Lines::over(&mut sink);
    lines.put_all(&[Piece::Text(middle.as_str()), Piece::Text(middle.as_str())]);
    assert!(rt; !lines.failed());
    lines.put_all(&[Piece::Text(long.as_str()), Piece::Text(middle.as_str())]);
    lines.hand_on();
    assert!(rt; lines.failed());
    assert!(rt; sink.bytes() == [b'b'; 6000].as_slice());
    Ok(())
}
