// What the program asks of the system besides files, and how it reads the answers.
use crate::{open_streams, seconds_since_1970};
use std::io;
use std::io::{ErrorKind, Read, Write};
use std::test::Fail;
use std::time::{Clock, Duration};

// A clock that stands still at these seconds and nanoseconds, or that can't be read.
struct Stopped(Option<(u32, u32)>);

impl Clock for Stopped {
    fn monotonic(&self) -> io::Result<Duration> {
        self.since_1970()
    }

    fn since_1970(&self) -> io::Result<Duration> {
        match self.0 {
            Some((seconds, nanos)) => Ok(Duration::new(u64::from(seconds), nanos)),
            None => Err(io::Error::from(ErrorKind::Unsupported)),
        }
    }
}

#[test]
fn whole_seconds_of_the_clock(rt: HostRuntime) -> Result<(), Fail> {
    static CASES: [(Stopped, u64); 3] = [
        (Stopped(Some((1_700_000_000, 999_999_999))), 1_700_000_000),
        (Stopped(Some((0, 0))), 0),
        (Stopped(None), 0),
    ];
    for (clock, want) in &CASES {
        assert_eq!(rt; seconds_since_1970(clock), *want);
    }
    Ok(())
}

fn leads_nowhere<F: Read + Write>(stream: &mut F) -> bool {
    let mut out = [0u8; 8];
    stream.write_all(b"a line").is_ok() && matches!(stream.read(&mut out), Ok(0))
}

#[test]
fn streams_lead_nowhere(rt: HostRuntime) -> Result<(), Fail> {
    let [mut first, mut second, mut third] = open_streams(&rt)?;
    assert!(rt; leads_nowhere(&mut first));
    assert!(rt; leads_nowhere(&mut second));
    assert!(rt; leads_nowhere(&mut third));
    Ok(())
}
