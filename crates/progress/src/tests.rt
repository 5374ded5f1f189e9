// What the line says, and when it stands on the terminal.
use crate::extent::Extent;
use crate::line::Line;
use crate::meter::Meter;
use crate::pace::{Mark, Pace};
use std::io;
use std::io::{ErrorKind, Write};
use std::sync::Mutex;
use std::sync::atomic::{AtomicU64, Ordering};
use std::test::Fail;
use std::time::{Clock, Duration};

struct Case {
    now: Mark,
    length: u64,
    line: &'static str,
}

const fn at(time: u64, bytes: u64, place: u64) -> Mark {
    Mark { time, bytes, place }
}

#[test]
fn lines_of_work_since_one_time(rt: HostRuntime) -> Result<(), Fail> {
    static SINCE: Mark = Mark {
        time: 5000,
        bytes: 7_000_000,
        place: 1000,
    };
    static CASES: [Case; 6] = [
        Case {
            now: Mark {
                time: 5000,
                bytes: 7_000_000,
                place: 1000,
            },
            length: 4000,
            line: "25%",
        },
        Case {
            now: Mark {
                time: 7000,
                bytes: 247_999_999,
                place: 1000,
            },
            length: 4000,
            line: "25% 120 MB/s",
        },
        Case {
            now: Mark {
                time: 7000,
                bytes: 247_000_000,
                place: 2000,
            },
            length: 4000,
            line: "50% 120 MB/s 0:00:04 left",
        },
        Case {
            now: Mark {
                time: 6000,
                bytes: 8_000_000,
                place: 1001,
            },
            length: 37_664,
            line: "2% 1 MB/s 10:11:03 left",
        },
        Case {
            now: Mark {
                time: 7000,
                bytes: 247_000_000,
                place: 4000,
            },
            length: 4000,
            line: "100% 120 MB/s 0:00:00 left",
        },
        Case {
            now: Mark {
                time: 7000,
                bytes: 247_000_000,
                place: 0,
            },
            length: 4000,
            line: "247 MB 120 MB/s",
        },
    ];
    for case in &CASES {
        let line = Line::new(&Pace::since(SINCE), case.now, case.length);
        let text = format!(in rt.alloc(); "{line}")?;
        assert_eq!(rt; text.as_str(), case.line);
    }
    Ok(())
}

// What is told of parity: whether a length is asked, and else a place come to; the file, and the number. Then the place and
// the length of parity that are known by it, 0 where none is.
type Step = (bool, u32, u64, u64, u64);

#[test]
fn a_place_in_a_level_of_several_files(rt: HostRuntime) -> Result<(), Fail> {
    // levels of the files 0 to 2, of 3, and of 4 and 5
    static SPLIT: [Step; 15] = [
        (true, 0, 100, 0, 100),
        (true, 1, 100, 0, 100),
        (true, 2, 30, 0, 30),
        (false, 0, 7, 7, 0),
        (false, 3, 7, 7, 0),
        (true, 4, 200, 0, 0),
        (true, 5, 30, 0, 0),
        (false, 4, 7, 7, 230),
        (true, 0, 100, 0, 0),
        (true, 1, 100, 0, 0),
        (true, 2, 30, 0, 0),
        (false, 1, 100, 200, 230),
        (false, 2, 5, 205, 230),
        (false, 3, 205, 205, 0),
        (false, 2, 9, 209, 230),
    ];
    // each level has one file
    static WHOLE: [Step; 5] = [
        (true, 0, 50, 0, 50),
        (true, 1, 50, 0, 50),
        (false, 0, 7, 7, 0),
        (false, 1, 7, 7, 0),
        (false, 0, 9, 9, 0),
    ];
    for steps in [SPLIT.as_slice(), WHOLE.as_slice()] {
        let mut extent = Extent::new();
        for (is_length, file, number, place, length) in steps {
            let known = if *is_length {
                (0, extent.ask(*file, *number))
            } else {
                extent.come(*file, *number)
            };
            assert_eq!(rt; known.0, *place);
            assert_eq!(rt; known.1.unwrap_or(0), *length);
        }
    }
    Ok(())
}

// A clock that has gone on by 200 milliseconds each time that it is read.
#[derive(Drop)]
struct Ticking(AtomicU64);

impl Clock for Ticking {
    fn monotonic(&self) -> io::Result<Duration> {
        Ok(Duration::from_millis(self.0.fetch_add(200, Ordering::SeqCst)))
    }

    fn since_1970(&self) -> io::Result<Duration> {
        Err(io::Error::from(ErrorKind::Unsupported))
    }
}

// A terminal that keeps what is written to it.
#[derive(Drop)]
struct Paper<'a>(&'a Mutex<Vec<u8>>);

impl Write for Paper<'_> {
    fn write(&mut self, buf: &[u8]) -> io::Result<usize> {
        match self.0.try_lock() {
            Some(mut text) => text.write(buf),
            None => Err(io::Error::from(ErrorKind::WouldBlock)),
        }
    }

    fn flush(&mut self) -> io::Result<()> {
        Ok(())
    }
}

#[test]
fn a_line_stands_for_half_a_second(rt: HostRuntime) -> Result<(), Fail> {
    let paper = Mutex::new(Vec::new(rt.alloc()));
    let meter = Meter::new(rt.alloc(), Ticking(AtomicU64::new(0)), Some(Paper(&paper)));
    meter.set_length(1000);
    meter.clear();
    for place in 0..7 {
        meter.tell(2_000_000, place * 100);
    }
    meter.clear();
    meter.clear();
    drop(meter);
    let text = paper.into_inner();
    let want =
        "\r\x1b[K\x1b[?7l20%\x1b[?7h\r\x1b[K\x1b[?7l50% 10 MB/s 0:00:01 left\x1b[?7h\r\x1b[K";
    assert_eq!(rt; str::from_utf8(text.as_slice()), Ok(want));
    Ok(())
}
