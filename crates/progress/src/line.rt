// What the line says.
use crate::pace::{Mark, Pace, percent};
use std::fmt;
use std::fmt::{Display, Formatter};

const MEGABYTE: u64 = 1_000_000;

/// How far the work has come, as it is said to people: '45% 120 MB/s 1:02:33 left', and before any place in parity is known
/// '512 MB 120 MB/s'.
#[derive(Clone, Copy, Debug, PartialEq, Eq)]
pub(crate) struct Line {
    bytes: u64,
    percent: Option<u64>,
    speed: Option<u64>,
    seconds_left: Option<u64>,
}

impl Line {
    /// Of work that has come so far, through parity of this length, 0 where that is not known.
    pub(crate) fn new(pace: &Pace, now: Mark, length: u64) -> Line {
        let is_placed = now.place > 0 && length > 0;
        Line {
            bytes: now.bytes,
            percent: if is_placed {
                percent(now.place, length)
            } else {
                None
            },
            speed: pace.speed(now),
            seconds_left: if is_placed {
                pace.seconds_left(now, length)
            } else {
                None
            },
        }
    }
}

impl Display for Line {
    fn fmt<W: fmt::Write>(&self, f: &mut Formatter<W>) -> fmt::Result {
        match self.percent {
            Some(percent) => write!(f, "{percent}%")?,
            None => write!(f, "{} MB", self.bytes / MEGABYTE)?,
        }
        if let Some(speed) = self.speed {
            write!(f, " {} MB/s", speed / MEGABYTE)?;
        }
        if let Some(left) = self.seconds_left {
            write!(
                f,
                " {}:{:02}:{:02} left",
                left / 3600,
                left / 60 % 60,
                left % 60
            )?;
        }
        Ok(())
    }
}
