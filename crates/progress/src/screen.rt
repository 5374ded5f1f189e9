// The terminal, and what was drawn on it.
use crate::line::Line;
use crate::pace::{Mark, Pace};
use std::alloc::Global;
use std::fmt::Write as _;
use std::io::Write;

// Back to the first column, with the line erased.
const CLEAR: &str = "\r\x1b[K";

/// A terminal on which one line is drawn.
#[derive(Drop)]
pub(crate) struct Screen<T> {
    terminal: T,
    // what is written at once
    text: String,
    pace: Pace,
}

impl<T: Write> Screen<T> {
    pub(crate) fn new(alloc: Global, terminal: T, start: u64) -> Screen<T> {
        let start = Mark {
            time: start,
            bytes: 0,
            place: 0,
        };
        Screen {
            terminal,
            text: String::new(alloc),
            pace: Pace::since(start),
        }
    }

    /// Draws the line anew. Where it is too long for the terminal its end is not seen: the cursor stays on the line, so that
    /// all of it is cleared later. Where there is no memory for it nothing is drawn.
    pub(crate) fn draw(&mut self, now: Mark, length: u64) {
        self.pace.note(now);
        let line = Line::new(&self.pace, now, length);
        self.text.clear();
        if write!(self.text, "{CLEAR}\x1b[?7l{line}\x1b[?7h").is_ok() {
            let _ = self.terminal.write_all(self.text.as_bytes());
        }
    }

    pub(crate) fn clear(&mut self) {
        let _ = self.terminal.write_all(CLEAR.as_bytes());
    }
}
