// Where how far a run has come is shown.
use std::env;
use std::fs::OpenOptions;
use std::io::IsTerminal;
use std::rt::{Env, Files};

/// The terminal of the process, where this stream is one and the line can be drawn there.
pub fn open_terminal<R: Files + Env + AllocGlobal, S: IsTerminal>(
    rt: &R,
    stream: &S,
) -> Option<R::File> {
    if !stream.is_terminal() || !is_drawable(rt) {
        return None;
    }
    OpenOptions::new().write(true).open(rt, "/dev/tty").ok()
}

// Whether the kind of the terminal is known, and is none that only prints.
fn is_drawable<R: Env + AllocGlobal>(rt: &R) -> bool {
    match env::var(rt, "TERM") {
        Ok(kind) => !matches!(kind.as_str(), "" | "dumb"),
        Err(_) => false,
    }
}
