// What failed of an object, as lines of text.
use crate::answer::{Answer, is_done};
use crate::words::text_of;
use disk_host::Failure;
use std::alloc::{AllocError, Global};

/// Whether these failures, a line each, are the text that a word stands for.
pub fn are_causes(alloc: Global, failures: &[Failure], word: &str) -> Option<Answer> {
    let wanted = text_of(alloc, word)?;
    match lines_of(alloc, failures) {
        Ok(lines) => Some(is_done(lines.as_str() == wanted.as_str())),
        Err(_) => None,
    }
}

fn lines_of(alloc: Global, failures: &[Failure]) -> Result<String, AllocError> {
    let mut lines = String::new(alloc);
    for failure in failures {
        put_line(&mut lines, failure)?;
    }
    Ok(lines)
}

fn put_line(lines: &mut String, failure: &Failure) -> Result<(), AllocError> {
    lines.push_str(failure.request.as_str())?;
    lines.push(' ')?;
    lines.push_str(failure.name.as_str())?;
    lines.push_str(": ")?;
    lines.push_str(failure.why.as_str())?;
    lines.push('\n')
}
