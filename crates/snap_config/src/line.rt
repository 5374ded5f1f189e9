// The parts of a configuration's line.
ghost use Rattle.std.specs.Prelude.{◌≡◌, IsCharBoundary};
ghost use Rattle.std.specs.List.{position_or_len};
ghost use Rattle.snap_config.specs.Line.{is_blank, starts_with_blank, ends_with_blank, without_return, trim_front, trim_end, content_of, is_skipped, first_word, after_word};

use memchr::memchr2;

/// What a line says, without what stands round it.
pub(crate) fn content_of(line: &str) -> &str
    ensures { result.now ≡ content_of line.now }
{
    trim_front(trim_end(without_return(line)))
}

/// Whether what a line says is nothing, or a comment.
pub(crate) fn is_skipped(content: &str) -> bool
    ensures { result ≡ is_skipped content.now }
{
    match content.as_bytes() {
        [] => true,
        [first, ..] => *first == b'#',
    }
}

/// The text up to the first space or tab, and what follows them.
pub(crate) fn split_word(text: &str) -> (&str, &str)
    ensures word { result.0.now ≡ first_word text.now }
    ensures rest { result.1.now ≡ after_word text.now }
{
    let end = word_end(text);
    (&text[..end], trim_front(&text[end..]))
}

// Where the first word of a text ends.
fn word_end(text: &str) -> usize
    ensures place { result ≡ position_or_len is_blank text.now }
    ensures boundary { IsCharBoundary text.now result }
{
    match memchr2(b' ', b'\t', text.as_bytes()) {
        Some(end) => end,
        None => text.len(),
    }
}

fn without_return(line: &str) -> &str
    ensures { result.now ≡ without_return line.now }
{
    match line.strip_suffix('\r') {
        Some(front) => front,
        None => line,
    }
}

fn trim_front(text: &str) -> &str
    ensures { result.now ≡ trim_front text.now }
{
    let mut rest = text;
    while starts_with_blank(rest) {
        rest = &rest[1..];
    }
    rest
}

fn trim_end(text: &str) -> &str
    ensures { result.now ≡ trim_end text.now }
{
    let mut rest = text;
    while ends_with_blank(rest) {
        rest = &rest[..rest.len() - 1];
    }
    rest
}

fn starts_with_blank(text: &str) -> bool
    ensures { result ≡ starts_with_blank text.now }
{
    match text.as_bytes() {
        [] => false,
        [first, ..] => is_blank(*first),
    }
}

fn ends_with_blank(text: &str) -> bool
    ensures { result ≡ ends_with_blank text.now }
{
    match text.as_bytes() {
        [] => false,
        [.., last] => is_blank(*last),
    }
}

fn is_blank(byte: u8) -> bool
    ensures { result ≡ is_blank byte }
{
    byte == b' ' || byte == b'\t'
}
