// Patterns of file names.
ghost use Rattle.std.specs.Prelude.{◌≡◌, IsTrue, IfOk, OnOk, IsErrOf, false};
ghost use Rattle.array_setup.specs.Pattern.{is_pattern, has_pair, has_slash_inside, starts_with_slash};

use std::alloc::Global;
use std::marker::Model;

/// A pattern of file names, seen as its text. Which paths it matches, `matches` says.
#[derive(Drop)]
pub struct Pattern {
    text: String,
}

impl Model for Pattern {
    ghost use Rattle.std.specs.Prelude.{List, ℕ, string_bytes, IsTrue};
    ghost use Rattle.array_setup.specs.Pattern.{is_pattern};

    ghost Value = { List ℕ };

    ghost view = { λ p. string_bytes p.text };

    ghost invariant = { λ p. IsTrue (is_pattern (string_bytes p.text)) };
}

impl Pattern {
    ghost use Rattle.std.specs.Prelude.{◌≡◌, IsTrue};
    ghost use Rattle.array_setup.specs.Pattern.{is_pattern};

    pub fn as_str(&self) -> &str
        ensures value { result.now ≡ self.now }
        ensures valid { IsTrue (is_pattern self.now) }
    {
        self.text.as_str()
    }
}

/// Why no pattern was made.
#[derive(Clone, Copy, Debug, PartialEq, Eq)]
pub enum PatternFault {
    /// The text is no pattern.
    Bad,
    Memory,
}

/// The pattern of this text. `Bad` exactly where the text is empty or `/` alone, holds `[` or `**`, has two
/// slashes side by side, or has a slash inside without one at its front.
pub fn read_pattern(alloc: Global, text: &str) -> Result<Pattern, PatternFault>
    ensures ok { IfOk result (λ pattern. pattern ≡ text.now) }
    ensures valid { OnOk result (IsTrue (is_pattern text.now)) }
    ensures bad { IsErrOf result PatternFault.Bad → is_pattern text.now ≡ false }
{
    if !may_be_pattern(text) {
        return Err(PatternFault::Bad);
    }
    match String::from_str(alloc, text) {
        Ok(text) => Ok(Pattern { text }),
        Err(_) => Err(PatternFault::Memory),
    }
}

// Whether a text is a pattern.
fn may_be_pattern(text: &str) -> bool
    ensures { result ≡ is_pattern text.now }
{
    let bytes = text.as_bytes();
    !bytes.is_empty()
        && bytes != b"/".as_slice()
        && !bytes.contains(&b'[')
        && !has_two(bytes, b'*')
        && !has_two(bytes, b'/')
        && (starts_with_slash(bytes) || !has_slash_inside(bytes))
}

fn starts_with_slash(bytes: &[u8]) -> bool
    ensures { result ≡ starts_with_slash bytes.now }
{
    matches!(bytes, [b'/', ..])
}

// Whether a slash stands before the last byte.
fn has_slash_inside(bytes: &[u8]) -> bool
    ensures { result ≡ has_slash_inside bytes.now }
{
    match bytes {
        [front @ .., _] => front.contains(&b'/'),
        [] => false,
    }
}

// Whether a byte stands twice side by side.
fn has_two(bytes: &[u8], byte: u8) -> bool
    ensures { result ≡ has_pair byte bytes.now }
{
    let mut before = false;
    for b in bytes {
        let is = *b == byte;
        if is && before {
            return true;
        }
        before = is;
    }
    false
}
