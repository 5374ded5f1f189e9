// Whether a pattern fits a name, both without slashes.
ghost use Rattle.std.specs.Prelude.{◌≡◌, ◌<◌, chars, MatchOption, Some, None, false, []};
ghost use Rattle.array_setup.specs.Glob.{star, stands_for, fits, fits_text};
ghost use Rattle.array_setup.specs.Pattern.{has_byte};
ghost use Rattle.array_setup.specs.Walk.{IsCut, IsFirstOf, IsLastOf, strip, first_strip};

/// Whether a pattern fits the whole of a name without slashes.
pub(crate) fn fits(pattern: &str, name: &str) -> bool
    requires { has_byte 47 name.now ≡ false }
    ensures { result ≡ fits_text pattern.now name.now }
{
    match cut(pattern, '*') {
        None => match strip(pattern, name) {
            Some(rest) => rest.is_empty(),
            None => false,
        },
        Some((part, after)) => match strip(part, name) {
            Some(rest) => fits_behind_star(after, rest),
            None => false,
        },
    }
}

// Whether a star and a pattern fit a name: each part up to the next star is taken off at the first place
// where it can be, and the last one at the end.
fn fits_behind_star(pattern: &str, name: &str) -> bool
    requires { has_byte 47 (chars name.now) ≡ false }
    ensures { result ≡ star (fits (chars pattern.now)) (chars name.now) }
{
    let mut parts = pattern;
    let mut rest = name;
    while let Some((part, after)) = cut(parts, '*') {
        let Some(next) = first_strip(part, rest) else {
            return false;
        };
        parts = after;
        rest = next;
    }
    fits_end(parts, rest)
}

// Whether a star and a part without one fit a name.
fn fits_end(part: &str, name: &str) -> bool
    requires plain { has_byte 42 (chars part.now) ≡ false }
    requires name { has_byte 47 (chars name.now) ≡ false }
    ensures { result ≡ star (fits (chars part.now)) (chars name.now) }
{
    let mut wanted = part;
    let mut rest = name;
    while let Some((before, last)) = last_of(wanted) {
        let Some((front, found)) = last_of(rest) else {
            return false;
        };
        if !stands_for(last, found) {
            return false;
        }
        wanted = before;
        rest = front;
    }
    true
}

// What is left of a name where a part without a star is taken off its front.
fn strip<'a>(part: &str, name: &'a str) -> Option<&'a str>
    ensures { MatchOption result (strip (chars part.now) (chars name.now) ≡ None)
        (λ rest. strip (chars part.now) (chars name.now) ≡ Some (chars rest.now)) }
{
    let mut wanted = part;
    let mut rest = name;
    while let Some((first, after)) = first_of(wanted) {
        let (found, next) = first_of(rest)?;
        if !stands_for(first, found) {
            return None;
        }
        wanted = after;
        rest = next;
    }
    Some(rest)
}

// What is left of a name behind the first place where a part without a star can be taken off.
fn first_strip<'a>(part: &str, name: &'a str) -> Option<&'a str>
    ensures { MatchOption result (first_strip (chars part.now) (chars name.now) ≡ None)
        (λ rest. first_strip (chars part.now) (chars name.now) ≡ Some (chars rest.now)) }
{
    let mut rest = name;
    loop {
        if let Some(left) = strip(part, rest) {
            return Some(left);
        }
        let (_, next) = first_of(rest)?;
        rest = next;
    }
}

// Whether a character of a pattern that isn't a star stands for another.
fn stands_for(wanted: char, found: char) -> bool
    ensures { result ≡ stands_for wanted found }
{
    if wanted == '?' {
        found != '/'
    } else {
        found == wanted
    }
}

/// The texts before and after the first of an ASCII character.
pub fn cut(text: &str, at: char) -> Option<(&str, &str)>
    requires { at < 128 }
    ensures { MatchOption result (has_byte at text.now ≡ false)
        (λ parts. IsCut at text.now parts.0.now parts.1.now) }
{
    text.split_once(at)
}

// The first character, and the text after it.
fn first_of(text: &str) -> Option<(char, &str)>
    ensures { MatchOption result (chars text.now ≡ [])
        (λ found. IsFirstOf text.now found.0 found.1.now) }
{
    let mut chars = text.chars();
    let first = chars.next()?;
    Some((first, chars.as_str()))
}

// The text before the last character, and that character.
fn last_of(text: &str) -> Option<(&str, char)>
    ensures { MatchOption result (chars text.now ≡ [])
        (λ found. IsLastOf text.now found.0.now found.1) }
{
    let mut chars = text.chars();
    let last = chars.next_back()?;
    Some((chars.as_str(), last))
}
