// Whether a pattern matches a path.
ghost use Rattle.std.specs.Prelude.{◌≡◌, ◌≢◌, [], false};
ghost use Rattle.std.specs.List.{list_any};
ghost use Rattle.disk_model.specs.Path.{components};
ghost use Rattle.array_setup.specs.Glob.{fits_text};
ghost use Rattle.array_setup.specs.Pattern.{ends_with_slash, has_byte};
ghost use Rattle.array_setup.specs.Matching.{last_part, parts_before_last, matches, matches_below};

use crate::Pattern;
use crate::glob::{cut, fits};
use disk_model::Path;
use memchr::memrchr;

/// Whether a pattern matches a path. `FILE` matches by the path's last component, `DIR/` by one of the
/// others, `/PATH/FILE` by the whole path and `/PATH/DIR/` by one of its directories.
pub fn matches(pattern: &Pattern, path: &Path) -> bool
    ensures { result ≡ matches pattern.now path.now }
{
    let text = pattern.as_str();
    let path = path.as_str();
    match text.strip_prefix('/') {
        Some(below) => fits_below(below, path),
        None => match text.strip_suffix('/') {
            Some(directory) => fits_directory(directory, path),
            None => fits(text, last_component(path)),
        },
    }
}

// Whether a pattern that begins at the root, its first slash taken off, fits a path or a directory of it.
fn fits_below(pattern: &str, path: &str) -> bool
    requires { pattern.now ≢ [] }
    ensures { result ≡ matches_below pattern.now path.now }
{
    let mut wanted = pattern;
    let mut rest = path;
    loop {
        match (cut(wanted, '/'), cut(rest, '/')) {
            (None, None) => return fits(wanted, rest),
            (Some((part, wanted_after)), Some((component, after))) => {
                if !fits(part, component) {
                    return false;
                }
                if wanted_after.is_empty() {
                    return true;
                }
                wanted = wanted_after;
                rest = after;
            }
            _ => return false,
        }
    }
}

// Whether a pattern fits a component that isn't the last one.
fn fits_directory(pattern: &str, path: &str) -> bool
    ensures { result ≡ list_any (fits_text pattern.now) (parts_before_last (components path.now)) }
{
    let mut rest = path;
    while let Some((component, after)) = cut(rest, '/') {
        if fits(pattern, component) {
            return true;
        }
        rest = after;
    }
    false
}

// The component behind the last slash.
fn last_component(path: &str) -> &str
    ensures value { result.now ≡ last_part (components path.now) }
    ensures no_slash { has_byte 47 result.now ≡ false }
{
    match memrchr(b'/', path.as_bytes()) {
        Some(slash) => &path[slash + 1..],
        None => path,
    }
}
