// Which files of a data disk are kept.
ghost use Rattle.std.specs.Prelude.{◌≡◌, ◌<◌, ◌∷◌, ◌++◌, length, map, bytes_eq, codes, [], if◌then◌else◌, option_to_list};
ghost use Rattle.disk_model.specs.Path.{IsValidPath};
ghost use Rattle.array_setup.specs.Keeps.{is_recordable, draft_name, own_names, full_name, has_name, starts_with_dot, is_hidden, filter_keeps, keeps};
ghost use Rattle.array_setup.specs.Setup.{setup_value};

use crate::glob::cut;
use crate::{Rule, Setup, matches};
use disk_model::{Path, Text, is_record_path};

const DRAFT: &[u8; 4] = b".tmp";

/// Whether a file of a column is kept under this path: not where no record may have the path, where the
/// file is one of the array's own, where it is hidden and `nohidden` stands, or where the rules leave it out.
pub fn keeps(setup: &Setup, column: u32, path: &Path) -> bool
    requires { column < length setup.now.disks }
    ensures { result ≡ keeps (setup_value setup.now) column path.now }
{
    let dir = setup.disks.as_slice()[column as usize].dir.as_str();
    let text = path.as_str();
    may_be_recorded(path)
        && !is_own(setup, dir, text)
        && !(setup.nohidden && is_hidden(text))
        && filter_keeps(setup.rules.as_slice(), path)
}

fn may_be_recorded(path: &Path) -> bool
    requires { IsValidPath path.now }
    ensures { result ≡ is_recordable path.now }
{
    is_record_path(path)
}

// Whether a file of a folder is one of the array's own.
fn is_own(setup: &Setup, dir: &str, path: &str) -> bool
    ensures { result ≡ has_name (own_names (setup_value setup.now)) (full_name dir.now path.now) }
{
    let dir = without_root(dir);
    let path = path.as_bytes();
    let contents = setup.places.contents.as_slice();
    is_among(setup.places.parities.as_slice(), dir, path)
        || is_among(contents, dir, path)
        || is_draft(contents, dir, path)
        || is_log(&setup.log, dir, path)
}

// A folder, and nothing where it is the root.
fn without_root(dir: &str) -> &str
    ensures { result.now ≡ (if bytes_eq dir.now (codes "/") then [] else dir.now) }
{
    if dir == "/" { "" } else { dir }
}

// Whether the file at a path below a folder has one of these names.
fn is_among(names: &[Text], dir: &str, path: &[u8]) -> bool
    ensures { result ≡ has_name names.now (dir.now ++ 47 ∷ path.now) }
{
    names
        .iter()
        .any(|name| is_full_name(name.as_str(), dir, path))
}

fn is_draft(contents: &[Text], dir: &str, path: &[u8]) -> bool
    ensures { result ≡ has_name (map draft_name contents.now) (dir.now ++ 47 ∷ path.now) }
{
    match path.strip_suffix(DRAFT.as_slice()) {
        Some(content) => is_among(contents, dir, content),
        None => false,
    }
}

fn is_log(log: &Option<Text>, dir: &str, path: &[u8]) -> bool
    ensures { result ≡ has_name (option_to_list log.now) (dir.now ++ 47 ∷ path.now) }
{
    match log {
        Some(log) => is_full_name(log.as_str(), dir, path),
        None => false,
    }
}

// Whether a name is that of a folder, a slash and a path.
fn is_full_name(name: &str, dir: &str, path: &[u8]) -> bool
    ensures { result ≡ bytes_eq name.now (dir.now ++ 47 ∷ path.now) }
{
    match name.as_bytes().strip_prefix(dir.as_bytes()) {
        Some(rest) => is_below_slash(rest, path),
        None => false,
    }
}

// Whether a name is that of a slash and a path.
fn is_below_slash(name: &[u8], path: &[u8]) -> bool
    ensures { result ≡ bytes_eq name.now (47 ∷ path.now) }
{
    match name {
        [b'/', rest @ ..] => rest == path,
        _ => false,
    }
}

// Whether a component begins with a dot.
fn is_hidden(path: &str) -> bool
    ensures { result ≡ is_hidden path.now }
{
    let mut rest = path;
    loop {
        if starts_with_dot(rest) {
            return true;
        }
        match cut(rest, '/') {
            Some((_, after)) => rest = after,
            None => return false,
        }
    }
}

fn starts_with_dot(text: &str) -> bool
    ensures { result ≡ starts_with_dot text.now }
{
    matches!(text.as_bytes(), [b'.', ..])
}

// Whether the rules keep a path: the first that matches decides, else what the last one is.
fn filter_keeps(rules: &[Rule], path: &Path) -> bool
    ensures { result ≡ filter_keeps rules.now path.now }
{
    match rules.iter().find(|rule| matches(&rule.pattern, path)) {
        Some(rule) => rule.include,
        None => !rules.last().is_some_and(|rule| rule.include),
    }
}
