// Paths that a record may have.
ghost use Rattle.std.specs.Prelude.{◌↔◌, IsTrue};
ghost use Rattle.disk_model.specs.Path.{IsRecordPath, IsFirstSlash, EndsWith, lost_suffix};
ghost use Rattle.disk_model.specs.RecordPath.{HasNoLostPart};

use crate::Path;

const LONGEST: usize = 4082;

const SLASH: u8 = b'/';

/// Whether a record may have this path: it leaves room for the name of its lost file, and no lost file
/// can have it.
pub fn is_record_path(path: &Path) -> bool
    ensures { IsTrue result ↔ IsRecordPath path.now }
{
    let bytes = path.as_str().as_bytes();
    bytes.len() <= LONGEST && has_no_lost_part(bytes)
}

// Whether none of the parts between slashes ends as the names of lost files do.
fn has_no_lost_part(bytes: &[u8]) -> bool
    ensures { IsTrue result ↔ HasNoLostPart bytes.now }
{
    let mut rest = bytes;
    loop {
        let length = rest.len();
        let end = first_slash(rest);
        let (part, _) = rest.split_at(end);
        if is_lost(part) {
            return false;
        }
        if end == length {
            return true;
        }
        let (_, after) = rest.split_at(end + 1);
        rest = after;
    }
}

// The place of the first slash, or the end.
fn first_slash(bytes: &[u8]) -> usize
    ensures { IsFirstSlash bytes.now result }
{
    bytes
        .iter()
        .position(|byte| *byte == SLASH)
        .unwrap_or(bytes.len())
}

fn is_lost(part: &[u8]) -> bool
    ensures { IsTrue result ↔ EndsWith lost_suffix part.now }
{
    part.ends_with(b".unrecoverable".as_slice())
}
