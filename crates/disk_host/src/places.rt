// Where a file of a data folder stands. No link is followed, and nothing but a folder gone through.
ghost use Rattle.std.specs.Fs.{metadata_len};
ghost use Rattle.std.specs.Prelude.{◌≡◌, IfOk};
ghost use Rattle.disk_model.specs.Stamp.{IsStamp};

use disk_model::{Meta, Stamp};
use std::alloc::Global;
use std::fs::Metadata;
use std::io::ErrorKind;
use std::os::unix::fs::MetadataExt;
use std::rt::Files;
use std::{fs, io};

const LOST: &str = ".unrecoverable";

// A second in nanoseconds.
const SECOND: u32 = 1_000_000_000;

/// A regular file that was seen.
#[derive(Drop)]
pub struct Place {
    pub name: String,
    pub seen: Metadata,
}

// The file at PATH, or at PATH`.unrecoverable`; `None` where there is no regular file. It is a failure
// where the data folder itself is not there.
pub(crate) fn place_of<R: Files + AllocGlobal>(
    rt: &R,
    dir: &str,
    path: &str,
    lost: bool,
) -> io::Result<Option<Place>> {
    let name = name_of(rt.alloc(), dir, path, lost)?;
    if goes_through_folders(rt, dir, path)? {
        if let Some(seen) = look_at(rt, name.as_str())? {
            if seen.is_file() {
                return Ok(Some(Place { name, seen }));
            }
        }
    }
    require_folder(rt, dir)?;
    Ok(None)
}

// The name of PATH, or of PATH`.unrecoverable`, for the system.
pub(crate) fn name_of(alloc: Global, dir: &str, path: &str, lost: bool) -> io::Result<String> {
    let suffix = if lost { LOST } else { "" };
    Ok(format!(in alloc; "{dir}/{path}{suffix}")?)
}

// Whether each part of a path but the last is that of a folder.
fn goes_through_folders<R: Files + AllocGlobal>(rt: &R, dir: &str, path: &str) -> io::Result<bool> {
    let Some((way, _)) = path.rsplit_once('/') else {
        return Ok(true);
    };
    let mut name = String::from_str(rt.alloc(), dir)?;
    for part in way.split('/') {
        name.push('/')?;
        name.push_str(part)?;
        match look_at(rt, name.as_str())? {
            Some(seen) if seen.is_dir() => {}
            _ => return Ok(false),
        }
    }
    Ok(true)
}

pub(crate) fn look_at<R: Files>(rt: &R, name: &str) -> io::Result<Option<Metadata>> {
    match fs::symlink_metadata(rt, name) {
        Ok(seen) => Ok(Some(seen)),
        Err(error) if is_missing(&error) => Ok(None),
        Err(error) => Err(error),
    }
}

fn is_missing(error: &io::Error) -> bool {
    matches!(error.kind(), ErrorKind::NotFound | ErrorKind::NotADirectory)
}

pub(crate) fn require_folder<R: Files>(rt: &R, dir: &str) -> io::Result<()> {
    if fs::metadata(rt, dir)?.is_dir() {
        return Ok(());
    }
    Err(io::Error::from(ErrorKind::NotADirectory))
}

// Whether two looks saw one file.
pub(crate) fn is_same_file(one: &Metadata, other: &Metadata) -> bool {
    one.dev() == other.dev() && one.ino() == other.ino()
}

// Size and stamp. A system that tells a whole second of nanoseconds fails.
pub(crate) fn meta_of(seen: &Metadata) -> io::Result<Meta>
    ensures stamp { IfOk result (λ meta. IsStamp meta.stamp) }
    ensures size { IfOk result (λ meta. meta.size ≡ metadata_len seen.now) }
{
    match u32::try_from(seen.mtime_nsec()) {
        Ok(nanos) if nanos < SECOND => Ok(Meta {
            size: seen.len(),
            stamp: Stamp {
                seconds: seen.mtime(),
                nanos,
            },
        }),
        _ => Err(io::Error::from(ErrorKind::InvalidData)),
    }
}
