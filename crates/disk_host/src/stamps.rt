// Stamps of files that are set, and whether a folder keeps them.
use crate::places::meta_of;
use disk_model::{Meta, Stamp};
use std::fs::{File, FileTimes, Metadata, OpenFile};
use std::io::ErrorKind;
use std::os::unix::fs::MetadataExt;
use std::rt::Files;
use std::time::{Duration, SystemTime, UNIX_EPOCH};
use std::{fs, io};

// File systems that keep no nanoseconds keep multiples of so many at best.
const COARSE: i64 = 100;

// Sets the time of last change. It is a failure where the system then tells another, and where the standard library takes
// no such time, as of one before 1970.
pub(crate) fn set_stamp_of<F: OpenFile>(file: &F, stamp: Stamp) -> io::Result<()> {
    let Some(time) = time_of(stamp) else {
        return Err(io::Error::new(ErrorKind::Unsupported, "such a time can't be set"));
    };
    file.set_times(FileTimes::new().set_modified(time))?;
    if meta_of(&file.metadata()?)?.stamp != stamp {
        return Err(io::Error::new(ErrorKind::InvalidData, "the system then tells another time"));
    }
    Ok(())
}

fn time_of(stamp: Stamp) -> Option<SystemTime> {
    let seconds = u64::try_from(stamp.seconds).ok()?;
    UNIX_EPOCH.checked_add(Duration::new(seconds, stamp.nanos))
}

// Whether the files of a folder keep stamps to the nanosecond. The folder's own times mostly tell it; where they do not, it is
// tried on the folder's own time of last change. A folder that cannot be looked at is taken to keep them.
pub(crate) fn keeps_stamps<R: Files>(rt: &R, dir: &str) -> bool {
    match fs::metadata(rt, dir) {
        Ok(seen) => tells_nanoseconds(&seen) || keeps_a_nanosecond(rt, dir).unwrap_or(false),
        Err(_) => true,
    }
}

fn tells_nanoseconds(seen: &Metadata) -> bool {
    seen.ctime_nsec() % COARSE != 0
        || seen.mtime_nsec() % COARSE != 0
        || seen.atime_nsec() % COARSE != 0
}

// The folder's time is set to a nanosecond behind its second, looked at, and set back.
fn keeps_a_nanosecond<R: Files>(rt: &R, dir: &str) -> io::Result<bool> {
    let folder = File::open(rt, dir)?;
    let Meta { size: _, stamp } = meta_of(&folder.metadata()?)?;
    let tried = Stamp { nanos: 1, ..stamp };
    let is_kept = set_stamp_of(&folder, tried).is_ok();
    set_stamp_of(&folder, stamp)?;
    Ok(is_kept)
}
