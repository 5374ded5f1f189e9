// What a run wrote into data folders reaches their disks before the program says that it is done.
use disk_host::DiskFolder;
use disk_model::Sink;
use progress::MeteredFolder;
use std::rt::Files;

const LINE: &str = "snapraid: what was written may not have reached its disk\n";

/// Hands what was written to the disks, folder after folder, and gives the status of the run: 3 where that failed in one of
/// them and the run itself was done.
pub fn sync_folders<W: Sink, R: Files + AllocGlobal, C, T>(
    err: &mut W,
    folders: &mut [MeteredFolder<'_, DiskFolder<R>, C, T>],
    status: u8,
) -> u8 {
    let mut has_failed = false;
    for folder in folders {
        has_failed = folder.get_mut().sync_written().is_err() || has_failed;
    }
    if !has_failed || status > 1 {
        return status;
    }
    let _ = err.write(LINE.as_bytes());
    3
}
