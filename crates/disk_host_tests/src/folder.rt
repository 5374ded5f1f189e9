// Steps of a data folder: `list PATH SIZE ..`, `faults`, `causes TEXT`, `sync`, or something that is done with a file. A verb that ends with
// `-lost` is of PATH`.unrecoverable`.
ghost use Rattle.std.specs.Prelude.{IfSome};
ghost use Rattle.disk_model.specs.Stamp.{IsStamp};

use crate::answer::{Answer, done, file_done, file_fault, is_done};
use crate::causes::are_causes;
use crate::system::Host;
use crate::words::{first_of, number_of, place_of, text_of};
use disk_host::DiskFolder;
use disk_model::{FileInfo, Folder, Path, Stamp};
use std::alloc::Global;

// Stands for a path of so many bytes: folders of 255 bytes, and a file's name of 242.
const LONG_PATH: &str = "LONG";

const LONG: u32 = 4_082;

#[derive(Clone, Copy)]
enum Act {
    Size,
    Look,
    Read,
    Make,
    Write,
    Cut,
    Stamp,
    Rename,
}

/// A step of one data folder.
pub fn folder_step(alloc: Global, folder: &mut DiskFolder<Host>, step: &str) -> Option<Answer> {
    let (verb, rest) = first_of(step);
    match verb {
        "faults" => Some(Answer::Number(folder.faults())),
        "causes" => are_causes(alloc, folder.failures(), rest),
        "list" => Some(listed(alloc, folder, rest)),
        "sync" => Some(done(folder.sync_written())),
        _ => file_step(alloc, folder, verb, rest),
    }
}

fn listed(alloc: Global, folder: &mut DiskFolder<Host>, wanted: &str) -> Answer {
    match folder.list(alloc) {
        Ok(files) => is_done(are(alloc, &files, wanted)),
        Err(_) => Answer::Failed,
    }
}

// Whether these are the files, and no more.
fn are(alloc: Global, files: &[FileInfo], wanted: &str) -> bool {
    let mut rest = wanted;
    for file in files {
        match after(alloc, file, rest) {
            Some(next) => rest = next,
            None => return false,
        }
    }
    rest.is_empty()
}

// What follows a file's path and size.
fn after<'a>(alloc: Global, file: &FileInfo, wanted: &'a str) -> Option<&'a str> {
    let (path, rest) = first_of(wanted);
    let (size, rest) = number_of(rest)?;
    let path = text_of(alloc, path)?;
    if file.path.as_str() != path.as_str() || file.meta.size != size {
        return None;
    }
    Some(rest)
}

fn file_step(
    alloc: Global,
    folder: &mut DiskFolder<Host>,
    verb: &str,
    words: &str,
) -> Option<Answer> {
    let (verb, lost) = match verb.strip_suffix("-lost") {
        Some(verb) => (verb, true),
        None => (verb, false),
    };
    let act = act_of(verb)?;
    let (path, rest) = first_of(words);
    match path_of(alloc, path) {
        Some(path) => act_on(alloc, folder, &path, lost, act, rest),
        None => Some(Answer::Differs),
    }
}

fn act_of(verb: &str) -> Option<Act> {
    match verb {
        "size" => Some(Act::Size),
        "look" => Some(Act::Look),
        "read" => Some(Act::Read),
        "make" => Some(Act::Make),
        "write" => Some(Act::Write),
        "cut" => Some(Act::Cut),
        "stamp" => Some(Act::Stamp),
        "rename" => Some(Act::Rename),
        _ => None,
    }
}

fn path_of(alloc: Global, word: &str) -> Option<Path> {
    let text = if word == LONG_PATH {
        long_text(alloc)?
    } else {
        text_of(alloc, word)?
    };
    Path::new(alloc, text.as_str()).ok()
}

fn long_text(alloc: Global) -> Option<String> {
    let mut text = String::new(alloc);
    for place in 0..LONG {
        let next = if place % 256 == 255 { '/' } else { 'x' };
        text.push(next).ok()?;
    }
    Some(text)
}

fn act_on(
    alloc: Global,
    folder: &mut DiskFolder<Host>,
    path: &Path,
    lost: bool,
    act: Act,
    rest: &str,
) -> Option<Answer> {
    match act {
        Act::Size => Some(size(folder, path, lost)),
        Act::Look => Some(look(folder, path, lost)),
        Act::Read => read(alloc, folder, path, lost, rest),
        Act::Make => Some(make(folder, path)),
        Act::Write => write(alloc, folder, path, rest),
        Act::Cut => cut(folder, path, rest),
        Act::Stamp => stamp(folder, path, rest),
        Act::Rename => Some(file_done(folder.rename(path, lost))),
    }
}

fn size(folder: &mut DiskFolder<Host>, path: &Path, lost: bool) -> Answer {
    match folder.look(path, lost) {
        Ok(meta) => Answer::Number(meta.size),
        Err(fault) => file_fault(fault),
    }
}

fn look(folder: &mut DiskFolder<Host>, path: &Path, lost: bool) -> Answer {
    match folder.look(path, lost) {
        Ok(meta) => Answer::Seen(meta),
        Err(fault) => file_fault(fault),
    }
}

// Eight bytes at most, which are the text.
fn read(
    alloc: Global,
    folder: &mut DiskFolder<Host>,
    path: &Path,
    lost: bool,
    words: &str,
) -> Option<Answer> {
    let (at, word) = number_of(words)?;
    let text = text_of(alloc, word)?;
    let mut out = [0u8; 8];
    match folder.read_at(path, lost, at, &mut out) {
        Ok(count) => Some(came(&out, count, text.as_str())),
        Err(fault) => Some(file_fault(fault)),
    }
}

/// Whether the bytes that came are the text.
pub fn came(out: &[u8], count: usize, text: &str) -> Answer {
    match out.get(..count) {
        Some(bytes) => is_done(bytes == text.as_bytes()),
        None => Answer::Differs,
    }
}

fn make(folder: &mut DiskFolder<Host>, path: &Path) -> Answer {
    match folder.make(path) {
        Ok(()) => Answer::Done,
        Err(_) => Answer::Failed,
    }
}

fn write(alloc: Global, folder: &mut DiskFolder<Host>, path: &Path, words: &str) -> Option<Answer> {
    let (at, word) = place_of(words)?;
    let text = text_of(alloc, word)?;
    Some(file_done(folder.write_at(path, u64::from(at), text.as_str().as_bytes())))
}

fn cut(folder: &mut DiskFolder<Host>, path: &Path, words: &str) -> Option<Answer> {
    let (size, _) = number_of(words)?;
    Some(file_done(folder.set_size(path, size)))
}

// Done where the folder keeps stamps.
fn stamp(folder: &mut DiskFolder<Host>, path: &Path, words: &str) -> Option<Answer> {
    let stamp = stamp_of(words)?;
    match folder.set_stamp(path, stamp) {
        Ok(kept) => Some(is_done(kept)),
        Err(fault) => Some(file_fault(fault)),
    }
}

fn stamp_of(words: &str) -> Option<Stamp>
    ensures { IfSome result (λ stamp. IsStamp stamp) }
{
    let (seconds, rest) = first_of(words);
    let seconds = seconds.parse::<i64>().ok()?;
    let (nanos, _) = number_of(rest)?;
    match u32::try_from(nanos) {
        Ok(nanos) if nanos < 1_000_000_000 => Some(Stamp { seconds, nanos }),
        _ => None,
    }
}
