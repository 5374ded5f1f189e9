// Whether the names that a run is given are those of different files and folders. What is written by one name must not be
// lost by another.
use crate::failures::{Clash, Failures};
use crate::files::folder_of;
use disk_model::{NoMemory, Places, Text};
use std::alloc::Global;
use std::fs;
use std::fs::Metadata;
use std::io::ErrorKind;
use std::os::unix::fs::MetadataExt;
use std::rt::Files;

// How far a folder is followed upwards: the system takes no longer name than so many `/..` make.
const DEEPEST: u32 = 1365;

// A file or folder as the system knows it, whatever its name.
#[derive(Clone, Copy, PartialEq, Eq)]
struct Node {
    device: u64,
    inode: u64,
}

// Where a name stands: at a file, or, where there is none yet, in a folder by its last part.
#[derive(Clone, Copy, PartialEq, Eq)]
enum Spot<'a> {
    Taken(Node),
    Free(Node, &'a str),
}

#[derive(Clone, Copy)]
struct Named<'a> {
    name: &'a str,
    spot: Spot<'a>,
}

/// Whether the configuration, all parity files, copies, their drafts and the log are different files, and no data folder is
/// another one or inside of it. If not, `failures` says which. What cannot be looked at is left to the call that needs it.
pub(crate) fn are_apart<R: Files>(
    alloc: Global,
    rt: &R,
    places: &Places,
    config: Option<&Text>,
    log: Option<&Text>,
    failures: &mut Failures,
) -> Result<bool, NoMemory> {
    let drafts = draft_names(alloc, places.contents.as_slice())?;
    let mut files = Vec::new(alloc);
    if let Some(config) = config {
        name_one(rt, config, &mut files)?;
    }
    name_all(rt, places.parities.as_slice(), &mut files)?;
    name_all(rt, places.contents.as_slice(), &mut files)?;
    name_all(rt, drafts.as_slice(), &mut files)?;
    if let Some(log) = log {
        name_one(rt, log, &mut files)?;
    }
    let mut folders = Vec::new(alloc);
    name_folders(rt, places.dirs.as_slice(), &mut folders)?;
    Ok(
        differ(files.as_slice(), Clash::SameFile, failures)
            && differ(folders.as_slice(), Clash::SameFolder, failures)
            && none_is_inside(alloc, rt, folders.as_slice(), failures)?,
    )
}

// The names of the drafts of copies.
fn draft_names(alloc: Global, contents: &[Text]) -> Result<Vec<Text>, NoMemory> {
    let mut drafts = Vec::new(alloc);
    for content in contents {
        let draft = format!(in alloc; "{}.tmp", content.as_str())?;
        drafts.push(Text::new(alloc, draft.as_str())?)?;
    }
    Ok(drafts)
}

fn name_all<'a, R: Files>(
    rt: &R,
    names: &'a [Text],
    files: &mut Vec<Named<'a>>,
) -> Result<(), NoMemory> {
    for name in names {
        name_one(rt, name, files)?;
    }
    Ok(())
}

fn name_one<'a, R: Files>(
    rt: &R,
    name: &'a Text,
    files: &mut Vec<Named<'a>>,
) -> Result<(), NoMemory> {
    let name = name.as_str();
    if let Some(spot) = spot_of(rt, name) {
        files.push(Named { name, spot })?;
    }
    Ok(())
}

fn name_folders<'a, R: Files>(
    rt: &R,
    dirs: &'a [Text],
    folders: &mut Vec<Named<'a>>,
) -> Result<(), NoMemory> {
    for dir in dirs {
        let name = dir.as_str();
        if let Some(node) = folder_at(rt, name) {
            let spot = Spot::Taken(node);
            folders.push(Named { name, spot })?;
        }
    }
    Ok(())
}

// Where a name of a file stands, links followed.
fn spot_of<'a, R: Files>(rt: &R, name: &'a str) -> Option<Spot<'a>> {
    match fs::metadata(rt, name) {
        Ok(seen) => Some(Spot::Taken(node_of(&seen)?)),
        Err(error) if error.kind() == ErrorKind::NotFound => {
            Some(Spot::Free(folder_at(rt, folder_of(name))?, last_of(name)))
        }
        Err(_) => None,
    }
}

fn last_of(name: &str) -> &str {
    match name.rsplit_once('/') {
        Some((_, last)) => last,
        None => name,
    }
}

fn folder_at<R: Files>(rt: &R, name: &str) -> Option<Node> {
    let seen = fs::metadata(rt, name).ok()?;
    if seen.is_dir() { node_of(&seen) } else { None }
}

// A stand-in for the system may tell neither device nor inode.
fn node_of(seen: &Metadata) -> Option<Node> {
    let node = Node {
        device: seen.dev(),
        inode: seen.ino(),
    };
    if node.inode == 0 { None } else { Some(node) }
}

// Whether each of these stands elsewhere than those before it.
fn differ(all: &[Named<'_>], clash: Clash, failures: &mut Failures) -> bool {
    for k in 0..all.len() {
        if let Some(other) = name_at(&all[..k], all[k].spot) {
            failures.note_clash(clash, all[k].name, other);
            return false;
        }
    }
    true
}

// The name that stands there.
fn name_at<'a>(all: &[Named<'a>], spot: Spot<'_>) -> Option<&'a str> {
    for named in all {
        if named.spot == spot {
            return Some(named.name);
        }
    }
    None
}

fn none_is_inside<R: Files>(
    alloc: Global,
    rt: &R,
    folders: &[Named<'_>],
    failures: &mut Failures,
) -> Result<bool, NoMemory> {
    for folder in folders {
        if let Some(other) = name_above(alloc, rt, folder, folders)? {
            failures.note_clash(Clash::Inside, folder.name, other);
            return Ok(false);
        }
    }
    Ok(true)
}

// The name of one of these that is above a folder. The way goes up to the top, which is above itself.
fn name_above<'a, R: Files>(
    alloc: Global,
    rt: &R,
    folder: &Named<'_>,
    folders: &[Named<'a>],
) -> Result<Option<&'a str>, NoMemory> {
    let mut name = String::from_str(alloc, folder.name)?;
    let mut spot = folder.spot;
    for _ in 0..DEEPEST {
        name.push_str("/..")?;
        let Some(node) = folder_at(rt, name.as_str()) else {
            return Ok(None);
        };
        let above = Spot::Taken(node);
        if above == spot {
            return Ok(None);
        }
        if let Some(other) = name_at(folders, above) {
            return Ok(Some(other));
        }
        spot = above;
    }
    Ok(None)
}
