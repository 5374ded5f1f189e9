// Names of disks, files and folders, as a setup keeps them.
ghost use Rattle.std.specs.Prelude.{◌≡◌, ◌++◌, IfOk, OnOk, string_bytes};
ghost use Rattle.snap_config.specs.Names.{is_disk_name, file_name, folder_name, without_end_slash, part_of};

use array_setup::cut;
use disk_model::{NoMemory, Text, is_name};
use std::alloc::Global;

/// Whether a disk may have this name.
pub(crate) fn is_disk_name(name: &str) -> bool
    ensures { result ≡ is_disk_name name.now }
{
    is_name(name)
}

/// The name of a file, with one slash for each run of slashes.
pub(crate) fn file_name(alloc: Global, text: &str) -> Result<Text, NoMemory>
    ensures { IfOk result (λ name. name ≡ file_name text.now) }
{
    let name = single_slashes(alloc, text)?;
    Text::new(alloc, name.as_str())
}

/// The name of a folder: besides, without a slash at its end, but for the root.
pub(crate) fn folder_name(alloc: Global, text: &str) -> Result<Text, NoMemory>
    ensures { IfOk result (λ name. name ≡ folder_name text.now) }
{
    let name = single_slashes(alloc, text)?;
    Text::new(alloc, without_end_slash(name.as_str()))
}

fn without_end_slash(name: &str) -> &str
    ensures { result.now ≡ without_end_slash name.now }
{
    if name == "/" {
        return name;
    }
    match name.strip_suffix('/') {
        Some(front) => front,
        None => name,
    }
}

fn single_slashes(alloc: Global, text: &str) -> Result<String, NoMemory>
    ensures { IfOk result (λ made. string_bytes made ≡ file_name text.now) }
{
    let mut made = String::new(alloc);
    let mut rest = text;
    let mut follows = false;
    while let Some((part, after)) = cut(rest, '/') {
        push_part(&mut made, part, follows)?;
        follows = true;
        rest = after;
    }
    made.push_str(rest)?;
    Ok(made)
}

// A part and the slash behind it, unless nothing stands between two slashes.
fn push_part(made: &mut String, part: &str, follows: bool) -> Result<(), NoMemory>
    ensures { OnOk result (string_bytes made.new
        ≡ string_bytes made.old ++ part_of follows part.now) }
{
    if follows && part.is_empty() {
        return Ok(());
    }
    made.push_str(part)?;
    made.push_str("/")?;
    Ok(())
}
