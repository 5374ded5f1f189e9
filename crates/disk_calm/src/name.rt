// The names of files, made without an allocation where they are only looked up.
ghost use Rattle.std.specs.Prelude.{◌≡◌, [], ◌+◌, ◌++◌, ◌≤◌, length, if◌then◌else◌, IfOk, string_bytes};
ghost use Rattle.arrayvec.specs.ArrayVec.{array_vec_len};
ghost use Rattle.disk_model.specs.Path.{lost_suffix, IsValidPath};
ghost use Rattle.disk_model.specs.Tree.{path_of};

use arrayvec::ArrayVec;
use disk_model::{NoMemory, Path, PathFault};
use std::alloc::Global;

// The longest path, and what follows it in the name of a lost file.
const LONGEST: usize = 4110;

/// A path of a folder, or the path of what was lost of a file.
pub type Name = ArrayVec<u8, LONGEST>;

// What follows the path of a file in its name.
fn suffix_of(lost: bool) -> &'static str
    ensures { result.now ≡ (if lost then lost_suffix else []) }
{
    if lost { ".unrecoverable" } else { "" }
}

fn append(name: &mut Name, bytes: &[u8])
    requires { array_vec_len name.old + length bytes.now ≤ LONGEST }
    ensures items { name.new.items ≡ name.old.items ++ bytes.now }
    ensures len { array_vec_len name.new ≡ array_vec_len name.old + length bytes.now }
{
    if name.try_extend_from_slice(bytes).is_err() {
        unreachable!()
    }
}

/// The path of a file, or of what was lost of it.
pub fn name_of(path: &Path, lost: bool) -> Name
    ensures { result.items ≡ path_of path.now lost }
{
    let mut name = ArrayVec::new();
    append(&mut name, path.as_str().as_bytes());
    append(&mut name, suffix_of(lost).as_bytes());
    name
}

/// The same as a text, which is a path if it is a valid one.
pub fn text_of(alloc: Global, path: &Path, lost: bool) -> Result<String, NoMemory>
    ensures { IfOk result (λ text. string_bytes text ≡ path_of path.now lost) }
{
    let mut text = String::from_str(alloc, path.as_str())?;
    text.push_str(suffix_of(lost))?;
    Ok(text)
}

/// The same as a path of its own.
pub fn path_named(alloc: Global, path: &Path, lost: bool) -> Result<Path, NoMemory>
    requires { IsValidPath (path_of path.now lost) }
    ensures { IfOk result (λ made. made ≡ path_of path.now lost) }
{
    let text = text_of(alloc, path, lost)?;
    match Path::new(alloc, text.as_str()) {
        Ok(path) => Ok(path),
        Err(PathFault::Invalid) => unreachable!(),
        Err(PathFault::Memory) => Err(NoMemory),
    }
}
