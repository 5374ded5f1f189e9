// Look-ups in the files of a folder, which stand in the order of their paths. Each takes O(log n)
// comparisons, or that many for each directory of a path.
ghost use Rattle.std.specs.Prelude.{◌≡◌, ◌++◌, ◌≤◌, length, nat_eq, IfOk, OnOk, true};
ghost use Rattle.std.specs.List.{list_any, starts_with};
ghost use Rattle.std.specs.Ordering.{nat_cmp};
ghost use Rattle.std.specs.Cmp.Lexicographic.{slice_cmp};
ghost use Rattle.std.specs.List.Sorted.{IsBinarySearchResult, IsSearchInRange};
ghost use Rattle.disk_model.specs.Tree.{IsListing, listed, path_of};
ghost use Rattle.disk_model.specs.declared.meta.FileInfo.{FileInfo};
ghost use Rattle.folder_listing.specs.Kept.{ListedFile};
ghost use Rattle.repair_scope.specs.Blocked.{found_in, holds_one, is_inside_one};
ghost use Rattle.repair_scope.specs.Listed.{SplitsAt};

use disk_model::{FileInfo, Meta, NoMemory, Path};

const SLASH: u8 = b'/';

const LOST: &[u8] = b".unrecoverable";

const LOST_DIRECTORY: &[u8] = b".unrecoverable/";

const DIRECTORY: &[u8] = b"/";

// Where a path stands among listed files, or where it would.
fn place_of(files: &[FileInfo], path: &[u8]) -> Result<usize, usize>
    ensures bound { IsSearchInRange result (length files.now) }
    ensures place { IsBinarySearchResult (λ (file : FileInfo). slice_cmp nat_cmp file.path path.now)
        files.now result }
{
    files.binary_search_by(|file| file.path.as_str().as_bytes().cmp(&path))
}

/// Size and stamp of the file of a path.
pub fn find_listed(files: &[FileInfo], path: &[u8]) -> Option<Meta>
    requires { IsListing (listed files.now) }
    ensures { result ≡ found_in (listed files.now) path.now }
{
    match place_of(files, path) {
        Ok(i) => Some(files[i].meta),
        Err(_) => None,
    }
}

// The place of the first file whose path is not less than these bytes, or the end.
fn first_not_less(files: &[FileInfo], bytes: &[u8]) -> usize
    requires { IsListing (listed files.now) }
    ensures within { result ≤ length files.now }
    ensures parts { SplitsAt files.now bytes.now result }
{
    match place_of(files, bytes) {
        Ok(place) => place,
        Err(place) => place,
    }
}

// Whether the path of a file begins with these bytes. Those that do stand together, and the first
// of them is the first that is not less than the bytes.
fn begins_one(files: &[FileInfo], bytes: &[u8]) -> bool
    requires { IsListing (listed files.now) }
    ensures { result ≡ list_any (λ (file : ListedFile). starts_with nat_eq file.0 bytes.now)
        (listed files.now) }
{
    let place = first_not_less(files, bytes);
    place < files.len() && files[place].path.as_str().as_bytes().starts_with(bytes)
}

/// Whether a file is a directory of a path: each directory of the path is looked up.
pub(crate) fn is_inside_one(files: &[FileInfo], path: &[u8]) -> bool
    requires { IsListing (listed files.now) }
    ensures { result ≡ is_inside_one (listed files.now) path.now }
{
    for end in 0..path.len() {
        if path[end] == SLASH && find_listed(files, &path[..end]).is_some() {
            return true;
        }
    }
    false
}

// Puts two parts, one behind the other, in the place of what a buffer had.
fn put(bytes: &mut Vec<u8>, first: &[u8], second: &[u8]) -> Result<(), NoMemory>
    ensures { OnOk result (bytes.new.items ≡ first.now ++ second.now) }
{
    bytes.clear();
    bytes.extend_from_slice(first)?;
    bytes.extend_from_slice(second)?;
    Ok(())
}

/// Size and stamp of the file of PATH`.unrecoverable`.
pub fn find_lost(
    files: &[FileInfo],
    path: &Path,
    bytes: &mut Vec<u8>,
) -> Result<Option<Meta>, NoMemory>
    requires { IsListing (listed files.now) }
    ensures { IfOk result (λ found. found ≡ found_in (listed files.now) (path_of path.now true)) }
{
    put(bytes, path.as_str().as_bytes(), LOST)?;
    Ok(find_listed(files, bytes.as_slice()))
}

/// Whether PATH, or PATH`.unrecoverable`, is a directory of a file.
pub(crate) fn holds_one(
    files: &[FileInfo],
    path: &Path,
    lost: bool,
    bytes: &mut Vec<u8>,
) -> Result<bool, NoMemory>
    requires { IsListing (listed files.now) }
    ensures { IfOk result (λ holds. holds ≡ holds_one (listed files.now) (path_of path.now lost)) }
{
    let rest = if lost { LOST_DIRECTORY } else { DIRECTORY };
    put(bytes, path.as_str().as_bytes(), rest)?;
    Ok(begins_one(files, bytes.as_slice()))
}
