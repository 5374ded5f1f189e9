// Whether files that were found are those of one tree, in order.
ghost use Rattle.std.specs.Prelude.{◌≡◌, ◌↔◌, false, length, All, IsTrue};
ghost use Rattle.std.specs.Ordering.{nat_cmp};
ghost use Rattle.std.specs.Cmp.Lexicographic.{slice_cmp};
ghost use Rattle.std.specs.List.Sorted.{IsBinarySearchResult, IsSearchInRange};
ghost use Rattle.disk_model.specs.Tree.{IsListing, listed};
ghost use Rattle.disk_model.specs.declared.meta.FileInfo.{FileInfo};
ghost use Rattle.disk_host.specs.Listing.{HasStamp, FitsAmong, AreInOrder, HasPath, HasNoDirectoryOf};

use disk_model::FileInfo;

const SLASH: u8 = b'/';

// Whether the paths rise, and none is a directory of another.
pub(crate) fn is_listing(files: &[FileInfo]) -> bool
    requires { All HasStamp files.now }
    ensures listing { IsTrue result → IsListing (listed files.now) }
    ensures refused { result ≡ false → ¬ (IsListing (listed files.now)) }
{
    rises(files) && is_apart(files)
}

fn rises(files: &[FileInfo]) -> bool
    ensures order { IsTrue result → AreInOrder files.now }
    ensures refused { result ≡ false → ¬ (AreInOrder files.now) }
{
    for i in 1..files.len() {
        if files[i - 1].path.as_str() >= files[i].path.as_str() {
            return false;
        }
    }
    true
}

fn is_apart(files: &[FileInfo]) -> bool
    requires { AreInOrder files.now }
    ensures apart { IsTrue result → All (FitsAmong files.now) files.now }
    ensures refused { result ≡ false → ¬ (All (FitsAmong files.now) files.now) }
{
    for file in files {
        if has_directory_of(files, file.path.as_str().as_bytes()) {
            return false;
        }
    }
    true
}

// Whether a file's path is a directory of this one.
fn has_directory_of(files: &[FileInfo], path: &[u8]) -> bool
    requires { AreInOrder files.now }
    ensures none { result ≡ false → HasNoDirectoryOf files.now path.now }
    ensures some { IsTrue result → ¬ (HasNoDirectoryOf files.now path.now) }
{
    for end in 0..path.len() {
        if path[end] == SLASH && has_path(files, &path[..end]) {
            return true;
        }
    }
    false
}

fn has_path(files: &[FileInfo], path: &[u8]) -> bool
    requires { AreInOrder files.now }
    ensures { IsTrue result ↔ HasPath files.now path.now }
{
    place_of(files, path).is_ok()
}

// Where a path stands among those of files in order, or where it would.
fn place_of(files: &[FileInfo], path: &[u8]) -> Result<usize, usize>
    ensures bound { IsSearchInRange result (length files.now) }
    ensures place { IsBinarySearchResult (λ (file : FileInfo). slice_cmp nat_cmp file.path path.now) files.now result }
{
    files.binary_search_by(|file| file.path.as_str().as_bytes().cmp(&path))
}
