// The files of each folder, listed once, the folders side by side.
ghost use Rattle.std.specs.Prelude.{◌≡◌, ◌≤◌, length, map, IfOk, IfErr};
ghost use Rattle.std.specs.Thread.{IsSend, IsSync};
ghost use Rattle.file_table.specs.Valid.{most_columns};
ghost use Rattle.folder_listing.specs.Kept.{files_of, lists_of};
ghost use Rattle.folder_listing.specs.declared.listing.ListingFault.TheVariants.{Memory};
ghost use Rattle.folder_listing.specs.Listings.{ListsAll, FailsListing, Gives, HavePlaces, GiveAll, IsFirstFault};

use disk_model::{FileInfo, Folder, ListFault, NoMemory};
use std::alloc::Global;
use std::thread::{Threads, join_mut};

// The most threads that list folders.
const MOST_THREADS: u32 = 64;

/// The files of a folder, as they were listed.
#[derive(Drop)]
pub struct Listing {
    pub files: Vec<FileInfo>,
}

/// Why the folders were not listed.
#[derive(Clone, Copy, Debug, PartialEq, Eq)]
pub enum ListingFault {
    /// The folder of a column failed: its count of faults rose.
    Folder { disk: u32 },
    Memory,
}

impl From<NoMemory> for ListingFault {
    ghost from_gives = { λ _ fault. fault ≡ Memory };

    fn from(_error: NoMemory) -> ListingFault {
        ListingFault::Memory
    }
}

// A place for the files of each of so many folders.
fn empty_listings(alloc: Global, count: usize) -> Result<Vec<Listing>, NoMemory>
    ensures { IfOk result (λ listings. length listings.items ≡ count) }
{
    let mut listings = Vec::new(alloc);
    for _ in 0..count {
        let files = Vec::new(alloc);
        listings.push(Listing { files })?;
    }
    Ok(listings)
}

// A place for the fault of each of so many folders, which none has yet.
fn no_faults(alloc: Global, count: usize) -> Result<Vec<Option<ListFault>>, NoMemory>
    ensures { IfOk result (λ faults. length faults.items ≡ count) }
{
    Ok(vec![in alloc; None; count]?)
}

// Lists a folder into its place, or tells why it gave no files.
fn list_one<F: Folder>(alloc: &Global, folder: &mut F, listing: &mut Listing) -> Option<ListFault>
    ensures { Gives (F.view folder.old) (F.view folder.new) (files_of listing.new) result }
{
    match folder.list(*alloc) {
        Ok(files) => {
            listing.files = files;
            None
        }
        Err(fault) => Some(fault),
    }
}

// Lists folders one after another.
fn list_each<F: Folder>(
    alloc: &Global,
    folders: &mut [F],
    listings: &mut [Listing],
    faults: &mut [Option<ListFault>],
)
    requires { HavePlaces (length folders.old) listings.old faults.old }
    ensures { GiveAll (map F.view folders.old) (map F.view folders.new) listings.new faults.new }
{
    for d in 0..folders.len() {
        faults[d] = list_one(alloc, &mut folders[d], &mut listings[d]);
    }
}

// Lists folders, as even shares by so many threads. All of them are started by this one, which lists the last share: a
// thread that has only just begun starts others late.
#[cycle(groups)]
fn list_group<R: Threads + Sync, F: Folder>(
    rt: &R,
    alloc: &Global,
    threads: u32,
    folders: &mut [F],
    listings: &mut [Listing],
    faults: &mut [Option<ListFault>],
)
    requires { HavePlaces (length folders.old) listings.old faults.old }
    ensures { GiveAll (map F.view folders.old) (map F.view folders.new) listings.new faults.new }
{
    if threads < 2 {
        list_each(alloc, folders, listings, faults);
        return;
    }
    let count = folders.len() / threads as usize;
    let (near_folders, far_folders) = folders.split_at_mut(count);
    let (near_listings, far_listings) = listings.split_at_mut(count);
    let (near_faults, far_faults) = faults.split_at_mut(count);
    list_both(
        rt,
        alloc,
        threads - 1,
        near_folders,
        near_listings,
        near_faults,
        far_folders,
        far_listings,
        far_faults,
    );
}

// Lists folders in a new thread, and a group by so many threads beside it. The slices that are written come last, as in
// the calls of the closures.
#[cycle(groups)]
fn list_both<R: Threads + Sync, F: Folder>(
    rt: &R,
    alloc: &Global,
    threads: u32,
    near_folders: &mut [F],
    near_listings: &mut [Listing],
    near_faults: &mut [Option<ListFault>],
    far_folders: &mut [F],
    far_listings: &mut [Listing],
    far_faults: &mut [Option<ListFault>],
)
    requires near { HavePlaces (length near_folders.old) near_listings.old near_faults.old }
    requires far { HavePlaces (length far_folders.old) far_listings.old far_faults.old }
    ensures near { GiveAll (map F.view near_folders.old) (map F.view near_folders.new) near_listings.new near_faults.new }
    ensures far { GiveAll (map F.view far_folders.old) (map F.view far_folders.new) far_listings.new far_faults.new }
{
    let mut one = ||
        requires { IsSend F.row × HavePlaces (length near_folders.now) near_listings.now near_faults.now }
        ensures { GiveAll (map F.view near_folders.entry.now) (map F.view near_folders.exit.now)
            near_listings.exit.now near_faults.exit.now }
    { list_each(alloc, near_folders, near_listings, near_faults) };
    let mut other = ||
        requires { IsSync R.row × IsSend F.row × HavePlaces (length far_folders.now) far_listings.now far_faults.now }
        ensures { GiveAll (map F.view far_folders.entry.now) (map F.view far_folders.exit.now)
            far_listings.exit.now far_faults.exit.now }
    { list_group(rt, alloc, threads, far_folders, far_listings, far_faults) };
    join_mut(rt, &mut one, &mut other);
}

// The first fault, and the column where it is.
fn first_fault(faults: &[Option<ListFault>]) -> Option<(u32, ListFault)>
    requires { length faults.now ≤ most_columns }
    ensures { IsFirstFault faults.now result }
{
    for d in 0..faults.len() {
        if let Some(fault) = faults[d] {
            return Some((d as u32, fault));
        }
    }
    None
}

/// The files of each folder. Each is asked once, all of them side by side: a thread for each folder, up to 64 of them.
/// What is told is the first fault in the order of the columns. Where there is no memory for the places of the
/// listings, no folder is asked.
pub fn listings<R: Threads + Sync, F: Folder>(
    rt: &R,
    alloc: Global,
    folders: &mut [F],
) -> Result<Vec<Listing>, ListingFault>
    requires { length folders.old ≤ most_columns }
    ensures listed { IfOk result (λ listings. ListsAll (map F.view folders.old) (map F.view folders.new)
        (lists_of listings.items)) }
    ensures failed { IfErr result (FailsListing (map F.view folders.old) (map F.view folders.new)) }
{
    let count = folders.len();
    let mut listings = empty_listings(alloc, count)?;
    let mut faults = no_faults(alloc, count)?;
    let threads = (count as u32).min(MOST_THREADS);
    list_group(
        rt,
        &alloc,
        threads,
        folders,
        listings.as_mut_slice(),
        faults.as_mut_slice(),
    );
    match first_fault(&faults) {
        Some((disk, ListFault::Failed)) => Err(ListingFault::Folder { disk }),
        Some((_, ListFault::Memory)) => Err(ListingFault::Memory),
        None => Ok(listings),
    }
}
