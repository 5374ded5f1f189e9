// A folder whose reading is shown.
use crate::meter::Meter;
use crate::tally::{Tally, bytes_of};
use disk_model::{Failed, FileFault, FileInfo, Folder, ListFault, Meta, Path, Stamp};
use std::alloc::Global;
use std::io::Write;
use std::time::Clock;

/// A folder of which a meter is told, and else the folder under it.
#[derive(Drop)]
pub struct MeteredFolder<'a, F, C, T> {
    folder: F,
    tally: Tally<'a, C, T>,
}

impl<'a, F, C, T> MeteredFolder<'a, F, C, T> {
    ghost use Rattle.std.specs.Prelude.{◌≡◌};

    pub fn new(folder: F, meter: &'a Meter<C, T>) -> MeteredFolder<'a, F, C, T>
        ensures { result.folder ≡ folder }
    {
        MeteredFolder {
            folder,
            tally: Tally::new(meter),
        }
    }

    pub fn get_ref(&self) -> &F
        ensures { result.now ≡ self.now.folder }
    {
        &self.folder
    }

    /// The folder under it. What is asked of it there no meter is told.
    pub fn get_mut(&mut self) -> &mut F
        ensures { result.now ≡ self.old.folder }
    {
        &mut self.folder
    }
}

impl<'a, F: Folder, C: Clock + Sync, T: Write + Drop + Send> Folder for MeteredFolder<'a, F, C, T> {
    ghost view = { λ s. F.view s.folder };

    ghost well_formed = { λ s. F.well_formed s.folder };

    fn faults(&self) -> u64 {
        self.folder.faults()
    }

    fn list(&mut self, alloc: Global) -> Result<Vec<FileInfo>, ListFault> {
        self.folder.list(alloc)
    }

    fn look(&mut self, path: &Path, lost: bool) -> Result<Meta, FileFault> {
        self.folder.look(path, lost)
    }

    fn read_at(
        &mut self,
        path: &Path,
        lost: bool,
        at: u64,
        out: &mut [u8],
    ) -> Result<usize, FileFault> {
        let answer = self.folder.read_at(path, lost, at, out);
        self.tally.count(bytes_of(&answer));
        answer
    }

    fn make(&mut self, path: &Path) -> Result<(), Failed> {
        self.folder.make(path)
    }

    fn write_at(&mut self, path: &Path, at: u64, bytes: &[u8]) -> Result<(), FileFault> {
        self.folder.write_at(path, at, bytes)
    }

    fn set_size(&mut self, path: &Path, size: u64) -> Result<(), FileFault> {
        self.folder.set_size(path, size)
    }

    fn set_stamp(&mut self, path: &Path, stamp: Stamp) -> Result<bool, FileFault> {
        self.folder.set_stamp(path, stamp)
    }

    fn rename(&mut self, path: &Path, lost: bool) -> Result<(), FileFault> {
        self.folder.rename(path, lost)
    }
}
