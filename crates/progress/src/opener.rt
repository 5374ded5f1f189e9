// What opens folders and a vault of the system, so that a meter is told of their work.
ghost use Rattle.std.specs.Prelude.{◌≡◌, ◌+◌, ◌≤◌, map, vec_len, vec_capacity};

use crate::folder::MeteredFolder;
use crate::meter::Meter;
use crate::vault::MeteredVault;
use disk_host::{DiskFolder, DiskOpener, DiskVault};
use disk_model::{OpenFault, Opened, Opener, Places, Text};
use std::alloc::Global;
use std::fs;
use std::io::Write;
use std::os::unix::fs::FileExt;
use std::rt::Files;
use std::time::Clock;

/// Opens what a configuration names, by name. A meter is told of each call on it.
#[derive(Drop)]
pub struct MeteredOpener<'a, R, C, T> {
    rt: R,
    opener: DiskOpener<R>,
    meter: &'a Meter<C, T>,
}

impl<'a, R, C, T> MeteredOpener<'a, R, C, T> {
    pub fn new(rt: R, opener: DiskOpener<R>, meter: &'a Meter<C, T>) -> MeteredOpener<'a, R, C, T> {
        MeteredOpener { rt, opener, meter }
    }

    pub fn get_ref(&self) -> &DiskOpener<R> {
        &self.opener
    }
}

// How long the longest of these files is. One that cannot be looked at counts as empty.
fn longest<R: Files>(rt: &R, names: &[Text]) -> u64 {
    let mut longest = 0;
    for name in names {
        if let Ok(seen) = fs::metadata(rt, name.as_str()) {
            longest = seen.len().max(longest);
        }
    }
    longest
}

// The folders in their order, each of which a meter is told of. They are put where there is room for them.
fn metered_all<'a, F: Drop, C, T>(
    folders: Vec<F>,
    meter: &'a Meter<C, T>,
    room: Vec<MeteredFolder<'a, F, C, T>>,
) -> Vec<MeteredFolder<'a, F, C, T>>
    requires empty { vec_len room ≡ 0 }
    requires room { vec_len folders ≤ vec_capacity room }
    ensures { map (λ metered. metered.folder) result.items ≡ folders.items }
{
    let mut metered = room;
    for folder in folders {
        metered.push_reserved(MeteredFolder::new(folder, meter));
    }
    metered
}

impl<'a, R, C, T> Opener for MeteredOpener<'a, R, C, T>
where
    R: Files + AllocGlobal + Clone + Drop + Send,
    R::File: FileExt + Send,
    C: Clock + Sync,
    T: Write + Drop + Send,
{
    type Folder = MeteredFolder<'a, DiskFolder<R>, C, T>;

    type Vault = MeteredVault<'a, DiskVault<R>, C, T>;

    ghost use Rattle.disk_host.specs.Opener.{quiet_opener};

    ghost view = { λ s. quiet_opener s.opener.faults };

    fn faults(&self) -> u64 {
        self.opener.faults()
    }

    fn config(&mut self, alloc: Global, name: &str) -> Result<Vec<u8>, OpenFault> {
        self.opener.config(alloc, name)
    }

    fn open(
        &mut self,
        alloc: Global,
        places: &Places,
    ) -> Result<Opened<Self::Folder, Self::Vault>, OpenFault> {
        let Ok(room) = Vec::with_capacity(alloc, places.dirs.len()) else {
            return Err(OpenFault::Memory);
        };
        let Opened { folders, vault } = self.opener.open(alloc, places)?;
        if self.meter.is_on() {
            self.meter
                .set_length(longest(&self.rt, places.parities.as_slice()));
        }
        Ok(Opened {
            folders: metered_all(folders, self.meter, room),
            vault: MeteredVault::new(vault, self.meter),
        })
    }

    fn import(&mut self, dir: &str) -> Result<Self::Folder, OpenFault> {
        Ok(MeteredFolder::new(self.opener.import(dir)?, self.meter))
    }
}
