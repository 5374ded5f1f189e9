// A vault in whose parity the place of the work is shown.
use crate::extent::Extent;
use crate::meter::Meter;
use crate::tally::{Tally, bytes_of};
use disk_model::{Failed, Vault};
use std::io::Write;
use std::time::Clock;

/// A vault of which a meter is told, and else the vault under it.
#[derive(Drop)]
pub struct MeteredVault<'a, V, C, T> {
    vault: V,
    tally: Tally<'a, C, T>,
    extent: Extent,
}

impl<'a, V, C, T> MeteredVault<'a, V, C, T> {
    ghost use Rattle.std.specs.Prelude.{◌≡◌};

    pub fn new(vault: V, meter: &'a Meter<C, T>) -> MeteredVault<'a, V, C, T>
        ensures { result.vault ≡ vault }
    {
        MeteredVault {
            vault,
            tally: Tally::new(meter),
            extent: Extent::new(),
        }
    }

    pub fn get_ref(&self) -> &V
        ensures { result.now ≡ self.now.vault }
    {
        &self.vault
    }
}

// Tells a meter how long parity is, if that is known.
fn set_length<C: Clock, T: Write + Drop>(tally: &Tally<'_, C, T>, length: Option<u64>) {
    if let Some(length) = length {
        tally.meter().set_length(length);
    }
}

// One call read so many bytes of parity, and came to this place in a file.
fn count_in<C: Clock, T: Write + Drop>(
    tally: &mut Tally<'_, C, T>,
    extent: &mut Extent,
    bytes: u64,
    file: u32,
    place: u64,
) {
    let (place, length) = extent.come(file, place);
    set_length(tally, length);
    tally.count_at(bytes, place);
}

impl<'a, V: Vault, C: Clock + Sync, T: Write + Drop + Send> Vault for MeteredVault<'a, V, C, T> {
    type Ahead = V::Ahead;

    ghost use Rattle.disk_model.specs.Vault.{IsUntouched};

    ghost view = { λ s. V.view s.vault };

    ghost well_formed = { λ s. V.well_formed s.vault };

    fn faults(&self) -> u64 {
        self.vault.faults()
    }

    fn levels(&self) -> u32 {
        self.vault.levels()
    }

    fn copies(&self) -> u32 {
        self.vault.copies()
    }

    fn parity_len(&mut self, level: u32) -> Result<u64, Failed> {
        let answer = self.vault.parity_len(level);
        if let Ok(len) = &answer {
            let length = self.extent.ask(level, *len);
            set_length(&self.tally, length);
        }
        answer
    }

    fn parity_read(&mut self, level: u32, at: u64, out: &mut [u8]) -> Result<usize, Failed> {
        let answer = self.vault.parity_read(level, at, out);
        let bytes = bytes_of(&answer);
        let place = at.saturating_add(bytes);
        count_in(&mut self.tally, &mut self.extent, bytes, level, place);
        answer
    }

    fn plan_ahead(&mut self, level: u32, at: u64, len: usize) {
        self.vault.plan_ahead(level, at, len)
    }

    fn take_ahead(&mut self) -> Option<Vec<V::Ahead>> {
        self.vault.take_ahead()
    }

    fn put_ahead(&mut self, ahead: Vec<V::Ahead>)
        ensures { IsUntouched (V.view self.old.vault) (V.view self.new.vault) }
    {
        self.vault.put_ahead(ahead)
    }

    fn parity_write(&mut self, level: u32, at: u64, bytes: &[u8]) -> Result<(), Failed> {
        let answer = self.vault.parity_write(level, at, bytes);
        let place = at.saturating_add(bytes.len() as u64);
        count_in(&mut self.tally, &mut self.extent, 0, level, place);
        answer
    }

    fn parity_set_len(&mut self, level: u32, len: u64) -> Result<(), Failed> {
        set_length(&self.tally, self.extent.known(len));
        self.vault.parity_set_len(level, len)
    }

    fn parity_sync(&mut self, level: u32) -> Result<(), Failed> {
        self.vault.parity_sync(level)
    }

    fn content_size(&mut self, copy: u32) -> Result<Option<u64>, Failed> {
        self.vault.content_size(copy)
    }

    fn content_read(&mut self, copy: u32, at: u64, out: &mut [u8]) -> Result<usize, Failed> {
        self.vault.content_read(copy, at, out)
    }

    fn draft_begin(&mut self, copy: u32) -> Result<(), Failed> {
        self.vault.draft_begin(copy)
    }

    fn draft_append(&mut self, copy: u32, bytes: &[u8]) -> Result<(), Failed> {
        self.vault.draft_append(copy, bytes)
    }

    fn draft_seal(&mut self, copy: u32) -> Result<(), Failed> {
        self.vault.draft_seal(copy)
    }

    fn publish(&mut self, copy: u32) -> Result<(), Failed> {
        self.vault.publish(copy)
    }
}
