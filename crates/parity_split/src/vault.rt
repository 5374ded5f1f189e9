// A vault of which a level is several levels of its base.
ghost use Rattle.std.specs.Prelude.{◌≡◌, ℕ, List, []};
ghost use Rattle.parity_split.specs.Split.{AreParts, AllInStep};

use crate::ahead::plan;
use crate::lengths::set_len;
use crate::parts::{find, parts_of, sync_from};
use crate::reading::read;
use crate::writing::write;
use disk_model::{Failed, Vault};
use std::marker::{Brand, PhantomData};

/// How levels are split. A type stands for it, so that it stays while calls are made; a call at `Brand` picks it.
pub trait Shape: Send {
    /// How many levels of the base each level has.
    ghost counts: { List ℕ };

    /// How many bytes each part but the last of its level holds.
    ghost capacity: { ℕ };
}

impl Shape for Brand {
    ghost counts = { [] };

    ghost capacity = { 0 };
}

/// A vault of which a level is several levels of its base, one after another.
#[derive(Drop)]
pub struct SplitVault<V: Vault, P: Shape> {
    base: V,
    parts: Vec<u32>,
    capacity: u64,
    shape: PhantomData<P>,
    ghost counts_are: { parts.items ≡ P.counts },
    ghost capacity_is: { capacity ≡ P.capacity },
    ghost are: { AreParts P.counts P.capacity (V.view base).levels },
    ghost in_step: { AllInStep P.counts P.capacity (V.view base) },
}

impl<V: Vault, P: Shape> SplitVault<V, P> {
    ghost use Rattle.disk_model.specs.Vault.{IsSettled};

    /// The levels of the base become parts of levels, in order, as many for each as the list says.
    pub fn new(base: V, parts: Vec<u32>, capacity: u64) -> SplitVault<V, P>
        requires counts { parts.items ≡ P.counts }
        requires capacity { capacity ≡ P.capacity }
        requires parts { AreParts P.counts P.capacity (V.view base).levels }
        requires settled { IsSettled (V.view base) }
        ensures { result.base ≡ base }
    {
        SplitVault {
            base,
            parts,
            capacity,
            shape: PhantomData,
        }
    }

    /// The base, with what was done to it.
    pub fn into_base(self) -> V
        ensures { result ≡ self.base }
    {
        let SplitVault { base, .. } = self;
        base
    }
}

impl<V: Vault, P: Shape> Vault for SplitVault<V, P> {
    type Ahead = V::Ahead;

    ghost use Rattle.disk_model.specs.Vault.{IsUntouched};
    ghost use Rattle.parity_split.specs.Split.{split_view};
    ghost use Rattle.parity_split.specs.SplitLaws.{split_well_formed};

    ghost view = { λ s. split_view P.counts P.capacity (V.view s.base) };

    ghost well_formed = { λ s. split_well_formed P.counts P.capacity (V.view s.base) (V.well_formed s.base) };

    fn faults(&self) -> u64 {
        self.base.faults()
    }

    fn levels(&self) -> u32 {
        self.parts.len() as u32
    }

    fn copies(&self) -> u32 {
        self.base.copies()
    }

    fn parity_len(&mut self, level: u32) -> Result<u64, Failed> {
        let parts = parts_of(&self.parts, self.capacity, level);
        let end = find(&mut self.base, parts)?;
        Ok(parts.len_to(end))
    }

    fn parity_read(&mut self, level: u32, at: u64, out: &mut [u8]) -> Result<usize, Failed> {
        let parts = parts_of(&self.parts, self.capacity, level);
        read(&mut self.base, parts, at, out)
    }

    fn plan_ahead(&mut self, level: u32, at: u64, len: usize) {
        let parts = parts_of(&self.parts, self.capacity, level);
        plan(&mut self.base, parts, at, len)
    }

    fn take_ahead(&mut self) -> Option<Vec<V::Ahead>> {
        self.base.take_ahead()
    }

    fn put_ahead(&mut self, ahead: Vec<V::Ahead>)
        ensures { IsUntouched (split_view P.counts P.capacity (V.view self.old.base))
            (split_view P.counts P.capacity (V.view self.new.base)) }
    {
        self.base.put_ahead(ahead)
    }

    fn parity_write(&mut self, level: u32, at: u64, bytes: &[u8]) -> Result<(), Failed> {
        let parts = parts_of(&self.parts, self.capacity, level);
        write(&mut self.base, parts, at, bytes)
    }

    fn parity_set_len(&mut self, level: u32, len: u64) -> Result<(), Failed> {
        let parts = parts_of(&self.parts, self.capacity, level);
        set_len(&mut self.base, parts, len)
    }

    fn parity_sync(&mut self, level: u32) -> Result<(), Failed> {
        let parts = parts_of(&self.parts, self.capacity, level);
        sync_from(&mut self.base, parts, 0)
    }

    fn content_size(&mut self, copy: u32) -> Result<Option<u64>, Failed> {
        self.base.content_size(copy)
    }

    fn content_read(&mut self, copy: u32, at: u64, out: &mut [u8]) -> Result<usize, Failed> {
        self.base.content_read(copy, at, out)
    }

    fn draft_begin(&mut self, copy: u32) -> Result<(), Failed> {
        self.base.draft_begin(copy)
    }

    fn draft_append(&mut self, copy: u32, bytes: &[u8]) -> Result<(), Failed> {
        self.base.draft_append(copy, bytes)
    }

    fn draft_seal(&mut self, copy: u32) -> Result<(), Failed> {
        self.base.draft_seal(copy)
    }

    fn publish(&mut self, copy: u32) -> Result<(), Failed> {
        self.base.publish(copy)
    }
}
