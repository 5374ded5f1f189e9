// The damaged copies of a content file.
ghost use Rattle.std.specs.Prelude.{◌≡◌, ◌==◌, ◌+◌, ◌^◌, ◌<◌, [], ◌∷◌, ◌++◌, length, OnOk, OnErr, slice_index_or};
ghost use Rattle.content_file.specs.Damages.{no_damage};

use crate::Damage;
use disk_model::NoMemory;
use std::alloc::Global;
use std::marker::Model;

/// The damaged copies in order: the number of each, from 0, and its first wrong field. It is seen as the list of them.
#[derive(Drop)]
pub struct Damages {
    list: Vec<(u32, Damage)>,
}

impl Model for Damages {
    ghost use Rattle.std.specs.Prelude.{ℕ, List, ◌^◌, ◌<◌, length};
    ghost use Rattle.content_file.specs.Flaw.{Damage};

    ghost Value = { List (ℕ × Damage) };

    ghost view = { λ d. d.list.items };

    ghost invariant = { λ d. length d.list.items < 2 ^ 32 };
}

impl Damages {
    pub(crate) fn new(alloc: Global) -> Damages
        ensures { result ≡ [] }
    {
        Damages {
            list: Vec::new(alloc),
        }
    }

    /// How many copies are damaged.
    pub fn len(&self) -> u32
        ensures { result ≡ length self.now }
    {
        self.list.len() as u32
    }

    pub fn is_empty(&self) -> bool
        ensures { result ≡ (length self.now == 0) }
    {
        self.list.is_empty()
    }

    /// A damaged copy by its place in the list: the number of the copy, from 0, and its first wrong field.
    pub fn at(&self, i: u32) -> (u32, Damage)
        requires { i < length self.now }
        ensures { result ≡ slice_index_or self.now i no_damage }
    {
        self.list[i as usize]
    }

    pub(crate) fn push(&mut self, copy: u32, damage: Damage) -> Result<(), NoMemory>
        requires { length self.old + 1 < 2 ^ 32 }
        ensures ok { OnOk result (self.new ≡ self.old ++ (copy, damage) ∷ []) }
        ensures err { OnErr result (self.new ≡ self.old) }
    {
        self.list.push((copy, damage))?;
        Ok(())
    }
}
