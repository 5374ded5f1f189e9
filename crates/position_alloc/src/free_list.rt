//! The set of the taken positions.

use crate::tree::{WORD, longer, replace_word, tree_of};
use disk_model::NoMemory;
use std::alloc::Global;
use std::marker::Model;

/// The taken positions of a column. The others are free.
#[derive(Drop)]
pub struct FreeList {
    alloc: Global,
    words: Vec<u64>,
    tree: Vec<u32>,
}

impl Model for FreeList {
    ghost use Rattle.std.specs.Ordering.{nat_cmp};
    ghost use Rattle.std.specs.FinSet as set;
    ghost use Rattle.std.specs.Coded.{coded_ℕ};
    ghost use Rattle.position_alloc.specs.Words.{taken_of, IsTree};

    ghost Value = { set.FinSet nat_cmp };

    ghost coded = { set.code coded_ℕ };

    ghost view = { λ a. taken_of a.words.items };

    ghost invariant = { λ a. IsTree a.words.items a.tree.items };
}

impl FreeList {
    ghost use Rattle.std.specs.Prelude.{◌≡◌, ◌<◌, true, false, IsOk, IfOk, OnOk, OnErr};
    ghost use Rattle.std.specs.FinSet as set;
    ghost use Rattle.position_alloc.specs.Lowest.{lowest_free, IsLowestFree};

    /// Where all positions are free.
    pub fn new(alloc: Global) -> FreeList
        ensures { result ≡ set.empty }
    {
        FreeList {
            alloc,
            words: Vec::new(alloc),
            tree: Vec::new(alloc),
        }
    }

    /// The lowest free position.
    pub fn first_free(&self) -> u32
        ensures is { result ≡ lowest_free self.now }
        ensures lowest { IsLowestFree self.now result }
    {
        if self.words.is_empty() {
            return 0;
        }
        self.tree[1].min((WORD * self.words.len()) as u32)
    }

    /// Takes position `p`. A refused call changes nothing.
    pub fn mark(&mut self, p: u32) -> Result<(), NoMemory>
        requires free { set.contains self.old p ≡ false }
        requires below { p < 67108864 }
        ensures ok { OnOk result (self.new ≡ set.insert self.old p) }
        ensures err { OnErr result (self.new ≡ self.old) }
    {
        let index = p as usize / WORD;
        if index >= self.words.len() {
            let count = (2 * self.words.len()).max(index + 1);
            let words = longer(self.alloc, &self.words, count)?;
            self.tree = tree_of(self.alloc, &words)?;
            self.words = words;
        }
        let word = self.words[index] | 1 << (p % 64);
        replace_word(&mut self.words, &mut self.tree, index, word);
        Ok(())
    }

    /// Takes the lowest free position. A refused call changes nothing.
    pub fn take(&mut self) -> Result<u32, NoMemory>
        requires { set.len self.old < 67108864 }
        ensures lowest { IfOk result (λ p. p ≡ lowest_free self.old) }
        ensures ok { IfOk result (λ p. self.new ≡ set.insert self.old p) }
        ensures err { OnErr result (self.new ≡ self.old) }
    {
        let p = self.first_free();
        self.mark(p)?;
        Ok(p)
    }

    /// Frees position `p`. It takes no memory, so it is never refused.
    pub fn give(&mut self, p: u32) -> Result<(), NoMemory>
        requires { set.contains self.old p ≡ true }
        ensures always { IsOk result }
        ensures ok { OnOk result (self.new ≡ set.remove self.old p) }
        ensures err { OnErr result (self.new ≡ self.old) }
    {
        let index = p as usize / WORD;
        let word = self.words[index] & !(1 << (p % 64));
        replace_word(&mut self.words, &mut self.tree, index, word);
        Ok(())
    }
}
