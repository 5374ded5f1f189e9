//! Words of 64 positions, and the tree that has the lowest free position of each word in a leaf.

ghost use Rattle.std.specs.Prelude.{◌≡◌, ◌+◌, ◌-◌, ◌*◌, ◌<◌, ◌≤◌, ◌++◌, ℕ, length, replicate, slice_index, slice_set, IfOk};
ghost use Rattle.position_alloc.specs.Words.{IsLowestIn, NodesHoldBut, LeavesHold, IsTree};

use std::alloc::{AllocError, Global};

/// How many positions a word has.
pub const WORD: usize = 64;

/// The lowest free position of word `index`, or the greatest number where the word is full.
fn lowest_in(index: usize, word: u64) -> u32
    requires { index < 2097152 }
    ensures { IsLowestIn index word result }
{
    if word == u64::MAX {
        u32::MAX
    } else {
        (WORD * index) as u32 + word.trailing_ones()
    }
}

/// Puts the lesser of its children into each inner node above a changed one, from `start` up.
fn repair(count: usize, start: usize, tree: &mut [u32])
    requires size { length tree.old ≡ 2 * count }
    requires start { start < count }
    requires nodes { NodesHoldBut start count tree.old }
    ensures nodes { NodesHoldBut 0 count tree.new }
    ensures leaves { (i : ℕ) → count ≤ i → slice_index tree.new i ≡ slice_index tree.old i }
{
    let mut node = start;
    while node > 0 {
        tree[node] = tree[2 * node].min(tree[2 * node + 1]);
        node /= 2;
    }
}

/// Replaces a word.
pub fn replace_word(words: &mut [u64], tree: &mut [u32], index: usize, word: u64)
    requires index { index < length words.old }
    requires tree { IsTree words.old tree.old }
    ensures words { words.new ≡ slice_set words.old index word }
    ensures tree { IsTree words.new tree.new }
{
    let count = words.len();
    words[index] = word;
    tree[count + index] = lowest_in(index, word);
    repair(count, (count + index) / 2, tree);
}

fn put_leaves(words: &[u64], tree: &mut [u32])
    requires small { length words.now ≤ 2097152 }
    requires size { length tree.old ≡ 2 * length words.now }
    ensures { LeavesHold words.now tree.new }
{
    let count = words.len();
    for w in 0..count {
        tree[count + w] = lowest_in(w, words[w]);
    }
}

fn put_nodes(count: usize, tree: &mut [u32])
    requires { length tree.old ≡ 2 * count }
    ensures nodes { NodesHoldBut 0 count tree.new }
    ensures leaves { (i : ℕ) → count ≤ i → slice_index tree.new i ≡ slice_index tree.old i }
{
    let mut node = count;
    while node > 1 {
        node -= 1;
        tree[node] = tree[2 * node].min(tree[2 * node + 1]);
    }
}

/// The tree of the words.
pub fn tree_of(alloc: Global, words: &[u64]) -> Result<Vec<u32>, AllocError>
    requires { length words.now ≤ 2097152 }
    ensures { IfOk result (λ tree. IsTree words.now tree.items) }
{
    let mut tree = vec![in alloc; 0u32; 2 * words.len()]?;
    put_leaves(words, &mut tree);
    put_nodes(words.len(), &mut tree);
    Ok(tree)
}

/// The words with free ones after them, `count` in all.
pub fn longer(alloc: Global, words: &[u64], count: usize) -> Result<Vec<u64>, AllocError>
    requires { length words.now ≤ count }
    ensures { IfOk result (λ longer. longer.items
        ≡ words.now ++ replicate (count - length words.now) 0) }
{
    let mut longer = Vec::with_capacity(alloc, count)?;
    longer.extend_from_slice(words)?;
    longer.resize(count, 0)?;
    Ok(longer)
}
