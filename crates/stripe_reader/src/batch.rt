// Blocks that are hashed together.
ghost use Rattle.std.specs.Prelude.{◌≡◌, ◌+◌, ◌<◌, ◌≤◌, IsTrue, ℕ, length, slice_index};

/// The numbers of up to eight slots, the last of which stands for the rest, and the lengths of their blocks.
#[derive(Clone, Copy)]
pub(crate) struct Batch {
    pub numbers: [usize; 8],
    pub found: usize,
    longest: u64,
    sum: u64,
}

impl Batch {
    pub(crate) fn new() -> Batch
        ensures long { length result.numbers ≡ 8 }
        ensures none { result.found ≡ 0 }
    {
        Batch {
            numbers: [0; 8],
            found: 0,
            longest: 0,
            sum: 0,
        }
    }

    // With one more slot, whose block has this length.
    pub(crate) fn with(&self, at: usize, len: u32) -> Batch
        requires { self.now.found < 8 }
        ensures long { length result.numbers ≡ 8 }
        ensures found { result.found ≡ self.now.found + 1 }
        ensures before { (k : ℕ) → k < self.now.found →
            slice_index result.numbers k ≡ slice_index self.now.numbers k }
        ensures behind { (k : ℕ) → self.now.found ≤ k → k < 8 → slice_index result.numbers k ≡ at }
    {
        let len = u64::from(len);
        Batch {
            numbers: filled(&self.numbers, self.found, at),
            found: self.found + 1,
            longest: self.longest.max(len),
            sum: self.sum.saturating_add(len),
        }
    }

    // Whether it is sooner hashed together: eight blocks take then 8/5 of what the longest takes by itself.
    pub(crate) fn is_sooner_together(&self) -> bool
        ensures { IsTrue result → 0 < self.now.found }
    {
        self.found > 0 && self.longest.saturating_mul(8) < self.sum.saturating_mul(5)
    }
}

// The first so many of these numbers, and then another one as often as there is room.
fn filled(eight: &[usize; 8], found: usize, at: usize) -> [usize; 8]
    requires { found < 8 }
    ensures long { length result ≡ 8 }
    ensures before { (k : ℕ) → k < found → slice_index result k ≡ slice_index eight.now k }
    ensures behind { (k : ℕ) → found ≤ k → k < 8 → slice_index result k ≡ at }
{
    let mut numbers = *eight;
    for k in found..8 {
        numbers[k] = at;
    }
    numbers
}
