// What the lanes are shown, stage by stage: a stage ends with the chunk that is the last of some message. A chunk is 64
// bytes of a seed, a block and their padding.
ghost use Rattle.std.specs.Prelude.{◌≡◌, ◌≢◌, ◌<◌, ◌≤◌, ℕ, All, IsFalse, IsTrue, length};
ghost use Rattle.md5_lanes.specs.Lanes.{EachLane, bytes_of};
ghost use Rattle.md5_lanes.specs.Message.{chunk_count};

/// How many chunks a block of this length has, behind a seed.
#[inline(always)]
pub(crate) fn chunk_count(len: usize) -> usize
    requires { len ≤ 4194304 }
    ensures { result ≡ chunk_count len }
{
    (len + 24) / 64 + 1
}

// How many chunks the block in a lane has.
#[inline(always)]
fn chunks_in(blocks: &[&[u8]; 8], i: usize) -> usize
    requires lane { i < 8 }
    requires short { All (λ block. length block.now ≤ 4194304) blocks.now }
    ensures { result ≡ chunk_count (length (bytes_of blocks.now i)) }
{
    chunk_count(blocks[i].len())
}

/// Whether the block in a lane has so many chunks.
#[inline(always)]
pub(crate) fn has_chunks(blocks: &[&[u8]; 8], i: usize, count: usize) -> bool
    requires lane { i < 8 }
    requires short { All (λ block. length block.now ≤ 4194304) blocks.now }
    ensures yes { IsTrue result → chunk_count (length (bytes_of blocks.now i)) ≡ count }
    ensures no { IsFalse result → chunk_count (length (bytes_of blocks.now i)) ≢ count }
{
    chunks_in(blocks, i) == count
}

/// A block than which none is longer.
pub(crate) fn longest<'a>(blocks: &[&'a [u8]; 8]) -> &'a [u8]
    requires short { All (λ block. length block.now ≤ 4194304) blocks.now }
    ensures longest { All (λ block. length block.now ≤ length result.now) blocks.now }
    ensures short { length result.now ≤ 4194304 }
{
    let mut longest = blocks[0];
    for i in 1..8 {
        if blocks[i].len() > longest.len() {
            longest = blocks[i];
        }
    }
    longest
}

/// The length of a block than which none is shorter.
pub(crate) fn least_length(blocks: &[&[u8]; 8]) -> usize
    ensures least { All (λ block. result ≤ length block.now) blocks.now }
    ensures greatest { (n : ℕ) → All (λ block. n ≤ length block.now) blocks.now → n ≤ result }
{
    let mut len = blocks[0].len();
    for i in 1..8 {
        len = len.min(blocks[i].len());
    }
    len
}

// What a lane is shown after so many chunks: its own block, or the longest, once its own has ended.
#[inline(always)]
fn shown_in<'a>(blocks: &[&'a [u8]; 8], longest: &'a [u8], count: usize, i: usize) -> &'a [u8]
    requires lane { i < 8 }
    requires short { All (λ block. length block.now ≤ 4194304) blocks.now }
    requires longest { length longest.now ≤ 4194304 }
    ensures own { count < chunk_count (length (bytes_of blocks.now i)) → result.now ≡ bytes_of blocks.now i }
    ensures more { count < chunk_count (length longest.now) → count < chunk_count (length result.now) }
    ensures short { length result.now ≤ 4194304 }
{
    if count < chunks_in(blocks, i) {
        blocks[i]
    } else {
        longest
    }
}

/// What the lanes are shown after so many chunks: each has more.
pub(crate) fn shown<'a>(blocks: &[&'a [u8]; 8], longest: &'a [u8], count: usize) -> [&'a [u8]; 8]
    requires short { All (λ block. length block.now ≤ 4194304) blocks.now }
    requires longest { length longest.now ≤ 4194304 }
    requires more { count < chunk_count (length longest.now) }
    ensures long { length result ≡ 8 }
    ensures own { EachLane (λ i.
        count < chunk_count (length (bytes_of blocks.now i)) → bytes_of result i ≡ bytes_of blocks.now i) }
    ensures more { All (λ block. count < chunk_count (length block.now)) result }
    ensures short { All (λ block. length block.now ≤ 4194304) result }
{
    [
        shown_in(blocks, longest, count, 0),
        shown_in(blocks, longest, count, 1),
        shown_in(blocks, longest, count, 2),
        shown_in(blocks, longest, count, 3),
        shown_in(blocks, longest, count, 4),
        shown_in(blocks, longest, count, 5),
        shown_in(blocks, longest, count, 6),
        shown_in(blocks, longest, count, 7),
    ]
}
