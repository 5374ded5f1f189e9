//! The search for levels from which lost blocks come back with their recorded hashes.

ghost use Rattle.std.specs.Prelude.{◌≡◌, ◌↔◌, ℕ, ◌+◌, ◌*◌, ◌<◌, ◌≤◌, [], ◌∷◌, ◌++◌, length, take, EachIndex, IsTrue, Some, false, slice_index};
ghost use Rattle.std.specs.List.{All};
ghost use Rattle.block_hash.specs.Hash.{hash};
ghost use Rattle.block_hash.specs.declared.Digest16.{Digest16};
ghost use Rattle.cauchy.specs.System.{AreDistinctBelow, IsChoice};
ghost use Rattle.stripe_examiner.specs.Search.{choices_after, columns_of, found_in, given, AreRightBlocks, CanSearch, Finds, FindsAmong, FindsNone, IsAcceptable, IsAccepted, IsRightBlock, NoneAcceptable, FollowsFrom};
ghost use Rattle.stripe_examiner.specs.FirstChoice.{AreDigestsOf, IsReady};
ghost use Rattle.stripe_examiner.specs.Sharing.{HaveBlocks};

use crate::room::FirstChoice;
use arrayvec::ArrayVec;
use block_hash::{Digest16, digest};
use cauchy::laws::one_solution;
use cauchy::solve;
use file_table::Shape;

/// A block that is searched for.
#[derive(Clone, Copy, Debug, PartialEq, Eq)]
pub struct Wanted {
    pub column: u32,
    /// Its real length in bytes.
    pub length: u32,
    /// The recorded one.
    pub hash: Digest16,
}

// The columns that are searched for.
fn columns(wanted: &[Wanted]) -> ArrayVec<u32, 6>
    requires { length wanted.now ≤ 6 }
    ensures { result.items ≡ columns_of wanted.now }
{
    let mut columns = ArrayVec::new();
    for one in wanted {
        columns.push(one.column);
    }
    columns
}

/// Whether each byte is zero. All are looked at, many at once.
pub fn are_zeros(bytes: &[u8]) -> bool
    ensures { IsTrue result ↔ EachIndex bytes.now (λ i. slice_index bytes.now i ≡ 0) }
{
    let mut all = 0;
    for i in 0..bytes.len() {
        all |= bytes[i];
    }
    all == 0
}

// The digest of so many bytes of a block. That of the whole block may have been made before.
fn digest_of(shape: Shape, made: Option<Digest16>, block: &[u8], real: usize) -> Digest16
    requires real { real ≤ length block.now }
    requires size { length block.now ≤ 4194304 }
    requires made { (whole : Digest16) → made ≡ Some whole →
        whole.0 ≡ hash shape.kind shape.seed block.now }
    ensures { result.0 ≡ hash shape.kind shape.seed (take real block.now) }
{
    if real == block.len() {
        if let Some(whole) = made {
            return whole;
        }
    }
    digest(shape.kind, &shape.seed, &block[..real])
}

// Whether a block has its recorded hash, and zeros behind its real length.
fn is_right(shape: Shape, wanted: Wanted, made: Option<Digest16>, block: &[u8]) -> bool
    requires real { wanted.length ≤ length block.now }
    requires size { length block.now ≤ 4194304 }
    requires made { (whole : Digest16) → made ≡ Some whole →
        whole.0 ≡ hash shape.kind shape.seed block.now }
    ensures { IsTrue result ↔ IsRightBlock shape wanted block.now }
{
    let real = wanted.length as usize;
    digest_of(shape, made, block, real) == wanted.hash && are_zeros(&block[real..])
}

// Whether each of the blocks, which stand end to end, is right, by the digests that were made, and others.
fn are_right(
    shape: Shape,
    wanted: &[Wanted],
    digests: &[Option<Digest16>; 6],
    blocks: &[u8],
) -> bool
    requires few { length wanted.now ≤ 6 }
    requires blocks { HaveBlocks shape wanted.now blocks.now }
    requires digests { AreDigestsOf (length wanted.now) shape blocks.now digests.now }
    ensures { IsTrue result ↔ AreRightBlocks shape wanted.now blocks.now }
{
    let size = shape.block_size as usize;
    for j in 0..wanted.len() {
        let start = j * size;
        if !is_right(shape, wanted[j], digests[j], &blocks[start..start + size]) {
            return false;
        }
    }
    true
}

// Puts the remainders of the chosen levels end to end.
fn copy_chosen(shape: Shape, remainders: &[u8], choice: &[u32], out: &mut [u8])
    requires remainders { length remainders.now ≡ 6 * shape.block_size }
    requires levels { All (λ level. level < 6) choice.now }
    requires count { length choice.now ≤ 6 }
    requires size { length out.old ≡ length choice.now * shape.block_size }
    ensures { out.new ≡ given shape.block_size remainders.now choice.now }
{
    let size = shape.block_size as usize;
    for i in 0..choice.len() {
        let from = choice[i] as usize * size;
        let to = i * size;
        out[to..to + size].copy_from_slice(&remainders[from..from + size]);
    }
}

/// Makes the blocks that follow from a choice of levels, at the beginning of `work`.
pub(crate) fn follow(
    shape: Shape,
    wanted: &[Wanted],
    remainders: &[u8],
    choice: &[u32],
    work: &mut [u8],
)
    requires room { CanSearch shape wanted.now remainders.now work.old }
    requires choice { IsChoice (columns_of wanted.now) choice.now }
    ensures work { length work.new ≡ length work.old }
    ensures blocks { FollowsFrom shape wanted.now remainders.now choice.now
        (found_in shape wanted.now work.new) }
{
    let size = shape.block_size as usize;
    let blocks = &mut work[..wanted.len() * size];
    copy_chosen(shape, remainders, choice, blocks);
    solve(&columns(wanted), choice, size, blocks);
}

// The blocks that follow from a choice of levels, where they are right.
fn try_choice(
    shape: Shape,
    wanted: &[Wanted],
    remainders: &[u8],
    choice: &[u32],
    work: &mut [u8],
) -> bool
    requires room { CanSearch shape wanted.now remainders.now work.old }
    requires choice { IsChoice (columns_of wanted.now) choice.now }
    ensures work { length work.new ≡ length work.old }
    ensures found { IsTrue result → IsAccepted shape wanted.now remainders.now choice.now
        (found_in shape wanted.now work.new) }
    ensures none { result ≡ false →
        IsAcceptable shape wanted.now remainders.now choice.now → ⊥ }
{
    // No other blocks follow from these levels.
    one_solution();
    follow(shape, wanted, remainders, choice, work);
    let blocks = &work[..wanted.len() * shape.block_size as usize];
    are_right(shape, wanted, &[None; 6], blocks)
}

// The chosen levels and one more.
fn with_level(chosen: &[u32], level: u32) -> ArrayVec<u32, 6>
    requires { length chosen.now < 6 }
    ensures { result.items ≡ chosen.now ++ level ∷ [] }
{
    let mut levels = ArrayVec::new();
    for one in chosen {
        levels.push(*one);
    }
    levels.push(level);
    levels
}

// Tries the choices that begin with the chosen levels and go on with some of `levels`, in order.
fn search_from(
    shape: Shape,
    wanted: &[Wanted],
    chosen: &[u32],
    levels: &[u32],
    remainders: &[u8],
    work: &mut [u8],
) -> bool
    requires room { CanSearch shape wanted.now remainders.now work.old }
    requires most { length wanted.now ≤ 6 }
    requires few { length chosen.now ≤ length wanted.now }
    requires choices { (m : ℕ) → m + length chosen.now ≡ length wanted.now →
        All (IsChoice (columns_of wanted.now)) (choices_after chosen.now m levels.now) }
    ensures work { length work.new ≡ length work.old }
    ensures found { (m : ℕ) → m + length chosen.now ≡ length wanted.now → IsTrue result →
        FindsAmong shape wanted.now remainders.now (choices_after chosen.now m levels.now)
        (found_in shape wanted.now work.new) }
    ensures none { (m : ℕ) → m + length chosen.now ≡ length wanted.now → result ≡ false →
        NoneAcceptable shape wanted.now remainders.now (choices_after chosen.now m levels.now) }
{
    if chosen.len() == wanted.len() {
        return try_choice(shape, wanted, remainders, chosen, work);
    }
    let Some((first, rest)) = levels.split_first() else {
        return false;
    };
    let longer = with_level(chosen, *first);
    search_from(shape, wanted, &longer, rest, remainders, work)
        || search_from(shape, wanted, chosen, rest, remainders, work)
}

/// Searches for blocks among the choices of as many levels, in lexicographic order. Where it finds them, they stand at
/// the beginning of `work`. No memory is taken.
pub fn search(
    shape: Shape,
    wanted: &[Wanted],
    levels: &[u32],
    remainders: &[u8],
    work: &mut [u8],
) -> bool
    requires room { CanSearch shape wanted.now remainders.now work.old }
    requires columns { AreDistinctBelow 251 (columns_of wanted.now) }
    requires levels { AreDistinctBelow 6 levels.now }
    ensures work { length work.new ≡ length work.old }
    ensures found { IsTrue result →
        Finds shape wanted.now remainders.now levels.now (found_in shape wanted.now work.new) }
    ensures none { result ≡ false → FindsNone shape wanted.now remainders.now levels.now }
{
    if wanted.len() > levels.len() {
        return false;
    }
    search_from(shape, wanted, &[], levels, remainders, work)
}

/// The same, where the blocks of the first choice may stand at the beginning of `work`, and may have digests.
pub(crate) fn search_on(
    shape: Shape,
    wanted: &[Wanted],
    first: &FirstChoice,
    levels: &[u32],
    remainders: &[u8],
    work: &mut [u8],
) -> bool
    requires room { CanSearch shape wanted.now remainders.now work.old }
    requires columns { AreDistinctBelow 251 (columns_of wanted.now) }
    requires levels { AreDistinctBelow 6 levels.now }
    requires ready { IsReady shape wanted.now remainders.now levels.now work.old first.now }
    ensures work { length work.new ≡ length work.old }
    ensures found { IsTrue result →
        Finds shape wanted.now remainders.now levels.now (found_in shape wanted.now work.new) }
    ensures none { result ≡ false → FindsNone shape wanted.now remainders.now levels.now }
{
    if first.is_made {
        let blocks = &work[..wanted.len() * shape.block_size as usize];
        if are_right(shape, wanted, &first.digests, blocks) {
            return true;
        }
    }
    search(shape, wanted, levels, remainders, work)
}
