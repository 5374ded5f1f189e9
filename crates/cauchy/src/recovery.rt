//! The blocks of lost columns, from the levels.

ghost use Rattle.std.specs.Prelude.{◌≡◌, ◌*◌, ◌<◌, ℕ, List, length};
ghost use Rattle.cauchy.specs.Recovery.{AreBytes, IsPart, HoldsRemainders, HoldsColumns};
ghost use Rattle.cauchy.specs.System.{IsChoice, SolvesBlocks};

use crate::inverse::inverse_columns;
use crate::lanes::LANES;
use bytes::recover_bytes;
use groups::recover_groups;

mod bytes;
mod groups;

/// Recovers the blocks of the columns `missing`. At entry `work` holds a block for each of `levels`: that level less the
/// sums of all other columns. At exit it holds the block of each missing column, in their order.
pub fn solve(missing: &[u32], levels: &[u32], block: usize, work: &mut [u8])
    requires choice { IsChoice missing.now levels.now }
    requires block { 0 < block }
    requires size { length work.old ≡ length missing.now * block }
    ensures solution { SolvesBlocks missing.now levels.now block work.old work.new }
    // So the blocks of a row come back from what its levels hold of them. A column without a block comes back as zeros.
    ensures columns { (row : List (List ℕ)) → AreBytes row → IsPart missing.now row →
        HoldsRemainders row missing.now levels.now block work.old → HoldsColumns row missing.now block work.new }
{
    let inverse = inverse_columns(missing, levels);
    recover_groups(&inverse, block, missing.len(), work);
    let rest = LANES * (block / LANES);
    recover_bytes(&inverse, rest, block, missing.len(), work);
}
