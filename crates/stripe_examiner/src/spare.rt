// Blocks from elsewhere, by their hashes.
ghost use Rattle.std.specs.Prelude.{◌≡◌, ◌≤◌, length, false, true, IfOk, OnErr, IsTrue, is_err};
ghost use Rattle.disk_model.specs.Cause.{Rose};
ghost use Rattle.stripe_examiner.specs.Spare.{SpareView, IsSpareCall, nothing};

use block_hash::Digest16;
use disk_model::Failed;

/// Holds blocks, and gives one by its hash and its length. It is for blocks that are hashed with one seed, by one kind.
pub trait Spare {
    ghost holding: { Self → SpareView };

    /// A count of faults. It never falls, and stays at the greatest u64.
    fn faults(&self) -> u64
        ensures { result ≡ (holding self.now).faults };

    /// Puts the block with this hash and the length of `out` there, and answers whether it holds one.
    /// `Failed` only where the count of faults rose.
    fn block(&mut self, hash: Digest16, out: &mut [u8]) -> Result<bool, Failed>
        ensures size { length out.new ≡ length out.old }
        ensures call { IsSpareCall hash out.new result (holding self.old) (holding self.new) };
}

/// Holds nothing.
#[derive(Clone, Copy, Debug, PartialEq, Eq)]
pub struct NoSpare;

impl Spare for NoSpare {
    ghost holding = { λ _. nothing };

    fn faults(&self) -> u64 {
        0
    }

    fn block(&mut self, _hash: Digest16, _out: &mut [u8]) -> Result<bool, Failed> {
        Ok(false)
    }
}
