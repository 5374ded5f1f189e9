// A stripe of the window whose damaged blocks and wrong levels are written anew.
mod cells;
mod files;
mod levels;

pub(crate) use files::mend_files;
pub(crate) use levels::mend_levels;
use stripe_examiner::Counts;

/// How many blocks of a stripe were written anew, and what is left.
#[derive(Clone, Copy, Debug, PartialEq, Eq)]
pub(crate) struct Repaired {
    pub blocks: u32,
    pub counts: Counts,
}

impl Repaired {
    /// None.
    pub const NONE: Repaired = Repaired {
        blocks: 0,
        counts: Counts::NONE,
    };

    /// One block was written.
    pub const WRITTEN: Repaired = Repaired {
        blocks: 1,
        counts: Counts::NONE,
    };

    /// The file of one block was gone: it is lost, and that is a finding.
    pub const GONE: Repaired = Repaired {
        blocks: 0,
        counts: Counts { found: 1, left: 1 },
    };
}
