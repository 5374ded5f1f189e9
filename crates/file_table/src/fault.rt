// Why a builder refused.
ghost use Rattle.std.specs.Prelude.{◌≡◌};
ghost use Rattle.file_table.specs.declared.fault.BuildFault.TheVariants.{Memory};

use disk_model::NoMemory;
use std::alloc::AllocFailed;
use thiserror::Error;

/// Why a builder refused to take more, or to be finished.
#[derive(Clone, Copy, Debug, PartialEq, Eq, Error)]
pub enum BuildFault {
    /// A disk's name or a path is not allowed.
    #[error("not an allowed name")]
    Name,
    /// A path is not greater than the one before.
    #[error("out of order")]
    Order,
    /// An earlier path is a directory of this one.
    #[error("a file stands in the place of a directory")]
    Nested,
    /// A position is not below the length.
    #[error("position out of range")]
    Range,
    /// A position is used already.
    #[error("position used twice")]
    Repeated,
    /// A record lacks a block, or has all of them.
    #[error("wrong number of blocks")]
    Blocks,
    /// A limit on files or blocks would be passed.
    #[error("too many files or blocks")]
    Full,
    /// The length is not one more than the greatest position, or all information is there.
    #[error("wrong length")]
    Length,
    /// A synced stripe has a block without a hash.
    #[error("missing hash")]
    Hash,
    /// A pending stripe has a history, or information is missing.
    #[error("wrong state")]
    State,
    #[error("out of memory")]
    Memory,
}

impl From<NoMemory> for BuildFault {
    ghost from_gives = { λ _ fault. fault ≡ Memory };

    fn from(_error: NoMemory) -> BuildFault {
        BuildFault::Memory
    }
}

impl<T: Drop> From<AllocFailed<T>> for BuildFault {
    ghost from_gives = { λ _ fault. fault ≡ Memory };

    fn from(_error: AllocFailed<T>) -> BuildFault {
        BuildFault::Memory
    }
}
