// Why a line was not taken.
ghost use Rattle.std.specs.Prelude.{◌≡◌};
ghost use Rattle.snap_config.specs.Fault.{fault_at, pattern_fault};
ghost use Rattle.snap_config.specs.declared.fault.LineFault.TheVariants.{Memory};

use crate::{ConfigFault, Why};
use array_setup::PatternFault;
use disk_model::NoMemory;
use std::alloc::{AllocError, AllocFailed};

/// Why a line was not taken.
#[derive(Clone, Copy)]
pub(crate) enum LineFault {
    Refused(Why),
    Memory,
}

impl LineFault {
    /// The fault of a configuration at this line.
    pub fn at(self, line: u32) -> ConfigFault
        ensures { result ≡ fault_at line self }
    {
        match self {
            LineFault::Refused(why) => ConfigFault::BadLine { line, why },
            LineFault::Memory => ConfigFault::Memory,
        }
    }
}

impl From<NoMemory> for LineFault {
    ghost from_gives = { λ _ fault. fault ≡ Memory };

    fn from(_error: NoMemory) -> LineFault {
        LineFault::Memory
    }
}

impl From<AllocError> for LineFault {
    ghost from_gives = { λ _ fault. fault ≡ Memory };

    fn from(_error: AllocError) -> LineFault {
        LineFault::Memory
    }
}

impl<T: Drop> From<AllocFailed<T>> for LineFault {
    ghost from_gives = { λ _ fault. fault ≡ Memory };

    fn from(_error: AllocFailed<T>) -> LineFault {
        LineFault::Memory
    }
}

impl From<PatternFault> for LineFault {
    ghost from_gives = { λ error fault. fault ≡ pattern_fault error };

    fn from(error: PatternFault) -> LineFault {
        match error {
            PatternFault::Bad => LineFault::Refused(Why::Pattern),
            PatternFault::Memory => LineFault::Memory,
        }
    }
}
