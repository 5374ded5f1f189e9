// Why no table was laid out.
ghost use Rattle.std.specs.Prelude.{◌≡◌};
ghost use Rattle.array_scan.specs.declared.fault.ScanFault.TheVariants.{Memory};

use disk_model::NoMemory;

/// Why no table was laid out.
#[derive(Clone, Copy, Debug, PartialEq, Eq)]
pub enum ScanFault {
    /// A file that had bytes is empty now: its column, and the number of its record.
    Zeroed { disk: u32, rec: u32 },
    /// A column has records, and none of them is unchanged or moved.
    Emptied { disk: u32 },
    /// A table cannot have as many blocks, or files; the greatest u64 stands for a number that passes it.
    Full { blocks: u64, files: u64 },
    Memory,
}

impl From<NoMemory> for ScanFault {
    ghost from_gives = { λ _ fault. fault ≡ Memory };

    fn from(_error: NoMemory) -> ScanFault {
        ScanFault::Memory
    }
}
