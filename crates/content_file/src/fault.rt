// Why bytes gave no table.
ghost use Rattle.std.specs.Prelude.{◌≡◌};
ghost use Rattle.content_file.specs.FlawText.{printed_flaw};
ghost use Rattle.content_file.specs.declared.fault.DecodeFault.TheVariants.{Memory};
ghost use Rattle.content_file.specs.declared.fault.Refusal.TheVariants as refusals;
ghost use Rattle.file_table.specs.declared.fault.BuildFault.TheVariants as builds;

use disk_model::NoMemory;
use file_table::BuildFault;
use std::alloc::AllocError;

/// What is wrong with a field of a content file.
#[derive(Clone, Copy, Debug, PartialEq, Eq)]
pub enum Flaw {
    /// The bytes end within it.
    Short,
    /// The first seven bytes are others.
    Magic,
    /// The eighth byte is another.
    Version,
    /// A number that is not allowed there.
    Value,
    /// No disk's name, or that of an earlier column.
    Name,
    /// No record's path, or an earlier one of the column is a directory of it.
    Path,
    /// A path that is not greater than the one before in the column.
    Order,
    /// More records or blocks than a table may have.
    Full,
    /// A position that is not below the length, or that an earlier block of the column has.
    Position,
    /// A length that is not one more than the greatest position.
    Length,
    /// A synced stripe that has a block without hash.
    Hash,
    /// The digest of other bytes.
    Digest,
    /// Bytes behind the digest.
    Extra,
}

impl Flaw {
    /// The words that are printed for it.
    pub fn as_str(self) -> &'static str
        ensures { result.now ≡ printed_flaw self }
    {
        match self {
            Flaw::Short => "too short",
            Flaw::Magic => "not a content file",
            Flaw::Version => "unknown version",
            Flaw::Value => "bad value",
            Flaw::Name => "bad name",
            Flaw::Path => "bad path",
            Flaw::Order => "out of order",
            Flaw::Full => "too many",
            Flaw::Position => "bad position",
            Flaw::Length => "wrong length",
            Flaw::Hash => "missing hash",
            Flaw::Digest => "wrong digest",
            Flaw::Extra => "bytes after the end",
        }
    }
}

/// The first wrong field of a content file.
#[derive(Clone, Copy, Debug, PartialEq, Eq)]
pub struct Damage {
    /// How many bytes stand before it. Those of a name or a path begin with its length.
    pub offset: u64,
    pub why: Flaw,
}

/// Why bytes gave no table.
#[derive(Clone, Copy, Debug, PartialEq, Eq)]
pub enum DecodeFault {
    /// They are the spelling of no table.
    Damaged(Damage),
    Memory,
}

impl From<NoMemory> for DecodeFault {
    ghost from_gives = { λ _ e. e ≡ Memory };

    fn from(_fault: NoMemory) -> DecodeFault {
        DecodeFault::Memory
    }
}

/// Why no field was read.
#[derive(Clone, Copy)]
pub(crate) enum Refusal<'a> {
    /// The field that begins with these bytes is wrong.
    Flawed(Flaw, &'a [u8]),
    /// The length, which stands far before, is wrong.
    Length,
    Memory,
}

impl<'a> From<NoMemory> for Refusal<'a> {
    ghost from_gives = { λ _ e. e ≡ refusals.Memory };

    fn from(_fault: NoMemory) -> Refusal<'a> {
        Refusal::Memory
    }
}

/// Why no field was read, where the builder was asked before: it refuses nothing more but for want of memory.
pub(crate) fn out_of_memory<'a>(fault: BuildFault) -> Refusal<'a>
    requires { fault ≡ builds.Memory }
    ensures { result ≡ refusals.Memory }
{
    match fault {
        BuildFault::Memory => Refusal::Memory,
        _ => unreachable!(),
    }
}
