// What a command found or did.
ghost use Rattle.std.specs.Prelude.{◌≡◌, ◌<◌};
ghost use Rattle.snap_report.specs.Kind.{kind_of, is_finding as is_finding_of, is_left as is_left_of};

use block_hash::Digest16;
use disk_model::Meta;

/// What a command found or did, by numbers: the table in hand gives the names. `disk` is the number of a
/// column, `rec` that of a record of it, and `index` that of a block of the record.
/// The first nine kinds are findings, the last five are news of what `fix` did.
#[derive(Clone, Copy, Debug, PartialEq, Eq)]
pub enum Event {
    /// A file is not listed with the recorded size and stamp. `found` is what was listed in its place.
    Changed {
        disk: u32,
        rec: u32,
        found: Option<Meta>,
    },
    /// A block was read from a file that is not as recorded, or fewer bytes than the block came. `found` is what
    /// was there before the read, and `got` is how many bytes came.
    ChangedBlock {
        stripe: u32,
        disk: u32,
        rec: u32,
        index: u32,
        found: Option<Meta>,
        got: u32,
    },
    /// A block was read whole, and its hash is not the recorded one.
    Silent {
        stripe: u32,
        disk: u32,
        rec: u32,
        index: u32,
        recorded: Digest16,
        found: Digest16,
    },
    /// The folder failed in the reading of a block.
    Io {
        stripe: u32,
        disk: u32,
        rec: u32,
        index: u32,
    },
    /// The vault failed in the reading of a level's block.
    ParityIo {
        stripe: u32,
        level: u32,
    },
    /// A level's block is short, or is not the sum of its row.
    Parity {
        stripe: u32,
        level: u32,
    },
    /// A stripe is pending: its parity promises nothing.
    Unsynced {
        stripe: u32,
    },
    /// A damaged block can't be recovered.
    Lost {
        stripe: u32,
        disk: u32,
        rec: u32,
        index: u32,
    },
    /// A file can't be written, since other files stand in its way.
    Blocked {
        disk: u32,
        rec: u32,
    },
    /// A damaged block was written anew.
    Fixed {
        stripe: u32,
        disk: u32,
        rec: u32,
        index: u32,
    },
    /// A level's block was written anew.
    FixedParity {
        stripe: u32,
        level: u32,
    },
    /// A file that was written to has all its blocks.
    Restored {
        disk: u32,
        rec: u32,
    },
    /// A file with a lost block stands under its path and `.unrecoverable`.
    Renamed {
        disk: u32,
        rec: u32,
    },
    /// The folder did not keep a file's stamp.
    NoStamp {
        disk: u32,
        rec: u32,
    },
}

impl Event {
    /// How many kinds there are.
    pub const KINDS: usize = 14;

    /// The number of its kind, in the order above from 0 on.
    pub fn kind(&self) -> usize
        ensures value { result ≡ kind_of self.now }
        ensures below { result < 14 }
    {
        match self {
            Event::Changed { .. } => 0,
            Event::ChangedBlock { .. } => 1,
            Event::Silent { .. } => 2,
            Event::Io { .. } => 3,
            Event::ParityIo { .. } => 4,
            Event::Parity { .. } => 5,
            Event::Unsynced { .. } => 6,
            Event::Lost { .. } => 7,
            Event::Blocked { .. } => 8,
            Event::Fixed { .. } => 9,
            Event::FixedParity { .. } => 10,
            Event::Restored { .. } => 11,
            Event::Renamed { .. } => 12,
            Event::NoStamp { .. } => 13,
        }
    }

    /// Whether it is a finding: something is not as it was recorded, or could not be read.
    pub fn is_finding(&self) -> bool
        ensures { result ≡ is_finding_of self.now }
    {
        self.kind() < 9
    }

    /// Whether it is a finding that a fix leaves: a block that is lost or not synced, or a file that is blocked.
    pub fn is_left(&self) -> bool
        ensures { result ≡ is_left_of self.now }
    {
        matches!(self.kind(), 6 | 7 | 8)
    }
}
