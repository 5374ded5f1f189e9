// Why a configuration is refused.
ghost use Rattle.std.specs.Prelude.{◌≡◌};
ghost use Rattle.snap_config.specs.Why.{printed_why};

/// What is wrong with a line of a configuration.
#[derive(Clone, Copy, Debug, PartialEq, Eq)]
pub enum Why {
    /// The whole has more than 1,048,576 bytes.
    TooLong,
    /// The line isn't UTF-8.
    Utf8,
    /// There is no such keyword.
    Unknown,
    /// The keyword, or its value, is one that this program does not serve.
    Unsupported,
    /// The argument is missing, or isn't of its form.
    Value,
    /// An earlier line says it already.
    Repeated,
    /// There are as many such lines as there may be.
    TooMany,
    /// The argument is no pattern.
    Pattern,
    /// No parity file is named, or one is of a level above a missing one.
    NoParity,
    /// No content file is named.
    NoContent,
    /// No data disk is named.
    NoData,
}

impl Why {
    /// The words that are printed for it.
    pub fn as_str(self) -> &'static str
        ensures { result.now ≡ printed_why self }
    {
        match self {
            Why::TooLong => "too long",
            Why::Utf8 => "not UTF-8",
            Why::Unknown => "unknown keyword",
            Why::Unsupported => "not supported",
            Why::Value => "bad value",
            Why::Repeated => "repeated",
            Why::TooMany => "too many",
            Why::Pattern => "bad pattern",
            Why::NoParity => "missing parity",
            Why::NoContent => "missing content",
            Why::NoData => "missing data",
        }
    }
}

/// Why no setup was made.
#[derive(Clone, Copy, Debug, PartialEq, Eq)]
pub enum ConfigFault {
    /// The first line that is refused, counted from 1. It is 0 where the whole is refused.
    BadLine { line: u32, why: Why },
    Memory,
}
