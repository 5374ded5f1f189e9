// The keywords of a configuration.
ghost use Rattle.std.specs.Prelude.{◌≡◌};
ghost use Rattle.snap_config.specs.Keyword.{keyword_of};

/// What the first word of a line stands for.
#[derive(Clone, Copy)]
pub(crate) enum Keyword {
    /// The parity files of a level.
    Parity(u32),
    Content,
    Data,
    /// A rule that keeps files.
    Include,
    /// A rule that leaves files out.
    Exclude,
    NoHidden,
    BlockSize,
    HashSize,
    AutoSave,
    /// How much each part but the last of its level may hold.
    SplitSize,
    /// A keyword of other programs, without effect.
    Unused,
    /// A parity of another kind, which this program does not write.
    ZParity,
}

/// The keyword that a word is.
pub(crate) fn keyword_of(word: &str) -> Option<Keyword>
    ensures { result ≡ keyword_of word.now }
{
    let keyword = match word {
        "parity" => Keyword::Parity(0),
        "2-parity" => Keyword::Parity(1),
        "3-parity" => Keyword::Parity(2),
        "4-parity" => Keyword::Parity(3),
        "5-parity" => Keyword::Parity(4),
        "6-parity" => Keyword::Parity(5),
        "content" => Keyword::Content,
        "data" | "disk" => Keyword::Data,
        "include" => Keyword::Include,
        "exclude" => Keyword::Exclude,
        "nohidden" => Keyword::NoHidden,
        "blocksize" => Keyword::BlockSize,
        "hashsize" => Keyword::HashSize,
        "autosave" => Keyword::AutoSave,
        "splitsize" => Keyword::SplitSize,
        "pool" | "share" | "smartctl" => Keyword::Unused,
        "z-parity" => Keyword::ZParity,
        _ => return None,
    };
    Some(keyword)
}
