// How a command goes about it, and what it is for.
ghost use Rattle.std.specs.Prelude.{◌≡◌};

use crate::Pattern;
use disk_model::Text;
use std::marker::Model;

/// Which stripes a scrub checks.
#[derive(Clone, Copy, Debug, PartialEq, Eq)]
pub enum ScrubPlan {
    /// Those that are known to be bad.
    Bad,
    /// Those that no scrub has checked since their sync.
    New,
    Full,
    /// Of all synced stripes this many percent, 0 to 100, those checked longest ago first, and the bad ones.
    Percent(u32),
}

/// How a sync is run.
#[derive(Clone, Copy, Debug, PartialEq, Eq)]
pub struct SyncWay {
    /// Whether files that have become empty are synced.
    pub force_zero: bool,
    /// Whether disks that have lost all files are synced.
    pub force_empty: bool,
    /// After how many pending stripes the sync saves: 1 to 67,108,864.
    pub save_every: Option<u32>,
}

/// How a scrub is run.
#[derive(Clone, Copy, Debug, PartialEq, Eq)]
pub struct ScrubWay {
    pub plan: ScrubPlan,
    /// Of a percentage, how many days ago the last check of a stripe must be: 0 to 36,500.
    pub older: u32,
}

/// Texts in their order.
#[derive(Drop)]
pub struct Texts {
    items: Vec<Text>,
}

impl Model for Texts {
    ghost use Rattle.std.specs.Prelude.{List, ℕ};

    ghost Value = { List (List ℕ) };

    ghost view = { λ texts. texts.items.items };
}

impl Texts {
    pub fn new(items: Vec<Text>) -> Texts
        ensures { result ≡ items.items }
    {
        Texts { items }
    }

    pub fn as_slice(&self) -> &[Text]
        ensures { result.now ≡ self.now }
    {
        self.items.as_slice()
    }

    pub fn into_vec(self) -> Vec<Text>
        ensures { result.items ≡ self }
    {
        self.items
    }
}

/// Patterns in their order.
#[derive(Drop)]
pub struct Patterns {
    items: Vec<Pattern>,
}

impl Model for Patterns {
    ghost use Rattle.std.specs.Prelude.{List, ℕ};

    ghost Value = { List (List ℕ) };

    ghost view = { λ patterns. patterns.items.items };
}

impl Patterns {
    pub fn new(items: Vec<Pattern>) -> Patterns
        ensures { result ≡ items.items }
    {
        Patterns { items }
    }

    pub fn as_slice(&self) -> &[Pattern]
        ensures { result.now ≡ self.now }
    {
        self.items.as_slice()
    }

    pub fn into_vec(self) -> Vec<Pattern>
        ensures { result.items ≡ self }
    {
        self.items
    }
}

/// What a check or a fix works on.
#[derive(Drop)]
pub struct Selection {
    /// Names of disks and of levels; where there are none, all are meant.
    pub disks: Texts,
    /// A file is meant where one of them matches its path, or where there are none.
    pub patterns: Patterns,
    /// Whether only missing files are meant.
    pub missing: bool,
    /// Whether only what is known to be bad is meant.
    pub errors: bool,
}
