// What a configuration asks for.
use crate::Pattern;
use disk_model::{Places, Text};
use std::marker::Model;

/// A data disk: its name, and its folder without a slash at its end.
#[derive(Drop)]
pub struct Disk {
    pub name: Text,
    pub dir: Text,
}

/// The data disks in the order of their columns.
#[derive(Drop)]
pub struct Disks {
    items: Vec<Disk>,
}

impl Model for Disks {
    ghost use Rattle.std.specs.Prelude.{List};
    ghost use Rattle.array_setup.specs.declared.setup.Disk.{Disk};

    ghost Value = { List Disk };

    ghost view = { λ disks. disks.items.items };
}

impl Disks {
    ghost use Rattle.std.specs.Prelude.{◌≡◌};

    pub fn new(items: Vec<Disk>) -> Disks
        ensures { result ≡ items.items }
    {
        Disks { items }
    }

    pub fn as_slice(&self) -> &[Disk]
        ensures { result.now ≡ self.now }
    {
        self.items.as_slice()
    }

    pub fn into_vec(self) -> Vec<Disk>
        ensures { result.items ≡ self }
    {
        self.items
    }
}

/// Keeps the files that a pattern matches, or leaves them out.
#[derive(Drop)]
pub struct Rule {
    pub include: bool,
    pub pattern: Pattern,
}

/// The rules in the order in which they are tried.
#[derive(Drop)]
pub struct Rules {
    items: Vec<Rule>,
}

impl Model for Rules {
    ghost use Rattle.std.specs.Prelude.{List};
    ghost use Rattle.array_setup.specs.declared.setup.Rule.{Rule};

    ghost Value = { List Rule };

    ghost view = { λ rules. rules.items.items };
}

impl Rules {
    ghost use Rattle.std.specs.Prelude.{◌≡◌};

    pub fn new(items: Vec<Rule>) -> Rules
        ensures { result ≡ items.items }
    {
        Rules { items }
    }

    pub fn as_slice(&self) -> &[Rule]
        ensures { result.now ≡ self.now }
    {
        self.items.as_slice()
    }

    pub fn into_vec(self) -> Vec<Rule>
        ensures { result.items ≡ self }
    {
        self.items
    }
}

/// What a configuration asks for. Names of files and folders have no two slashes side by side.
#[derive(Drop)]
pub struct Setup {
    pub disks: Disks,
    /// The folders are those of the disks, in the same order. The parity files are those of the first level, then those
    /// of the second, and so on.
    pub places: Places,
    /// How many files each level has, 1 to 8.
    pub parts: Vec<u32>,
    /// How many bytes each file but the last of its level holds.
    pub split: u64,
    pub rules: Rules,
    /// Whether files with a component that begins with a dot are left out.
    pub nohidden: bool,
    /// In bytes.
    pub block_size: u32,
    /// After how many bytes of data a sync saves, 0 where only at its end.
    pub autosave: u64,
    /// The file that the events of this run are written to.
    pub log: Option<Text>,
}
