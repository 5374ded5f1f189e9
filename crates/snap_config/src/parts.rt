// The files of a parity line: the parts of its level, with commas between them. A comma is the byte 44.
ghost use Rattle.std.specs.Prelude.{◌≡◌, ◌≤◌, length, map, IfOk};
ghost use Rattle.std.specs.List.{list_any};
ghost use Rattle.array_setup.specs.Glob.{is_empty};
ghost use Rattle.snap_config.specs.Names.{file_name};
ghost use Rattle.snap_config.specs.Parts.{line_parts, MayBeParts};

use crate::names::file_name;
use array_setup::cut;
use disk_model::{NoMemory, Text};
use std::alloc::Global;
use std::marker::Model;

/// The most files of one level.
pub(crate) const MOST_PARTS: usize = 8;

/// The files of one level in order, 1 to 8.
#[derive(Drop)]
pub(crate) struct Parts {
    items: Vec<Text>,
}

impl Model for Parts {
    ghost use Rattle.std.specs.Prelude.{ℕ, List};
    ghost use Rattle.snap_config.specs.Parts.{MayBeParts};

    ghost Value = { List (List ℕ) };

    ghost view = { λ parts. parts.items.items };

    ghost invariant = { λ parts. MayBeParts parts.items.items };
}

impl Parts {
    pub fn new(items: Vec<Text>) -> Parts
        requires { MayBeParts items.items }
        ensures { result ≡ items.items }
    {
        Parts { items }
    }

    pub fn as_slice(&self) -> &[Text]
        ensures { result.now ≡ self.now }
    {
        self.items.as_slice()
    }

    /// How many there are.
    pub fn count(&self) -> u32
        ensures { result ≡ length self.now }
    {
        self.items.len() as u32
    }
}

/// Whether a part of a line is empty.
pub(crate) fn has_empty_part(line: &str) -> bool
    ensures { result ≡ list_any is_empty (line_parts line.now) }
{
    let mut rest = line;
    while let Some((part, after)) = cut(rest, ',') {
        if part.is_empty() {
            return true;
        }
        rest = after;
    }
    rest.is_empty()
}

/// The parts of a line, as names of files are kept.
pub(crate) fn part_names(alloc: Global, line: &str) -> Result<Vec<Text>, NoMemory>
    ensures { IfOk result (λ names. names.items ≡ map file_name (line_parts line.now)) }
{
    let mut names = Vec::new(alloc);
    let mut rest = line;
    while let Some((part, after)) = cut(rest, ',') {
        names.push(file_name(alloc, part)?)?;
        rest = after;
    }
    names.push(file_name(alloc, rest)?)?;
    Ok(names)
}
