// A configuration as far as its lines are read.
ghost use Rattle.std.specs.Prelude.{◌≡◌, ◌||◌, ◌<◌, true, IfOk, is_some, bytes_eq};
ghost use Rattle.std.specs.List.{list_any};
ghost use Rattle.snap_config.specs.Builder.{add_parity, add_content, add_disk, add_rule, set_nohidden, set_block_size, set_hash_size, set_autosave, set_split};
ghost use Rattle.snap_config.specs.Builder.{no_lines, pass_over, take_keyword, take_content, take_line, has_level, has_parity, has_file, names_again, has_disk};
ghost use Rattle.array_setup.specs.Keeps.{has_name};
ghost use Rattle.snap_config.specs.Reading.{builder_value, Follows};
ghost use Rattle.snap_config.specs.Number.{number_of};

use crate::fault::LineFault;
use crate::keyword::{Keyword, keyword_of};
use crate::line::{content_of, is_skipped, split_word};
use crate::names::{file_name, folder_name, is_disk_name};
use crate::parts::{MOST_PARTS, Parts, has_empty_part, part_names};
use crate::{Why, read_number};
use array_setup::{Disk, Rule, read_pattern};
use disk_model::Text;
use std::alloc::Global;
use std::str;

const MOST_CONTENTS: usize = 64;

const MOST_DISKS: usize = 251;

const MOST_KIB: u32 = 4096;

const MOST_GB: u32 = 1_000_000;

/// The only size of a hash in bytes.
const HASH_SIZE: u32 = 16;

/// The parity files of a level.
#[derive(Drop)]
pub(crate) struct ParityLine {
    pub level: u32,
    pub files: Parts,
}

/// What the lines so far say.
#[derive(Drop)]
pub(crate) struct SetupBuilder {
    pub parities: Vec<ParityLine>,
    pub contents: Vec<Text>,
    pub disks: Vec<Disk>,
    pub rules: Vec<Rule>,
    pub nohidden: bool,
    pub block_size: Option<u32>,
    pub hash_size: bool,
    pub autosave: Option<u64>,
    pub split: Option<u64>,
}

impl SetupBuilder {
    pub fn new(alloc: Global) -> SetupBuilder
        ensures { builder_value result ≡ no_lines }
    {
        SetupBuilder {
            parities: Vec::new(alloc),
            contents: Vec::new(alloc),
            disks: Vec::new(alloc),
            rules: Vec::new(alloc),
            nohidden: false,
            block_size: None,
            hash_size: false,
            autosave: None,
            split: None,
        }
    }

    /// Takes one more line.
    pub fn take_line(&mut self, alloc: Global, line: &[u8]) -> Result<(), LineFault>
        ensures { Follows result (take_line line.now (builder_value self.old))
            (builder_value self.new) }
    {
        let Ok(text) = str::from_utf8(line) else {
            return Err(LineFault::Refused(Why::Utf8));
        };
        let content = content_of(text);
        if is_skipped(content) {
            return Ok(());
        }
        self.take_content(alloc, content)
    }

    fn take_content(&mut self, alloc: Global, content: &str) -> Result<(), LineFault>
        ensures { Follows result (take_content content.now (builder_value self.old))
            (builder_value self.new) }
    {
        let (word, argument) = split_word(content);
        match keyword_of(word) {
            Some(keyword) => self.take_keyword(alloc, keyword, argument),
            None => Err(LineFault::Refused(Why::Unknown)),
        }
    }

    fn take_keyword(
        &mut self,
        alloc: Global,
        keyword: Keyword,
        argument: &str,
    ) -> Result<(), LineFault>
        ensures { Follows result (take_keyword keyword argument.now (builder_value self.old))
            (builder_value self.new) }
    {
        match keyword {
            Keyword::Parity(level) => self.add_parity(alloc, level, argument),
            Keyword::Content => self.add_content(alloc, argument),
            Keyword::Data => {
                let (name, dir) = split_word(argument);
                self.add_disk(alloc, name, dir)
            }
            Keyword::Include => self.add_rule(alloc, true, argument),
            Keyword::Exclude => self.add_rule(alloc, false, argument),
            Keyword::NoHidden => self.set_nohidden(argument),
            Keyword::BlockSize => self.set_block_size(read_number(argument)),
            Keyword::HashSize => self.set_hash_size(read_number(argument)),
            Keyword::AutoSave => self.set_autosave(read_number(argument)),
            Keyword::SplitSize => self.set_split(read_number(argument)),
            Keyword::Unused => self.pass_over(argument),
            Keyword::ZParity => Err(LineFault::Refused(Why::Unsupported)),
        }
    }

    fn add_parity(&mut self, alloc: Global, level: u32, argument: &str) -> Result<(), LineFault>
        ensures { Follows result (add_parity level argument.now (builder_value self.old))
            (builder_value self.new) }
    {
        if has_empty_part(argument) {
            return Err(LineFault::Refused(Why::Value));
        }
        let files = part_names(alloc, argument)?;
        if has_level(self.parities.as_slice(), level) || self.names_again(files.as_slice()) {
            return Err(LineFault::Refused(Why::Repeated));
        }
        if files.len() > MOST_PARTS {
            return Err(LineFault::Refused(Why::TooMany));
        }
        let files = Parts::new(files);
        self.parities.push(ParityLine { level, files })?;
        Ok(())
    }

    fn add_content(&mut self, alloc: Global, argument: &str) -> Result<(), LineFault>
        ensures { Follows result (add_content argument.now (builder_value self.old))
            (builder_value self.new) }
    {
        if argument.is_empty() {
            return Err(LineFault::Refused(Why::Value));
        }
        let file = file_name(alloc, argument)?;
        if self.has_file(file.as_str()) {
            return Err(LineFault::Refused(Why::Repeated));
        }
        if self.contents.len() >= MOST_CONTENTS {
            return Err(LineFault::Refused(Why::TooMany));
        }
        self.contents.push(file)?;
        Ok(())
    }

    fn add_disk(&mut self, alloc: Global, name: &str, dir: &str) -> Result<(), LineFault>
        ensures { Follows result (add_disk name.now dir.now (builder_value self.old))
            (builder_value self.new) }
    {
        if !is_disk_name(name) || dir.is_empty() {
            return Err(LineFault::Refused(Why::Value));
        }
        let dir = folder_name(alloc, dir)?;
        if self.has_disk(name, dir.as_str()) {
            return Err(LineFault::Refused(Why::Repeated));
        }
        if self.disks.len() >= MOST_DISKS {
            return Err(LineFault::Refused(Why::TooMany));
        }
        let name = Text::new(alloc, name)?;
        self.disks.push(Disk { name, dir })?;
        Ok(())
    }

    fn add_rule(&mut self, alloc: Global, include: bool, argument: &str) -> Result<(), LineFault>
        ensures { Follows result (add_rule include argument.now (builder_value self.old))
            (builder_value self.new) }
    {
        if argument.is_empty() {
            return Err(LineFault::Refused(Why::Value));
        }
        let pattern = read_pattern(alloc, argument)?;
        self.rules.push(Rule { include, pattern })?;
        Ok(())
    }

    fn set_nohidden(&mut self, argument: &str) -> Result<(), LineFault>
        ensures { Follows result (set_nohidden argument.now (builder_value self.old))
            (builder_value self.new) }
    {
        if !argument.is_empty() {
            return Err(LineFault::Refused(Why::Value));
        }
        self.nohidden = true;
        Ok(())
    }

    fn set_block_size(&mut self, kib: Option<u32>) -> Result<(), LineFault>
        ensures { Follows result (set_block_size kib (builder_value self.old))
            (builder_value self.new) }
    {
        let Some(kib) = kib else {
            return Err(LineFault::Refused(Why::Value));
        };
        if kib < 1 || kib > MOST_KIB {
            return Err(LineFault::Refused(Why::Value));
        }
        if self.block_size.is_some() {
            return Err(LineFault::Refused(Why::Repeated));
        }
        self.block_size = Some(1024 * kib);
        Ok(())
    }

    fn set_hash_size(&mut self, size: Option<u32>) -> Result<(), LineFault>
        ensures { Follows result (set_hash_size size (builder_value self.old))
            (builder_value self.new) }
    {
        let Some(size) = size else {
            return Err(LineFault::Refused(Why::Value));
        };
        if size != HASH_SIZE {
            return Err(LineFault::Refused(Why::Unsupported));
        }
        if self.hash_size {
            return Err(LineFault::Refused(Why::Repeated));
        }
        self.hash_size = true;
        Ok(())
    }

    fn set_autosave(&mut self, gb: Option<u32>) -> Result<(), LineFault>
        ensures { Follows result (set_autosave gb (builder_value self.old)) (builder_value self.new) }
    {
        let Some(gb) = gb else {
            return Err(LineFault::Refused(Why::Value));
        };
        if gb > MOST_GB {
            return Err(LineFault::Refused(Why::Value));
        }
        if self.autosave.is_some() {
            return Err(LineFault::Refused(Why::Repeated));
        }
        self.autosave = Some(1_000_000_000 * u64::from(gb));
        Ok(())
    }

    fn set_split(&mut self, gb: Option<u32>) -> Result<(), LineFault>
        ensures { Follows result (set_split gb (builder_value self.old)) (builder_value self.new) }
    {
        let Some(gb) = gb else {
            return Err(LineFault::Refused(Why::Value));
        };
        if gb < 1 || gb > MOST_GB {
            return Err(LineFault::Refused(Why::Value));
        }
        if self.split.is_some() {
            return Err(LineFault::Refused(Why::Repeated));
        }
        self.split = Some(1_000_000_000 * u64::from(gb));
        Ok(())
    }

    fn pass_over(&self, argument: &str) -> Result<(), LineFault>
        ensures { Follows result (pass_over argument.now (builder_value self.now))
            (builder_value self.now) }
    {
        if argument.is_empty() {
            return Err(LineFault::Refused(Why::Value));
        }
        Ok(())
    }

    fn has_file(&self, file: &str) -> bool
        ensures { result ≡ has_file file.now (builder_value self.now) }
    {
        has_parity(self.parities.as_slice(), file) || has_name(self.contents.as_slice(), file)
    }

    // Whether one of these files is named by a line, or twice.
    fn names_again(&self, files: &[Text]) -> bool
        ensures { result ≡ names_again files.now (builder_value self.now) }
    {
        let mut rest = files;
        while let Some((file, others)) = rest.split_first() {
            if self.has_file(file.as_str()) || has_name(others, file.as_str()) {
                return true;
            }
            rest = others;
        }
        false
    }

    fn has_disk(&self, name: &str, dir: &str) -> bool
        ensures { result ≡ has_disk name.now dir.now self.now.disks.items }
    {
        self.disks.iter().any(|disk| disk.name.as_str() == name || disk.dir.as_str() == dir)
    }
}

/// Whether a level has its line.
pub(crate) fn has_level(parities: &[ParityLine], level: u32) -> bool
    ensures { result ≡ has_level level parities.now }
{
    parities.iter().any(|line| line.level == level)
}

// Whether a parity line names a file.
fn has_parity(parities: &[ParityLine], file: &str) -> bool
    ensures { result ≡ has_parity file.now parities.now }
{
    parities
        .iter()
        .any(|line| has_name(line.files.as_slice(), file))
}

fn has_name(names: &[Text], name: &str) -> bool
    ensures { result ≡ has_name names.now name.now }
{
    names.iter().any(|own| own.as_str() == name)
}
