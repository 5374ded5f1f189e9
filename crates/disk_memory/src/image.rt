// One of the files that a stop may leave of a vault, picked by bytes.
ghost use Rattle.std.specs.Prelude.{◌≡◌, drop, length, slice_index, get_or, ◌∷◌, if◌then◌else◌, IfOk};
ghost use Rattle.disk_model.specs.Unsynced.{is_touched};
ghost use Rattle.disk_memory.specs.Choice.{number_in, length_in, mixed, level_image, after_level, levels_image, after_levels, any_content, copy_image, after_copy, copies_image};
ghost use Rattle.std.specs.List.{list_any};
ghost use Rattle.disk_memory.specs.Replay.{touched_by, holds_place};
ghost use Rattle.disk_memory.specs.declared.replay.Range.{Range};

use crate::replay::{Level, LooseCopy, Range, Replay};
use disk_calm::{Bytes, copied_content};
use disk_model::NoMemory;
use std::alloc::Global;

// The number at the front, 0 where fewer than eight bytes are left.
pub fn number_of(choice: &[u8]) -> u64
    ensures { result ≡ number_in choice.now }
{
    match choice.split_first_chunk::<8>() {
        Some((front, _)) => u64::from_le_bytes(*front),
        None => 0,
    }
}

// What follows so many bytes.
pub fn skip(bytes: &[u8], count: u64) -> &[u8]
    ensures { result.now ≡ drop count bytes.now }
{
    let start = bytes.len().min(count as usize);
    let (_, rest) = bytes.split_at(start);
    rest
}

// The byte at a place, 0 past the end.
fn byte_at(bytes: &[u8], place: u64) -> u8
    ensures { result ≡ slice_index bytes.now place }
{
    match bytes.get(place as usize) {
        Some(byte) => *byte,
        None => 0,
    }
}

impl Range {
    fn holds(&self, place: u64) -> bool
        ensures { result ≡ holds_place self.now place }
    {
        self.from <= place && place < self.to
    }
}

fn any_holds(ranges: &[Range], place: u64) -> bool
    ensures { result ≡ list_any (λ (range : Range). holds_place range place) ranges.now }
{
    ranges.iter().any(|range| range.holds(place))
}

// Whether a place is in one of the ranges.
fn is_in(ranges: &[Range], place: u64) -> bool
    ensures { result ≡ is_touched (touched_by ranges.now) place }
{
    any_holds(ranges, place)
}

impl Level {
    fn mixed_byte(&self, place: u64, bytes: &[u8]) -> u8
        ensures { result ≡ (if is_touched self.now.touched place then slice_index bytes.now place else slice_index self.now.read place) }
    {
        if is_in(&self.touched, place) {
            return byte_at(bytes, place);
        }
        byte_at(self.read.as_slice(), place)
    }

    #[tactic(auto, using(crate::proofs::ChoiceLemmas::mixed_more))]
    fn mixed(&self, alloc: Global, len: u64, bytes: &[u8]) -> Result<Bytes, NoMemory>
        ensures { IfOk result (λ image. image ≡ mixed self.now len bytes.now) }
    {
        let mut image = Vec::new(alloc);
        for place in 0..len {
            image.push(self.mixed_byte(place, bytes))?;
        }
        Ok(Bytes::of(image))
    }

    fn length_in(&self, choice: &[u8]) -> u64
        ensures { result ≡ length_in self.now choice.now }
    {
        self.least.max(number_of(choice).min(self.greatest))
    }

    fn image(&self, alloc: Global, choice: &[u8]) -> Result<Bytes, NoMemory>
        ensures { IfOk result (λ image. image ≡ level_image self.now choice.now) }
    {
        self.mixed(alloc, self.length_in(choice), skip(choice, 8))
    }

    fn after<'a>(&self, choice: &'a [u8]) -> &'a [u8]
        ensures { result.now ≡ after_level self.now choice.now }
    {
        skip(skip(choice, 8), self.length_in(choice))
    }
}

fn levels_image(alloc: Global, levels: &[Level], choice: &[u8]) -> Result<Vec<Bytes>, NoMemory>
    ensures { IfOk result (λ images. images.items ≡ levels_image levels.now choice.now) }
{
    let mut images = Vec::new(alloc);
    let mut rest = choice;
    for level in levels {
        images.push(level.image(alloc, rest)?)?;
        rest = level.after(rest);
    }
    Ok(images)
}

fn after_levels<'a>(levels: &[Level], choice: &'a [u8]) -> &'a [u8]
    ensures { result.now ≡ after_levels levels.now choice.now }
{
    let mut rest = choice;
    for level in levels {
        rest = level.after(rest);
    }
    rest
}

// Any content at all: none for 0, and else one byte fewer than the number says.
fn any_content(alloc: Global, number: u64, bytes: &[u8]) -> Result<Option<Bytes>, NoMemory>
    ensures { IfOk result (λ content. content ≡ any_content number bytes.now) }
{
    if number == 0 {
        return Ok(None);
    }
    let end = bytes.len().min((number - 1) as usize);
    let (front, _) = bytes.split_at(end);
    Ok(Some(Bytes::from_slice(alloc, front)?))
}

impl LooseCopy {
    // The content of this number that a stop may leave: what it reads as, and then the others.
    fn left(&self, number: u64) -> &Option<Bytes>
        ensures { result.now ≡ get_or (self.now.read ∷ self.now.others) number self.now.read }
    {
        if number == 0 {
            return &self.read;
        }
        match self.others.get((number - 1) as usize) {
            Some(other) => other,
            None => &self.read,
        }
    }

    fn image(&self, alloc: Global, choice: &[u8]) -> Result<Option<Bytes>, NoMemory>
        ensures { IfOk result (λ content. content ≡ copy_image self.now choice.now) }
    {
        let number = number_of(choice);
        if self.any {
            return any_content(alloc, number, skip(choice, 8));
        }
        copied_content(alloc, self.left(number))
    }

    fn after<'a>(&self, choice: &'a [u8]) -> &'a [u8]
        ensures { result.now ≡ after_copy self.now choice.now }
    {
        let rest = skip(choice, 8);
        if self.any {
            return skip(rest, number_of(choice).saturating_sub(1));
        }
        rest
    }
}

fn copies_image(
    alloc: Global,
    copies: &[LooseCopy],
    choice: &[u8],
) -> Result<Vec<Option<Bytes>>, NoMemory>
    ensures { IfOk result (λ images. images.items ≡ copies_image copies.now choice.now) }
{
    let mut images = Vec::new(alloc);
    let mut rest = choice;
    for copy in copies {
        images.push(copy.image(alloc, rest)?)?;
        rest = copy.after(rest);
    }
    Ok(images)
}

impl Replay {
    // The parity files of the image that the bytes pick.
    pub fn parities_image(&self, choice: &[u8]) -> Result<Vec<Bytes>, NoMemory>
        ensures { IfOk result (λ images. images.items ≡ levels_image self.now.levels choice.now) }
    {
        levels_image(self.alloc, &self.levels, choice)
    }

    // The content copies of the image that the bytes pick.
    pub fn contents_image(&self, choice: &[u8]) -> Result<Vec<Option<Bytes>>, NoMemory>
        ensures { IfOk result (λ images. images.items ≡ copies_image self.now.copies (after_levels self.now.levels choice.now)) }
    {
        copies_image(self.alloc, &self.copies, after_levels(&self.levels, choice))
    }
}
