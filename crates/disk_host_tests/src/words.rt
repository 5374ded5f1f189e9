// The words of a step. In a text `_` stands for a blank, `~` for a zero byte and `|` for the end of a line; a lone `-`
// is no text at all.
use std::alloc::Global;

/// The first word, and what follows it.
pub fn first_of(words: &str) -> (&str, &str) {
    match words.split_once(' ') {
        Some((first, rest)) => (first, rest),
        None => (words, ""),
    }
}

/// A number, and what follows it.
pub fn number_of(words: &str) -> Option<(u64, &str)> {
    let (first, rest) = first_of(words);
    match first.parse::<u64>() {
        Ok(number) => Some((number, rest)),
        Err(_) => None,
    }
}

/// A number of 32 bits, as that of a level, and what follows it.
pub fn place_of(words: &str) -> Option<(u32, &str)> {
    let (first, rest) = first_of(words);
    match first.parse::<u32>() {
        Ok(place) => Some((place, rest)),
        Err(_) => None,
    }
}

/// The text that a word stands for.
pub fn text_of(alloc: Global, word: &str) -> Option<String> {
    let mut text = String::new(alloc);
    if word == "-" {
        return Some(text);
    }
    for letter in word.chars() {
        text.push(meant(letter)).ok()?;
    }
    Some(text)
}

fn meant(letter: char) -> char {
    match letter {
        '_' => ' ',
        '~' => '\0',
        '|' => '\n',
        _ => letter,
    }
}
