// Steps of a vault: `level LEVEL ..`, `ahead ..`, `copy COPY ..`, and the count of its faults.
use crate::answer::{Answer, done};
use crate::folder::came;
use crate::system::Host;
use crate::words::{first_of, number_of, place_of, text_of};
use disk_host::DiskVault;
use disk_model::{Ahead, Failed, Vault};
use std::alloc::Global;

#[derive(Clone, Copy)]
enum Act {
    Size,
    Read,
    Write,
    Cut,
    Sync,
    Plan,
    Save,
}

fn act_of(verb: &str) -> Option<Act> {
    match verb {
        "size" => Some(Act::Size),
        "read" => Some(Act::Read),
        "write" => Some(Act::Write),
        "cut" => Some(Act::Cut),
        "sync" => Some(Act::Sync),
        "plan" => Some(Act::Plan),
        "save" => Some(Act::Save),
        _ => None,
    }
}

/// The count of faults of the vault.
pub fn vault_faults(vault: &DiskVault<Host>) -> Answer {
    Answer::Number(vault.faults())
}

/// A step of a parity file: `LEVEL VERB ..`. There is `Missing` where there is no such level.
pub fn level_step(alloc: Global, vault: &mut DiskVault<Host>, step: &str) -> Option<Answer> {
    let (level, rest) = place_of(step)?;
    let (verb, rest) = first_of(rest);
    let act = act_of(verb)?;
    if level >= vault.levels() {
        return Some(Answer::Missing);
    }
    match act {
        Act::Size => Some(size(vault.parity_len(level))),
        Act::Sync => Some(done(vault.parity_sync(level))),
        Act::Read => read_level(alloc, vault, level, rest),
        Act::Write => write_level(alloc, vault, level, rest),
        Act::Cut => cut_level(vault, level, rest),
        Act::Plan => plan_level(vault, level, rest),
        Act::Save => None,
    }
}

fn size(answer: Result<u64, Failed>) -> Answer {
    match answer {
        Ok(size) => Answer::Number(size),
        Err(Failed) => Answer::Failed,
    }
}

// Eight bytes at most, which are the text.
fn read_level(
    alloc: Global,
    vault: &mut DiskVault<Host>,
    level: u32,
    words: &str,
) -> Option<Answer> {
    let (at, word) = number_of(words)?;
    let text = text_of(alloc, word)?;
    if level >= vault.levels() {
        return None;
    }
    let mut out = [0u8; 8];
    match vault.parity_read(level, at, &mut out) {
        Ok(count) => Some(came(&out, count, text.as_str())),
        Err(Failed) => Some(Answer::Failed),
    }
}

fn write_level(
    alloc: Global,
    vault: &mut DiskVault<Host>,
    level: u32,
    words: &str,
) -> Option<Answer> {
    let (at, word) = place_of(words)?;
    let text = text_of(alloc, word)?;
    if level >= vault.levels() {
        return None;
    }
    Some(done(vault.parity_write(level, u64::from(at), text.as_str().as_bytes())))
}

fn cut_level(vault: &mut DiskVault<Host>, level: u32, words: &str) -> Option<Answer> {
    let (len, _) = number_of(words)?;
    if level >= vault.levels() {
        return None;
    }
    Some(done(vault.parity_set_len(level, len)))
}

fn plan_level(vault: &mut DiskVault<Host>, level: u32, words: &str) -> Option<Answer> {
    let (at, len) = number_of(words)?;
    let (len, _) = place_of(len)?;
    if level >= vault.levels() {
        return None;
    }
    vault.plan_ahead(level, at, len as usize);
    Some(Answer::Done)
}

/// Reads ahead what was planned, and makes a step of a parity file before it is taken back, if there is one. There is
/// `Missing` where nothing reads ahead.
pub fn ahead_step(alloc: Global, vault: &mut DiskVault<Host>, step: &str) -> Option<Answer> {
    let Some(mut files) = vault.take_ahead() else {
        return Some(Answer::Missing);
    };
    for file in &mut files {
        file.fetch();
    }
    let answer = if step.is_empty() {
        Some(Answer::Done)
    } else {
        level_step(alloc, vault, step)
    };
    vault.put_ahead(files);
    answer
}

/// A step of a content copy: `COPY VERB ..`.
pub fn copy_step(alloc: Global, vault: &mut DiskVault<Host>, step: &str) -> Option<Answer> {
    let (copy, rest) = place_of(step)?;
    let (verb, rest) = first_of(rest);
    let act = act_of(verb)?;
    if copy >= vault.copies() {
        return Some(Answer::Missing);
    }
    match act {
        Act::Size => Some(size_of_copy(vault, copy)),
        Act::Read => read_copy(alloc, vault, copy, rest),
        Act::Save => save_copy(alloc, vault, copy, rest),
        _ => None,
    }
}

fn size_of_copy(vault: &mut DiskVault<Host>, copy: u32) -> Answer {
    if copy >= vault.copies() {
        return Answer::Missing;
    }
    match vault.content_size(copy) {
        Ok(None) => Answer::Missing,
        Ok(Some(size)) => Answer::Number(size),
        Err(Failed) => Answer::Failed,
    }
}

// Eight bytes at most, which are the text.
fn read_copy(alloc: Global, vault: &mut DiskVault<Host>, copy: u32, words: &str) -> Option<Answer> {
    let (at, word) = number_of(words)?;
    let text = text_of(alloc, word)?;
    if copy >= vault.copies() {
        return None;
    }
    let mut out = [0u8; 8];
    match vault.content_read(copy, at, &mut out) {
        Ok(count) => Some(came(&out, count, text.as_str())),
        Err(Failed) => Some(Answer::Failed),
    }
}

// A draft is begun, appended to by two pieces, sealed and published.
fn save_copy(alloc: Global, vault: &mut DiskVault<Host>, copy: u32, words: &str) -> Option<Answer> {
    let (first, second) = first_of(words);
    let first = text_of(alloc, first)?;
    let second = text_of(alloc, second)?;
    let answer = saved(
        vault,
        copy,
        first.as_str().as_bytes(),
        second.as_str().as_bytes(),
    );
    Some(done(answer))
}

fn saved(
    vault: &mut DiskVault<Host>,
    copy: u32,
    first: &[u8],
    second: &[u8],
) -> Result<(), Failed> {
    if copy >= vault.copies() {
        return Err(Failed);
    }
    vault.draft_begin(copy)?;
    vault.draft_append(copy, first)?;
    vault.draft_append(copy, second)?;
    vault.draft_seal(copy)?;
    vault.publish(copy)
}
