// Calls of parity files and what they answer. No function here tells what it did: so a proof gathers no facts.
use disk_model::{Failed, Vault};
use rand_core::utils::NextWord;
use rand_pcg::Pcg32;

/// More bytes than a level gets here.
pub(super) const WIDTH: usize = 24;

pub(super) type Buffer = [u8; WIDTH];

/// A call of one level.
#[derive(Clone, Copy)]
pub(super) enum Call {
    Len,
    /// From this place on so many bytes.
    Read(u32, usize),
    /// From this place on so many letters, from this one on.
    Write(u32, usize, usize),
    SetLen(u32),
    Sync,
}

/// Reads the whole level.
pub(super) const ALL: Call = Call::Read(0, WIDTH);

/// What a call answers.
#[derive(Clone, Copy, Debug, PartialEq, Eq)]
pub(super) enum Answer {
    Done,
    Failed,
    /// There is no such level, or there are no such letters.
    Missing,
    Size(u64),
    /// So many bytes, with zeros behind them.
    Bytes(usize, Buffer),
}

static LETTERS: [u8; 36] = *b"abcdefghijklmnopqrstuvwxyz0123456789";

/// Makes a call.
pub(super) fn answer_of<V: Vault>(vault: &mut V, level: u32, call: Call) -> Answer {
    if level >= vault.levels() {
        return Answer::Missing;
    }
    match call {
        Call::Len => match vault.parity_len(level) {
            Ok(len) => Answer::Size(len),
            Err(Failed) => Answer::Failed,
        },
        Call::Read(at, count) => read(vault, level, at, count),
        Call::Write(at, count, first) => {
            let Some(text) = LETTERS.get(first..first.saturating_add(count)) else {
                return Answer::Missing;
            };
            done(vault.parity_write(level, u64::from(at), text))
        }
        Call::SetLen(len) => done(vault.parity_set_len(level, u64::from(len))),
        Call::Sync => done(vault.parity_sync(level)),
    }
}

fn read<V: Vault>(vault: &mut V, level: u32, at: u32, count: usize) -> Answer {
    if level >= vault.levels() {
        return Answer::Missing;
    }
    let mut out = [0; WIDTH];
    let (front, _) = out.split_at_mut(count.min(WIDTH));
    match vault.parity_read(level, u64::from(at), front) {
        Ok(got) => Answer::Bytes(got, out),
        Err(Failed) => Answer::Failed,
    }
}

fn done(answer: Result<(), Failed>) -> Answer {
    match answer {
        Ok(()) => Answer::Done,
        Err(Failed) => Answer::Failed,
    }
}

/// Makes a call, and makes it again where it failed.
pub(super) fn answer_at_last<V: Vault>(vault: &mut V, level: u32, call: Call) -> Answer {
    match answer_of(vault, level, call) {
        Answer::Failed => answer_of(vault, level, call),
        got => got,
    }
}

/// Whether two vaults hold the same in a level.
pub(super) fn are_alike<V: Vault, W: Vault>(one: &mut V, other: &mut W, level: u32) -> bool {
    for call in [Call::Len, ALL] {
        if answer_at_last(one, level, call) != answer_of(other, level, call) {
            return false;
        }
    }
    true
}

/// A number below this one.
pub(super) fn draw(random: &mut Pcg32, count: u32) -> u32 {
    random.next_word() % count.max(1)
}

/// Any call. A level gets at most 23 bytes by it.
pub(super) fn draw_call(random: &mut Pcg32) -> Call {
    let at = draw(random, 16);
    let count = draw(random, 8) as usize;
    let first = draw(random, 26) as usize;
    match draw(random, 8) {
        0 => Call::Len,
        1 => Call::Read(at, count),
        2 | 3 | 4 => Call::Write(at, count, first),
        5 | 6 => Call::SetLen(draw(random, 24)),
        _ => Call::Sync,
    }
}
