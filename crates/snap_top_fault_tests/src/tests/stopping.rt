// A sync that is stopped after each of its calls of the vault, what it leaves, and the next syncs.
ghost use Rattle.std.specs.Prelude.{IfOk};
ghost use Rattle.disk_model.specs.Vault.{IsSettled};
ghost use Rattle.disk_memory.specs.Given.{HasNoDraft};
ghost use Rattle.disk_memory.specs.Vault.{vault_view};

use disk_memory::MemVault;
use snap_top_memory::arrays::{Left, SYNC, content, limited, parity, picking, run_over, vault};
use snap_top_memory::cases::{Case, follow};
use snap_top_memory::left::{begins, compare, compare_left};
use std::alloc::Global;
use std::test::Fail;
use std::thread::Threads;

/// A stripe, and how its sum begins; zeros follow.
pub type Sum<'a> = (usize, &'a [u8]);

/// A content copy that may be left, as bytes, with no byte where there is none, and the sums of the stripes that it
/// calls synced.
#[derive(Clone, Copy)]
pub struct Known<'a> {
    pub content: &'a [u8],
    pub sums: &'a [Sum<'a>],
}

/// A sync, and what it may leave wherever it is stopped.
#[derive(Clone, Copy)]
pub struct Stops<'a> {
    /// What was synced before, if anything was.
    pub before: Option<Case<'a>>,
    /// How it ends where it is not stopped.
    pub whole: Case<'a>,
    /// How many calls of the vault it makes.
    pub calls: u64,
    pub known: &'a [Known<'a>],
}

/// Stops a sync after each number of calls, and looks at all that may be left. The next sync ends as one never
/// stopped, though it is itself stopped first.
pub fn plays_stops<R: Threads + Sync>(rt: &R, alloc: Global, stops: &Stops) -> Result<(), Fail> {
    for calls in 0..stops.calls {
        plays_stop(rt, alloc, calls, stops)?;
    }
    let mut left = stopped_after(rt, alloc, stops.calls, stops)?;
    compare(alloc, stops.calls, &mut left, &stops.whole)?;
    holds_after(rt, alloc, stops.calls, &left, stops)
}

fn plays_stop<R: Threads + Sync>(
    rt: &R,
    alloc: Global,
    calls: u64,
    stops: &Stops,
) -> Result<(), Fail> {
    let left = stopped_after(rt, alloc, calls, stops)?;
    if !left.is(3, "", "snapraid: parity or content failed\n") {
        return Err(Fail::new(format_args!("after {calls} calls: status")));
    }
    holds_after(rt, alloc, calls, &left, stops)
}

// The sync, with so many calls of the vault.
fn stopped_after<R: Threads + Sync>(
    rt: &R,
    alloc: Global,
    calls: u64,
    stops: &Stops,
) -> Result<Left, Fail> {
    let vault = vault_before(rt, alloc, stops)?;
    let Case { words, array, .. } = stops.whole;
    run_over(rt, alloc, words, array, limited(vault, calls))
}

fn vault_before<R: Threads + Sync>(rt: &R, alloc: Global, stops: &Stops) -> Result<MemVault, Fail>
    ensures settled { IfOk result (λ vault. IsSettled (vault_view vault)) }
    ensures drafts { IfOk result (λ vault. HasNoDraft (vault_view vault)) }
{
    match &stops.before {
        Some(case) => follow(rt, alloc, 0, None, case)?.reopened(),
        None => vault(alloc, stops.whole.array),
    }
}

// With the old, the lowest or the fewest of what may be left, with the newest, and with other bytes.
fn holds_after<R: Threads + Sync>(
    rt: &R,
    alloc: Global,
    calls: u64,
    left: &Left,
    stops: &Stops,
) -> Result<(), Fail> {
    for byte in [0, 1, 0xff] {
        let choice = picking(alloc, byte)?;
        holds_with(rt, alloc, calls, left, choice.as_slice(), stops)?;
    }
    Ok(())
}

fn holds_with<R: Threads + Sync>(
    rt: &R,
    alloc: Global,
    calls: u64,
    left: &Left,
    choice: &[u8],
    stops: &Stops,
) -> Result<(), Fail> {
    is_resumed(rt, alloc, calls, left, choice, stops)?;
    let vault = limited(left.stopped(choice)?, 9);
    let broken = run_over(rt, alloc, SYNC, stops.whole.array, vault)?;
    is_resumed(rt, alloc, calls, &broken, choice, stops)
}

// What may be left is sound, and a sync over it ends as one never stopped.
fn is_resumed<R: Threads + Sync>(
    rt: &R,
    alloc: Global,
    calls: u64,
    left: &Left,
    choice: &[u8],
    stops: &Stops,
) -> Result<(), Fail> {
    if !is_sound(alloc, left, choice, stops)? {
        return Err(Fail::new(format_args!("after {calls} calls: not sound")));
    }
    let mut next = run_over(rt, alloc, SYNC, stops.whole.array, left.stopped(choice)?)?;
    if next.outcome.status != 0 {
        return Err(Fail::new(format_args!("after {calls} calls: next status")));
    }
    compare_left(alloc, calls, &mut next, &stops.whole)
}

// Whether the first and the last content copy are such as may be left, with the sums of the stripes that they call
// synced.
fn is_sound(alloc: Global, left: &Left, choice: &[u8], stops: &Stops) -> Result<bool, Fail> {
    let mut image = left.stopped(choice)?;
    let level = parity(alloc, &mut image, 0)?;
    let last = stops.whole.array.copies.saturating_sub(1);
    Ok(
        is_known(
            content(alloc, &mut image, 0)?.as_slice(),
            level.as_slice(),
            stops.known,
        ) && is_known(
            content(alloc, &mut image, last)?.as_slice(),
            level.as_slice(),
            stops.known,
        ),
    )
}

/// Whether this content may be left, with the sums of the stripes that it calls synced in this level.
pub fn is_known(content: &[u8], level: &[u8], known: &[Known]) -> bool {
    known.iter().any(|known| content == known.content
        && known.sums.iter().all(|sum| is_in(*sum, level)))
}

fn is_in(sum: Sum, level: &[u8]) -> bool {
    let (stripe, first) = sum;
    match level.chunks(1024).nth(stripe) {
        Some(block) => block.len() == 1024 && begins(block, first),
        None => false,
    }
}
