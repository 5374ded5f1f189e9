// Work on the parts of a slice, shared out to threads that are all started by one: a thread that has only just begun
// starts others late. The thread that is started first waits longest for a processor, so that is the one of the last
// part, which may be shorter than the others.
ghost use Rattle.std.specs.Prelude.{ℕ, ◌+◌, ◌*◌, ◌^◌, ◌<◌, length, slice_index_or};
ghost use Rattle.std.specs.Fork.{AcceptsAt, AcceptsChunksMut, AcceptsEach, AllInChunks, ChangesAt, ChangesChunks, ChangesEach, slice_chunk};
ghost use Rattle.std.specs.Thread.{IsSend, IsSync};

use std::thread::{Threads, join_mut};

/// Calls `f(start, chunk)` at each chunk that `s.chunks_mut(size)` has, each in a thread of its own but the first, which
/// this thread works on.
pub fn for_each_chunk_mut<R: Threads + Sync, T: Send, F: Fn(usize, &mut [T]) + Sync>(
    rt: &R,
    s: &mut [T],
    size: usize,
    f: &F,
)
    requires size { 0 < size }
    requires accepts { AcceptsChunksMut F.Fn f.now size s.old }
    ensures chunks { ChangesChunks F.Fn f.now size s.old s.new }
    ensures by_index { AllInChunks F.Fn f.now size s.old s.new }
{
    if !s.is_empty() {
        each_chunk(rt, f, size, s);
    }
}

// The same, where there is a chunk.
#[cycle(chunks)]
fn each_chunk<R: Threads + Sync, T: Send, F: Fn(usize, &mut [T]) + Sync>(
    rt: &R,
    f: &F,
    size: usize,
    s: &mut [T],
)
    requires size { 0 < size }
    requires some { 0 < length s.old }
    requires accepts { (n : ℕ) → n * size < length s.old → AcceptsAt F.Fn f.now (n * size) (slice_chunk s.old size n) }
    ensures { ChangesChunks F.Fn f.now size s.old s.new }
{
    if s.len() <= size {
        at_chunk(f, 0, s);
        return;
    }
    let start = (s.len() - 1) / size * size;
    let (front, last) = s.split_at_mut(start);
    last_beside(rt, f, size, start, front, last);
}

// Calls f at the last chunk in a new thread, and at those before it beside that.
#[cycle(chunks)]
fn last_beside<R: Threads + Sync, T: Send, F: Fn(usize, &mut [T]) + Sync>(
    rt: &R,
    f: &F,
    size: usize,
    start: usize,
    front: &mut [T],
    last: &mut [T],
)
    requires size { 0 < size }
    requires some { 0 < length front.old }
    requires front { (n : ℕ) → n * size < length front.old →
        AcceptsAt F.Fn f.now (n * size) (slice_chunk front.old size n) }
    requires last { AcceptsAt F.Fn f.now start last.old }
    ensures front { ChangesChunks F.Fn f.now size front.old front.new }
    ensures last { ChangesAt F.Fn f.now start last.old last.new }
{
    let mut one = ||
        requires { IsSync F.row × IsSend T.row × AcceptsAt F.Fn f.now start last.now }
        ensures { ChangesAt F.Fn f.entry.now start last.entry.now last.exit.now }
    { at_chunk(f, start, last) };
    let mut others = ||
        requires { IsSync R.row × IsSync F.row × IsSend T.row × (0 < size) × (0 < length front.now) ×
            ((n : ℕ) → n * size < length front.now → AcceptsAt F.Fn f.now (n * size) (slice_chunk front.now size n)) }
        ensures { ChangesChunks F.Fn f.entry.now size front.entry.now front.exit.now }
    { each_chunk(rt, f, size, front) };
    join_mut(rt, &mut one, &mut others);
}

// Calls f at a chunk.
fn at_chunk<T, F: Fn(usize, &mut [T])>(f: &F, start: usize, chunk: &mut [T])
    requires { AcceptsAt F.Fn f.now start chunk.old }
    ensures { ChangesAt F.Fn f.now start chunk.old chunk.new }
{
    f(start, chunk);
}

/// Calls `f(i, &mut s[i])` at each place, in at most so many threads. Each has a part of the slice.
pub fn for_each_mut<R: Threads + Sync, T: Send, F: Fn(usize, &mut T) + Sync>(
    rt: &R,
    s: &mut [T],
    threads: usize,
    f: &F,
)
    requires threads { 0 < threads }
    requires accepts { AcceptsEach F.Fn f.now s.old }
    ensures { ChangesEach F.Fn f.now s.old s.new }
{
    if s.is_empty() {
        return;
    }
    let size = s.len().div_ceil(threads);
    let part = move |start: usize, part: &mut [T]|
        requires { (start + length part.now < 2 ^ 64) × ((k : ℕ) (other : T) → k < length part.now →
            AcceptsAt F.Fn f.now (start + k) (slice_index_or part.now k other)) }
        ensures { (k : ℕ) (other : T) → k < length part.entry.now → ChangesAt F.Fn f.entry.now (start + k)
            (slice_index_or part.entry.now k other) (slice_index_or part.exit.now k other) }
    { in_turn(part, start, f) };
    for_each_chunk_mut(rt, s, size, &part);
}

// Calls f at each place of a part, one after another.
fn in_turn<T, F: Fn(usize, &mut T)>(part: &mut [T], start: usize, f: &F)
    requires room { start + length part.old < 2 ^ 64 }
    requires accepts { (k : ℕ) (other : T) → k < length part.old →
        AcceptsAt F.Fn f.now (start + k) (slice_index_or part.old k other) }
    ensures { (k : ℕ) (other : T) → k < length part.old → ChangesAt F.Fn f.now (start + k)
        (slice_index_or part.old k other) (slice_index_or part.new k other) }
{
    for k in 0..part.len() {
        at_one(f, start + k, &mut part[k]);
    }
}

// Calls f at a place.
fn at_one<T, F: Fn(usize, &mut T)>(f: &F, i: usize, it: &mut T)
    requires { AcceptsAt F.Fn f.now i it.old }
    ensures { ChangesAt F.Fn f.now i it.old it.new }
{
    f(i, it);
}
