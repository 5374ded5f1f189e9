// The blocks of a window, hashed by several threads.
ghost use Rattle.std.specs.Prelude.{◌≡◌, ℕ, ◌+◌, ◌*◌, ◌<◌, ◌≤◌, All, length, map};
ghost use Rattle.std.specs.Thread.{IsSend, IsSync};
ghost use Rattle.file_table.specs.declared.shape.Shape.{Shape};
ghost use Rattle.stripe_reader.specs.Fetched.{IsUnhashedFront, IsUnhashedWindow, hashed_front, hashed_window};
ghost use Rattle.stripe_reader.specs.HashedLanes.{AreDigests, AreSlotDigests};
ghost use Rattle.stripe_reader.specs.Hashing.{hashed};

use crate::Window;
use crate::hashing::hash_slots;
use crate::parts::for_each_chunk_mut;
use crate::slot::{Lane, Slot};
use block_hash::Digest16;
use file_table::Shape;
use std::thread::Threads;

// How many bytes of blocks a thread is worth.
const SHARE_BYTES: u32 = 1_048_576;

// How many slots a thread has: at most so many threads share them evenly, by whole batches of eight.
fn share(block_size: u32, slots: usize, threads: u32) -> usize
    ensures { 0 < result }
{
    let least = SHARE_BYTES / block_size.max(1);
    let even = slots.div_ceil(threads.max(1) as usize);
    let batches = even.max(least as usize).div_ceil(8);
    batches.saturating_mul(8).max(8)
}

// Makes the digests of the first slots of lanes, by so many threads at most.
fn hash_shares<R: Threads + Sync>(
    rt: &R,
    shape: &Shape,
    count: usize,
    threads: u32,
    lanes: &[Lane],
    digests: &mut [Option<Digest16>],
)
    requires most { shape.now.block_size ≤ 4194304 }
    requires lanes { All (IsUnhashedFront shape.now.block_size count) lanes.now }
    requires as_many { length digests.old ≡ length lanes.now * count }
    ensures { AreDigests shape.now count lanes.now 0 digests.new }
{
    let size = share(shape.block_size, digests.len(), threads);
    let one = |start: usize, own: &mut [Option<Digest16>]|
        requires { (shape.now.block_size ≤ 4194304) × All (IsUnhashedFront shape.now.block_size count) lanes.now ×
            (start + length own.now ≤ length lanes.now * count) × (length lanes.now * count < 18446744073709551616) }
        ensures as_many { length own.exit.now ≡ length own.entry.now }
        ensures made { AreDigests shape.entry.now count lanes.entry.now start own.exit.now }
    { hash_slots(*shape, count, lanes, start, own) };
    for_each_chunk_mut(rt, digests, size, &one);
}

// Gives slots their digests.
fn give_slots(slots: &mut [Slot], digests: &[Option<Digest16>])
    requires { length digests.now ≡ length slots.old }
    ensures { (shape : Shape) → AreSlotDigests shape slots.old digests.now → slots.new ≡ map (hashed shape) slots.old }
{
    for i in 0..slots.len() {
        slots[i].give_digest(digests[i]);
    }
}

// Gives the first slots of a lane their digests.
fn give_front(slots: &mut [Slot], digests: &[Option<Digest16>])
    requires { length digests.now ≤ length slots.old }
    ensures { (shape : Shape) → AreSlotDigests shape slots.old digests.now →
        slots.new ≡ hashed_front shape (length digests.now) slots.old }
{
    give_slots(&mut slots[..digests.len()], digests);
}

// Gives the first slots of each lane their digests.
fn give_digests(count: usize, lanes: &mut [Lane], digests: &[Option<Digest16>])
    requires as_many { length digests.now ≡ length lanes.old * count }
    requires enough { All (λ slots. count ≤ length slots) lanes.old }
    ensures { (shape : Shape) → AreDigests shape count lanes.old 0 digests.now →
        lanes.new ≡ map (hashed_front shape count) lanes.old }
{
    for k in 0..lanes.len() {
        let start = k * count;
        let lane = &mut lanes[k];
        give_front(lane.slots.as_mut_slice(), &digests[start..start + count]);
    }
}

// Makes the digests of the first slots of lanes in the front of a buffer, and gives them to their slots.
fn hash_lanes<R: Threads + Sync>(
    rt: &R,
    shape: &Shape,
    count: usize,
    threads: u32,
    lanes: &mut [Lane],
    buffer: &mut [Option<Digest16>],
)
    requires most { shape.now.block_size ≤ 4194304 }
    requires lanes { All (IsUnhashedFront shape.now.block_size count) lanes.old }
    requires room { length lanes.old * count ≤ length buffer.old }
    ensures { lanes.new ≡ map (hashed_front shape.now count) lanes.old }
{
    let digests = &mut buffer[..lanes.len() * count];
    hash_shares(rt, shape, count, threads, lanes, digests);
    give_digests(count, lanes, digests);
}

/// Gives each cell that was read last its digest, by so many threads at most. No memory is taken.
pub fn hash_window<R: Threads + Sync>(rt: &R, shape: Shape, threads: u32, window: &mut Window)
    requires block_size { window.old.block_size ≡ shape.block_size }
    requires most { shape.block_size ≤ 4194304 }
    requires unhashed { IsUnhashedWindow window.old }
    ensures { window.new ≡ hashed_window shape window.old }
{
    let count = window.count as usize;
    let lanes = window.lanes.as_mut_slice();
    let buffer = window.digests.as_mut_slice();
    hash_lanes(rt, &shape, count, threads, lanes, buffer);
}
