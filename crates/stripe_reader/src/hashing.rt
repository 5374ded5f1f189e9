// The digests of slots, which are numbered over all lanes, made after the cells of all lanes were read.
ghost use Rattle.std.specs.Prelude.{◌≡◌, ℕ, ◌+◌, ◌*◌, ◌<◌, ◌≤◌, All, length, slice_index, slice_index_or};
ghost use Rattle.block_hash.specs.Hash.{hash};
ghost use Rattle.block_hash.specs.declared.Digest16.{Digest16};
ghost use Rattle.block_hash.specs.declared.Kind.TheVariants.{Md5};
ghost use Rattle.stripe_reader.specs.Fetched.{IsUnhashedFront};
ghost use Rattle.stripe_reader.specs.HashedLanes.{AreDigests, AreSomeDigests, IsBatch, IsNumber, IsWholeIn, numbered};
ghost use Rattle.stripe_reader.specs.Hashing.{found_bytes};

use crate::batch::Batch;
use crate::slot::{Lane, RANKS, Slot};
use block_hash::{Digest16, Kind};
use file_table::Shape;
use md5_lanes::digest_eight;

// The slot of a number: the first so many of each lane are counted, lane after lane.
fn slot_of(lanes: &[Lane], count: usize, at: usize) -> &Slot
    requires { IsNumber count lanes.now at }
    ensures { result.now ≡ numbered lanes.now count at }
{
    lanes[at / count].at(at % count)
}

// Which ranks the whole blocks of slots have.
fn ranks_of(shape: Shape, count: usize, lanes: &[Lane], start: usize, end: usize) -> [bool; RANKS]
    requires lanes { All (IsUnhashedFront shape.block_size count) lanes.now }
    requires end { end ≤ length lanes.now * count }
{
    let mut ranks = [false; RANKS];
    for at in start..end {
        if let Some(rank) = slot_of(lanes, count, at).rank(shape.block_size) {
            ranks[rank] = true;
        }
    }
    ranks
}

// The MD5 of the blocks of eight slots.
fn digests_of(shape: Shape, count: usize, lanes: &[Lane], eight: &[usize; 8]) -> [Digest16; 8]
    requires most { shape.block_size ≤ 4194304 }
    requires lanes { All (IsUnhashedFront shape.block_size count) lanes.now }
    requires numbers { All (IsNumber count lanes.now) eight.now }
    ensures { (k : ℕ) (digest : Digest16) → k < 8 → (slice_index_or result k digest).0
        ≡ hash Md5 shape.seed (found_bytes (numbered lanes.now count (slice_index eight.now k))) }
{
    let none: &[u8] = &[];
    let mut bytes = [none; 8];
    for k in 0..8 {
        bytes[k] = slot_of(lanes, count, eight[k]).found_bytes();
    }
    digest_eight(&shape.seed, &bytes)
}

// Makes the digests of eight slots with whole blocks, each into the place of its number.
fn hash_eight(
    shape: Shape,
    count: usize,
    lanes: &[Lane],
    eight: &[usize; 8],
    start: usize,
    digests: &mut [Option<Digest16>],
)
    requires kind { shape.kind ≡ Md5 }
    requires most { shape.block_size ≤ 4194304 }
    requires lanes { All (IsUnhashedFront shape.block_size count) lanes.now }
    requires whole { All (IsWholeIn count lanes.now start (start + length digests.old)) eight.now }
    requires some { AreSomeDigests shape count lanes.now start digests.old }
    ensures { AreSomeDigests shape count lanes.now start digests.new }
{
    let made = digests_of(shape, count, lanes, eight);
    for k in 0..8 {
        digests[eight[k] - start] = Some(made[k]);
    }
}

// Makes the digests of a batch, unless its blocks are sooner hashed one by one.
fn hash_batch(
    shape: Shape,
    count: usize,
    lanes: &[Lane],
    batch: &Batch,
    start: usize,
    digests: &mut [Option<Digest16>],
)
    requires kind { shape.kind ≡ Md5 }
    requires most { shape.block_size ≤ 4194304 }
    requires lanes { All (IsUnhashedFront shape.block_size count) lanes.now }
    requires whole { 0 < batch.now.found →
        All (IsWholeIn count lanes.now start (start + length digests.old)) batch.now.numbers }
    requires some { AreSomeDigests shape count lanes.now start digests.old }
    ensures { AreSomeDigests shape count lanes.now start digests.new }
{
    if batch.is_sooner_together() {
        hash_eight(shape, count, lanes, &batch.numbers, start, digests);
    }
}

// Adds a slot with a whole block to a batch, which ends once it has eight.
fn add(
    shape: Shape,
    count: usize,
    lanes: &[Lane],
    batch: Batch,
    at: usize,
    start: usize,
    digests: &mut [Option<Digest16>],
) -> Batch
    requires kind { shape.kind ≡ Md5 }
    requires most { shape.block_size ≤ 4194304 }
    requires lanes { All (IsUnhashedFront shape.block_size count) lanes.now }
    requires batch { IsBatch count lanes.now start (start + length digests.old) batch }
    requires whole { IsWholeIn count lanes.now start (start + length digests.old) at }
    requires some { AreSomeDigests shape count lanes.now start digests.old }
    ensures batch { IsBatch count lanes.now start (start + length digests.old) result }
    ensures some { AreSomeDigests shape count lanes.now start digests.new }
{
    let batch = batch.with(at, slot_of(lanes, count, at).cell.got);
    if batch.found < 8 {
        return batch;
    }
    hash_batch(shape, count, lanes, &batch, start, digests);
    Batch::new()
}

// Makes the digests of whole blocks of a rank by MD5, and of those that are in a batch already. What has no digest then
// is in the batch, or sooner hashed alone.
fn hash_rank(
    shape: Shape,
    count: usize,
    lanes: &[Lane],
    rank: usize,
    batch: Batch,
    start: usize,
    digests: &mut [Option<Digest16>],
) -> Batch
    requires kind { shape.kind ≡ Md5 }
    requires most { shape.block_size ≤ 4194304 }
    requires lanes { All (IsUnhashedFront shape.block_size count) lanes.now }
    requires within { start + length digests.old ≤ length lanes.now * count }
    requires room { length lanes.now * count < 18446744073709551616 }
    requires batch { IsBatch count lanes.now start (start + length digests.old) batch }
    requires some { AreSomeDigests shape count lanes.now start digests.old }
    ensures batch { IsBatch count lanes.now start (start + length digests.old) result }
    ensures some { AreSomeDigests shape count lanes.now start digests.new }
{
    let mut batch = batch;
    let end = start + digests.len();
    for at in start..end {
        if slot_of(lanes, count, at).has_rank(shape.block_size, rank) {
            batch = add(shape, count, lanes, batch, at, start, digests);
        }
    }
    batch
}

// Makes the digests of whole blocks by MD5, eight at a time: of full ones, and then of ever shorter ones, so that those
// of one batch are about as long. Those that are sooner hashed alone are left.
fn hash_together(
    shape: Shape,
    count: usize,
    lanes: &[Lane],
    start: usize,
    digests: &mut [Option<Digest16>],
)
    requires kind { shape.kind ≡ Md5 }
    requires most { shape.block_size ≤ 4194304 }
    requires lanes { All (IsUnhashedFront shape.block_size count) lanes.now }
    requires within { start + length digests.old ≤ length lanes.now * count }
    requires room { length lanes.now * count < 18446744073709551616 }
    requires some { AreSomeDigests shape count lanes.now start digests.old }
    ensures { AreSomeDigests shape count lanes.now start digests.new }
{
    let ranks = ranks_of(shape, count, lanes, start, start + digests.len());
    let mut batch = Batch::new();
    for rank in 0..RANKS {
        if ranks[rank] {
            batch = hash_rank(shape, count, lanes, rank, batch, start, digests);
        }
    }
    hash_batch(shape, count, lanes, &batch, start, digests);
}

// Makes those that are left, one by one.
fn hash_rest(
    shape: Shape,
    count: usize,
    lanes: &[Lane],
    start: usize,
    digests: &mut [Option<Digest16>],
)
    requires most { shape.block_size ≤ 4194304 }
    requires lanes { All (IsUnhashedFront shape.block_size count) lanes.now }
    requires within { start + length digests.old ≤ length lanes.now * count }
    requires room { length lanes.now * count < 18446744073709551616 }
    requires some { AreSomeDigests shape count lanes.now start digests.old }
    ensures { AreDigests shape count lanes.now start digests.new }
{
    for k in 0..digests.len() {
        if digests[k].is_none() {
            digests[k] = slot_of(lanes, count, start + k).digest(shape);
        }
    }
}

/// Makes the digests of the slots from a number on: by MD5 eight at a time, and one by one where that is sooner.
pub(crate) fn hash_slots(
    shape: Shape,
    count: usize,
    lanes: &[Lane],
    start: usize,
    digests: &mut [Option<Digest16>],
)
    requires most { shape.block_size ≤ 4194304 }
    requires lanes { All (IsUnhashedFront shape.block_size count) lanes.now }
    requires within { start + length digests.old ≤ length lanes.now * count }
    requires room { length lanes.now * count < 18446744073709551616 }
    ensures { AreDigests shape count lanes.now start digests.new }
{
    digests.fill(None);
    match shape.kind {
        Kind::Md5 => hash_together(shape, count, lanes, start, digests),
        Kind::Sha256 => {}
    }
    hash_rest(shape, count, lanes, start, digests);
}
