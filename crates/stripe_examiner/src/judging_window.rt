// The stripes of a window, judged side by side.
ghost use Rattle.std.specs.Prelude.{◌≡◌, ◌+◌, ◌<◌, ◌≤◌, ℕ, length, slice_index_or, true};
ghost use Rattle.stripe_examiner.specs.declared.room.StripeRoom.{StripeRoom};
ghost use Rattle.stripe_examiner.specs.FirstChoice.{HasFirstIn, JudgesRoom};
ghost use Rattle.stripe_examiner.specs.Judged.{CanJudge, JudgesStripe, KeepsRead};
ghost use Rattle.stripe_examiner.specs.MarkedWindow.{number_at};
ghost use Rattle.repair_scope.specs.Plan.{is_searched as is_searched_at};
ghost use Rattle.stripe_examiner.specs.Room.{IsStripeRoomFor};
ghost use Rattle.stripe_examiner.specs.Surveyed.{plan_in};

use crate::finding::find;
use crate::first_choice::make_first_blocks;
use crate::hashing::hash_together;
use crate::judging::wrong_levels;
use crate::knowing::{see_levels, wanted_blocks};
use crate::room::StripeRoom;
use crate::survey::Survey;
use repair_scope::{has_selected_level, is_audit, is_searched};
use std::thread::Threads;
use stripe_reader::{Window, for_each_chunk_mut};

// Judges a stripe whose levels were read. No sums are needed where nothing is missing and no level is selected.
fn judge_searched(survey: &Survey<'_>, stripe: u32, i: u32, window: &Window, own: &mut StripeRoom)
    requires can { CanJudge (plan_in survey.now) stripe i window.now own.old }
    requires searched { is_searched_at (plan_in survey.now) stripe ≡ true }
    requires first { HasFirstIn (plan_in survey.now) stripe i window.now own.old }
    ensures room { IsStripeRoomFor survey.now.plan.table.now own.new }
    ensures kept { KeepsRead own.old own.new }
    ensures judged { JudgesStripe (plan_in survey.now) stripe i window.now own.new }
{
    let table = survey.plan.table;
    own.known = false;
    own.wrong = [false; 6];
    see_levels(&own.levels, table.shape().levels);
    let Some(wanted) = wanted_blocks(survey, stripe, &own.marks) else {
        return;
    };
    let is_judged = has_selected_level(&survey.plan, stripe);
    if wanted.is_empty() && !is_judged {
        own.known = true;
        return;
    }
    let (left, blocks) = (&mut own.remainders, &mut own.blocks);
    let known = find(
        table,
        i,
        window,
        &own.levels,
        &wanted,
        &own.first,
        left,
        blocks,
    );
    own.known = known;
    if is_judged {
        own.wrong = wrong_levels(survey, stripe, known, &own.levels, &own.remainders);
    }
}

// Judges the stripe of a number of the window: nothing is known of its row where no recovery is tried.
fn judge(survey: &Survey<'_>, k: usize, window: &Window, own: &mut StripeRoom)
    requires number { k < length survey.now.stripes.now }
    requires can { CanJudge (plan_in survey.now) (number_at survey.now.stripes.now k) k window.now own.old }
    requires first { HasFirstIn (plan_in survey.now) (number_at survey.now.stripes.now k) k window.now own.old }
    ensures { JudgesRoom (plan_in survey.now) (number_at survey.now.stripes.now k) k window.now own.old own.new }
{
    // A number of a stripe of a window is below its count.
    let _count = window.count();
    let stripe = survey.stripes[k];
    if !is_searched(&survey.plan, stripe) {
        own.known = false;
        return;
    }
    judge_searched(survey, stripe, k as u32, window, own);
}

// Judges the stripes of these numbers, from `start` on, one after another in their rooms.
fn judge_in_turn(survey: &Survey<'_>, start: usize, window: &Window, rooms: &mut [StripeRoom])
    requires within { start + length rooms.old ≤ length survey.now.stripes.now }
    requires can { (k : ℕ) (other : StripeRoom) → k < length rooms.old →
        CanJudge (plan_in survey.now) (number_at survey.now.stripes.now (start + k)) (start + k) window.now
        (slice_index_or rooms.old k other) }
    requires first { (k : ℕ) (other : StripeRoom) → k < length rooms.old →
        HasFirstIn (plan_in survey.now) (number_at survey.now.stripes.now (start + k)) (start + k) window.now
        (slice_index_or rooms.old k other) }
    ensures { (k : ℕ) (other : StripeRoom) → k < length rooms.old →
        JudgesRoom (plan_in survey.now) (number_at survey.now.stripes.now (start + k)) (start + k) window.now
        (slice_index_or rooms.old k other) (slice_index_or rooms.new k other) }
{
    for k in 0..rooms.len() {
        judge(survey, start + k, window, &mut rooms[k]);
    }
}

// Judges them, after the blocks of their first choices were made and hashed together.
fn judge_part(survey: &Survey<'_>, start: usize, window: &Window, rooms: &mut [StripeRoom])
    requires within { start + length rooms.old ≤ length survey.now.stripes.now }
    requires can { (k : ℕ) (other : StripeRoom) → k < length rooms.old →
        CanJudge (plan_in survey.now) (number_at survey.now.stripes.now (start + k)) (start + k) window.now
        (slice_index_or rooms.old k other) }
    ensures { (k : ℕ) (other : StripeRoom) → k < length rooms.old →
        JudgesRoom (plan_in survey.now) (number_at survey.now.stripes.now (start + k)) (start + k) window.now
        (slice_index_or rooms.old k other) (slice_index_or rooms.new k other) }
{
    make_first_blocks(survey, start, window, rooms);
    hash_together(survey.plan.table.shape(), rooms);
    judge_in_turn(survey, start, window, rooms);
}

// A thread is not started for fewer bytes of cells: its start takes as long.
const LEAST_PART: usize = 1 << 20;

// How many stripes a thread has: an even share, but not too few. An audit judges none.
fn part_size(survey: &Survey<'_>, stripes: usize) -> usize
    ensures { 0 < result }
{
    if is_audit(survey.plan.scope.mode) {
        return stripes.max(1);
    }
    let table = survey.plan.table;
    let row = (table.disks() as usize).saturating_mul(table.shape().block_size as usize);
    let least = LEAST_PART / row.max(1);
    stripes
        .div_ceil(survey.threads.max(1) as usize)
        .max(least)
        .max(1)
}

/// Judges each stripe of a window in its own room, by at most so many threads, and at least by one. Each thread has stripes that follow
/// one another.
pub(crate) fn judge_stripes<R: Threads + Sync>(
    rt: &R,
    survey: &Survey<'_>,
    window: &Window,
    rooms: &mut [StripeRoom],
)
    requires count { length rooms.old ≡ length survey.now.stripes.now }
    requires can { (k : ℕ) (other : StripeRoom) → k < length survey.now.stripes.now →
        CanJudge (plan_in survey.now) (number_at survey.now.stripes.now k) k window.now
        (slice_index_or rooms.old k other) }
    ensures count { length rooms.new ≡ length rooms.old }
    ensures judged { (k : ℕ) (other : StripeRoom) → k < length survey.now.stripes.now →
        JudgesRoom (plan_in survey.now) (number_at survey.now.stripes.now k) k window.now
        (slice_index_or rooms.old k other) (slice_index_or rooms.new k other) }
{
    let size = part_size(survey, rooms.len());
    let part = |start: usize, some: &mut [StripeRoom]|
        requires { (start + length some.now ≤ length survey.now.stripes.now) ×
            ((k : ℕ) (other : StripeRoom) → k < length some.now →
            CanJudge (plan_in survey.now) (number_at survey.now.stripes.now (start + k)) (start + k) window.now
            (slice_index_or some.now k other)) }
        ensures { (k : ℕ) (other : StripeRoom) → k < length some.entry.now →
            JudgesRoom (plan_in survey.entry.now) (number_at survey.entry.now.stripes.now (start + k)) (start + k)
            window.entry.now (slice_index_or some.entry.now k other) (slice_index_or some.exit.now k other) }
    { judge_part(survey, start, window, some) };
    for_each_chunk_mut(rt, rooms, size, &part);
}
