// The blocks that follow from the first choice of levels of each stripe, made before any of them is hashed.
ghost use Rattle.std.specs.Prelude.{◌≡◌, ◌+◌, ◌<◌, ◌≤◌, ℕ, length, slice_index_or, true};
ghost use Rattle.stripe_examiner.specs.declared.room.StripeRoom.{StripeRoom};
ghost use Rattle.stripe_examiner.specs.FirstChoice.{MakesFirst};
ghost use Rattle.stripe_examiner.specs.Judged.{CanJudge};
ghost use Rattle.stripe_examiner.specs.MarkedWindow.{number_at};
ghost use Rattle.repair_scope.specs.Plan.{is_searched as is_searched_at};
ghost use Rattle.stripe_examiner.specs.Surveyed.{plan_in};

use crate::finding::make_first;
use crate::knowing::{see_levels, wanted_blocks};
use crate::room::{FirstChoice, StripeRoom};
use crate::search::Wanted;
use crate::survey::Survey;
use repair_scope::is_searched;
use stripe_reader::Window;

// Which of the blocks are as long as a block of the array.
fn are_full(wanted: &[Wanted], block_size: u32) -> [bool; 6]
    requires { length wanted.now ≤ 6 }
{
    let mut full = [false; 6];
    for j in 0..wanted.len() {
        full[j] = wanted[j].length == block_size;
    }
    full
}

// Makes them for a stripe whose levels were read, where some of its blocks are missing and enough levels were read whole.
fn make_searched(survey: &Survey<'_>, stripe: u32, i: u32, window: &Window, own: &mut StripeRoom)
    requires can { CanJudge (plan_in survey.now) stripe i window.now own.old }
    requires searched { is_searched_at (plan_in survey.now) stripe ≡ true }
    ensures { MakesFirst (plan_in survey.now) stripe i window.now own.old own.new }
{
    let table = survey.plan.table;
    let shape = table.shape();
    own.first = FirstChoice::NONE;
    see_levels(&own.levels, shape.levels);
    let Some(wanted) = wanted_blocks(survey, stripe, &own.marks) else {
        return;
    };
    if wanted.is_empty() {
        return;
    }
    let (left, blocks) = (&mut own.remainders, &mut own.blocks);
    if make_first(table, i, window, &own.levels, &wanted, left, blocks) {
        own.first = FirstChoice {
            is_made: true,
            full: are_full(&wanted, shape.block_size),
            digests: [None; 6],
        };
    }
}

// Makes them for the stripe of a number of the window.
fn make(survey: &Survey<'_>, k: usize, window: &Window, own: &mut StripeRoom)
    requires number { k < length survey.now.stripes.now }
    requires can { CanJudge (plan_in survey.now) (number_at survey.now.stripes.now k) k window.now own.old }
    ensures { MakesFirst (plan_in survey.now) (number_at survey.now.stripes.now k) k window.now own.old own.new }
{
    // A number of a stripe of a window is below its count.
    let _count = window.count();
    let stripe = survey.stripes[k];
    if !is_searched(&survey.plan, stripe) {
        own.first = FirstChoice::NONE;
        return;
    }
    make_searched(survey, stripe, k as u32, window, own);
}

/// Makes them for the stripes of these numbers and rooms, one after another: those from `start` on.
pub(crate) fn make_first_blocks(
    survey: &Survey<'_>,
    start: usize,
    window: &Window,
    rooms: &mut [StripeRoom],
)
    requires within { start + length rooms.old ≤ length survey.now.stripes.now }
    requires can { (k : ℕ) (other : StripeRoom) → k < length rooms.old →
        CanJudge (plan_in survey.now) (number_at survey.now.stripes.now (start + k)) (start + k) window.now
        (slice_index_or rooms.old k other) }
    ensures { (k : ℕ) (other : StripeRoom) → k < length rooms.old →
        MakesFirst (plan_in survey.now) (number_at survey.now.stripes.now (start + k)) (start + k) window.now
        (slice_index_or rooms.old k other) (slice_index_or rooms.new k other) }
{
    for k in 0..rooms.len() {
        make(survey, start + k, window, &mut rooms[k]);
    }
}
