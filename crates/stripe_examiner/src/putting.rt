// What was found of the stripes of a window, put into it.
ghost use Rattle.std.specs.Prelude.{◌≡◌, ◌<◌, ℕ, All, length, slice_index_or};
ghost use Rattle.stripe_reader.specs.WindowValue.{Fits};
ghost use Rattle.stripe_examiner.specs.declared.room.StripeRoom.{StripeRoom};
ghost use Rattle.stripe_examiner.specs.Judged.{CanJudge, JudgesStripe};
ghost use Rattle.stripe_examiner.specs.MarkedWindow.{IsAsLarge, PutsStripe, number_at};
ghost use Rattle.stripe_examiner.specs.Marks.{ChangesStripe};
ghost use Rattle.stripe_examiner.specs.Surveyed.{plan_in};

use crate::knowing::{put_found, wanted_blocks};
use crate::room::StripeRoom;
use crate::survey::Survey;
use stripe_reader::Window;

// Puts the blocks that were found of a stripe into the window, where its row is known.
fn put_stripe(survey: &Survey<'_>, stripe: u32, i: u32, window: &mut Window, own: &StripeRoom)
    requires can { CanJudge (plan_in survey.now) stripe i window.old own.now }
    requires judged { JudgesStripe (plan_in survey.now) stripe i window.old own.now }
    ensures put { PutsStripe (plan_in survey.now) stripe i window.old window.new own.now }
    ensures changes { ChangesStripe i window.old window.new }
{
    if !own.known {
        return;
    }
    let Some(wanted) = wanted_blocks(survey, stripe, &own.marks) else {
        unreachable!()
    };
    let size = survey.plan.table.shape().block_size as usize;
    put_found(window, i, size, &wanted, &own.blocks[..wanted.len() * size]);
}

/// Puts of each stripe of a window the blocks that were found of it into the window, where its row is known.
pub(crate) fn put_stripes(survey: &Survey<'_>, window: &mut Window, rooms: &[StripeRoom])
    requires window { Fits survey.now.plan.table.now window.old }
    requires number { window.old.count ≡ length survey.now.stripes.now }
    requires count { length rooms.now ≡ length survey.now.stripes.now }
    requires can { (k : ℕ) (other : StripeRoom) → k < length survey.now.stripes.now →
        CanJudge (plan_in survey.now) (number_at survey.now.stripes.now k) k window.old
        (slice_index_or rooms.now k other) }
    requires judged { (k : ℕ) (other : StripeRoom) → k < length survey.now.stripes.now →
        JudgesStripe (plan_in survey.now) (number_at survey.now.stripes.now k) k window.old
        (slice_index_or rooms.now k other) }
    ensures window { IsAsLarge window.old window.new }
    ensures put { (k : ℕ) (other : StripeRoom) → k < length survey.now.stripes.now →
        PutsStripe (plan_in survey.now) (number_at survey.now.stripes.now k) k window.old window.new
        (slice_index_or rooms.now k other) }
{
    for i in 0..window.count() {
        let k = i as usize;
        put_stripe(survey, survey.stripes[k], i, window, &rooms[k]);
    }
}
