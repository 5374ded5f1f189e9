// The stripes of a window, marked one after another.
ghost use Rattle.std.specs.Prelude.{◌≡◌, length};
ghost use Rattle.stripe_examiner.specs.AskedCell.{AsksMarked};
ghost use Rattle.stripe_examiner.specs.MarkedWindow.{AsksForMarked, MarksIn, MarksStripes};
ghost use Rattle.stripe_examiner.specs.Marks.{CanExamine};
ghost use Rattle.stripe_examiner.specs.Room.{AreRoomsFor, IsStripeRoomFor};
ghost use Rattle.stripe_examiner.specs.Spare.{IsSpareFor};
ghost use Rattle.stripe_examiner.specs.Surveyed.{CanMark, plan_in};

use crate::marking::mark_cells;
use crate::room::StripeRoom;
use crate::spare::Spare;
use crate::survey::Survey;
use stripe_reader::Window;

// Notes what is found in the cells of a stripe, and marks them.
fn mark_stripe<P: Spare>(
    survey: &Survey<'_>,
    stripe: u32,
    i: u32,
    window: &mut Window,
    spare: &mut P,
    block: &mut [u8],
    own: &mut StripeRoom,
)
    requires can { CanExamine (plan_in survey.now) stripe i window.old }
    requires block { length block.old ≡ survey.now.plan.table.now.shape.block_size }
    requires spare { IsSpareFor survey.now.plan.table.now.shape (P.holding spare.old) }
    requires room { IsStripeRoomFor survey.now.plan.table.now own.old }
    ensures block { length block.new ≡ length block.old }
    ensures marks { MarksIn (plan_in survey.now) stripe i window.old window.new own.old own.new }
    ensures asks { AsksMarked (plan_in survey.now) stripe i window.old own.new.marks.items
        (P.holding spare.old) (P.holding spare.new) }
{
    let (found, marks) = (&mut own.found, &mut own.marks);
    mark_cells(survey, stripe, i, window, found, marks, spare, block);
}

/// Notes of each stripe of a window what is found in its cells, and marks them, stripe after stripe.
pub(crate) fn mark_stripes<P: Spare>(
    survey: &Survey<'_>,
    window: &mut Window,
    spare: &mut P,
    block: &mut [u8],
    rooms: &mut [StripeRoom],
)
    requires can { CanMark (plan_in survey.now) survey.now.stripes.now window.old }
    requires block { length block.old ≡ survey.now.plan.table.now.shape.block_size }
    requires spare { IsSpareFor survey.now.plan.table.now.shape (P.holding spare.old) }
    requires rooms { AreRoomsFor survey.now.plan.table.now (length survey.now.stripes.now) rooms.old }
    ensures block { length block.new ≡ length block.old }
    ensures marks { MarksStripes (plan_in survey.now) survey.now.stripes.now window.old window.new
        rooms.old rooms.new }
    ensures asks { AsksForMarked (plan_in survey.now) survey.now.stripes.now window.old window.new
        rooms.new (P.holding spare.old) (P.holding spare.new) }
{
    for i in 0..window.count() {
        let k = i as usize;
        mark_stripe(
            survey,
            survey.stripes[k],
            i,
            window,
            spare,
            block,
            &mut rooms[k],
        );
    }
}
