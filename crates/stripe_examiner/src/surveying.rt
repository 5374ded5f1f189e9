// A window of stripes, examined.
ghost use Rattle.std.specs.Prelude.{◌≡◌, ◌<◌, ℕ, length, map, slice_index_or, true};
ghost use Rattle.stripe_reader.specs.Held.{AreDisksOf};
ghost use Rattle.repair_scope.specs.Plan.{is_searched};
ghost use Rattle.stripe_examiner.specs.declared.room.StripeRoom.{StripeRoom};
ghost use Rattle.stripe_examiner.specs.MarkedWindow.{number_at};
ghost use Rattle.stripe_examiner.specs.Room.{AreRoomsFor};
ghost use Rattle.stripe_examiner.specs.Spare.{IsSpareFor};
ghost use Rattle.stripe_examiner.specs.Surveyed.{CanMark, plan_in};
ghost use Rattle.stripe_examiner.specs.WindowExamined.{CanExamineFetched, CanExamineFetchedRooms, CanExamineRooms, CanExamineWindow};
ghost use Rattle.stripe_examiner.specs.WindowExamined.{ExaminesFetched, ExaminesFetchedRooms, ExaminesRead, ExaminesRooms, ExaminesWindow};

use crate::beside::{hash_beside, read_beside};
use crate::judging_window::judge_stripes;
use crate::marking_window::mark_stripes;
use crate::putting::put_stripes;
use crate::room::{Room, StripeRoom};
use crate::spare::Spare;
use crate::survey::Survey;
use disk_model::{Folder, Vault};
use std::thread::Threads;
use stripe_reader::{Starts, Window};

// Examines stripes whose cells and levels were read: the spare is asked for what is damaged, and then each is judged.
fn examine_read<R: Threads + Sync, P: Spare>(
    rt: &R,
    survey: &Survey<'_>,
    window: &mut Window,
    block: &mut [u8],
    spare: &mut P,
    rooms: &mut [StripeRoom],
)
    requires can { CanMark (plan_in survey.now) survey.now.stripes.now window.old }
    requires block { length block.old ≡ survey.now.plan.table.now.shape.block_size }
    requires spare { IsSpareFor survey.now.plan.table.now.shape (P.holding spare.old) }
    requires rooms { AreRoomsFor survey.now.plan.table.now (length survey.now.stripes.now) rooms.old }
    requires counts { (k : ℕ) (other : StripeRoom) → k < length survey.now.stripes.now →
        is_searched (plan_in survey.now) (number_at survey.now.stripes.now k) ≡ true →
        (slice_index_or rooms.old k other).levels.count ≡ survey.now.plan.table.now.shape.levels }
    ensures block { length block.new ≡ length block.old }
    ensures examined { ExaminesRead (plan_in survey.now) survey.now.stripes.now window.old window.new
        rooms.old rooms.new (P.holding spare.old) (P.holding spare.new) }
{
    // A table has at most six levels.
    let _shape = survey.plan.table.shape();
    mark_stripes(survey, window, spare, block, rooms);
    judge_stripes(rt, survey, window, rooms);
    put_stripes(survey, window, rooms);
}

// Reads stripes and examines them, with as many rooms as there are stripes, or more.
fn examine_rooms<R: Threads + Sync, F: Folder, V: Vault, P: Spare>(
    rt: &R,
    survey: &Survey<'_>,
    starts: &Starts,
    window: &mut Window,
    block: &mut [u8],
    folders: &mut [F],
    vault: &mut V,
    spare: &mut P,
    all: &mut [StripeRoom],
)
    requires can { CanExamineRooms (plan_in survey.now) starts.now survey.now.stripes.now
        window.old (length folders.old) all.old }
    requires block { length block.old ≡ survey.now.plan.table.now.shape.block_size }
    requires disks { AreDisksOf survey.now.plan.table.now (length folders.old) (V.view vault.old) }
    requires spare { IsSpareFor survey.now.plan.table.now.shape (P.holding spare.old) }
    ensures count { length all.new ≡ length all.old }
    ensures block { length block.new ≡ length block.old }
    ensures examined { ExaminesRooms (plan_in survey.now) starts.now survey.now.stripes.now
        window.old window.new all.new (map F.view folders.old) (map F.view folders.new)
        (V.view vault.old) (V.view vault.new) (P.holding spare.old) (P.holding spare.new) }
{
    let rooms = &mut all[..survey.stripes.len()];
    read_beside(rt, survey, starts, folders, window, vault, rooms);
    examine_read(rt, survey, window, block, spare, rooms);
}

// The same of stripes whose cells were fetched.
fn examine_fetched_rooms<R: Threads + Sync, V: Vault, P: Spare>(
    rt: &R,
    survey: &Survey<'_>,
    window: &mut Window,
    block: &mut [u8],
    vault: &mut V,
    spare: &mut P,
    all: &mut [StripeRoom],
)
    requires can { CanExamineFetchedRooms (plan_in survey.now) survey.now.stripes.now window.old all.old }
    requires block { length block.old ≡ survey.now.plan.table.now.shape.block_size }
    requires levels { (V.view vault.old).levels ≡ survey.now.plan.table.now.shape.levels }
    requires spare { IsSpareFor survey.now.plan.table.now.shape (P.holding spare.old) }
    ensures count { length all.new ≡ length all.old }
    ensures block { length block.new ≡ length block.old }
    ensures examined { ExaminesFetchedRooms (plan_in survey.now) survey.now.stripes.now window.old window.new all.new
        (V.view vault.old) (V.view vault.new) (P.holding spare.old) (P.holding spare.new) }
{
    let rooms = &mut all[..survey.stripes.len()];
    hash_beside(rt, survey, window, vault, rooms);
    examine_read(rt, survey, window, block, spare, rooms);
}

/// Reads these stripes into the window, and their levels where a recovery of their blocks is tried, asks the spare for what is
/// damaged, and judges each of them, by at most so many threads. The room of each stripe shows then what is found in it, and the
/// window has its row, where that is known.
pub fn examine_window<R: Threads + Sync, F: Folder, V: Vault, P: Spare>(
    rt: &R,
    survey: &Survey<'_>,
    starts: &Starts,
    room: &mut Room,
    folders: &mut [F],
    vault: &mut V,
    spare: &mut P,
)
    requires can { CanExamineWindow (plan_in survey.now) starts.now survey.now.stripes.now room.old }
    requires folders { length folders.old ≡ length survey.now.plan.table.now.columns }
    requires levels { (V.view vault.old).levels ≡ survey.now.plan.table.now.shape.levels }
    requires spare { IsSpareFor survey.now.plan.table.now.shape (P.holding spare.old) }
    ensures { ExaminesWindow (plan_in survey.now) starts.now survey.now.stripes.now room.old room.new
        (map F.view folders.old) (map F.view folders.new) (V.view vault.old) (V.view vault.new)
        (P.holding spare.old) (P.holding spare.new) }
{
    let (window, block, rooms) = (&mut room.window, &mut room.block, &mut room.stripes);
    examine_rooms(
        rt, survey, starts, window, block, folders, vault, spare, rooms,
    );
}

/// Examines stripes whose cells were fetched into the window: hashes these and meanwhile reads the levels of the stripes where a
/// recovery of their blocks is tried, asks the spare for what is damaged, and judges each of them, by at most so many threads. The
/// room of each stripe shows then what is found in it, and the window has its row, where that is known.
pub fn examine_fetched<R: Threads + Sync, V: Vault, P: Spare>(
    rt: &R,
    survey: &Survey<'_>,
    room: &mut Room,
    vault: &mut V,
    spare: &mut P,
)
    requires can { CanExamineFetched (plan_in survey.now) survey.now.stripes.now room.old }
    requires levels { (V.view vault.old).levels ≡ survey.now.plan.table.now.shape.levels }
    requires spare { IsSpareFor survey.now.plan.table.now.shape (P.holding spare.old) }
    ensures { ExaminesFetched (plan_in survey.now) survey.now.stripes.now room.old room.new
        (V.view vault.old) (V.view vault.new) (P.holding spare.old) (P.holding spare.new) }
{
    let (window, block, rooms) = (&mut room.window, &mut room.block, &mut room.stripes);
    examine_fetched_rooms(rt, survey, window, block, vault, spare, rooms);
}
