//! What follows of an exercise. The calls do nothing: their contracts are laws.
ghost use Rattle.std.specs.Prelude.{◌≡◌, ℕ, true};
ghost use Rattle.snap_exercise.specs.Exercise.{Summary, is_well};
ghost use Rattle.snap_exercise.specs.Exercised.{ClosesAll, HasSyncOf, IsExercise, TellSameFix, TellSameSync};
ghost use Rattle.snap_exercise.specs.Mends.{MeetsNoChance, MendsAll};

use array_scan::laws::a_layout_is_of_the_kept_files;
use file_table::laws::{
    a_cell_stands_at_its_position, closing_a_stripe_gives_its_hashes,
    closing_a_stripe_leaves_the_others,
};
use parity_writer::laws::a_whole_level_is_what_the_file_holds;
use snap_fix::laws::{
    a_fix_keeps_what_is_sound, a_fix_leaves_the_rest, a_fix_restores, a_known_row_is_the_snapshots,
};
use snap_sync::laws::{
    a_sync_is_a_part_sync, what_a_sync_saves_is_valid, what_is_pending_is_found,
};
use stripe_examiner::laws::what_is_read_determines_what_is_found;

/// The sync of an exercise reads all that its number makes. So the numbers of its first two lines follow from that number: the
/// stripes, those that are synced, and those that are pending.
pub fn the_sync_of_a_number_is_one()
    ensures sync { (n : ℕ) (s : Summary) → IsExercise n s → HasSyncOf n s }
    ensures one { (n : ℕ) (one other : Summary) → IsExercise n one → IsExercise n other → TellSameSync one other }
{
    a_sync_is_a_part_sync();
}

/// That sync finds nothing: each file is read as it was listed, and no block has a recorded hash yet. So no stripe stays pending.
pub fn the_sync_of_a_number_closes_all()
    ensures { (n : ℕ) (s : Summary) → IsExercise n s → ClosesAll s }
{
    a_sync_is_a_part_sync();
    what_is_pending_is_found();
}

/// Its fix reads all that the sync and the damage leave. So the numbers of its third line follow from the number too: the
/// blocks and the levels that are written anew, and the findings that are left.
pub fn the_fix_of_a_number_is_one()
    ensures { (n : ℕ) (one other : Summary) → IsExercise n one → IsExercise n other → TellSameFix one other }
{
    a_sync_is_a_part_sync();
    what_a_sync_saves_is_valid();
    what_is_read_determines_what_is_found();
}

/// Where its fix leaves no finding and writes no level, each file is whole again, and the levels are as they were. Then the check
/// finds what follows from that, so the whole summary follows from the number. Nothing is said of an exercise that leaves some.
pub fn a_mended_exercise_has_one_summary()
    ensures { (n : ℕ) (one other : Summary) → IsExercise n one → IsExercise n other →
        one.left ≡ 0 → one.parities ≡ 0 → one ≡ other }
{
    a_sync_is_a_part_sync();
    what_a_sync_saves_is_valid();
    what_is_read_determines_what_is_found();
}

/// Where its fix meets no block that has a recorded hash by chance, an exercise mends all: no finding is left, and no level is
/// written. At most three cells of a stripe are damaged, and its three levels hold the sums of what the sync read. So the
/// whole summary follows from the number, and it is well: the check finds nothing, and the trees are those of before.
pub fn an_exercise_that_meets_no_chance_mends_all()
    ensures mends { (n : ℕ) (s : Summary) (is : IsExercise n s) → MeetsNoChance n s is → MendsAll s }
    ensures one { (n : ℕ) (one other : Summary) (is : IsExercise n one) → MeetsNoChance n one is →
        IsExercise n other → one ≡ other }
    ensures well { (n : ℕ) (s : Summary) (is : IsExercise n s) → MeetsNoChance n s is → is_well s ≡ true }
{
    a_sync_is_a_part_sync();
    what_a_sync_saves_is_valid();
    what_is_pending_is_found();
    what_is_read_determines_what_is_found();
    a_known_row_is_the_snapshots();
    a_fix_keeps_what_is_sound();
    a_fix_restores();
    a_fix_leaves_the_rest();
    a_whole_level_is_what_the_file_holds();
    a_layout_is_of_the_kept_files();
    a_cell_stands_at_its_position();
    closing_a_stripe_gives_its_hashes();
    closing_a_stripe_leaves_the_others();
}
