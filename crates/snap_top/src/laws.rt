//! What follows for one run after another. The calls do nothing: their contracts are laws.
ghost use Rattle.std.specs.Prelude.{◌≡◌, ℕ, List, Bool, IsTrue, true, length, Contains};
ghost use Rattle.cauchy.specs.Matrix.{byte_of};
ghost use Rattle.content_file.specs.Load.{HasFailed};
ghost use Rattle.disk_model.specs.Cause.{RoseBy};
ghost use Rattle.disk_model.specs.Files.{Files};
ghost use Rattle.disk_model.specs.Opener.{folder_held};
ghost use Rattle.disk_model.specs.Tree.{Tree};
ghost use Rattle.file_table.specs.Table.{TableValue};
ghost use Rattle.file_table.specs.declared.block.Cell.{Cell};
ghost use Rattle.parity_writer.specs.Sound.{Sound, Closed};
ghost use Rattle.array_setup.specs.Setup.{SetupValue};
ghost use Rattle.snap_fix.specs.Ending.{Finishes};
ghost use Rattle.stripe_examiner.specs.Facts.{StripeFacts};
ghost use Rattle.snap_fix.specs.Genuine.{IsIntactLevel, held_row};
ghost use Rattle.stripe_examiner.specs.Known.{whole_level};
ghost use Rattle.repair_scope.specs.declared.scope.Mode.{Mode};
ghost use Rattle.repair_scope.specs.declared.scope.Mode.TheVariants as modes;
ghost use Rattle.snap_fix.specs.Mended.{Mended, has_lost};
ghost use Rattle.snap_fix.specs.Restored.{HoldsCell};
ghost use Rattle.snap_sync.specs.Part.{IsFullSync, SyncRun};
ghost use Rattle.snap_sync.specs.Resumed.{EndsAs};
ghost use Rattle.snap_sync.specs.Soundness.{AreSound};
ghost use Rattle.snap_config.specs.declared.options.Command.{Command};
ghost use Rattle.snap_top.specs.Alike.{AskAlike, CheckAlike, FindAlike, FixAlike, FixFindsAlike, HoldAlike, ReadAlike, SeenAlike, seen_by};
ghost use Rattle.snap_top.specs.Unbroken.{NothingRose};
ghost use Rattle.snap_top.specs.Check.{CheckRun};
ghost use Rattle.snap_top.specs.Fix.{FixRun};
ghost use Rattle.snap_top.specs.FixedAlike.{FixesAlike, KeepStampsAlike};
ghost use Rattle.snap_top.specs.Headline.{Headline};
ghost use Rattle.snap_top.specs.History.{IsHistory as IsHistoryOfRuns, StaysSound, Step};
ghost use Rattle.snap_top.specs.LastSynced.{AreSoundBy, LastSynced};
ghost use Rattle.snap_top.specs.LeftAlike.{AskSame, PrintAlike, ScrubsAlike, SyncsAlike};
ghost use Rattle.snap_top.specs.Moment.{IsSoundAlways};
ghost use Rattle.snap_top.specs.Effect.{effect};
ghost use Rattle.snap_top.specs.InPart.{EndsInPart};
ghost use Rattle.snap_top.specs.Began.{IsFixOf};
ghost use Rattle.snap_top.specs.Stands.{TellsAll};
ghost use Rattle.snap_top.specs.Naming.{HasChecked};
ghost use Rattle.snap_top.specs.NextFix.{IsNextFix};
ghost use Rattle.snap_top.specs.Printing.{EndsPrinted};
ghost use Rattle.snap_top.specs.Restoring.{EndsFixed, Restores};
ghost use Rattle.snap_top.specs.Resumed.{AreStoppedRuns, EndsClean, AreStopped, IsOfArray, Stop, SyncsFrom};
ghost use Rattle.snap_top.specs.RunOf.{end_of, entry_of, RunOf, StoppedRun};
ghost use Rattle.snap_top.specs.Scrubbed.{EndsScrubbed};
ghost use Rattle.snap_top.specs.Spared.{SparesCells};
ghost use Rattle.snap_top.specs.Standing.{BeginsOver, GoesOver, IsHistory, IsOrigin, Stage, Standing, after_of, before_of};
ghost use Rattle.snap_top.specs.Stopping.{FindsNoLess, FolderStandsIn, SparesFiles, stop_of};
ghost use Rattle.snap_top.specs.Sync.{EndAlike};
ghost use Rattle.snap_top.specs.Taken.{OnlyTakenAway};
ghost use Rattle.snap_top.specs.Did.{Did, syncs};
ghost use Rattle.snap_top.specs.Undamaged.{HasEnough, IsRecoverable, IsUndamaged};
ghost use Rattle.snap_top.specs.Views.{folder_at};

use content_file::laws::one_table_has_a_spelling;
use disk_model::{Folder, Opener, Sink, Vault};
use file_table::laws::a_cell_stands_at_its_position;
use gf256::laws::products;
use parity_writer::laws::{
    a_row_has_the_cells_that_close_it, a_whole_level_is_what_the_file_holds,
    rows_of_the_same_bytes_have_the_same_levels,
};
use snap_fix::laws::{
    a_check_finds_what_a_fix_finds, a_fix_finishes_files, a_fix_keeps_what_is_sound,
    a_fix_leaves_the_rest, a_stop_within_a_fix_changes_written_blocks_alone,
    a_stopped_fix_misses_no_more, a_stripe_is_restorable_by_counting,
};
use snap_scrub::laws::a_scrub_keeps_what_is_synced;
use snap_sync::laws::{
    a_moment_is_sound_with_its_rows, a_stopped_sync_is_resumed, a_sync_is_a_part_sync,
    every_moment_is_sound, there_is_a_full_sync, what_a_sync_saves_is_valid,
};
use stripe_examiner::laws::what_is_read_determines_what_is_found;

/// Syncs by one configuration and over the same trees are stopped one after another, each at any moment; the copies of
/// the vault were sound before the first of them, and no copy's reading failed. Then the full sync of what the last stop
/// left ends as the full sync of what there was before the first: with the same table but for the times of the last
/// checks, and the same parity but for what was changed from outside. `whole` is the sync that was not stopped, and `last`
/// the one over what was left. What is said of them `run` says of its sync: of each moment in its clause `sound`, and that
/// it is the full sync where its status is 0 in its clause `synced`.
pub fn stopped_syncs_are_resumed()
    ensures { (setup : SetupValue) (trees : List Tree) (seed : List ℕ) (copies : ℕ) (stops : List Stop)
        (files left : Files) (whole last : SyncRun) (snapshot : Closed) (is_changed : ℕ → ℕ → Bool) (now again : ℕ)
        (table other_table : TableValue) (one other : Files) →
        SyncsFrom seed copies files whole → IsOfArray setup trees whole → AreSound copies files snapshot is_changed →
        AreStopped setup trees seed copies stops files left →
        SyncsFrom seed copies left last → IsOfArray setup trees last →
        IsFullSync setup whole.loaded trees now files table one →
        IsFullSync setup last.loaded trees again left other_table other →
        EndsAs whole.plan.start is_changed table other_table one other }
{
    one_table_has_a_spelling();
    a_sync_is_a_part_sync();
    what_a_sync_saves_is_valid();
    every_moment_is_sound();
    there_is_a_full_sync();
    a_stopped_sync_is_resumed();
}

/// The same of runs, by what `run` says of each of them. Syncs by one configuration and over the same trees were stopped
/// one after another, or ended with whatever status, and `last` after them ended with status 0. Runs of commands that
/// change nothing, `list`, `status`, `dup` and `check`, may stand between. `whole` is a sync of what there was before
/// the first of them, which ended with status 0. No reading of a copy failed while a sync loaded its table. Then both
/// left the same table in every copy, but for the times of the last checks, and the same parity, but for what was
/// changed from outside.
pub fn stopped_runs_are_resumed<O: Opener, F: Folder, V: Vault, W: Sink>()
    ensures { (setup : SetupValue) (trees : List Tree) (seed : List ℕ) (stops : List (StoppedRun O F V W))
        (files left one other : Files) (whole last : RunOf O F V W) (snapshot : Closed) (is_changed : ℕ → ℕ → Bool) →
        EndsClean O.view F.view V.view W.view setup trees seed files whole one →
        AreSound (length setup.contents) files snapshot is_changed →
        AreStoppedRuns O.view F.view V.view W.view setup trees seed stops files left →
        EndsClean O.view F.view V.view W.view setup trees seed left last other →
        EndAlike (length setup.contents) is_changed one other }
{
    stopped_syncs_are_resumed();
    there_is_a_full_sync();
}

/// A history: runs of any commands, one after another over one vault, each of which ended or was stopped at some
/// moment, and changes of parity and copies from outside in between. Where the copies were sound before the first of
/// them, they are sound after each: with the rows of the stripes that syncs have closed by then in the snapshot, as
/// long as no fix met a recorded hash by chance, and all content files had blocks of its size. In what a sync left at
/// its end these are all that it closed, and each copy spells its table; with status 0 it closed all that were pending.
/// Where it was stopped, it is open how many of them are. And each fix that went to its end, and met no hash by chance,
/// restores the blocks of the snapshot of its time, where they are of bytes. Rows of bytes stay so. What is said of each
/// run `run` says of it: of its moments and of the end of a sync in its clause `sound`, of a fix in its clause `fixed`.
pub fn copies_stay_sound<O: Opener, F: Folder, V: Vault, W: Sink>()
    ensures { (copies : ℕ) (steps : List (Step O F V W)) (files : Files) (last : LastSynced) →
        IsHistoryOfRuns O.view F.view V.view W.view copies steps files → AreSoundBy copies files last →
        StaysSound O.view F.view V.view W.view copies steps files last }
{}

/// Wherever the fix of a run is stopped, also within a write, the file that stood in the place of a record stands under one
/// of its names with all bytes that it had, but in blocks that the fix writes, and behind the recorded end where no block
/// is lost. So the block of a cell that is not damaged, not selected, lost or of a blocked record keeps all bytes that it had
/// there. The files of records that are blocked or not selected stay, and so do all that are no record's. Names, sizes and
/// stamps of these files may have changed. The next fix that goes to its end restores the blocks of the same snapshot
/// (`copies_stay_sound`): those of each stripe that has enough undamaged levels then (`undamaged_levels_restore`). It has
/// enough if the first one had: the next one misses no other cell and reads each level again, where no count of faults rises
/// in it (`misses`, `again`). `run` says of a fix which calls it made of its folders, in its clauses `sound` and `fixed`.
pub fn a_stopped_fix_spares_and_is_resumed<O: Opener, F: Folder, V: Vault, W: Sink>()
    ensures spares { (run : RunOf O F V W) (fix : FixRun) (d : ℕ) (left : Tree) →
        IsFixOf (entry_of O.view W.view run) (end_of O.view F.view V.view W.view run) fix →
        FolderStandsIn (entry_of O.view W.view run) (end_of O.view F.view V.view W.view run) d left →
        SparesFiles (stop_of fix d (folder_held (entry_of O.view W.view run).opener d).tree left) }
    ensures cells { (run : RunOf O F V W) (fix : FixRun) (d : ℕ) (left : Tree) →
        IsFixOf (entry_of O.view W.view run) (end_of O.view F.view V.view W.view run) fix →
        FolderStandsIn (entry_of O.view W.view run) (end_of O.view F.view V.view W.view run) d left →
        SparesCells fix d (folder_held (entry_of O.view W.view run).opener d).tree left }
    // The next one, from the same table and over what the first one left, misses no other cell and reads each level again, where
    // no count of faults rises in it.
    ensures misses { (run again : RunOf O F V W) (fix : FixRun)
        (ends : EndsFixed (entry_of O.view W.view again) (end_of O.view F.view V.view W.view again) again.status)
        (mended mended_again : Mended) →
        IsFixOf (entry_of O.view W.view run) (end_of O.view F.view V.view W.view run) fix →
        IsNextFix (entry_of O.view W.view run) (end_of O.view F.view V.view W.view run) fix
        (entry_of O.view W.view again) (end_of O.view F.view V.view W.view again) ends.run →
        Contains fix.stripes mended → Contains ends.run.stripes mended_again →
        mended_again.facts.stripe ≡ mended.facts.stripe → FindsNoLess fix ends.run mended mended_again }
    ensures again { (first again : FixRun) (is_changed : ℕ → ℕ → Bool) (mended mended_again : Mended) →
        FindsNoLess first again mended mended_again →
        HasEnough first is_changed mended.facts → HasEnough again is_changed mended_again.facts }
{
    a_stop_within_a_fix_changes_written_blocks_alone();
    a_stopped_fix_misses_no_more();
}

/// A level is undamaged where it was read, and was not changed from outside since its stripe was last synced. Where the
/// table was sound, such a level is whole and intact. So a fix that went to its end from a sound table, and met no recorded
/// hash by chance, restores the block of each selected damaged cell of a stripe that was synced, where no more of its cells
/// are missing than levels are undamaged, unless its record is blocked.
pub fn undamaged_levels_restore<O: Opener, F: Folder, V: Vault, W: Sink>()
    ensures intact { (run : RunOf O F V W) (fix : FixRun) (snapshot : Closed) (is_changed : ℕ → ℕ → Bool)
        (facts : StripeFacts) (r : ℕ) →
        IsFixOf (entry_of O.view W.view run) (end_of O.view F.view V.view W.view run) fix →
        IsTrue (entry_of O.view W.view run).opener.vault.tells →
        Sound fix.loaded (entry_of O.view W.view run).opener.vault.files snapshot is_changed →
        IsUndamaged fix is_changed facts r →
        (whole_level facts.levels r ≡ true)
        × IsIntactLevel fix.plan facts (held_row fix.plan.table snapshot facts.stripe) r }
    ensures restored { (run : RunOf O F V W) (fix : FixRun) (finishes : Finishes) (snapshot : Closed)
        (is_changed : ℕ → ℕ → Bool) (facts : StripeFacts) (d : ℕ) (cell : Cell) →
        IsFixOf (entry_of O.view W.view run) (end_of O.view F.view V.view W.view run) fix →
        IsTrue (entry_of O.view W.view run).opener.vault.tells →
        Sound fix.loaded (entry_of O.view W.view run).opener.vault.files snapshot is_changed →
        Restores fix finishes snapshot → IsRecoverable fix snapshot is_changed facts d cell →
        HoldsCell fix.plan.table d cell (has_lost fix.plan fix.stripes d cell.rec)
        (byte_of (held_row fix.plan.table snapshot facts.stripe) d) (folder_at fix.ended d).tree }
{
    a_whole_level_is_what_the_file_holds();
}

/// What a check or an audit read determines what it finds. So two of them that read the same of one array find the same, and
/// a fix that reads what a check read finds what that found, and tells besides what it did. `run` says what each of them read
/// and found, in its clauses `checked` and `fixed`.
pub fn what_is_read_alike_is_found_alike<O: Opener, F: Folder, V: Vault, W: Sink>()
    ensures checks { (mode : Mode) (run again : RunOf O F V W) (one other : CheckRun) →
        HasChecked mode (entry_of O.view W.view run) (end_of O.view F.view V.view W.view run) run.status one →
        HasChecked mode (entry_of O.view W.view again) (end_of O.view F.view V.view W.view again) again.status other →
        ReadAlike one other → FindAlike one other }
    ensures fix { (run again : RunOf O F V W) (one : CheckRun)
        (ends : EndsFixed (entry_of O.view W.view again) (end_of O.view F.view V.view W.view again) again.status) →
        HasChecked modes.Check (entry_of O.view W.view run) (end_of O.view F.view V.view W.view run) run.status one →
        TellsAll (entry_of O.view W.view again) → ReadAlike one (seen_by ends.run) →
        FixFindsAlike one ends.run ends.finishes }
{
    what_is_read_determines_what_is_found();
    a_check_finds_what_a_fix_finds();
}

/// Two checks or audits over one array, or a check and a fix, find the same: where they were asked for the same, their
/// openers tell all and hold the same, and no count of faults of a folder or of the vault rose in them. So two checks
/// print the same and have the same status, where the output of neither failed. What of a file's size and stamp a fix saw
/// may be later: no finding depends on that. Two lists, of files or of duplicates, print the same, too, and so do two
/// runs that ask for the status.
pub fn one_array_is_found_alike<O: Opener, F: Folder, V: Vault, W: Sink>()
    ensures checks { (mode : Mode) (run again : RunOf O F V W) (one other : CheckRun) →
        HoldAlike (entry_of O.view W.view run) (entry_of O.view W.view again) →
        AskAlike mode mode (entry_of O.view W.view run) (entry_of O.view W.view again) →
        NothingRose (entry_of O.view W.view run) (end_of O.view F.view V.view W.view run) →
        NothingRose (entry_of O.view W.view again) (end_of O.view F.view V.view W.view again) →
        HasChecked mode (entry_of O.view W.view run) (end_of O.view F.view V.view W.view run) run.status one →
        HasChecked mode (entry_of O.view W.view again) (end_of O.view F.view V.view W.view again) again.status other →
        CheckAlike one other run.status again.status }
    ensures fix { (run again : RunOf O F V W) (one : CheckRun)
        (ends : EndsFixed (entry_of O.view W.view again) (end_of O.view F.view V.view W.view again) again.status) →
        HoldAlike (entry_of O.view W.view run) (entry_of O.view W.view again) →
        AskAlike modes.Check modes.Fix (entry_of O.view W.view run) (entry_of O.view W.view again) →
        NothingRose (entry_of O.view W.view run) (end_of O.view F.view V.view W.view run) →
        NothingRose (entry_of O.view W.view again) (end_of O.view F.view V.view W.view again) →
        HasChecked modes.Check (entry_of O.view W.view run) (end_of O.view F.view V.view W.view run) run.status one →
        FixAlike one ends.run ends.finishes }
    ensures prints { (command : Command) (text : TableValue → List ℕ) (counted : TableValue → ℕ) (run again : RunOf O F V W)
        (one : EndsPrinted command text counted (entry_of O.view W.view run) (end_of O.view F.view V.view W.view run) run.status)
        (other : EndsPrinted command text counted (entry_of O.view W.view again) (end_of O.view F.view V.view W.view again) again.status) →
        HoldAlike (entry_of O.view W.view run) (entry_of O.view W.view again) →
        AskSame (entry_of O.view W.view run) (entry_of O.view W.view again) →
        NothingRose (entry_of O.view W.view run) (end_of O.view F.view V.view W.view run) →
        NothingRose (entry_of O.view W.view again) (end_of O.view F.view V.view W.view again) →
        (one.table ≡ other.table) × PrintAlike (entry_of O.view W.view run) (entry_of O.view W.view again)
        (end_of O.view F.view V.view W.view run) (end_of O.view F.view V.view W.view again) run.status again.status }
{
    one_table_has_a_spelling();
    what_is_read_determines_what_is_found();
    a_check_finds_what_a_fix_finds();
}

/// Two syncs of one array leave the same, and so do two scrubs that began at one moment, and two fixes: where they were asked for the
/// same, their openers tell all and hold the same, and no count of faults of a folder or of the vault rose in them. They begin with
/// the same table and read the same. Two syncs end with the same parity and the same table, but for the times of the last checks where
/// their moments differ. Two fixes leave the same bytes in all folders and in the vault, where their folders keep the same stamps; and
/// the same stamps, but those of finished files with a lost block, and of those whose recorded stamp their folder does not keep.
/// They print the same, and have the same status where the output of neither failed; the number of readers may differ.
pub fn one_array_is_left_alike<O: Opener, F: Folder, V: Vault, W: Sink>()
    ensures syncs { (run again : RunOf O F V W)
        (one : EndsInPart (entry_of O.view W.view run) (end_of O.view F.view V.view W.view run) run.status)
        (other : EndsInPart (entry_of O.view W.view again) (end_of O.view F.view V.view W.view again) again.status) →
        HoldAlike (entry_of O.view W.view run) (entry_of O.view W.view again) →
        AskSame (entry_of O.view W.view run) (entry_of O.view W.view again) →
        NothingRose (entry_of O.view W.view run) (end_of O.view F.view V.view W.view run) →
        NothingRose (entry_of O.view W.view again) (end_of O.view F.view V.view W.view again) →
        SyncsAlike one.run other.run (end_of O.view F.view V.view W.view run) (end_of O.view F.view V.view W.view again)
        × PrintAlike (entry_of O.view W.view run) (entry_of O.view W.view again)
        (end_of O.view F.view V.view W.view run) (end_of O.view F.view V.view W.view again) run.status again.status }
    ensures scrubs { (run again : RunOf O F V W)
        (one : EndsScrubbed (entry_of O.view W.view run) (end_of O.view F.view V.view W.view run) run.status)
        (other : EndsScrubbed (entry_of O.view W.view again) (end_of O.view F.view V.view W.view again) again.status) →
        HoldAlike (entry_of O.view W.view run) (entry_of O.view W.view again) →
        AskSame (entry_of O.view W.view run) (entry_of O.view W.view again) → run.moment ≡ again.moment →
        NothingRose (entry_of O.view W.view run) (end_of O.view F.view V.view W.view run) →
        NothingRose (entry_of O.view W.view again) (end_of O.view F.view V.view W.view again) →
        ScrubsAlike one.run other.run (end_of O.view F.view V.view W.view run) (end_of O.view F.view V.view W.view again)
        × PrintAlike (entry_of O.view W.view run) (entry_of O.view W.view again)
        (end_of O.view F.view V.view W.view run) (end_of O.view F.view V.view W.view again) run.status again.status }
    ensures fixes { (run again : RunOf O F V W)
        (one : EndsFixed (entry_of O.view W.view run) (end_of O.view F.view V.view W.view run) run.status)
        (other : EndsFixed (entry_of O.view W.view again) (end_of O.view F.view V.view W.view again) again.status) →
        HoldAlike (entry_of O.view W.view run) (entry_of O.view W.view again) →
        AskSame (entry_of O.view W.view run) (entry_of O.view W.view again) →
        KeepStampsAlike (entry_of O.view W.view run) (entry_of O.view W.view again) →
        NothingRose (entry_of O.view W.view run) (end_of O.view F.view V.view W.view run) →
        NothingRose (entry_of O.view W.view again) (end_of O.view F.view V.view W.view again) →
        FixesAlike one.run other.run one.finishes other.finishes
        (end_of O.view F.view V.view W.view run) (end_of O.view F.view V.view W.view again)
        × PrintAlike (entry_of O.view W.view run) (entry_of O.view W.view again)
        (end_of O.view F.view V.view W.view run) (end_of O.view F.view V.view W.view again) run.status again.status }
{
    one_table_has_a_spelling();
    what_is_read_determines_what_is_found();
    a_fix_leaves_the_rest();
    a_fix_finishes_files();
}

/// What is read determines what is left, whatever readings failed. Two syncs, or two scrubs that began at one moment, leave and print
/// the same over one array, where they began with the same table and read the same. So do two fixes that were asked for the same of
/// disks with the same names, and listed the same, where their folders keep the same stamps. Of fixes it is enough that the same
/// blocks came, whatever sizes and times were seen of the files.
pub fn what_is_read_alike_is_left_alike<O: Opener, F: Folder, V: Vault, W: Sink>()
    ensures syncs { (run again : RunOf O F V W)
        (one : EndsInPart (entry_of O.view W.view run) (end_of O.view F.view V.view W.view run) run.status)
        (other : EndsInPart (entry_of O.view W.view again) (end_of O.view F.view V.view W.view again) again.status) →
        HoldAlike (entry_of O.view W.view run) (entry_of O.view W.view again) → one.run.loaded ≡ other.run.loaded →
        one.run.plan.start ≡ other.run.plan.start → one.run.readings ≡ other.run.readings →
        SyncsAlike one.run other.run (end_of O.view F.view V.view W.view run) (end_of O.view F.view V.view W.view again)
        × PrintAlike (entry_of O.view W.view run) (entry_of O.view W.view again)
        (end_of O.view F.view V.view W.view run) (end_of O.view F.view V.view W.view again) run.status again.status }
    ensures scrubs { (run again : RunOf O F V W)
        (one : EndsScrubbed (entry_of O.view W.view run) (end_of O.view F.view V.view W.view run) run.status)
        (other : EndsScrubbed (entry_of O.view W.view again) (end_of O.view F.view V.view W.view again) again.status) →
        HoldAlike (entry_of O.view W.view run) (entry_of O.view W.view again) → run.moment ≡ again.moment →
        one.run.loaded ≡ other.run.loaded → one.run.readings ≡ other.run.readings →
        ScrubsAlike one.run other.run (end_of O.view F.view V.view W.view run) (end_of O.view F.view V.view W.view again)
        × PrintAlike (entry_of O.view W.view run) (entry_of O.view W.view again)
        (end_of O.view F.view V.view W.view run) (end_of O.view F.view V.view W.view again) run.status again.status }
    ensures fixes { (run again : RunOf O F V W)
        (one : EndsFixed (entry_of O.view W.view run) (end_of O.view F.view V.view W.view run) run.status)
        (other : EndsFixed (entry_of O.view W.view again) (end_of O.view F.view V.view W.view again) again.status) →
        HoldAlike (entry_of O.view W.view run) (entry_of O.view W.view again) →
        KeepStampsAlike (entry_of O.view W.view run) (entry_of O.view W.view again) →
        SeenAlike (seen_by one.run) (seen_by other.run) → FixesAlike one.run other.run one.finishes other.finishes
        (end_of O.view F.view V.view W.view run) (end_of O.view F.view V.view W.view again)
        × PrintAlike (entry_of O.view W.view run) (entry_of O.view W.view again)
        (end_of O.view F.view V.view W.view run) (end_of O.view F.view V.view W.view again) run.status again.status }
{
    what_is_read_determines_what_is_found();
    a_fix_leaves_the_rest();
    a_fix_finishes_files();
}

/// That no reading of a copy failed while a run loaded its table can be known from outside. None did where none failed in
/// the whole run. Nor did one where a sync broke off, and the vault's count of faults rose by one at most: that was the call
/// that broke it off. So over levels of several files, of which no call is told, such a sync is resumed too.
pub fn what_a_run_loaded_is_known<O: Opener, F: Folder, V: Vault, W: Sink>()
    ensures none { (run : RunOf O F V W)
        (always : IsSoundAlways (entry_of O.view W.view run) (end_of O.view F.view V.view W.view run) run.status) →
        ((copy : ℕ) → ¬ (HasFailed (entry_of O.view W.view run).opener.vault
        (end_of O.view F.view V.view W.view run).after.vault copy)) →
        (effect always.did).loads_well (entry_of O.view W.view run) (end_of O.view F.view V.view W.view run) always.is_did }
    ensures once { (run : RunOf O F V W)
        (always : IsSoundAlways (entry_of O.view W.view run) (end_of O.view F.view V.view W.view run) run.status)
        (sync : SyncRun) → always.did ≡ syncs true sync →
        ¬ (RoseBy 2 (entry_of O.view W.view run).opener.vault.faults
        (end_of O.view F.view V.view W.view run).after.vault.faults) →
        (effect always.did).loads_well (entry_of O.view W.view run) (end_of O.view F.view V.view W.view run) always.is_did }
{}

/// The headline. Whatever happened to an array since it had no content, by runs of any commands, each of which ended or was
/// stopped at some moment, by edits, by damage to the vault and by other configurations: what stands then is sound; a sync
/// that ends with status 0 after stopped ones leaves what one leaves that was never stopped; what was last synced after a sync
/// that went to its end is what it read; and a fix that goes to its end restores the blocks that were last synced of each
/// stripe in which no more are missing than levels are intact, unless their record is blocked, and names those of stripes in
/// which more are missing. It finishes each selected file that isn't blocked: that stands under PATH with its recorded size
/// and, where the folder keeps that, its recorded stamp; or, with a lost block, under PATH`.unrecoverable`, or nowhere if
/// it was nowhere and nothing of it was restored. A fix that is stopped spares the cells, files and levels
/// that it leaves alone. The next one from the same table has enough undamaged levels for each stripe that both look at, if
/// the first one had. A check that goes to its end names what is lost. Copies are as they were, or spell a table of the run.
/// Refused runs, and commands that change nothing, leave what stands; so runs that fixed nothing leave the trees, and one that
/// opened nothing leaves all to its opener. Whatever runs next goes over what stands, and at its end what it left stands. Of
/// each fix this supposes that it met no block that has a recorded hash by chance.
pub fn headline<O: Opener, F: Folder, V: Vault, W: Sink>()
    ensures { (first standing : Standing) (stages : List (Stage O F V W)) → IsOrigin first →
        IsHistory O.view F.view V.view W.view first stages standing → Headline O.view F.view V.view W.view standing }
{
    stopped_syncs_are_resumed();
    there_is_a_full_sync();
    a_moment_is_sound_with_its_rows();
    one_table_has_a_spelling();
    a_sync_is_a_part_sync();
    what_a_sync_saves_is_valid();
    a_scrub_keeps_what_is_synced();
    a_whole_level_is_what_the_file_holds();
    a_stopped_sync_is_resumed();
    a_fix_keeps_what_is_sound();
    a_check_finds_what_a_fix_finds();
    a_fix_finishes_files();
    a_stop_within_a_fix_changes_written_blocks_alone();
    a_stopped_fix_misses_no_more();
}

/// The premise of the headline on hashes is met where an array without content was run over once, wherever that run was
/// stopped, and then files were only taken away, each only where none stands under PATH`.unrecoverable` then. A fix of what
/// stands then meets no block that has a recorded hash by chance: each block that it reads whole is the one that the sync
/// read, and each level that it reads whole is a sum of these.
pub fn a_fix_of_what_is_left_meets_no_chance<O: Opener, F: Folder, V: Vault, W: Sink>()
    ensures { (once fix : RunOf O F V W) (first next : Standing) (trees : List Tree) (did : Did) → IsOrigin first →
        GoesOver O.view F.view V.view W.view once first next → OnlyTakenAway next.trees trees →
        BeginsOver (record next { trees = trees }) (before_of O.view F.view V.view W.view fix) →
        (effect did).is_of (before_of O.view F.view V.view W.view fix) (after_of O.view F.view V.view W.view fix) →
        (effect did).meets_no_chance next.last.snapshot }
{
    headline::<O, F, V, W>();
    undamaged_levels_restore::<O, F, V, W>();
    a_stripe_is_restorable_by_counting();
    a_stop_within_a_fix_changes_written_blocks_alone();
    one_table_has_a_spelling();
    what_a_sync_saves_is_valid();
    a_cell_stands_at_its_position();
    a_row_has_the_cells_that_close_it();
    rows_of_the_same_bytes_have_the_same_levels();
    products();
}
