//! What follows of a search for lost blocks, and of a fix that is stopped. The calls do nothing: their contracts are laws.

ghost use Rattle.std.specs.Prelude.{◌≡◌, ◌↔◌, ℕ, ◌+◌, ◌*◌, ◌<◌, ◌≤◌, Bool, true, false, List, [], length, slice_index, slice_index_or, All, count_by, Contains, is_some, None, Some, IsTrue, filter, get_or};
ghost use Rattle.folder_listing.specs.Kept.{ListedFile};
ghost use Rattle.cauchy.specs.Matrix.{byte_of, parity_byte};
ghost use Rattle.cauchy.specs.Recovery.{AreBytes, others_sum};
ghost use Rattle.cauchy.specs.System.{AreDistinctBelow};
ghost use Rattle.disk_model.specs.Files.{Files, parity_of};
ghost use Rattle.disk_model.specs.Folder.{FolderView};
ghost use Rattle.disk_model.specs.Tree.{file_of, path_of, Tree, File, listing_of};
ghost use Rattle.file_table.specs.Table.{TableValue, record_at, records_in};
ghost use Rattle.file_table.specs.declared.block.Cell.{Cell};
ghost use Rattle.parity_writer.specs.Keeps.{HasByte};
ghost use Rattle.parity_writer.specs.Parity.{HasLevel, Row};
ghost use Rattle.parity_writer.specs.Sound.{Closed, Sound, across};
ghost use Rattle.array_setup.specs.declared.ways.Selection.{Selection};
ghost use Rattle.snap_report.specs.Kind.{is_finding};
ghost use Rattle.snap_report.specs.declared.events.Event.TheVariants as event;
ghost use Rattle.stripe_reader.specs.Columns.{folder_at};
ghost use Rattle.stripe_reader.specs.Reading.{block_length};
ghost use Rattle.stripe_reader.specs.Starts.{StartsValue};
ghost use Rattle.file_restorer.specs.declared.finishing.Finish.{Finish};
ghost use Rattle.repair_scope.specs.declared.scope.Mode.TheVariants as mode;
ghost use Rattle.snap_fix.specs.Again.{IsFoundAgain, IsFoundIn, IsLookedAt};
ghost use Rattle.snap_fix.specs.Audited.{FindsNothing};
ghost use Rattle.snap_fix.specs.Course.{IsPlan, check_events};
ghost use Rattle.snap_fix.specs.Ending.{is_finished};
ghost use Rattle.stripe_examiner.specs.Facts.{StripeFacts, damaged_at, gift_of};
ghost use Rattle.stripe_examiner.specs.Findings.{is_lost};
ghost use Rattle.snap_fix.specs.FixCourse.{fix_events};
ghost use Rattle.snap_fix.specs.Fixing.{facts_of};
ghost use Rattle.snap_fix.specs.Found.{AreAllWritten, DifferInMode, IsNoneGone};
ghost use Rattle.snap_fix.specs.Genuine.{AreGenuineOf, HasGenuineFacts, IsBlockIn, IsRestorableStripe, IsSameRow, TellsIntactLevels, held_row};
ghost use Rattle.stripe_examiner.specs.Known.{AreFacts};
ghost use Rattle.snap_fix.specs.Mended.{Mended, has_lost, is_repaired, is_wrong_level};
ghost use Rattle.stripe_examiner.specs.Showing.{block_or_none, known_block};
ghost use Rattle.repair_scope.specs.Plan.{FixPlan, entry_at, is_audit, is_searched, is_synced, stripes_of};
ghost use Rattle.stripe_examiner.specs.Place.{starts_of};
ghost use Rattle.stripe_examiner.specs.Restorable.{Accepts, AreBlocksOf, CanAccept, CandidatesAreGenuine, Follows, IsIntact, IsKnownBeside, IsLost, IsOneOf, IsRestorable, IsSnapshotOf, LostStripe, SearchFinds, SearchFindsNone, SomeAccepted, TellsIntact, row_with};
ghost use Rattle.snap_fix.specs.Restored.{CanBeHad, HasFinished, HasFixed, HasFixedRecord, HoldsCell, IsDamagedCell, IsNotWritten, IsUnknownCell, LosesGenuine, RestoresGenuine, StandsFinished};
ghost use Rattle.stripe_examiner.specs.Search.{IsRightBlock, wanted_at};
ghost use Rattle.file_restorer.specs.State.{IsNameOf, bytes_placed, record_path};
ghost use Rattle.snap_fix.specs.Stopped.{FixStop, IsCellSpared, IsNoneOf, IsStop, StandInPlace, StandsInCell, StandsSpared, file_placed, path_at, records_of};
ghost use Rattle.snap_fix.specs.Underway.{HoldsWrong, IsMendedLevel, KeepsLevels};
ghost use Rattle.snap_fix.specs.Windows.{AreWindows, FixWindow, cut_of};
ghost use Rattle.parity_writer.specs.LevelReading.{LevelReading};

use cauchy::laws::one_solution;
use disk_model::laws::a_file_that_no_call_names_stays;
use gf256::laws::products;
use parity_writer::laws::{
    a_row_has_the_cells_that_close_it, rows_of_the_same_bytes_have_the_same_levels,
};

/// The row with accepted blocks in its lost columns has the levels that they follow from. It is as it was in all other
/// columns, and in these it has the blocks, with their recorded hashes.
pub fn accepted_blocks_complete_the_row()
    ensures levels { (lost : LostStripe) (choice blocks : List ℕ) → IsLost lost →
        IsOneOf lost choice → Accepts lost choice blocks →
        All (IsIntact lost (row_with lost blocks)) choice }
    ensures others { (lost : LostStripe) (blocks : List ℕ) → IsLost lost →
        IsKnownBeside lost (row_with lost blocks) }
    ensures right { (lost : LostStripe) (choice blocks : List ℕ) → IsLost lost →
        IsOneOf lost choice → Accepts lost choice blocks →
        All (λ one. one.length ≤ lost.shape.block_size) lost.wanteds →
        (j : ℕ) → j < length lost.wanteds → IsRightBlock lost.shape (wanted_at lost.wanteds j)
        (slice_index_or (row_with lost blocks) (wanted_at lost.wanteds j).column []) }
    // So has any row with these bytes: its blocks may have zeros behind them.
    ensures same { (lost : LostStripe) (choice blocks : List ℕ) (row : Row) → IsLost lost →
        IsOneOf lost choice → Follows lost choice blocks → IsKnownBeside lost row →
        AreBlocksOf lost row blocks → All (IsIntact lost row) choice }
{}

/// Where a row has no bytes in some columns, the sums of all other columns are its levels.
pub fn an_empty_column_adds_nothing()
    ensures { (level : ℕ) (columns : List ℕ) (row : Row) (p : ℕ) →
        AreDistinctBelow (length row) columns →
        ((j : ℕ) → j < length columns → byte_of row (slice_index columns j) p ≡ 0) →
        parity_byte level row p ≡ others_sum level columns row p }
{
    products();
}

/// The blocks that follow from a choice of levels are the snapshot's exactly where these levels are intact. Where no
/// block has a recorded hash by chance, the choice is accepted exactly there. So some choice is accepted exactly where
/// at least as many levels are intact as blocks are lost: the search tries choices, and this counts.
pub fn a_stripe_is_restorable_by_counting()
    ensures levels { (lost : LostStripe) (snapshot : Row) (choice blocks : List ℕ) →
        IsLost lost → IsSnapshotOf lost snapshot → IsOneOf lost choice → Follows lost choice blocks →
        (AreBlocksOf lost snapshot blocks ↔ All (IsIntact lost snapshot) choice) }
    ensures blocks { (lost : LostStripe) (snapshot : Row) (choice blocks : List ℕ) →
        IsLost lost → IsSnapshotOf lost snapshot → CandidatesAreGenuine lost snapshot →
        IsOneOf lost choice → Follows lost choice blocks →
        (Accepts lost choice blocks ↔ AreBlocksOf lost snapshot blocks) }
    ensures intact { (lost : LostStripe) (snapshot : Row) (choice : List ℕ) →
        IsLost lost → IsSnapshotOf lost snapshot → CandidatesAreGenuine lost snapshot →
        IsOneOf lost choice → (CanAccept lost choice ↔ All (IsIntact lost snapshot) choice) }
    ensures counted { (lost : LostStripe) (snapshot : Row) (is_intact : ℕ → Bool) →
        IsLost lost → IsSnapshotOf lost snapshot → CandidatesAreGenuine lost snapshot →
        TellsIntact lost snapshot is_intact → (SomeAccepted lost ↔ IsRestorable lost is_intact) }
    // So the search ends accordingly.
    ensures found { (lost : LostStripe) (snapshot : Row) (is_intact : ℕ → Bool)
        (blocks : List ℕ) → IsLost lost → IsSnapshotOf lost snapshot →
        CandidatesAreGenuine lost snapshot → TellsIntact lost snapshot is_intact →
        SearchFinds lost blocks →
        IsRestorable lost is_intact × AreBlocksOf lost snapshot blocks }
    ensures none { (lost : LostStripe) (snapshot : Row) (is_intact : ℕ → Bool) →
        IsLost lost → IsSnapshotOf lost snapshot → TellsIntact lost snapshot is_intact →
        SearchFindsNone lost → IsRestorable lost is_intact → ⊥ }
{
    one_solution();
}

/// Wherever a fix is stopped or breaks off, the file that stood in the place of a record stands there, under one of its names,
/// with all bytes that it had, but in blocks that are written, and behind the recorded end where no block is lost. The
/// files of records that are blocked or not selected stay, and so do all that are no record's. This is of all calls of a
/// run, the listing included, wherever it is stopped: a stop after some of the calls is among what all of them may leave
/// (`disk_model::laws::a_folder_stands_among_what_a_stop_may_leave`, clause `later`).
pub fn a_stop_within_a_fix_changes_written_blocks_alone()
    ensures bytes { (stop : FixStop) (i : ℕ) (file : File) → IsStop stop → i < length (records_of stop) →
        file_placed stop.first (path_at stop i) ≡ Some file → StandsSpared stop i file }
    // So has it all bytes of a cell that is not selected, not damaged, not known, or of a blocked file.
    ensures cells { (stop : FixStop) (cell : Cell) (file : File) → IsStop stop → IsCellSpared stop cell →
        cell.rec < length (records_of stop) → file_placed stop.first (path_at stop cell.rec) ≡ Some file →
        StandsInCell stop cell file }
    ensures not_selected { (stop : FixStop) (i : ℕ) (lost : Bool) → IsStop stop → i < length (records_of stop) →
        is_finished stop.plan stop.d i ≡ false →
        file_of stop.left (path_of (path_at stop i) lost) ≡ file_of stop.first (path_of (path_at stop i) lost) }
    ensures others { (stop : FixStop) (name : List ℕ) → IsStop stop → IsNoneOf stop name →
        file_of stop.left name ≡ file_of stop.first name }
    // The starts that follow from what a folder listed are where its files stand.
    ensures listed { (plan : FixPlan) (lists : List (List ListedFile)) (d : ℕ) (first : Tree) →
        d < length plan.table.columns → get_or lists d [] ≡ listing_of first →
        StandInPlace plan (starts_of plan.table lists) d first }
{
    a_file_that_no_call_names_stays();
}

/// A cell that a fix found right is right wherever the fix is stopped: another fix of the same table that looks at its stripe
/// then, and whose reading of it does not fail, finds it right. So of each stripe no more cells are damaged than before.
pub fn a_stopped_fix_misses_no_more()
    ensures { (stop : FixStop) (plan : FixPlan) (facts again : StripeFacts) → IsStop stop → IsLookedAt stop facts →
        IsFoundIn stop.plan stop.d stop.first facts → damaged_at stop.plan facts stop.d ≡ false →
        IsFoundAgain stop plan facts again → damaged_at plan again stop.d ≡ false }
{
    a_file_that_no_call_names_stays();
}

/// Where no block of a stripe has a recorded hash by chance, the row that is known of it is the snapshot's. A row is
/// known exactly where no more cells are missing than levels are intact. What the spare gave is the snapshot's block.
pub fn a_known_row_is_the_snapshots()
    ensures known { (plan : FixPlan) (starts : StartsValue) (firsts : List FolderView)
        (snapshot row : Row) (facts : StripeFacts) →
        HasGenuineFacts plan starts firsts snapshot facts → facts.row ≡ Some row →
        IsSameRow plan.table.shape.block_size row (across (length plan.table.columns) snapshot) }
    ensures restorable { (plan : FixPlan) (starts : StartsValue) (firsts : List FolderView)
        (snapshot : Row) (facts : StripeFacts) (is_intact : ℕ → Bool) →
        HasGenuineFacts plan starts firsts snapshot facts → AreBytes snapshot →
        TellsIntactLevels plan facts snapshot is_intact →
        (is_some facts.row ≡ true ↔ IsRestorableStripe plan facts is_intact) }
    ensures given { (plan : FixPlan) (starts : StartsValue) (firsts : List FolderView)
        (snapshot : Row) (facts : StripeFacts) (d : ℕ) (bytes : List ℕ) →
        HasGenuineFacts plan starts firsts snapshot facts → gift_of facts d ≡ Some bytes →
        IsBlockIn plan.table.shape.block_size snapshot d bytes }
{
    a_row_has_the_cells_that_close_it();
    products();
    rows_of_the_same_bytes_have_the_same_levels();
}

/// A level that a fix writes was changed from outside since its stripe was synced. So parity that was sound stays
/// sound, for each table with this snapshot, and the levels that were written are the snapshot's again.
pub fn a_fix_keeps_what_is_sound()
    ensures facts { (plan : FixPlan) (starts : StartsValue) (firsts : List FolderView)
        (read : Files) (snapshot : Closed)
        (is_changed : ℕ → ℕ → Bool) (stripes : List StripeFacts) (facts : StripeFacts) →
        AreGenuineOf plan starts firsts read snapshot is_changed stripes →
        Contains stripes facts → is_searched plan facts.stripe ≡ true →
        HasGenuineFacts plan starts firsts (held_row plan.table snapshot facts.stripe) facts }
    ensures wrong { (plan : FixPlan) (starts : StartsValue) (firsts : List FolderView)
        (read : Files) (snapshot : Closed)
        (is_changed : ℕ → ℕ → Bool) (stripes : List StripeFacts) (facts : StripeFacts) (r : ℕ) →
        AreGenuineOf plan starts firsts read snapshot is_changed stripes →
        Contains stripes facts → is_wrong_level plan facts r ≡ true →
        is_changed facts.stripe r ≡ true }
    ensures sound { (plan : FixPlan) (starts : StartsValue) (firsts : List FolderView)
        (read : Files) (snapshot : Closed)
        (is_changed : ℕ → ℕ → Bool) (stripes : List StripeFacts) (table : TableValue)
        (files left : Files) →
        AreGenuineOf plan starts firsts read snapshot is_changed stripes →
        table.shape.block_size ≡ plan.table.shape.block_size →
        KeepsLevels plan.table.shape.block_size (IsMendedLevel plan stripes) files left →
        Sound table files snapshot is_changed → Sound table left snapshot is_changed }
    ensures mended { (plan : FixPlan) (starts : StartsValue) (firsts : List FolderView)
        (snapshot : Row) (facts : StripeFacts) (left : Files) (r : ℕ) →
        HasGenuineFacts plan starts firsts snapshot facts → HoldsWrong plan facts left →
        is_wrong_level plan facts r ≡ true →
        HasLevel plan.table.shape.block_size r facts.stripe snapshot (parity_of left r) }
{
    a_row_has_the_cells_that_close_it();
    products();
    rows_of_the_same_bytes_have_the_same_levels();
}

/// What a fix leaves of a selected damaged cell. If its block is known and its record isn't blocked, the file of the
/// record has that block, where its folder tells its files. If no block is known, the cell is lost: that is told, and
/// nothing is written. Where no block has a recorded hash by chance, a known block is the snapshot's, and one is known
/// exactly where the spare gave it or the stripe is restorable.
pub fn a_fix_restores()
    ensures held { (plan : FixPlan) (starts : StartsValue) (stripes : List Mended)
        (finishes : List (List Finish)) (firsts news : List FolderView) (facts : StripeFacts) (d : ℕ)
        (cell : Cell) → HasFixed plan starts stripes finishes firsts news →
        IsDamagedCell plan (facts_of stripes) facts d cell → (entry_at plan d cell.rec).blocked ≡ false →
        IsTrue (folder_at firsts d).tells → is_some (known_block plan facts d) ≡ true →
        HoldsCell plan.table d cell (has_lost plan stripes d cell.rec)
        (slice_index (block_or_none (known_block plan facts d))) (folder_at news d).tree }
    ensures lost { (plan : FixPlan) (stripes : List Mended) (finishes : List (List Finish))
        (facts : StripeFacts) (d : ℕ) (cell : Cell) → IsDamagedCell plan (facts_of stripes) facts d cell →
        is_audit plan.scope.mode ≡ false → is_some (known_block plan facts d) ≡ false →
        (is_lost plan facts d ≡ true)
        × Contains (fix_events plan stripes finishes) (event.Lost facts.stripe d cell.rec cell.index)
        × (is_repaired plan facts d ≡ false) }
    // No other cell of such a folder is told to be lost.
    ensures told { (plan : FixPlan) (starts : StartsValue) (stripes : List Mended)
        (finishes : List (List Finish)) (firsts news : List FolderView) (stripe d : ℕ) (cell : Cell) →
        HasFixed plan starts stripes finishes firsts news → IsTrue (folder_at firsts d).tells →
        Contains (fix_events plan stripes finishes) (event.Lost stripe d cell.rec cell.index) →
        IsUnknownCell plan (facts_of stripes) stripe d cell }
    ensures known { (plan : FixPlan) (starts : StartsValue) (firsts : List FolderView)
        (snapshot : Row) (facts : StripeFacts) (is_intact : ℕ → Bool) (d : ℕ) →
        HasGenuineFacts plan starts firsts snapshot facts → AreBytes snapshot →
        TellsIntactLevels plan facts snapshot is_intact →
        (is_some (known_block plan facts d) ≡ true ↔ CanBeHad plan facts is_intact d) }
    ensures restored { RestoresGenuine }
    ensures unrestored { LosesGenuine }
{
    a_row_has_the_cells_that_close_it();
    products();
    rows_of_the_same_bytes_have_the_same_levels();
}

/// A block of a synced stripe that the spare did not give can be had exactly where the stripe is restorable: where no more
/// of its cells are missing than levels are intact.
pub fn what_was_not_given_is_had_by_counting()
    ensures { (plan : FixPlan) (facts : StripeFacts) (is_intact : ℕ → Bool) (d : ℕ) →
        is_synced plan facts.stripe ≡ true → gift_of facts d ≡ None →
        (CanBeHad plan facts is_intact d ↔ IsRestorableStripe plan facts is_intact) }
{}

/// What a fix leaves as it was, where a folder tells its files. Each byte of a cell that it did not write stays in the
/// place of its record, and so do the files of records that are not selected or are blocked, and all other files.
pub fn a_fix_leaves_the_rest()
    ensures bytes { (plan : FixPlan) (starts : StartsValue) (stripes : List Mended)
        (finishes : List (List Finish)) (firsts news : List FolderView) (d i index p b : ℕ) →
        HasFixedRecord plan starts stripes finishes firsts news d i →
        p < block_length plan.table.shape.block_size (record_at plan.table.columns d i).meta.size index →
        IsNotWritten plan stripes d (let cell : Cell = record { rec = i; index = index } in cell) →
        HasByte (bytes_placed (folder_at firsts d).tree (record_path (records_in plan.table d) i))
        (index * plan.table.shape.block_size + p) b →
        HasByte (bytes_placed (folder_at news d).tree (record_path (records_in plan.table d) i))
        (index * plan.table.shape.block_size + p) b }
    ensures unfinished { (plan : FixPlan) (starts : StartsValue) (stripes : List Mended)
        (finishes : List (List Finish)) (firsts news : List FolderView) (d i : ℕ) (lost : Bool) →
        HasFixedRecord plan starts stripes finishes firsts news d i → is_finished plan d i ≡ false →
        file_of (folder_at news d).tree (path_of (record_path (records_in plan.table d) i) lost)
        ≡ file_of (folder_at firsts d).tree (path_of (record_path (records_in plan.table d) i) lost) }
    ensures others { (plan : FixPlan) (starts : StartsValue) (stripes : List Mended)
        (finishes : List (List Finish)) (firsts news : List FolderView) (d : ℕ) (name : List ℕ) →
        HasFixed plan starts stripes finishes firsts news → IsTrue (folder_at firsts d).tells →
        d < length plan.table.columns → ¬ (IsNameOf (records_in plan.table d) name) →
        file_of (folder_at news d).tree name ≡ file_of (folder_at firsts d).tree name }
{}

/// How a fix finishes the file of a selected record that isn't blocked, where its folder tells its files. If no cell of it
/// is lost, it stands under PATH with its recorded size and, where the folder keeps that, its recorded stamp. Else it stands
/// under PATH`.unrecoverable`, or there is none where there was none and nothing was written.
pub fn a_fix_finishes_files()
    ensures { (plan : FixPlan) (starts : StartsValue) (stripes : List Mended)
        (finishes : List (List Finish)) (firsts news : List FolderView) (d i : ℕ) →
        HasFinished plan starts stripes finishes firsts news d i →
        StandsFinished plan stripes d i (folder_at firsts d).keeps (folder_at firsts d).tree
        (folder_at news d).tree }
{}

/// The stripes of a fix, and what was read of their levels, are cut into windows in one way. So the calls of the vault are one
/// list, for any number of readers. Whatever was read of their levels, the stripes are cut in one way.
pub fn a_fix_cuts_its_stripes_in_one_way()
    ensures stripes { (plan : FixPlan) (windows others : List FixWindow) (stripes : List StripeFacts)
        (readings more : List (List LevelReading)) →
        AreWindows plan windows stripes readings → AreWindows plan others stripes more → cut_of windows ≡ cut_of others }
    ensures windows { (plan : FixPlan) (windows others : List FixWindow) (stripes : List StripeFacts)
        (readings : List (List LevelReading)) →
        AreWindows plan windows stripes readings → AreWindows plan others stripes readings → windows ≡ others }
{}

/// An audit has no finding exactly where each selected record is listed as it was recorded, no reading of a selected cell of
/// the stripes failed, and each block that came has the recorded hash, if there is one. It tells nothing of parity.
pub fn an_audit_finds_what_is_changed()
    ensures { (plan : FixPlan) (stripes : List StripeFacts) →
        plan.scope.mode ≡ mode.Audit → All (AreFacts plan) stripes →
        (count_by is_finding (check_events plan stripes) ≡ 0 ↔ FindsNothing plan stripes) }
{}

/// A fix finds just what a check finds of the same stripes, and tells besides what it did: where each cell that was to be
/// written was, and no file that was to be finished was gone. That is so where all folders tell their files. The plan of a
/// check looks at the same stripes as that of a fix, the same are the facts of a stripe, and the same is found.
pub fn a_check_finds_what_a_fix_finds()
    ensures found { (plan : FixPlan) (stripes : List Mended) (finishes : List (List Finish)) →
        AreAllWritten plan stripes → IsNoneGone plan finishes →
        filter is_finding (fix_events plan stripes finishes) ≡ check_events plan (facts_of stripes) }
    ensures fixed { (plan : FixPlan) (starts : StartsValue) (stripes : List Mended)
        (finishes : List (List Finish)) (firsts news : List FolderView) →
        HasFixed plan starts stripes finishes firsts news →
        ((d : ℕ) → d < length plan.table.columns → IsTrue (folder_at firsts d).tells) →
        filter is_finding (fix_events plan stripes finishes) ≡ check_events plan (facts_of stripes) }
    ensures plans { (selection : Selection) (names : List (List ℕ)) (table : TableValue)
        (lists : List (List ListedFile)) (check fix : FixPlan) →
        IsPlan mode.Check selection names table lists check →
        IsPlan mode.Fix selection names table lists fix → DifferInMode check fix }
    ensures stripes { (check fix : FixPlan) → DifferInMode check fix → stripes_of check ≡ stripes_of fix }
    ensures facts { (check fix : FixPlan) (facts : StripeFacts) → DifferInMode check fix →
        (AreFacts check facts ↔ AreFacts fix facts) }
    ensures events { (check fix : FixPlan) (stripes : List StripeFacts) → DifferInMode check fix →
        check_events check stripes ≡ check_events fix stripes }
{}
