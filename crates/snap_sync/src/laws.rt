//! What follows from the definitions of a sync. The calls do nothing: their contracts are laws.
ghost use Rattle.std.specs.Prelude.{◌≡◌, ◌↔◌, ℕ, ◌^◌, ◌<◌, ◌≤◌, List, [], ◌++◌, length, not, count_by};
ghost use Rattle.std.specs.Prelude.{All, Bool, Contains, IsTrue, None, Some, true, false};
ghost use Rattle.array_scan.specs.Layout.{all_sorted, pending_stripes};
ghost use Rattle.array_scan.specs.Refusals.{refusal};
ghost use Rattle.disk_model.specs.Files.{Files};
ghost use Rattle.disk_model.specs.Folder.{FolderView};
ghost use Rattle.disk_model.specs.Tree.{Tree};
ghost use Rattle.file_table.specs.Cells.{cell_in};
ghost use Rattle.file_table.specs.Table.{TableValue, column_at};
ghost use Rattle.file_table.specs.Valid.{IsValid};
ghost use Rattle.file_table.specs.declared.block.Cell.{Cell};
ghost use Rattle.parity_writer.specs.Sound.{Closed};
ghost use Rattle.array_setup.specs.Setup.{SetupValue};
ghost use Rattle.snap_report.specs.declared.events.Event.TheVariants.{Io};
ghost use Rattle.stripe_reader.specs.Columns.{folder_at};
ghost use Rattle.snap_sync.specs.Calls.{SyncPlan};
ghost use Rattle.snap_sync.specs.Closing.{closed};
ghost use Rattle.snap_sync.specs.Ended.{IsEndOf, IsFoundIn, NotAChangedBlock};
ghost use Rattle.stripe_findings.specs.Findings.{stripe_events, events_of};
ghost use Rattle.snap_sync.specs.Images.{HasParityAfter, MayStand, StandsBy, rows_after, table_after};
ghost use Rattle.snap_sync.specs.Part.{AllVerified, AreOfPartSyncs, IsFullSync, IsPartSync, IsVerifiedBy};
ghost use Rattle.snap_sync.specs.Part.{IsListedRun, IsToldRun, NoneRose};
ghost use Rattle.snap_sync.specs.Part.{SyncRun, TreesVerifyAll, layout_by, readings_by, run_kept, run_table, run_trees, run_verified};
ghost use Rattle.stripe_findings.specs.Reading.{AreRead, StripeReading, is_unread, is_verified, slot_of, stripes_of};
ghost use Rattle.snap_sync.specs.Reading.{ReadsFirst};
ghost use Rattle.snap_sync.specs.Resumed.{EndsAs, IsFoundAt};
ghost use Rattle.snap_sync.specs.Soundness.{AreSound, AreSoundAfter, StandsOn, changed_without, snapshot_with};

use crate::SyncEnd;
use array_scan::laws::{
    a_layout_is_of_the_kept_files, a_table_of_the_kept_files_is_laid_out_as_it_is,
};
use content_file::laws::one_table_has_a_spelling;
use file_table::laws::{
    a_cell_stands_at_its_position, closing_a_stripe_gives_its_hashes,
    closing_a_stripe_leaves_the_others,
};

/// A stripe that was read is verified exactly where nothing is found in it. So, of a sync that ended, each stripe that
/// is not verified has a finding, the number of findings is 0 exactly where all are verified, and those that are not are
/// the ones that it counts as pending. Each block whose reading failed is told as such. Of a folder that tells its tree no
/// block is found changed: it was laid out by what the folder listed.
pub fn what_is_pending_is_found()
    ensures exactly { (table : TableValue) (reading : StripeReading) →
        (is_verified table reading ≡ true) ↔ (stripe_events table reading ≡ []) }
    ensures found { (start : TableValue) (readings : List StripeReading) →
        All (λ (reading : StripeReading). is_verified start reading ≡ false →
        IsFoundIn (events_of start readings) reading.stripe) readings }
    ensures findings { (start : TableValue) (now : ℕ) (readings : List StripeReading) (end : SyncEnd) →
        IsEndOf start now readings end → (end.findings ≡ 0) ↔ AllVerified start readings }
    ensures pending { (start : TableValue) (now : ℕ) (readings : List StripeReading) (end : SyncEnd) →
        IsEndOf start now readings end →
        end.pending ≡ count_by (λ (reading : StripeReading). not (is_verified start reading)) readings }
    ensures unread { (start : TableValue) (readings ahead : List StripeReading) (olds news : List FolderView) (d : ℕ) (cell : Cell) →
        length olds ≡ length start.columns → AreRead start (readings ++ ahead) olds news → d < length start.columns →
        All (λ (reading : StripeReading). cell_in (column_at start.columns d) reading.stripe ≡ Some cell →
        is_unread (slot_of d reading).cell.found ≡ true →
        Contains (events_of start readings) (Io reading.stripe d cell.rec cell.index)) readings }
    ensures told { (run : SyncRun) (d : ℕ) → IsListedRun run → IsValid run.plan.start →
        d < length run.folders → IsTrue (folder_at run.folders d).tells →
        All (NotAChangedBlock d) (events_of run.plan.start run.readings) }
{
    a_layout_is_of_the_kept_files();
    a_cell_stands_at_its_position();
}

/// Where all folders tell their trees, a sync is a part sync of their layout after each number of the stripes that it
/// read, with those that are verified, and each copy at any moment is as it was or of a part sync. Where all pending
/// stripes were read and are verified, it is the full sync. Where no count of the folders rose, what was read is what the
/// trees give; so all are verified where the trees verify all pending stripes.
pub fn a_sync_is_a_part_sync()
    ensures laid { (run : SyncRun) → IsToldRun run →
        run.plan.start ≡ layout_by run.setup run.loaded (run_trees run) }
    ensures copies { (run : SyncRun) (files new : Files) → IsToldRun run → MayStand run.plan run.readings files new →
        AreOfPartSyncs run.plan.start (run_trees run) run.plan.now run.plan.copies files new }
    ensures part { (run : SyncRun) (count : ℕ) (files new : Files) → IsToldRun run → count ≤ length run.readings →
        HasParityAfter run.plan run.readings count files new →
        IsPartSync run.plan.start (run_trees run) (run_verified run count) run.plan.now files (run_table run count) new }
    ensures full { (run : SyncRun) (files new : Files) → IsToldRun run →
        length run.readings ≡ length (pending_stripes run.plan.start.infos) → AllVerified run.plan.start run.readings →
        HasParityAfter run.plan run.readings (length run.readings) files new →
        IsFullSync run.setup run.loaded (run_trees run) run.plan.now files
        (closed run.plan.now run.plan.start run.readings) new }
    ensures given { (run : SyncRun) → IsToldRun run → NoneRose run.folders run.ended →
        run.readings ≡ readings_by run.plan.start (run_trees run) (stripes_of run.readings) }
    ensures unfailed { (run : SyncRun) → IsToldRun run → NoneRose run.folders run.ended → TreesVerifyAll run →
        AllVerified run.plan.start run.readings }
{
    a_cell_stands_at_its_position();
}

/// Where the trees verify all pending stripes of a layout, there is a full sync of it. What is pending there is verified,
/// and its table has the shape of the layout and as many stripes.
pub fn there_is_a_full_sync()
    ensures there_is { (setup : SetupValue) (old_table : TableValue) (trees : List Tree) (now : ℕ) (files : Files) →
        (let start = layout_by setup old_table trees in
        0 < start.shape.block_size → All (IsVerifiedBy start trees) (pending_stripes start.infos) →
        (table : TableValue) × (new : Files) × IsFullSync setup old_table trees now files table new) }
    ensures shape { (setup : SetupValue) (old_table : TableValue) (trees : List Tree) (now : ℕ) (table : TableValue)
        (files new : Files) → IsFullSync setup old_table trees now files table new →
        (let start = layout_by setup old_table trees in
        (table.shape ≡ start.shape) × (length table.infos ≡ length start.infos)) }
{}

/// Where the laid out table is valid, so is each table that a sync closes stripes in.
pub fn what_a_sync_saves_is_valid()
    ensures { (plan : SyncPlan) (readings ahead : List StripeReading) (olds news : List FolderView) (count : ℕ) →
        length olds ≡ length plan.start.columns → ReadsFirst plan.start (readings ++ ahead) olds news →
        IsValid plan.start → plan.now < 2 ^ 64 → count ≤ length readings → IsValid (table_after plan readings count) }
{
    a_cell_stands_at_its_position();
    closing_a_stripe_leaves_the_others();
    closing_a_stripe_gives_its_hashes();
}

/// Where the copies are sound at the start of a sync, they are at each moment of it, wherever it is stopped: with the
/// snapshot of some number of the stripes that it read, and with no level of its table changed from outside in these any
/// more.
pub fn every_moment_is_sound()
    ensures { (plan : SyncPlan) (loaded : TableValue) (readings ahead : List StripeReading) (olds news : List FolderView)
        (old new : Files) (snapshot : Closed) (is_changed : ℕ → ℕ → Bool) →
        length olds ≡ length plan.start.columns → ReadsFirst plan.start (readings ++ ahead) olds news →
        StandsOn plan loaded old → AreSound plan.copies old snapshot is_changed →
        MayStand plan readings old new → AreSoundAfter plan readings new snapshot is_changed }
{
    a_cell_stands_at_its_position();
    closing_a_stripe_leaves_the_others();
    closing_a_stripe_gives_its_hashes();
    one_table_has_a_spelling();
}

/// Which number that is: of so many stripes parity has the rows at that moment.
pub fn a_moment_is_sound_with_its_rows()
    ensures { (plan : SyncPlan) (loaded : TableValue) (readings ahead : List StripeReading) (olds news : List FolderView)
        (old new : Files) (snapshot : Closed) (is_changed : ℕ → ℕ → Bool) (count : ℕ) →
        length olds ≡ length plan.start.columns → ReadsFirst plan.start (readings ++ ahead) olds news →
        StandsOn plan loaded old → AreSound plan.copies old snapshot is_changed →
        StandsBy plan readings count old new → (count ≤ length readings)
        × AreSound plan.copies new (snapshot_with (rows_after plan readings count) snapshot)
        (changed_without plan.start.shape.levels (rows_after plan readings count) is_changed) }
{
    a_cell_stands_at_its_position();
    closing_a_stripe_leaves_the_others();
    closing_a_stripe_gives_its_hashes();
    one_table_has_a_spelling();
}

/// A sync that was stopped is resumed. Over the same trees a table that it saved is laid out as it is, and is not
/// refused; what is pending in it is what was and is not verified yet. Where the trees verify all pending stripes, the
/// full sync of a table that is found at any moment ends as the one that was not stopped: with the same table but for the
/// times of the last checks, and the same parity but for what was changed from outside. They verify all that is pending
/// in its layout. The same is so of the table that was loaded, from what stands at any moment.
pub fn a_stopped_sync_is_resumed()
    ensures laid { (run : SyncRun) (count : ℕ) → IsToldRun run → IsValid (run_table run count) →
        layout_by run.setup (run_table run count) (run_trees run) ≡ run_table run count }
    ensures unrefused { (run : SyncRun) (count : ℕ) (force_zero force_empty : Bool) → IsToldRun run →
        IsValid (run_table run count) →
        refusal force_zero force_empty (run_table run count) (all_sorted (run_table run count) (run_kept run)) ≡ None }
    ensures pending { (run : SyncRun) (count : ℕ) → IsToldRun run → count ≤ length run.readings → (stripe : ℕ) →
        (Contains (pending_stripes (run_table run count).infos) stripe
        ↔ (Contains (pending_stripes run.plan.start.infos) stripe × (¬ (Contains (run_verified run count) stripe)))) }
    ensures full { (run : SyncRun) (files left : Files) (snapshot : Closed) (is_changed : ℕ → ℕ → Bool)
        (now again : ℕ) (found table other_table : TableValue) (one other : Files) → IsToldRun run →
        StandsOn run.plan run.loaded files → AreSound run.plan.copies files snapshot is_changed →
        IsFoundAt run.plan run.readings run.loaded files left found → TreesVerifyAll run →
        IsFullSync run.setup run.loaded (run_trees run) now files table one →
        IsFullSync run.setup found (run_trees run) again left other_table other →
        EndsAs run.plan.start is_changed table other_table one other }
    ensures again { (run : SyncRun) (files left : Files) (snapshot : Closed) (is_changed : ℕ → ℕ → Bool)
        (now again : ℕ) (table other_table : TableValue) (one other : Files) → IsToldRun run →
        StandsOn run.plan run.loaded files → AreSound run.plan.copies files snapshot is_changed →
        MayStand run.plan run.readings files left → TreesVerifyAll run →
        IsFullSync run.setup run.loaded (run_trees run) now files table one →
        IsFullSync run.setup run.loaded (run_trees run) again left other_table other →
        EndsAs run.plan.start is_changed table other_table one other }
    ensures verified { (run : SyncRun) (files left : Files) (found : TableValue) → IsToldRun run →
        StandsOn run.plan run.loaded files → IsFoundAt run.plan run.readings run.loaded files left found →
        TreesVerifyAll run → (let start = layout_by run.setup found (run_trees run) in
        All (IsVerifiedBy start (run_trees run)) (pending_stripes start.infos)) }
{
    a_layout_is_of_the_kept_files();
    a_table_of_the_kept_files_is_laid_out_as_it_is();
    a_cell_stands_at_its_position();
    closing_a_stripe_leaves_the_others();
    closing_a_stripe_gives_its_hashes();
    one_table_has_a_spelling();
}
