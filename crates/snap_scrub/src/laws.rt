//! What follows from the definitions of a scrub. The calls do nothing: their contracts are laws.
ghost use Rattle.std.specs.Prelude.{◌≡◌, ◌<◌, ◌^◌, ℕ, List, Bool, length, count_by, sum_by};
ghost use Rattle.disk_model.specs.Cause.{RoseBy};
ghost use Rattle.disk_model.specs.Files.{Files};
ghost use Rattle.disk_model.specs.Folder.{FolderView};
ghost use Rattle.file_table.specs.Table.{TableValue, info_at};
ghost use Rattle.file_table.specs.Valid.{IsValid};
ghost use Rattle.parity_writer.specs.Sound.{Closed, Sound};
ghost use Rattle.snap_report.specs.Answer.{is_io_of, is_parity_io};
ghost use Rattle.array_setup.specs.declared.ways.ScrubWay.{ScrubWay};
ghost use Rattle.stripe_findings.specs.Reading.{AreRead, stripes_of};
ghost use Rattle.stripe_reader.specs.Columns.{folder_at};
ghost use Rattle.snap_scrub.specs.Findings.{events_of};
ghost use Rattle.snap_scrub.specs.Marks.{scrubbed};
ghost use Rattle.snap_scrub.specs.Plan.{plan_of};
ghost use Rattle.snap_scrub.specs.Reading.{ScrubReading, cells_of, unread_levels};

/// A scrub closes and opens no stripe: each stripe that was synced still is, and no other one. Shape and columns stay, there
/// are as many stripes, and the table stays valid. Where it was sound it still is, with the same snapshot, since no parity
/// is written.
pub fn a_scrub_keeps_what_is_synced()
    ensures rest { (table : TableValue) (now : ℕ) (readings : List ScrubReading) →
        ((scrubbed now table readings).shape ≡ table.shape) × ((scrubbed now table readings).columns ≡ table.columns) }
    ensures count { (table : TableValue) (now : ℕ) (readings : List ScrubReading) →
        length (scrubbed now table readings).infos ≡ length table.infos }
    ensures marks { (table : TableValue) (way : ScrubWay) (now : ℕ) (readings : List ScrubReading) (stripe : ℕ) →
        stripes_of (cells_of readings) ≡ plan_of table way now →
        (info_at (scrubbed now table readings).infos stripe).mark ≡ (info_at table.infos stripe).mark }
    ensures valid { (table : TableValue) (way : ScrubWay) (now : ℕ) (readings : List ScrubReading) →
        stripes_of (cells_of readings) ≡ plan_of table way now → now < 2 ^ 64 → IsValid table →
        IsValid (scrubbed now table readings) }
    ensures sound { (table : TableValue) (way : ScrubWay) (now : ℕ) (readings : List ScrubReading) (old new : Files)
        (snapshot : Closed) (is_changed : ℕ → ℕ → Bool) →
        stripes_of (cells_of readings) ≡ plan_of table way now → new.parities ≡ old.parities →
        Sound table old snapshot is_changed → Sound (scrubbed now table readings) new snapshot is_changed }
{}

/// What is told of levels that could not be read is told once for each of them, so for each call that failed.
pub fn each_unread_level_is_told()
    ensures { (table : TableValue) (readings : List ScrubReading) →
        count_by is_parity_io (events_of table readings) ≡ sum_by unread_levels readings }
{}

/// What is told of blocks that could not be read of a folder is told no more often than the folder failed: where its cells were
/// read by a scrub, its count of faults rose by no less.
pub fn no_more_unread_cells_are_told_than_failed()
    ensures { (table : TableValue) (readings : List ScrubReading) (olds news : List FolderView) (d : ℕ) →
        AreRead table (cells_of readings) olds news → d < length olds →
        RoseBy (count_by (is_io_of d) (events_of table readings)) (folder_at olds d).faults (folder_at news d).faults }
{}
