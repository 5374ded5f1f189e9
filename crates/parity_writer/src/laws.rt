//! What follows from the definitions of parity and of soundness. The calls do nothing: their contracts are laws.
ghost use Rattle.std.specs.Prelude.{◌≡◌, ◌≢◌, ◌↔◌, ℕ, ◌+◌, ◌*◌, ◌<◌, ◌≤◌, List, length, map, get_or, slice_set};
ghost use Rattle.std.specs.Prelude.{◌^◌, count_by, Bool, true, false, None, Some, All, AllPairs};
ghost use Rattle.cauchy.specs.Matrix.{byte_of, parity_byte, parity_of as level_of};
ghost use Rattle.disk_model.specs.Bytes.{read_from};
ghost use Rattle.disk_model.specs.Cause.{RoseBy};
ghost use Rattle.disk_model.specs.Files.{Files, parity_of};
ghost use Rattle.disk_model.specs.Folder.{FolderView};
ghost use Rattle.file_table.specs.Cells.{StripeView, stripe_view};
ghost use Rattle.file_table.specs.Table.{TableValue};
ghost use Rattle.file_table.specs.Valid.{IsValid};
ghost use Rattle.file_table.specs.declared.info.Info.{Info};
ghost use Rattle.file_table.specs.declared.shape.Shape.{Shape};
ghost use Rattle.parity_writer.specs.Chosen.{Choice, IsChosen, stripe_in, is_chosen, rows_with};
ghost use Rattle.parity_writer.specs.Closing.{Closing, IsClosing, closing_of, closed_by, snapshot_by, changed_by};
ghost use Rattle.parity_writer.specs.Closing.{closed_by_all, snapshot_by_all, changed_by_all};
ghost use Rattle.parity_writer.specs.Keeps.{KeepsAt, SameParities};
ghost use Rattle.parity_writer.specs.LevelReading.{LevelReading, has_failed, kept_level};
ghost use Rattle.parity_writer.specs.Parity.{HasLevel, Row, Rows, HoldsRows, no_rows, padded};
ghost use Rattle.parity_writer.specs.Parity.{IsParityOver, SameElsewhere, WritesBlocks};
ghost use Rattle.parity_writer.specs.Rows.{HasLengths};
ghost use Rattle.parity_writer.specs.Sound.{Closed, HasCells, IsRowOf, IsSynced, Sound, closed_cell, closed_cells};
ghost use Rattle.parity_writer.specs.WindowRow.{digests_at, row_at};
ghost use Rattle.parity_writer.specs.declared.levels.LevelRead.TheVariants as here;
ghost use Rattle.stripe_reader.specs.Reading.{CellReading};
ghost use Rattle.stripe_reader.specs.Readings.{IsThere, ReadsStripe, bytes_read, digest_read};
ghost use Rattle.stripe_reader.specs.Starts.{StartsValue};
ghost use Rattle.stripe_reader.specs.WindowValue.{Fits, WindowValue, lane_at, window_given};

use cauchy::laws::{no_block, same_bytes};
use file_table::laws::{
    a_cell_stands_at_its_position, closing_a_stripe_gives_its_hashes,
    closing_a_stripe_leaves_the_others,
};
use stripe_reader::laws::a_reading_is_of_its_cell;

/// Where no chosen stripe is synced, a sound table is sound after the chosen stripes were written, and wherever that
/// was stopped.
pub fn writing_other_stripes_stays_sound()
    ensures { (table : TableValue) (old new : Files) (snapshot : Closed) (is_changed : ℕ → ℕ → Bool)
        (choice : Choice) → Sound table old snapshot is_changed → WritesBlocks table.shape.block_size (IsChosen choice) old new →
        ((stripe : ℕ) → IsChosen choice stripe → IsSynced table stripe → ⊥) → Sound table new snapshot is_changed }
{}

/// Where each byte below a length is kept, and the blocks of all stripes lie below it, a sound table stays sound.
pub fn setting_lengths_stays_sound()
    ensures { (table : TableValue) (old new : Files) (snapshot : Closed) (is_changed : ℕ → ℕ → Bool) (bytes : ℕ) →
        Sound table old snapshot is_changed → KeepsAt (λ i. i < bytes) old new →
        length table.infos * table.shape.block_size ≤ bytes → Sound table new snapshot is_changed }
{}

/// A table of the same shape is as sound, where each of its synced stripes is synced in the other one with the same cells.
pub fn a_table_with_fewer_synced_stripes_is_as_sound()
    ensures { (table other : TableValue) (files : Files) (snapshot : Closed) (is_changed : ℕ → ℕ → Bool) →
        Sound table files snapshot is_changed → other.shape ≡ table.shape →
        ((stripe : ℕ) → IsSynced other stripe →
        IsSynced table stripe × ((stripe_view other stripe).cells ≡ (stripe_view table stripe).cells)) →
        Sound other files snapshot is_changed }
{}

/// Files with the same levels are as sound: what a stop may leave of a vault that was settled is as sound as what it
/// reads.
pub fn the_same_levels_are_as_sound()
    ensures { (table : TableValue) (levels : ℕ) (old new : Files) (snapshot : Closed) (is_changed : ℕ → ℕ → Bool) →
        Sound table old snapshot is_changed → table.shape.levels ≤ levels → SameParities levels old new →
        Sound table new snapshot is_changed }
{}

/// The row of a stripe that was read, and its digests: of each whole block its bytes at their real length, and their
/// hash.
pub fn a_row_is_what_was_read()
    ensures row { (table : TableValue) (starts : StartsValue) (stripe : ℕ) (window : WindowValue) (i : ℕ)
        (readings : List CellReading) (folders : List FolderView) →
        ReadsStripe table starts stripe window i readings folders → Fits table window →
        length folders ≡ length table.columns → row_at window i ≡ map bytes_read readings }
    ensures digests { (table : TableValue) (starts : StartsValue) (stripe : ℕ) (window : WindowValue) (i : ℕ)
        (readings : List CellReading) (folders : List FolderView) →
        ReadsStripe table starts stripe window i readings folders → Fits table window →
        length folders ≡ length table.columns → digests_at window i ≡ map (digest_read table.shape) readings }
{
    a_reading_is_of_its_cell();
}

/// Where each cell of a stripe that was read is without a block or came whole, its digests are the hashes of its row.
pub fn what_was_read_closes_its_stripe()
    ensures { (table : TableValue) (starts : StartsValue) (stripe : ℕ) (window : WindowValue) (i : ℕ)
        (readings : List CellReading) (folders : List FolderView) (info : Info) →
        ReadsStripe table starts stripe window i readings folders → Fits table window →
        length folders ≡ length table.columns → All IsThere readings →
        IsClosing table (closing_of window stripe i info) }
{
    a_reading_is_of_its_cell();
    closing_a_stripe_gives_its_hashes();
}

/// A row has the same levels where its blocks are padded with zeros.
pub fn a_padded_row_has_the_same_levels()
    ensures { (level block_size : ℕ) (row : Row) (i : ℕ) → i < block_size →
        parity_byte level (padded block_size row) i ≡ parity_byte level row i }
{
    same_bytes();
}

/// A row with the recorded hashes of a stripe has the cells that close it. In a valid table it is the other way round too
/// for a synced stripe, where the row has as many blocks.
pub fn a_row_has_the_cells_that_close_it()
    ensures cells { (shape : Shape) (seen : StripeView) (row : Row) → IsRowOf shape seen row →
        HasCells shape (map (closed_cell shape) seen.cells) row }
    ensures row { (table : TableValue) (stripe : ℕ) (row : Row) → IsValid table → IsSynced table stripe →
        length row ≡ length table.columns → HasCells table.shape (closed_cells table stripe) row →
        IsRowOf table.shape (stripe_view table stripe) row }
{
    a_cell_stands_at_its_position();
}

/// Rows with the same bytes have the same levels, though one has more columns: what it has there counts as zeros.
pub fn rows_of_the_same_bytes_have_the_same_levels()
    ensures { (level block_size : ℕ) (one other : Row) → ((column p : ℕ) → byte_of one column p ≡ byte_of other column p) →
        (i : ℕ) → i < block_size → parity_byte level one i ≡ parity_byte level other i }
{
    no_block();
    same_bytes();
}

/// The rows after a window was written, where its stripes are distinct: a chosen stripe has its row of the window,
/// and any other stripe the row that it had.
pub fn a_chosen_stripe_has_its_row()
    ensures chosen { (window : WindowValue) (choice : Choice) (rows : Rows) (count i : ℕ) →
        AllPairs (λ a b. a ≢ b) choice.stripes → count ≤ length choice.stripes → i < count →
        is_chosen choice i ≡ true → rows_with window choice count rows (stripe_in choice i) ≡ Some (row_at window i) }
    ensures others { (window : WindowValue) (choice : Choice) (rows : Rows) (count stripe : ℕ) →
        count ≤ length choice.stripes → ¬ (IsChosen choice stripe) →
        rows_with window choice count rows stripe ≡ rows stripe }
{}

/// A stripe that is closed with the hashes of its row, where parity holds that row: the table is sound then, with this
/// row in front of the others of that stripe alone, and none of the table's levels of the stripe counts as changed from
/// outside any more.
pub fn closing_a_written_stripe_stays_sound()
    ensures { (table : TableValue) (files : Files) (snapshot : Closed) (is_changed : ℕ → ℕ → Bool) (closing : Closing)
        (levels : ℕ) (rows : Rows) → Sound table files snapshot is_changed → IsClosing table closing →
        table.shape.levels ≤ levels → HoldsRows levels table.shape.block_size rows files →
        rows closing.stripe ≡ Some closing.row →
        Sound (closed_by closing table) files (snapshot_by closing snapshot)
        (changed_by table.shape.levels closing is_changed) }
{
    closing_a_stripe_leaves_the_others();
}

/// The same for distinct stripes that are closed one after another.
pub fn closing_written_stripes_stays_sound()
    ensures { (table : TableValue) (files : Files) (snapshot : Closed) (is_changed : ℕ → ℕ → Bool)
        (closings : List Closing) (levels : ℕ) (rows : Rows) → Sound table files snapshot is_changed →
        AllPairs (λ (a b : Closing). a.stripe ≢ b.stripe) closings → All (IsClosing table) closings →
        table.shape.levels ≤ levels → HoldsRows levels table.shape.block_size rows files →
        All (λ (closing : Closing). rows closing.stripe ≡ Some closing.row) closings →
        Sound (closed_by_all closings table) files (snapshot_by_all closings snapshot)
        (changed_by_all table.shape.levels closings is_changed) }
{
    closing_a_stripe_gives_its_hashes();
    closing_a_stripe_leaves_the_others();
}

/// What is sound with fewer blocks changed from outside, is sound with more.
pub fn more_changes_are_as_sound()
    ensures { (table : TableValue) (files : Files) (snapshot : Closed) (is_changed others : ℕ → ℕ → Bool) →
        Sound table files snapshot is_changed →
        ((stripe level : ℕ) → others stripe level ≡ false → is_changed stripe level ≡ false) →
        Sound table files snapshot others }
{}

/// Where the lengths of the levels were set, and no stripe was written.
pub fn lengths_are_parity_without_rows()
    ensures { (levels block_size bytes : ℕ) (start files : Files) → HasLengths levels bytes start files →
        IsParityOver levels block_size bytes no_rows start files }
{}

/// A window whose stripes lie below the length of the levels adds the rows of its chosen stripes, and nothing else.
pub fn a_window_adds_its_rows()
    ensures { (levels block_size bytes count : ℕ) (window : WindowValue) (choice : Choice) (rows : Rows)
        (start old new : Files) →
        IsParityOver levels block_size bytes rows start old → length choice.stripes ≤ count →
        ((stripe : ℕ) → IsChosen choice stripe → stripe * block_size + block_size ≤ bytes) →
        WritesBlocks block_size (IsChosen choice) old new → SameElsewhere levels block_size (IsChosen choice) old new →
        HoldsRows levels block_size (rows_with window choice count rows) new →
        IsParityOver levels block_size bytes (rows_with window choice count rows) start new }
{}

/// The same rows over the same files are the same parity, byte by byte.
pub fn parity_is_its_rows()
    ensures { (levels block_size bytes : ℕ) (rows : Rows) (start one other : Files) → 0 < block_size →
        IsParityOver levels block_size bytes rows start one → IsParityOver levels block_size bytes rows start other →
        (level : ℕ) → level < levels → parity_of one level ≡ parity_of other level }
{}

/// What was read of a level: nothing just where the vault failed, and else fewer bytes than a block has, or the whole
/// block.
pub fn a_level_is_short_where_fewer_bytes_came()
    ensures unread { (block_size : ℕ) (reading : LevelReading) →
        ((kept_level block_size reading).state ≡ here.Unread) ↔ (reading ≡ None) }
    ensures short { (block_size : ℕ) (bytes : List ℕ) → length bytes ≤ block_size →
        ((kept_level block_size (Some bytes)).state ≡ here.Short) ↔ (length bytes < block_size) }
{}

/// Where the vault's count of faults stayed, each level was read.
pub fn no_level_is_unread_without_a_fault()
    ensures { (readings : List LevelReading) (before after : ℕ) → RoseBy (count_by has_failed readings) before after →
        after ≡ before → before + 1 < 2 ^ 64 →
        (level : ℕ) → level < length readings → has_failed (get_or readings level None) ≡ false }
{}

/// Where the bytes of a stripe in a level's file came: the file holds the sum of a row there just where the whole
/// block came and is that sum.
pub fn a_whole_level_is_what_the_file_holds()
    ensures { (block_size level stripe : ℕ) (row : Row) (file bytes : List ℕ) →
        bytes ≡ read_from file (stripe * block_size) block_size →
        HasLevel block_size level stripe row file
        ↔ (((kept_level block_size (Some bytes)).state ≡ here.Bytes)
        × ((kept_level block_size (Some bytes)).block ≡ level_of level block_size row)) }
{}

/// A block that is put into a window stands in the row of its stripe, in its column, and all other rows stay.
pub fn a_put_block_stands_in_its_row()
    ensures row { (window : WindowValue) (i d : ℕ) (bytes : List ℕ) →
        d < length window.lanes → i < length (lane_at window d) → length bytes ≤ window.block_size →
        row_at (window_given window i d bytes) i ≡ slice_set (row_at window i) d bytes }
    ensures others { (window : WindowValue) (i d : ℕ) (bytes : List ℕ) →
        d < length window.lanes → (k : ℕ) → k ≢ i →
        row_at (window_given window i d bytes) k ≡ row_at window k }
{}
