//! What follows from the definition of a column's reading. The calls do nothing: their contracts are laws.
ghost use Rattle.std.specs.Prelude.{◌≡◌, ℕ, ◌+◌, ◌<◌, ◌^◌, ◌++◌, List, length, map, get_or, IsTrue};
ghost use Rattle.disk_model.specs.Bytes.{AreBytes};
ghost use Rattle.disk_model.specs.Folder.{FolderView};
ghost use Rattle.file_table.specs.Cells.{cell_view};
ghost use Rattle.file_table.specs.Table.{TableValue, column_at};
ghost use Rattle.file_table.specs.declared.shape.Shape.{Shape};
ghost use Rattle.stripe_reader.specs.Column.{ReadsColumn};
ghost use Rattle.stripe_reader.specs.Columns.{ReadsWindow};
ghost use Rattle.stripe_reader.specs.Fetched.{FetchesWindow, hashed_window};
ghost use Rattle.stripe_reader.specs.Reading.{CellReading, NoBlock, IsReadingBy, Task, given_by, task_at};
ghost use Rattle.stripe_reader.specs.Readings.{bytes_read, IsReadingAt, HasReadings, readings_at, ReadsStripe};
ghost use Rattle.stripe_reader.specs.Slot.{kept};
ghost use Rattle.stripe_reader.specs.SlotValue.{SlotValue};
ghost use Rattle.stripe_reader.specs.Starts.{StartsValue};
ghost use Rattle.stripe_reader.specs.WindowValue.{WindowValue};

/// Where a folder's files are visible and its count of faults stayed, the slots keep what the files and the starts
/// give.
pub fn a_reading_without_faults_is_what_the_files_give()
    ensures { (shape : Shape) (tasks : List Task) (slots : List SlotValue) (before after : FolderView) →
        ReadsColumn shape tasks slots before after → IsTrue before.tells →
        after.faults ≡ before.faults → before.faults + 1 < 2 ^ 64 →
        slots ≡ map (kept shape) (map (given_by before.tree) tasks) }
{}

/// Some cells of a column, and then others, are all of them one after another.
pub fn readings_follow_one_another()
    ensures { (shape : Shape) (tasks others : List Task) (slots more : List SlotValue) (before mid after : FolderView) →
        ReadsColumn shape tasks slots before mid → ReadsColumn shape others more mid after →
        ReadsColumn shape (tasks ++ others) (slots ++ more) before after }
{}

/// What was fetched into a window and then hashed is what was read.
pub fn what_is_fetched_and_hashed_is_read()
    ensures { (table : TableValue) (starts : StartsValue) (stripes : List ℕ) (before after : WindowValue)
        (olds news : List FolderView) →
        FetchesWindow table starts stripes before after olds news →
        ReadsWindow table starts stripes before (hashed_window table.shape after) olds news }
{}

/// A window that was read keeps a reading of each cell, and of each column they are those that its folder was read for.
pub fn a_window_keeps_a_reading_of_each_cell()
    ensures { (table : TableValue) (starts : StartsValue) (stripes : List ℕ) (before after : WindowValue)
        (olds news : List FolderView) →
        ReadsWindow table starts stripes before after olds news →
        (columns : List (List CellReading)) × HasReadings table starts stripes after columns olds news }
{}

/// The readings of a window, stripe by stripe: the stripe of each number was read, and its slots keep what was read.
pub fn each_stripe_of_a_window_was_read()
    ensures { (table : TableValue) (starts : StartsValue) (stripes : List ℕ) (window : WindowValue)
        (columns : List (List CellReading)) (olds news : List FolderView) →
        HasReadings table starts stripes window columns olds news → (i : ℕ) → i < length stripes →
        ReadsStripe table starts (get_or stripes i 0) window i (readings_at columns i) olds }
{}

/// A reading is of the cell that the table has there: no block just where there is no cell, and a whole block is bytes,
/// as many as its real length.
pub fn a_reading_is_of_its_cell()
    ensures { (table : TableValue) (starts : StartsValue) (d stripe : ℕ) (reading : CellReading) →
        IsReadingBy (task_at table starts d stripe) reading →
        IsReadingAt table.shape.block_size (cell_view (column_at table.columns d) stripe) reading }
{}

/// What was read of a stripe is bytes, whether the folders are visible or not.
pub fn a_stripe_that_was_read_is_bytes()
    ensures { (table : TableValue) (starts : StartsValue) (stripe : ℕ) (window : WindowValue) (i : ℕ)
        (readings : List CellReading) (folders : List FolderView) →
        ReadsStripe table starts stripe window i readings folders → (d : ℕ) →
        AreBytes (bytes_read (get_or readings d NoBlock)) }
{}
