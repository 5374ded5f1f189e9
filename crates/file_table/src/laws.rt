//! What follows from the definitions of cells and views, and of stripes that are closed. The calls do
//! nothing: their contracts are laws.
ghost use Rattle.std.specs.Prelude.{◌≡◌, ◌≢◌, ◌<◌, ℕ, List, Option, None, Some, AllPairs, Contains, length};
ghost use Rattle.std.specs.Option.{option_map};
ghost use Rattle.block_hash.specs.declared.Digest16.{Digest16};
ghost use Rattle.file_table.specs.declared.block.Cell.{Cell};
ghost use Rattle.file_table.specs.declared.info.Info.{Info};
ghost use Rattle.file_table.specs.Table.{Column, TableValue, IsAt, column_blocks, positions_of};
ghost use Rattle.file_table.specs.Closing.{Closing, closed, AreApart, IsNoneOf, closed_view, DiffersInHashesAndInfos};
ghost use Rattle.file_table.specs.Cells.{cell_in, cell_view, closed_at, column_closed, seen_with, stripe_view};

/// The cell of a column at a position is a block that stands there, and the only one where no two blocks of
/// the column stand at one position. Where no block stands there, it is none.
pub fn a_cell_stands_at_its_position()
    ensures found { (column : Column) (position : ℕ) (cell : Cell) →
        cell_in column position ≡ Some cell → IsAt column position cell.rec cell.index }
    ensures none { (column : Column) (position : ℕ) →
        cell_in column position ≡ None → (i index : ℕ) → ¬ (IsAt column position i index) }
    ensures only { (column : Column) (position : ℕ) (cell : Cell) →
        AllPairs (λ a b. a ≢ b) (positions_of (column_blocks column)) →
        IsAt column position cell.rec cell.index → cell_in column position ≡ Some cell }
{}

/// Closing a stripe, its hashes and its info together, leaves what is seen of every other one.
pub fn closing_a_stripe_leaves_the_others()
    ensures { (table : TableValue) (stripe other : ℕ) (info : Info)
        (hashes : List (Option Digest16)) → other ≢ stripe →
        stripe_view (closed_at stripe hashes info table) other ≡ stripe_view table other }
{}

/// Of the stripe that is closed, a cell that is given a hash is seen with it, and else as before.
pub fn closing_a_stripe_gives_its_hashes()
    ensures { (column : Column) (stripe : ℕ) (hash : Digest16) →
        cell_view (column_closed stripe (Some hash) column) stripe
        ≡ option_map (seen_with hash) (cell_view column stripe) }
{}

/// Stripes that are closed, one after another, leave shape, names, paths, sizes, stamps, positions, cells and the
/// numbers of columns, records, blocks and stripes: hashes and infos alone change.
pub fn closing_changes_hashes_and_infos_alone()
    ensures { (table : TableValue) (closings : List Closing) →
        DiffersInHashesAndInfos table (closed closings table) }
{}

/// A stripe that is none of those that are closed is seen as before.
pub fn closed_stripes_leave_the_others()
    ensures { (table : TableValue) (closings : List Closing) (stripe : ℕ) → IsNoneOf stripe closings →
        stripe_view (closed closings table) stripe ≡ stripe_view table stripe }
{}

/// A stripe that is closed once is seen with the info and the hashes that it was closed with.
pub fn a_closed_stripe_has_its_hashes_and_info()
    ensures { (table : TableValue) (closings : List Closing) (closing : Closing) →
        AreApart closings → Contains closings closing → closing.stripe < length table.infos →
        stripe_view (closed closings table) closing.stripe
        ≡ closed_view closing (stripe_view table closing.stripe) }
{}
