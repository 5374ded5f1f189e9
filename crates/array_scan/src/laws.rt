//! What follows from the definition of the layout. The calls do nothing: their contracts are laws.
ghost use Rattle.std.specs.Prelude.{◌≡◌, List, Bool, None, length};
ghost use Rattle.file_table.specs.Table.{TableValue};
ghost use Rattle.file_table.specs.Valid.{IsValid};
ghost use Rattle.array_scan.specs.Keeping.{KeepsStripes};
ghost use Rattle.folder_listing.specs.Kept.{ListedFile};
ghost use Rattle.array_scan.specs.Layout.{all_sorted, layout};
ghost use Rattle.array_scan.specs.Own.{AreKept, HoldsJust};
ghost use Rattle.array_scan.specs.Refusals.{refusal};

use file_table::laws::a_cell_stands_at_its_position;

/// The layout of a valid table whose records are just the kept files is that table, whatever its hashes and what is
/// known of its stripes, and it is not refused.
pub fn a_table_of_the_kept_files_is_laid_out_as_it_is()
    ensures same { (table : TableValue) (kept : List (List ListedFile)) →
        IsValid table → HoldsJust table kept → layout table kept ≡ table }
    ensures unrefused { (force_zero force_empty : Bool) (table : TableValue) (kept : List (List ListedFile)) →
        IsValid table → HoldsJust table kept →
        refusal force_zero force_empty table (all_sorted table kept) ≡ None }
{}

/// The records of a layout are just the kept files.
pub fn a_layout_is_of_the_kept_files()
    ensures { (table : TableValue) (kept : List (List ListedFile)) →
        length kept ≡ length table.columns → HoldsJust (layout table kept) kept }
{}

/// The layout of a valid table over kept files, as they come from a listing, is a valid table where it is not refused.
pub fn a_layout_is_valid()
    ensures { (force_zero force_empty : Bool) (table : TableValue) (kept : List (List ListedFile)) →
        IsValid table → AreKept table kept →
        refusal force_zero force_empty table (all_sorted table kept) ≡ None →
        IsValid (layout table kept) }
{}

/// Laid out again over the same kept files, a layout that was not refused is the same table. It is not refused either,
/// whatever is forced.
pub fn a_layout_is_laid_out_as_it_is()
    ensures same { (force_zero force_empty : Bool) (table : TableValue) (kept : List (List ListedFile)) →
        IsValid table → AreKept table kept →
        refusal force_zero force_empty table (all_sorted table kept) ≡ None →
        layout (layout table kept) kept ≡ layout table kept }
    ensures unrefused { (force_zero force_empty : Bool) (table : TableValue) (kept : List (List ListedFile)) →
        IsValid table → AreKept table kept →
        refusal force_zero force_empty table (all_sorted table kept) ≡ None →
        (zero_forced empty_forced : Bool) →
        refusal zero_forced empty_forced (layout table kept) (all_sorted (layout table kept) kept) ≡ None }
{}

/// What a layout calls synced was so, with blocks of the same lengths and hashes.
pub fn a_layout_keeps_its_stripes()
    ensures { (table : TableValue) (kept : List (List ListedFile)) →
        IsValid table → KeepsStripes (layout table kept) table }
{
    a_cell_stands_at_its_position();
}
