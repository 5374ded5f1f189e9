//! What follows for the format as a whole. The calls do nothing: their contracts are laws.
ghost use Rattle.std.specs.Prelude.{◌≡◌, ◌≢◌, ◌↔◌, ℕ, ◌<◌, ◌≤◌, List, [], ◌++◌, length, All, Option, None, Some};
ghost use Rattle.std.specs.List.{flat_map, range_with_len};
ghost use Rattle.file_table.specs.Table.{TableValue};
ghost use Rattle.file_table.specs.Valid.{IsValid};
ghost use Rattle.content_file.specs.FirstFlaw.{first_flaw, read_content};
ghost use Rattle.content_file.specs.Flaw.{Damage, Good, Short};
ghost use Rattle.content_file.specs.Save.{piece_of, piece_count};
ghost use Rattle.content_file.specs.Spelling.{spelling, HoldsTable, IsContent, Spells};

/// No spelling begins another: one that stands at the front of bytes tells its table, and where it ends.
pub fn no_spelling_begins_another()
    ensures { (a b : TableValue) (x : List ℕ) → IsValid a → IsValid b →
        spelling b ≡ spelling a ++ x → (a ≡ b) × (x ≡ []) }
{}

/// Two tables that one copy holds are one table.
pub fn one_table_has_a_spelling()
    ensures { (a b : TableValue) (held : Option (List ℕ)) → IsValid a → IsValid b →
        HoldsTable a held → HoldsTable b held → a ≡ b }
{}

/// Two tables that the same bytes spell are one table. A table is spelled by its spelling, and held where the bytes that
/// are there spell it.
pub fn bytes_spell_one_table()
    ensures one { (a b : TableValue) (bytes : List ℕ) → IsValid a → IsValid b →
        Spells a bytes → Spells b bytes → a ≡ b }
    ensures spelled { (table : TableValue) → Spells table (spelling table) }
    ensures held { (table : TableValue) (bytes : List ℕ) → HoldsTable table (Some bytes) ↔ Spells table bytes }
    ensures absent { (table : TableValue) → ¬ (HoldsTable table None) }
{}

/// From bytes that begin with a spelling, the table and the rest are known.
pub fn a_spelling_tells_its_end()
    ensures { (a b : TableValue) (x y : List ℕ) → IsValid a → IsValid b →
        spelling a ++ x ≡ spelling b ++ y → (a ≡ b) × (x ≡ y) }
{}

/// Bytes, numbers below 256, have a first wrong field exactly where they are no content file.
pub fn only_content_has_no_flaw()
    ensures { (bytes : List ℕ) → All (λ byte. byte < 256) bytes → (first_flaw bytes ≡ None ↔ IsContent bytes) }
{}

/// Reading field by field gives a table that the bytes spell, and each table from its spelling.
pub fn reading_gives_the_table()
    ensures read { (bytes : List ℕ) (table : TableValue) → All (λ byte. byte < 256) bytes →
        read_content bytes ≡ Good table → IsValid table × Spells table bytes }
    ensures spelled { (table : TableValue) → IsValid table → read_content (spelling table) ≡ Good table }
{}

/// A wrong field stays the first one whatever follows the bytes, unless it was cut off.
pub fn a_flaw_stays()
    ensures { (bytes more : List ℕ) (damage : Damage) → All (λ byte. byte < 256) bytes →
        first_flaw bytes ≡ Some damage → damage.why ≢ Short → first_flaw (bytes ++ more) ≡ Some damage }
{}

/// The pieces in which bytes are saved are these bytes one after another, and each has at least one and at most the size.
pub fn pieces_are_the_bytes()
    ensures joined { (size : ℕ) (bytes : List ℕ) → 0 < size → flat_map (piece_of size bytes) (range_with_len 0 (piece_count size bytes)) ≡ bytes }
    ensures each { (size : ℕ) (bytes : List ℕ) → 0 < size → (n : ℕ) → n < piece_count size bytes →
        (0 < length (piece_of size bytes n)) × (length (piece_of size bytes n) ≤ size) }
{}
