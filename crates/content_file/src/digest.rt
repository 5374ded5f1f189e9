// The digest of a table.
ghost use Rattle.std.specs.Prelude.{};
ghost use Rattle.content_file.specs.Encoding.{IsDigestOf};

use crate::field::Field;
use crate::place::Place;
use crate::remaining::put_field;
use arrayvec::ArrayVec;
use file_table::Table;
use sha2::{Digest, Sha256};

/// The SHA-256 of a table's fields, which a content file has behind them.
#[derive(Clone, Copy, Debug, PartialEq, Eq)]
pub struct TableDigest(pub [u8; 32]);

impl TableDigest {
    /// The digest of a table. It takes no memory.
    pub fn of(table: &Table) -> TableDigest
        ensures { IsDigestOf table.now result }
    {
        let mut hasher = Sha256::new();
        let mut field: Field = ArrayVec::new();
        let mut place = Place::Head;
        while !matches!(place, Place::Digest | Place::End) {
            field.clear();
            put_field(&mut field, table, place);
            hasher.update(field.as_slice());
            place = place.after(table);
        }
        TableDigest(hasher.finalize())
    }
}
