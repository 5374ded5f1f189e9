// A table's spelling, field by field.
ghost use Rattle.sha2.specs.Sha256.{sha256};
ghost use Rattle.std.specs.List.{flat_map};
ghost use Rattle.std.specs.Prelude.{◌≡◌, ◌≢◌, ◌↔◌, ℕ, ◌+◌, ◌<◌, ◌≤◌, List, [], ◌++◌, drop, length, take, IsTrue};
ghost use Rattle.content_file.specs.Encoding.{IsPlace, IsBody, IsDigestOf, from, field_of, head_of, column_head, record_head, most_blocks_at_once, most_stripes_at_once};
ghost use Rattle.content_file.specs.Spelling.{block_bytes, body, info_bytes, spelling};
ghost use Rattle.file_table.specs.Table.{column_at, record_at};
ghost use Rattle.file_table.specs.Valid.{IsValid};

use crate::TableDigest;
use crate::field::{
    Field, put_block, put_byte, put_bytes, put_info, put_long_text, put_meta, put_shape,
    put_short_text, put_u32,
};
use crate::head::{MAGIC, VERSION};
use crate::place::{MOST_BLOCKS_AT_ONCE, MOST_STRIPES_AT_ONCE, Place};
use file_table::{Block, Table};
use std::marker::Model;

/// The fields of a table that are still to be written, seen as their bytes.
#[derive(Drop)]
pub(crate) struct Remaining<'a> {
    table: &'a Table,
    digest: TableDigest,
    place: Place,
}

impl<'a> Model for Remaining<'a> {
    ghost use Rattle.std.specs.Prelude.{List, ℕ};

    ghost Value = { List ℕ };

    ghost use Rattle.content_file.specs.EncodingState.{left_of, IsUnderway};

    ghost view = { left_of };

    ghost invariant = { IsUnderway };
}

impl<'a> Remaining<'a> {
    pub(crate) fn new(table: &'a Table, digest: TableDigest) -> Remaining<'a>
        requires { IsDigestOf table.now digest }
        ensures { result ≡ spelling table.now }
    {
        Remaining {
            table,
            digest,
            place: Place::Head,
        }
    }

    /// Whether none is left.
    pub(crate) fn is_done(&self) -> bool
        ensures { IsTrue result ↔ (self.now ≡ []) }
    {
        matches!(self.place, Place::End)
    }

    /// The next field in the place of what `field` held: none of its bytes only where none is left.
    pub(crate) fn next(&mut self, field: &mut Field)
        ensures front { self.old ≡ field.new.items ++ self.new }
        ensures some { 0 < length self.old → 0 < length field.new.items }
    {
        field.clear();
        put_next(field, self.table, self.digest, self.place);
        self.place = self.place.after(self.table);
    }
}

// The field of a place.
fn put_next(field: &mut Field, table: &Table, digest: TableDigest, place: Place)
    requires place { IsPlace table.now place }
    requires digest { IsDigestOf table.now digest }
    requires empty { field.old.items ≡ [] }
    ensures field { field.new.items ≡ field_of table.now (sha256 (body table.now)) place }
    ensures some { place ≢ Place.End → 0 < length field.new.items }
{
    match place {
        Place::Digest => put_bytes(field, &digest.0),
        _ => put_field(field, table, place),
    }
}

/// The field of a place, but for the digest.
pub(crate) fn put_field(field: &mut Field, table: &Table, place: Place)
    requires place { IsPlace table.now place }
    requires empty { field.old.items ≡ [] }
    ensures field { field.new.items ≡ field_of table.now [] place }
    ensures some { IsBody place → 0 < length field.new.items }
{
    match place {
        Place::Head => put_head(field, table),
        Place::Column(d) => put_column(field, table, d),
        Place::Record(d, i) => put_record(field, table, d, i),
        Place::Blocks(d, i, k) => put_blocks(field, table.blocks(d, i), k),
        Place::Stripes(s) => put_infos(field, table, s),
        Place::Digest | Place::End => {}
    }
}

// Blocks from this one on.
fn put_blocks(field: &mut Field, blocks: &[Block], first: usize)
    requires block { first < length blocks.now }
    requires empty { field.old.items ≡ [] }
    ensures bytes { field.new.items ≡ flat_map block_bytes (take most_blocks_at_once (drop first blocks.now)) }
    ensures some { 0 < length field.new.items }
{
    let count = (blocks.len() - first).min(MOST_BLOCKS_AT_ONCE);
    for k in 0..count {
        put_block(field, blocks[first + k]);
    }
}

// What is known of the stripes from this one on.
fn put_infos(field: &mut Field, table: &Table, first: u32)
    requires stripe { first < length table.now.infos }
    requires empty { field.old.items ≡ [] }
    ensures bytes { field.new.items ≡ flat_map info_bytes (take most_stripes_at_once (drop first table.now.infos)) }
    ensures some { 0 < length field.new.items }
{
    let count = (table.length() - first).min(MOST_STRIPES_AT_ONCE);
    for k in 0..count {
        put_info(field, table.info(first + k));
    }
}

fn put_head(field: &mut Field, table: &Table)
    requires { field.old.items ≡ [] }
    ensures { field.new.items ≡ head_of table.now }
{
    put_bytes(field, MAGIC);
    put_byte(field, VERSION);
    put_shape(field, table.shape());
    put_u32(field, table.length());
    put_byte(field, table.disks() as u8);
}

fn put_column(field: &mut Field, table: &Table, d: u32)
    requires valid { IsValid table.now }
    requires column { d < length table.now.columns }
    requires empty { field.old.items ≡ [] }
    ensures { field.new.items ≡ column_head table.now d }
{
    put_short_text(field, table.name(d).as_bytes());
    put_u32(field, table.records(d));
}

fn put_record(field: &mut Field, table: &Table, d: u32, i: u32)
    requires column { d < length table.now.columns }
    requires rec { i < length (column_at table.now.columns d).records }
    requires empty { field.old.items ≡ [] }
    ensures { field.new.items ≡ record_head table.now d i }
{
    put_long_text(field, table.path(d, i).as_str().as_bytes());
    put_meta(field, table.meta(d, i));
}
