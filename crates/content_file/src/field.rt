// A field as bytes, without taking memory.
ghost use Rattle.arrayvec.specs.ArrayVec.{array_vec_len};
ghost use Rattle.std.specs.Int.{w16, w32, w64, to_le_bytes};
ghost use Rattle.std.specs.Prelude.{◌≡◌, ◌+◌, ◌∷◌, ◌++◌, [], ◌<◌, ◌≤◌, length};
ghost use Rattle.content_file.specs.Spelling.{short_text, long_text, kind_code, shape_bytes, meta_bytes, hash_bytes, block_bytes, flags, info_bytes};
ghost use Rattle.file_table.specs.Valid.{IsShape, IsBlockSize, HasDigest};

use arrayvec::ArrayVec;
use block_hash::{Digest16, Kind};
use disk_model::Meta;
use file_table::{Block, Info, Mark, Shape};

/// The bytes of one field. The longest has a path of 4,096 bytes behind its length, a size and a stamp.
pub(crate) type Field = ArrayVec<u8, 4118>;

pub(crate) fn put_bytes(field: &mut Field, bytes: &[u8])
    requires { array_vec_len field.old + length bytes.now ≤ 4118 }
    ensures { field.new.items ≡ field.old.items ++ bytes.now }
{
    let _ = field.try_extend_from_slice(bytes);
}

pub(crate) fn put_byte(field: &mut Field, byte: u8)
    requires { array_vec_len field.old + 1 ≤ 4118 }
    ensures { field.new.items ≡ field.old.items ++ byte ∷ [] }
{
    field.push(byte);
}

fn put_u16(field: &mut Field, number: u16)
    requires { array_vec_len field.old + 2 ≤ 4118 }
    ensures { field.new.items ≡ field.old.items ++ to_le_bytes w16 number }
{
    put_bytes(field, &number.to_le_bytes());
}

pub(crate) fn put_u32(field: &mut Field, number: u32)
    requires { array_vec_len field.old + 4 ≤ 4118 }
    ensures bytes { field.new.items ≡ field.old.items ++ to_le_bytes w32 number }
    ensures long { length field.new.items ≡ length field.old.items + 4 }
{
    put_bytes(field, &number.to_le_bytes());
}

fn put_u64(field: &mut Field, number: u64)
    requires { array_vec_len field.old + 8 ≤ 4118 }
    ensures bytes { field.new.items ≡ field.old.items ++ to_le_bytes w64 number }
    ensures long { length field.new.items ≡ length field.old.items + 8 }
{
    put_bytes(field, &number.to_le_bytes());
}

pub(crate) fn put_short_text(field: &mut Field, text: &[u8])
    requires short { length text.now ≤ 255 }
    requires room { array_vec_len field.old + 256 ≤ 4118 }
    ensures text { field.new.items ≡ field.old.items ++ short_text text.now }
    ensures few { length field.new.items ≤ length field.old.items + 256 }
{
    put_byte(field, text.len() as u8);
    put_bytes(field, text);
}

pub(crate) fn put_long_text(field: &mut Field, text: &[u8])
    requires short { length text.now ≤ 4096 }
    requires room { array_vec_len field.old + 4098 ≤ 4118 }
    ensures text { field.new.items ≡ field.old.items ++ long_text text.now }
    ensures few { length field.new.items ≤ length field.old.items + 4098 }
{
    put_u16(field, text.len() as u16);
    put_bytes(field, text);
}

fn code_of(kind: Kind) -> u8
    ensures { result ≡ kind_code kind }
{
    match kind {
        Kind::Md5 => 1,
        Kind::Sha256 => 2,
    }
}

pub(crate) fn put_shape(field: &mut Field, shape: Shape)
    requires shape { IsShape shape }
    requires room { array_vec_len field.old + 22 ≤ 4118 }
    ensures { field.new.items ≡ field.old.items ++ shape_bytes shape }
{
    put_u32(field, shape.block_size / 1024);
    put_byte(field, shape.levels as u8);
    put_byte(field, code_of(shape.kind));
    put_bytes(field, &shape.seed);
}

pub(crate) fn put_meta(field: &mut Field, meta: Meta)
    requires { array_vec_len field.old + 20 ≤ 4118 }
    ensures { field.new.items ≡ field.old.items ++ meta_bytes meta }
{
    put_u64(field, meta.size);
    put_u64(field, meta.stamp.seconds.cast_unsigned());
    put_u32(field, meta.stamp.nanos);
}

fn put_hash(field: &mut Field, hash: Option<Digest16>)
    requires { array_vec_len field.old + 17 ≤ 4118 }
    ensures bytes { field.new.items ≡ field.old.items ++ hash_bytes hash }
    ensures few { length field.new.items ≤ length field.old.items + 17 }
    ensures some { length field.old.items < length field.new.items }
{
    match hash {
        None => put_byte(field, 0),
        Some(digest) => {
            put_byte(field, 1);
            put_bytes(field, &digest.0);
        }
    }
}

pub(crate) fn put_block(field: &mut Field, block: Block)
    requires { array_vec_len field.old + 21 ≤ 4118 }
    ensures bytes { field.new.items ≡ field.old.items ++ block_bytes block }
    ensures few { length field.new.items ≤ length field.old.items + 21 }
    ensures some { length field.old.items < length field.new.items }
{
    put_u32(field, block.position);
    put_hash(field, block.hash);
}

// What is said of a stripe, but for the time of its last check.
fn flags_of(info: Info) -> u8
    ensures { result ≡ flags info }
{
    let bad = if info.bad { 2 } else { 0 };
    let fresh = if info.fresh { 4 } else { 0 };
    match info.mark {
        Mark::Pending => 0,
        Mark::Synced => 1 + bad + fresh,
    }
}

pub(crate) fn put_info(field: &mut Field, info: Info)
    requires { array_vec_len field.old + 9 ≤ 4118 }
    ensures bytes { field.new.items ≡ field.old.items ++ info_bytes info }
    ensures few { length field.new.items ≤ length field.old.items + 9 }
    ensures some { length field.old.items < length field.new.items }
{
    put_byte(field, flags_of(info));
    put_u64(field, info.last);
}
