// Damaged files: the first wrong field and its place, in one piece and however the bytes are cut.

use crate::samples::{ONE_FILE, is_one_file};
use content_file::{Damage, DecodeFault, Decoder, Flaw, decode};
use file_table::Table;
use std::alloc::{AllocError, Global};
use std::test::Fail;

// The first bytes, so many, of `ONE_FILE` with others from a place on.
fn changed(alloc: Global, size: usize, at: usize, bytes: &[u8]) -> Result<Vec<u8>, AllocError> {
    let (front, rest) = ONE_FILE.split_at(at.min(127));
    let mut file = Vec::new(alloc);
    file.extend_from_slice(front)?;
    file.extend_from_slice(bytes)?;
    if let Some(rest) = rest.get(bytes.len()..) {
        file.extend_from_slice(rest)?;
    }
    file.truncate(size);
    Ok(file)
}

// What bytes give that come one at a time.
fn by_bytes(alloc: Global, bytes: &[u8]) -> Result<Table, DecodeFault> {
    let Ok(mut decoder) = Decoder::new(alloc) else {
        return Err(DecodeFault::Memory);
    };
    for byte in bytes {
        let _ = decoder.feed(&[*byte]);
    }
    decoder.finish()
}

// What bytes give that come in two pieces.
fn by_two(alloc: Global, bytes: &[u8], cut: usize) -> Result<Table, DecodeFault> {
    let Ok(mut decoder) = Decoder::new(alloc) else {
        return Err(DecodeFault::Memory);
    };
    let (first, second) = bytes.split_at(cut.min(bytes.len()));
    let _ = decoder.feed(first);
    let _ = decoder.feed(second);
    decoder.finish()
}

// A size, a place and the bytes there; then the place of the first wrong field, what is wrong with it, and how that is
// printed.
static HOSTILE: [(usize, usize, &[u8], u64, Flaw, &str); 19] = [
    (0, 0, &[], 0, Flaw::Short, "too short"),
    (40, 0, &[], 38, Flaw::Short, "too short"),
    (44, 0, &[], 42, Flaw::Short, "too short"),
    (127, 0, &[0x73], 0, Flaw::Magic, "not a content file"),
    (127, 7, &[0x09], 7, Flaw::Version, "unknown version"),
    (127, 8, &[0; 4], 8, Flaw::Value, "bad value"),
    (127, 35, &[0x00], 35, Flaw::Name, "bad name"),
    (127, 38, &[0xff; 4], 38, Flaw::Full, "too many"),
    (127, 44, &[0x2f], 42, Flaw::Path, "bad path"),
    (127, 45, &[0xff; 8], 45, Flaw::Full, "too many"),
    (
        127,
        61,
        &[0x00, 0xca, 0x9a, 0x3b],
        61,
        Flaw::Value,
        "bad value",
    ),
    (127, 65, &[0x01], 65, Flaw::Position, "bad position"),
    (127, 30, &[0x02], 30, Flaw::Length, "wrong length"),
    (127, 86, &[0x00], 87, Flaw::Value, "bad value"),
    // a synced stripe with a block that has no hash
    (127, 69, &[0x00, 0x05], 70, Flaw::Hash, "missing hash"),
    // an empty file `a` and another `a`
    (127, 38, TWO_OF_A_NAME, 65, Flaw::Order, "out of order"),
    (127, 126, &[0xd0], 95, Flaw::Digest, "wrong digest"),
    (126, 0, &[], 95, Flaw::Short, "too short"),
    (128, 127, &[0x00], 127, Flaw::Extra, "bytes after the end"),
];

// The records of a column, from their count on.
const TWO_OF_A_NAME: &[u8] = b"\
    \x02\x00\x00\x00\
    \x01\x00\x61\x00\x00\x00\x00\x00\x00\x00\x00\x01\x00\x00\x00\x00\x00\x00\x00\x05\x00\x00\x00\
    \x01\x00\x61";

#[test]
fn the_first_wrong_field_is_named(rt: HostRuntime) -> Result<(), Fail> {
    for (size, at, bytes, offset, why, words) in &HOSTILE {
        let file = changed(rt.alloc(), *size, *at, bytes)?;
        let (offset, why) = (*offset, *why);
        let refused = Some(DecodeFault::Damaged(Damage { offset, why }));
        assert_eq!(rt; why.as_str(), *words);
        assert_eq!(rt; decode(rt.alloc(), file.as_slice()).err(), refused);
        assert_eq!(rt; by_bytes(rt.alloc(), file.as_slice()).err(), refused);
        for cut in 0..file.len() {
            assert_eq!(rt; by_two(rt.alloc(), file.as_slice(), cut).err(), refused);
        }
    }
    Ok(())
}

// Its 127 bytes one at a time, and cut in two at each place: the table is the same as of the whole.
#[test]
fn a_whole_file_in_pieces(rt: HostRuntime) -> Result<(), Fail> {
    assert!(rt; is_one_file(&by_bytes(rt.alloc(), &ONE_FILE)?));
    for cut in 0..128 {
        assert!(rt;
            is_one_file(&by_two(rt.alloc(), &ONE_FILE, cut)?),
            "cut at {cut}"
        );
    }
    Ok(())
}

#[test]
fn a_refusal_is_kept(rt: HostRuntime) -> Result<(), Fail> {
    let mut decoder = Decoder::new(rt.alloc())?;
    let refused = DecodeFault::Damaged(Damage {
        offset: 0,
        why: Flaw::Magic,
    });
    assert_eq!(rt; decoder.feed(b"SNAPRAI"), Err(refused));
    assert_eq!(rt; decoder.feed(&ONE_FILE), Err(refused));
    assert_eq!(rt; decoder.feed(&[]), Err(refused));
    assert_eq!(rt; decoder.finish().err(), Some(refused));
    Ok(())
}
