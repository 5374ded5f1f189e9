// Content that is no content file.
use crate::tests::contents::{LONGER, OTHER_END};
use snap_top_memory::arrays::{Array, EMPTY, LIST, Left, run_over, vault};
use snap_top_memory::cases::{Case, LISTED, plays};
use snap_top_memory::contents::{ONE_FILE, ONE_SHORT};
use snap_top_memory::damage::with_content;
use std::alloc::{AllocError, Global};
use std::test::Fail;
use std::thread::Threads;

const DAMAGED: Case = Case {
    status: 5,
    ..LISTED
};

#[test]
fn damaged_content(rt: HostRuntime) -> Result<(), Fail> {
    static CASES: [Case; 4] = [
        Case {
            put: &[Some(ONE_SHORT)],
            err: "snapraid: content 1 is damaged at byte 95: too short\n",
            ..DAMAGED
        },
        Case {
            put: &[Some(OTHER_END)],
            err: "snapraid: content 1 is damaged at byte 95: wrong digest\n",
            ..DAMAGED
        },
        Case {
            put: &[Some(LONGER)],
            err: "snapraid: content 1 is damaged at byte 127: bytes after the end\n",
            ..DAMAGED
        },
        Case {
            put: &[Some(b"")],
            err: "snapraid: content 1 is damaged at byte 0: too short\n",
            ..DAMAGED
        },
    ];
    plays(&rt, rt.alloc(), &CASES)
}

const TWO_COPIES: Array = Array {
    config: "blocksize 1\nparity p\ncontent content\ncontent copy\ndata d1 d\n",
    copies: 2,
    ..EMPTY
};

#[test]
fn a_line_for_each_damaged_copy(rt: HostRuntime) -> Result<(), Fail> {
    static CASES: [Case; 2] = [
        Case {
            array: TWO_COPIES,
            put: &[Some(ONE_SHORT), Some(b"SNAPRAID")],
            err: "snapraid: content 1 is damaged at byte 95: too short\n\
                  snapraid: content 2 is damaged at byte 0: not a content file\n",
            ..DAMAGED
        },
        Case {
            array: TWO_COPIES,
            put: &[None, Some(b"SNAPRAID")],
            err: "snapraid: content 2 is damaged at byte 0: not a content file\n",
            ..DAMAGED
        },
    ];
    plays(&rt, rt.alloc(), &CASES)
}

// The content of one file with a change: its size, a place and the bytes there; then the place of the first wrong field,
// and what is wrong with it.
static CHANGES: [(usize, usize, &[u8], u64, &str); 12] = [
    (40, 0, &[], 38, "too short"),
    (44, 0, &[], 42, "too short"),
    (127, 7, &[0x09], 7, "unknown version"),
    (127, 8, &[0; 4], 8, "bad value"),
    (127, 35, &[0x00], 35, "bad name"),
    (127, 38, &[0xff; 4], 38, "too many"),
    (127, 44, &[0x2f], 42, "bad path"),
    (127, 45, &[0xff; 8], 45, "too many"),
    (127, 61, &[0x00, 0xca, 0x9a, 0x3b], 61, "bad value"),
    (127, 65, &[0x01], 65, "bad position"),
    (127, 30, &[0x02], 30, "wrong length"),
    (127, 86, &[0x00], 87, "bad value"),
];

fn changed(alloc: Global, size: usize, at: usize, bytes: &[u8]) -> Result<Vec<u8>, AllocError> {
    let (front, rest) = ONE_FILE.split_at(at.min(ONE_FILE.len()));
    let mut file = Vec::new(alloc);
    file.extend_from_slice(front)?;
    file.extend_from_slice(bytes)?;
    if let Some(rest) = rest.get(bytes.len()..) {
        file.extend_from_slice(rest)?;
    }
    file.truncate(size);
    Ok(file)
}

// A list over content of these bytes.
fn listed<R: Threads + Sync>(rt: &R, alloc: Global, bytes: &[u8]) -> Result<Left, Fail> {
    let vault = with_content(vault(alloc, EMPTY)?, 0, Some(bytes))?;
    run_over(rt, alloc, LIST, EMPTY, vault)
}

#[test]
fn the_first_wrong_field_is_said(rt: HostRuntime) -> Result<(), Fail> {
    let alloc = rt.alloc();
    for (size, at, bytes, place, wrong) in &CHANGES {
        let said = format!(in alloc; "snapraid: content 1 is damaged at byte {place}: {wrong}\n")?;
        let file = changed(alloc, *size, *at, bytes)?;
        let left = listed(&rt, alloc, file.as_slice())?;
        assert!(rt; left.is(5, "", said.as_str()), "{said}");
    }
    Ok(())
}
