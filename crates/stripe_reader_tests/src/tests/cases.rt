// What may be found of a cell: a table of cases, each a column of one window.
use super::scene::{STAMP, folder, read, seen, table};
use disk_memory::MemFolder;
use disk_model::{Meta, Stamp};
use std::alloc::Global;
use std::test::Fail;
use stripe_reader::{CellRead, Found, Place, Start, Starts};

// A column whose file `a` of ten bytes, or of none, has its block at the first stripe.
struct Case {
    name: &'static str,
    size: u64,
    start: Start,
    // The file that is there, with the seconds of its stamp.
    file: &'static str,
    seconds: i64,
    bytes: &'static [u8],
    // The call that fails; 0 means none.
    fails: u64,
    found: Found,
    got: u32,
    // The size that was seen, if any.
    seen: Option<u64>,
}

const HERE: Start = Start {
    place: Place::Plain,
    size: 10,
};

const LOST: Start = Start {
    place: Place::Lost,
    size: 10,
};

const WHOLE: Case = Case {
    name: "the file as it was recorded",
    size: 10,
    start: HERE,
    file: "a",
    seconds: 1,
    bytes: b"qrstuvwxyz",
    fails: 0,
    found: Found::Bytes,
    got: 10,
    seen: Some(10),
};

const NOTHING: Case = Case {
    found: Found::Missing,
    got: 0,
    seen: None,
    ..WHOLE
};

const CASES: [Case; 14] = [
    WHOLE,
    Case {
        name: "no block at the stripe",
        size: 0,
        found: Found::Empty,
        ..NOTHING
    },
    Case {
        name: "nowhere at the start, though it is there now",
        start: Start {
            place: Place::Nowhere,
            size: 10,
        },
        ..NOTHING
    },
    Case {
        name: "shorter at the start, though it is whole now",
        start: Start {
            place: Place::Plain,
            size: 9,
        },
        found: Found::Short,
        ..NOTHING
    },
    Case {
        name: "shorter at the start, and no call is made that could fail",
        start: Start {
            place: Place::Lost,
            size: 9,
        },
        fails: 1,
        found: Found::Short,
        ..NOTHING
    },
    Case {
        name: "the look fails",
        fails: 1,
        found: Found::Unread,
        ..NOTHING
    },
    Case {
        name: "the reading fails after the look",
        fails: 2,
        found: Found::Unread,
        seen: Some(10),
        ..NOTHING
    },
    Case {
        name: "gone",
        file: "b",
        ..NOTHING
    },
    Case {
        name: "gone under the other name",
        start: LOST,
        ..NOTHING
    },
    Case {
        name: "under the other name",
        start: LOST,
        file: "a.unrecoverable",
        ..WHOLE
    },
    Case {
        name: "shorter now",
        bytes: b"qrstu",
        found: Found::Short,
        got: 5,
        seen: Some(5),
        ..WHOLE
    },
    Case {
        name: "empty now",
        bytes: b"",
        found: Found::Short,
        got: 0,
        seen: Some(0),
        ..WHOLE
    },
    Case {
        name: "longer now, at the start and of another stamp",
        start: Start {
            place: Place::Plain,
            size: 12,
        },
        seconds: 7,
        bytes: b"qrstuvwxyz12",
        seen: Some(12),
        ..WHOLE
    },
    Case {
        name: "of another stamp",
        seconds: 7,
        ..WHOLE
    },
];

// A last column has a block at each stripe.
const LAST: [u8; 3000] = [7; 3000];

fn folders(alloc: Global) -> Result<Vec<MemFolder>, Fail> {
    let mut folders = Vec::new(alloc);
    for case in &CASES {
        let mut one = folder(alloc, case.file, case.seconds, case.bytes)?;
        one.fail_at(case.fails)?;
        folders.push(one)?;
    }
    folders.push(folder(alloc, "a", 1, &LAST)?)?;
    Ok(folders)
}

fn starts(alloc: Global) -> Result<Starts, Fail> {
    let mut columns = Vec::new(alloc);
    for case in &CASES {
        let mut column = Vec::new(alloc);
        if case.size > 0 {
            column.push(case.start)?;
        }
        columns.push(column)?;
    }
    let last = Start {
        place: Place::Plain,
        size: 3000,
    };
    columns.push(vec![in alloc; last]?)?;
    Ok(Starts { columns })
}

fn wanted(case: &Case) -> CellRead {
    CellRead {
        found: case.found,
        got: case.got,
        seen: match case.seen {
            Some(size) => Some(Meta {
                size,
                stamp: Stamp {
                    seconds: case.seconds,
                    ..STAMP
                },
            }),
            None => None,
        },
    }
}

// Whether a block has these bytes, and zeros behind them.
fn is_padded(block: &[u8], bytes: &[u8]) -> bool {
    block.starts_with(bytes)
        && block[bytes.len().min(block.len())..]
            .iter()
            .all(|byte| *byte == 0)
}

#[test]
fn the_first_case_that_holds_decides(rt: HostRuntime) -> Result<(), Fail> {
    let alloc = rt.alloc();
    let mut sizes = Vec::new(alloc);
    for case in &CASES {
        sizes.push(case.size)?;
    }
    sizes.push(3000)?;
    let table = table(alloc, sizes.as_slice())?;
    for readers in [1, 4, 16] {
        let mut folders = folders(alloc)?;
        let window = read(
            &rt,
            alloc,
            folders.as_mut_slice(),
            &table,
            &starts(alloc)?,
            readers,
        )?;
        let mut d = 0u32;
        for case in &CASES {
            let Some((cell, digest, block)) = seen(&window, &table, 0, d) else {
                return Err(Fail::new(format_args!("no cell: {}", case.name)));
            };
            assert_eq!(rt; cell, wanted(case), "{}", case.name);
            // The alphabet, as the suite of RFC 1321 has it: the seed is its front.
            let text = match digest {
                Some(digest) => format!(in alloc; "{digest}")?,
                None => String::new(alloc),
            };
            let is_whole = case.found == Found::Bytes;
            let want = if is_whole {
                "c3fcd3d76192e4007dfb496cca67e13b"
            } else {
                ""
            };
            assert_eq!(rt; text.as_str(), want, "{}", case.name);
            let bytes: &[u8] = if is_whole { b"qrstuvwxyz" } else { b"" };
            assert!(rt; is_padded(block, bytes), "{}", case.name);
            d = d.saturating_add(1);
        }
        for i in 0..3 {
            let Some((cell, _, block)) = seen(&window, &table, i, d) else {
                return Err(Fail::new(format_args!("no cell at stripe {i}")));
            };
            assert_eq!(rt; cell.found, Found::Bytes);
            assert!(rt; is_padded(block, if i < 2 { &LAST[..1024] } else { &LAST[..952] }));
        }
    }
    Ok(())
}
