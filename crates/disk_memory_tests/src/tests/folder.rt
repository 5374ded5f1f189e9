// What a folder in memory holds, what its calls do, and which of them fail.
use crate::tests::play::plays_file;
use crate::tests::steps::Answer::{self, Done, Missing, NotKept};
use crate::tests::steps::FileStep::{
    self, Lists, Look, Make, Reads, Rename, SetSize, SetStamp, Write,
};
use crate::tests::steps::{Failing, NONE, STAMP};
use disk_memory::MemFolder;
use disk_model::{Folder, Meta, Path, Stamp};
use std::alloc::Global;
use std::test::Fail;

const NOTHING: &[u8; 6] = b"\x09\x09\x09\x09\x09\x09";

const OTHER: Stamp = Stamp {
    seconds: -8,
    nanos: 999_999_999,
};

const FOUR: Answer = Answer::Meta(Meta {
    size: 4,
    stamp: STAMP,
});

const SEVEN: Answer = Answer::Meta(Meta {
    size: 7,
    stamp: STAMP,
});

// Whether the folder took the file.
fn puts(alloc: Global, folder: &mut MemFolder, path: &str, text: &str) -> Result<bool, Fail> {
    let path = Path::new(alloc, path)?;
    Ok(folder.put(path, STAMP, text.as_bytes())?)
}

fn removes(folder: &mut MemFolder, path: &Path) -> bool {
    folder.remove(path)
}

#[test]
fn files_are_listed_in_byte_order(rt: HostRuntime) -> Result<(), Fail> {
    static STEPS: [(FileStep, Answer); 1] = [(
        Lists(&[("a!", 2), ("a/b", 3), ("a/c/d", 5), ("a0", 2), ("b", 1)]),
        Done,
    )];
    let alloc = rt.alloc();
    let mut folder = MemFolder::new(alloc, true);
    for path in ["b", "a/c/d", "a0", "a/b", "a!"] {
        assert!(rt; puts(alloc, &mut folder, path, path)?, "{path}");
    }
    for path in ["a", "a/c", "a/b/e", "b/f"] {
        assert!(rt; !puts(alloc, &mut folder, path, "")?, "{path}");
    }
    let path = Path::new(alloc, "a")?;
    plays_file(alloc, &mut folder, &path, &STEPS, NONE)
}

#[test]
fn files_are_looked_at_read_and_removed(rt: HostRuntime) -> Result<(), Fail> {
    static THERE: [(FileStep, Answer); 5] = [
        (Look(false), SEVEN),
        (Look(true), FOUR),
        (Reads(false, 5, 2, b"nt\x09\x09\x09\x09"), Done),
        (Reads(false, 9, 0, NOTHING), Done),
        (Reads(true, 0, 4, b"lost\x09\x09"), Done),
    ];
    static GONE: [(FileStep, Answer); 3] = [
        (Look(false), Missing),
        (Reads(false, 0, 0, NOTHING), Missing),
        (Look(true), FOUR),
    ];
    let alloc = rt.alloc();
    let mut folder = MemFolder::new(alloc, true);
    for (path, text, taken) in [
        ("a", "old", true),
        ("a!", "", true),
        ("a/b", "", false),
        ("a", "content", true),
        ("a.unrecoverable", "lost", true),
    ] {
        assert_eq!(rt; puts(alloc, &mut folder, path, text)?, taken, "{path}");
    }
    let path = Path::new(alloc, "a")?;
    plays_file(alloc, &mut folder, &path, &THERE, NONE)?;
    assert!(rt; removes(&mut folder, &path));
    assert!(rt; !removes(&mut folder, &path));
    plays_file(alloc, &mut folder, &path, &GONE, NONE)?;
    assert_eq!(rt; folder.faults(), 0);
    Ok(())
}

#[test]
fn a_file_is_made_written_cut_stamped_and_renamed(rt: HostRuntime) -> Result<(), Fail> {
    static STEPS: [(FileStep, Answer); 17] = [
        (Write(0, "x"), Missing),
        (SetSize(1), Missing),
        (SetStamp(STAMP), Missing),
        (Rename(true), Missing),
        (Make, Done),
        (Write(2, "xyz"), Done),
        (Make, Done),
        (Reads(false, 0, 5, b"\0\0xyz\x09"), Done),
        (SetSize(3), Done),
        (SetSize(4), Done),
        (SetStamp(STAMP), Done),
        (Look(false), FOUR),
        (Rename(true), Done),
        (Look(false), Missing),
        (Look(true), FOUR),
        (Reads(true, 2, 2, b"x\0\x09\x09\x09\x09"), Done),
        (Rename(false), Done),
    ];
    let alloc = rt.alloc();
    let mut folder = MemFolder::new(alloc, true);
    let path = Path::new(alloc, "a/b")?;
    plays_file(alloc, &mut folder, &path, &STEPS, NONE)?;
    assert_eq!(rt; folder.faults(), 0);
    Ok(())
}

#[test]
fn a_folder_without_stamps_says_so(rt: HostRuntime) -> Result<(), Fail> {
    static STEPS: [(FileStep, Answer); 2] = [(SetStamp(OTHER), NotKept), (Look(false), FOUR)];
    let alloc = rt.alloc();
    let mut folder = MemFolder::new(alloc, false);
    assert!(rt; puts(alloc, &mut folder, "a", "text")?);
    let path = Path::new(alloc, "a")?;
    plays_file(alloc, &mut folder, &path, &STEPS, NONE)
}

// Each call of a folder.
static ROUND: [(FileStep, Answer); 8] = [
    (Lists(&[("a", 4)]), Done),
    (Look(false), FOUR),
    (Reads(false, 0, 4, b"text\x09\x09"), Done),
    (Make, Done),
    (Write(2, "new"), Done),
    (SetSize(7), Done),
    (SetStamp(OTHER), Done),
    (Rename(true), Done),
];

// What the file is after it, by the number of the call that failed.
fn file_after(failing: u64) -> [(FileStep, Answer); 2] {
    let lost = failing != 8;
    let out = match failing {
        5 => b"text\0\0",
        6 => b"tenew\x09",
        _ => b"tenew\0",
    };
    let count = if failing == 6 { 5 } else { 6 };
    let size = if failing == 6 { 5 } else { 7 };
    let stamp = if failing == 7 { STAMP } else { OTHER };
    [
        (Reads(lost, 0, count, out), Done),
        (Look(lost), Answer::Meta(Meta { size, stamp })),
    ]
}

fn fails_at(alloc: Global, call: u64) -> Result<MemFolder, Fail> {
    let mut folder = MemFolder::new(alloc, true);
    puts(alloc, &mut folder, "a", "text")?;
    folder.fail_at(call)?;
    Ok(folder)
}

#[test]
fn each_call_fails_where_it_is_told_to(rt: HostRuntime) -> Result<(), Fail> {
    let alloc = rt.alloc();
    let path = Path::new(alloc, "a")?;
    for call in 1..9u64 {
        let mut folder = fails_at(alloc, call)?;
        let failing = Failing {
            first: call,
            last: call,
        };
        plays_file(alloc, &mut folder, &path, &ROUND, failing)?;
        plays_file(alloc, &mut folder, &path, &file_after(call), NONE)?;
        assert_eq!(rt; folder.faults(), 1, "at call {call}");
    }
    Ok(())
}

fn stops_after(alloc: Global, calls: u64) -> Result<MemFolder, Fail> {
    let mut folder = MemFolder::new(alloc, true);
    puts(alloc, &mut folder, "a", "text")?;
    folder.stop_after(calls);
    Ok(folder)
}

#[test]
fn each_call_after_a_stop_fails(rt: HostRuntime) -> Result<(), Fail> {
    let alloc = rt.alloc();
    let path = Path::new(alloc, "a")?;
    for calls in 0..9u64 {
        let mut folder = stops_after(alloc, calls)?;
        let failing = Failing {
            first: calls + 1,
            last: 8,
        };
        plays_file(alloc, &mut folder, &path, &ROUND, failing)?;
        assert_eq!(rt; folder.faults(), 8 - calls, "after {calls}");
    }
    Ok(())
}
