// A fix of two disks that are lost, of which a call fails, or all from one on, and the next fix.
use crate::tests::arrays::{BEFORE, FIX, FIXED, WHOLE};
use crate::tests::failing::LOST;
use crate::tests::torn::{Written, tear};
use snap_top_memory::arrays::{Array, Disk, Failing, Left, NONE};
use snap_top_memory::cases::{Case, SYNCED, follow, run_after, vault_after};
use snap_top_memory::damage::Damage;
use snap_top_memory::left::{compare_kept, has_bytes};
use snap_top_memory::next::{TORN, WRITTEN, has_failed, run_next};
use std::alloc::Global;
use std::test::Fail;
use std::thread::Threads;

const A: &[u8] = &[0x5a; 1500];

const X: &[u8] = &[0x33; 2049];

const Y: &[u8] = &[0x0f; 3000];

const DISKS: &[Disk] = &[
    &[
        ("a", A, 1, 5),
        ("b/c", b"0123456789", 1, 5),
        ("e", b"", 1, 5),
    ],
    &[("x", X, 1, 5), ("z", b"abcde", 1, 5)],
    &[("y", Y, 1, 5)],
];

// What is synced, a fix of what was lost of it, what the next fix leaves, and a file of a disk that was whole.
struct Story<'a> {
    first: Case<'a>,
    broken: Case<'a>,
    next: Case<'a>,
    whole: (usize, &'a str, &'a [u8]),
}

// What is left: the vault that these bytes pick, and the files with other bytes where they were written.
#[derive(Clone, Copy)]
struct Image<'a> {
    vault: &'a [u8],
    torn: &'a [Written<'a>],
}

const ALL_WRITTEN: Image = Image {
    vault: WRITTEN,
    torn: &[],
};

const TORN_VAULT: Image = Image {
    vault: TORN,
    torn: &[],
};

// Of the several files, one is written whole, and one from its second block on.
const ALL_TORN: Image = Image {
    vault: TORN,
    torn: &[(0, "a", 0), (1, "x", 1024)],
};

const FIRST: Case = Case {
    array: Array {
        disks: DISKS,
        ..WHOLE
    },
    out: "sync: 4 stripes synced, 0 pending\n",
    ..SYNCED
};

// A fix of what was lost, what an earlier fix left, and a file that grew, where a level has a 0 in the place of its
// byte 1,024.
const BROKEN: Case = Case {
    words: FIX,
    array: Array {
        disks: &[
            &[("b/c.unrecoverable", b"0123456789", 7, 5)],
            &[
                ("x.unrecoverable", &[0x33; 1500], 8, 5),
                ("z", b"abcdefghi", 3, 5),
            ],
            &[("y", Y, 1, 5)],
        ],
        ..WHOLE
    },
    damage: Damage::Byte(0, 1024, 0x5a ^ 0x33 ^ 0x0f),
    out: "changed d1:a recorded 1500 1.000000005 found nothing\n\
          changed d1:b/c recorded 10 1.000000005 found nothing\n\
          changed d1:e recorded 0 1.000000005 found nothing\n\
          changed d2:x recorded 2049 1.000000005 found nothing\n\
          changed d2:z recorded 5 1.000000005 found 9 3.000000005\n\
          fixed 0 d1:a 0\n\
          wrong-parity 1 parity\n\
          fixed 1 d1:a 1\n\
          fixed 1 d2:x 1\n\
          fixed-parity 1 parity\n\
          fixed 2 d2:x 2\n\
          restored d1:a\n\
          restored d1:b/c\n\
          restored d1:e\n\
          restored d2:x\n\
          restored d2:z\n\
          fix: 4 blocks and 1 parities fixed, 0 findings left\n",
    keeps: true,
    stays: Some(1),
    ..SYNCED
};

// What the next fix leaves: all as it was synced.
const NEXT: Case = Case {
    words: FIX,
    array: WHOLE,
    keeps: true,
    stays: Some(0),
    left: Some(DISKS),
    ..SYNCED
};

// Several files, some of them of several blocks.
static SEVERAL: Story = Story {
    first: FIRST,
    broken: BROKEN,
    next: NEXT,
    whole: (2, "y", Y),
};

// One file of one block on each disk.
static ONE_EACH: Story = Story {
    first: BEFORE,
    broken: Case {
        keeps: true,
        stays: Some(1),
        ..LOST
    },
    next: FIXED,
    whole: (2, "a", b"\x04"),
};

// More calls than an object gets.
const MANY: u64 = 100;

// Whether the disk that was whole has its bytes, under one of the two names.
fn keeps_whole_disk(alloc: Global, left: &mut Left, story: &Story) -> Result<bool, Fail> {
    let (disk, name, bytes) = story.whole;
    let mut lost = String::from_str(alloc, name)?;
    lost.push_str(".unrecoverable")?;
    Ok(
        has_bytes(alloc, left, disk, name, bytes)?
            || has_bytes(alloc, left, disk, lost.as_str(), bytes)?,
    )
}

// What a fix left of which a call failed: besides the whole disk, the content and the levels but for the wrong one.
fn break_fix<R: Threads + Sync>(
    rt: &R,
    alloc: Global,
    before: Left,
    case: &Case,
    story: &Story,
) -> Result<Left, Fail> {
    let mut before = Some(before);
    let mut given = vault_after(alloc, &mut before, case)?;
    let mut left = run_after(rt, alloc, before, case)?;
    if has_failed(&left) {
        compare_kept(alloc, 0, &mut left, &mut given, case)?;
        if !keeps_whole_disk(alloc, &mut left, story)? {
            return Err("a whole disk is changed".into());
        }
    }
    Ok(left)
}

// Nothing where the calls of a fix were all made, for it to be seen that what fails is none of them. Else it ends as it
// may, so many bytes of files are torn, and the next one restores all.
fn ends<R: Threads + Sync>(
    rt: &R,
    alloc: Global,
    story: &Story,
    failing: Failing,
    image: Image,
) -> Result<Option<usize>, Fail> {
    let before = follow(rt, alloc, 0, None, &story.first)?;
    let mut whole = before.reopened()?;
    let mut case = story.broken;
    case.failing = failing;
    let mut left = break_fix(rt, alloc, before, &case, story)?;
    if !has_failed(&left) {
        if !left.is(0, case.out, "") {
            return Err("it made all its calls, and ended otherwise".into());
        }
        return Ok(None);
    }
    let torn = tear(alloc, &mut left, image.torn)?;
    run_next(rt, alloc, 0, left, &mut whole, &story.next, image.vault)?;
    Ok(Some(torn))
}

// A call fails, and then each after it in its place, until there are no more. It answers how many bytes were torn in all.
fn fail_in_turn<R: Threads + Sync>(
    rt: &R,
    alloc: Global,
    story: &Story,
    first: Failing,
    image: Image,
) -> Result<usize, Fail> {
    let mut failing = first;
    let mut torn = 0usize;
    for _ in 0..MANY {
        match ends(rt, alloc, story, failing, image)? {
            Some(more) => torn = torn.saturating_add(more),
            None => return Ok(torn),
        }
        failing = failing.later();
    }
    Err(Fail::new(format_args!("{first:?} gets more calls")))
}

#[test]
fn wherever_a_fix_stops_the_next_one_restores_all(rt: HostRuntime) -> Result<(), Fail> {
    static STOPS: [Failing; 4] = [
        Failing {
            vault: 1,
            stops: true,
            ..NONE
        },
        Failing {
            folder: 1,
            stops: true,
            ..NONE
        },
        Failing {
            disk: 1,
            folder: 1,
            stops: true,
            ..NONE
        },
        Failing {
            disk: 2,
            folder: 1,
            stops: true,
            ..NONE
        },
    ];
    for first in &STOPS {
        let torn = fail_in_turn(&rt, rt.alloc(), &SEVERAL, *first, ALL_TORN)?;
        if torn == 0 {
            return Err(Fail::new(format_args!("{first:?} tears no file")));
        }
        fail_in_turn(&rt, rt.alloc(), &SEVERAL, *first, TORN_VAULT)?;
        fail_in_turn(&rt, rt.alloc(), &ONE_EACH, *first, TORN_VAULT)?;
        fail_in_turn(&rt, rt.alloc(), &ONE_EACH, *first, ALL_WRITTEN)?;
    }
    Ok(())
}

#[test]
fn whichever_call_of_a_fix_fails_the_next_one_restores_all(rt: HostRuntime) -> Result<(), Fail> {
    static FAULTS: [Failing; 4] = [
        Failing { vault: 1, ..NONE },
        Failing { folder: 1, ..NONE },
        Failing {
            disk: 1,
            folder: 1,
            ..NONE
        },
        Failing {
            disk: 2,
            folder: 1,
            ..NONE
        },
    ];
    for first in &FAULTS {
        fail_in_turn(&rt, rt.alloc(), &SEVERAL, *first, ALL_WRITTEN)?;
    }
    Ok(())
}
