// A scrub that is stopped after each of its calls of the vault, what it leaves, and the next runs.
use crate::tests::arrays::{BEFORE, FULL, SCRUBBED};
use crate::tests::contents::{FOUR_SCRUBBED, FOUR_SYNCED, ONE_BAD};
use disk_memory::MemVault;
use disk_model::Vault;
use snap_top_memory::arrays::{Array, Left, ONE, SYNC, content, parity, picking, run_over};
use snap_top_memory::cases::{Case, SYNCED, follow, run_after};
use snap_top_memory::contents::ONE_FILE;
use snap_top_memory::left::compare;
use snap_top_memory::next::run_next;
use std::alloc::Global;
use std::test::Fail;
use std::thread::Threads;

/// A scrub, and what it may leave wherever it is stopped.
#[derive(Clone, Copy)]
struct Stops<'a> {
    /// What is synced before.
    before: Case<'a>,
    /// How it ends where it is not stopped, and how the next one does.
    whole: Case<'a>,
    /// What it prints where it is stopped, by how many calls of the vault it makes.
    told: &'a [&'a str],
    /// A content copy before it and after it.
    old: &'a [u8],
    new: &'a [u8],
}

// Stops a scrub after each number of calls, and looks at all that may be left. The call after the last is none.
fn plays_stops<R: Threads + Sync>(rt: &R, alloc: Global, stops: &Stops) -> Result<(), Fail> {
    let mut calls = 0u64;
    for out in stops.told {
        plays_stop(rt, alloc, calls, out, stops)?;
        calls = calls.saturating_add(1);
    }
    let mut left = stopped_after(rt, alloc, calls, stops)?;
    compare(alloc, calls, &mut left, &stops.whole)
}

fn plays_stop<R: Threads + Sync>(
    rt: &R,
    alloc: Global,
    calls: u64,
    out: &str,
    stops: &Stops,
) -> Result<(), Fail> {
    for byte in [0, 1, 0xff] {
        let left = stopped_after(rt, alloc, calls, stops)?;
        if !left.is(3, out, "snapraid: parity or content failed\n") {
            return Err(Fail::new(format_args!("after {calls} calls: status")));
        }
        let choice = picking(alloc, byte)?;
        goes_on(rt, alloc, calls, left, choice.as_slice(), stops)?;
    }
    Ok(())
}

// The scrub, with so many calls of the vault.
fn stopped_after<R: Threads + Sync>(
    rt: &R,
    alloc: Global,
    calls: u64,
    stops: &Stops,
) -> Result<Left, Fail> {
    let before = follow(rt, alloc, calls, None, &stops.before)?;
    let mut case = stops.whole;
    case.failing.vault = calls.saturating_add(1);
    case.failing.stops = true;
    run_after(rt, alloc, Some(before), &case)
}

// What these bytes pick is sound, a sync over it finds nothing to do, and the next scrub ends as one never stopped.
fn goes_on<R: Threads + Sync>(
    rt: &R,
    alloc: Global,
    calls: u64,
    left: Left,
    choice: &[u8],
    stops: &Stops,
) -> Result<(), Fail> {
    let mut whole = follow(rt, alloc, calls, None, &stops.before)?.reopened()?;
    if !is_sound(alloc, &mut whole, &mut left.stopped(choice)?, stops)? {
        return Err(Fail::new(format_args!("after {calls} calls: not sound")));
    }
    let next = run_over(rt, alloc, SYNC, stops.whole.array, left.stopped(choice)?)?;
    if !next.is(0, "sync: 0 stripes synced, 0 pending\n", "") {
        return Err(Fail::new(format_args!("after {calls} calls: next sync")));
    }
    run_next(rt, alloc, calls, left, &mut whole, &stops.whole, choice)
}

// Whether each copy of an image is the old one or the new one, and the levels are as they were.
fn is_sound(
    alloc: Global,
    whole: &mut MemVault,
    image: &mut MemVault,
    stops: &Stops,
) -> Result<bool, Fail> {
    Ok(has_copies(alloc, image, stops)? && has_levels(alloc, whole, image)?)
}

fn has_copies(alloc: Global, image: &mut MemVault, stops: &Stops) -> Result<bool, Fail> {
    for copy in 0..image.copies() {
        let bytes = content(alloc, image, copy)?;
        if bytes.as_slice() != stops.old && bytes.as_slice() != stops.new {
            return Ok(false);
        }
    }
    Ok(true)
}

fn has_levels(alloc: Global, whole: &mut MemVault, image: &mut MemVault) -> Result<bool, Fail> {
    for level in 0..image.levels() {
        let bytes = parity(alloc, whole, level)?;
        if parity(alloc, image, level)?.as_slice() != bytes.as_slice() {
            return Ok(false);
        }
    }
    Ok(true)
}

const SILENT: &str = "silent 0 d1:a 0 recorded c3fcd3d76192e4007dfb496cca67e13b \
                      found cacf602bdc61eaf40bdf96bc73aec2e2\n";

// Two calls look for the content and read it, and four save. The level of a stripe with a rotten block is not read.
#[test]
fn a_stopped_scrub_leaves_the_old_content_or_marks_the_bad_stripe(
    rt: HostRuntime,
) -> Result<(), Fail> {
    static STOPS: Stops = Stops {
        before: SYNCED,
        whole: Case {
            words: FULL,
            array: Array {
                disks: &[&[("a", b"prstuvwxyz", 1, 5)]],
                ..ONE
            },
            status: 1,
            out: "silent 0 d1:a 0 recorded c3fcd3d76192e4007dfb496cca67e13b \
                  found cacf602bdc61eaf40bdf96bc73aec2e2\n\
                  scrub: 1 stripes checked, 1 findings\n",
            stays: Some(0),
            contents: &[ONE_BAD],
            ..SYNCED
        },
        told: &["", "", SILENT, SILENT, SILENT, SILENT],
        old: ONE_FILE,
        new: ONE_BAD,
    };
    plays_stops(&rt, rt.alloc(), &STOPS)
}

// Two calls look for the content and read it, one reads each of two levels, and four save each of three copies.
#[test]
fn a_stopped_scrub_of_three_copies_leaves_each_old_or_new(rt: HostRuntime) -> Result<(), Fail> {
    static STOPS: Stops = Stops {
        before: BEFORE,
        whole: SCRUBBED,
        told: &[
            "",
            "",
            "io-parity 0 parity\nio-parity 0 2-parity\n",
            "io-parity 0 2-parity\n",
            "",
            "",
            "",
            "",
            "",
            "",
            "",
            "",
            "",
            "",
            "",
            "",
        ],
        old: FOUR_SYNCED,
        new: FOUR_SCRUBBED,
    };
    plays_stops(&rt, rt.alloc(), &STOPS)
}
