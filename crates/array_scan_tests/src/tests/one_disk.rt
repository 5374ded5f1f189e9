// Layouts of one column, over a table whose stripes are all synced.
use crate::tests::array::File;
use crate::tests::outcome::{EMPTY, PLAIN, ZERO, is_laid};
use std::test::Fail;

const FOUR: [File; 4] = [("a", 0, 5), ("b", 1, 5), ("c", 1024, 5), ("d", 1025, 5)];

const FOUR_AT_0: [File; 4] = [("a", 0, 0), ("b", 1, 0), ("c", 1024, 0), ("d", 1025, 0)];

const NONE: [File; 0] = [];

const ADDED: [File; 4] = [("a", 0, 5), ("b", 1, 5), ("d", 1025, 5), ("e", 2049, 5)];

const RENAMED: [File; 4] = [("a", 0, 5), ("c", 1024, 5), ("d", 1025, 5), ("z", 1, 5)];

const RENAMED_AT_0: [File; 4] = [("a", 0, 0), ("c", 1024, 0), ("d", 1025, 0), ("z", 1, 0)];

const EMPTY_AT_Y: [File; 4] = [("b", 1, 5), ("c", 1024, 5), ("d", 1025, 5), ("y", 0, 5)];

const EMPTIED: [File; 4] = [("a", 0, 5), ("b", 1, 5), ("c", 1024, 5), ("d", 0, 6)];

const INSIDE: [File; 4] = [("a", 0, 5), ("b", 1, 5), ("c", 1024, 5), ("d/y", 1025, 5)];

const STAMPED: [File; 4] = [("a", 0, 6), ("b", 1, 5), ("c", 1024, 6), ("d", 1025, 5)];

const TWINS: [File; 2] = [("x", 1, 5), ("y", 1, 5)];

const THREE: [File; 3] = [("p", 1, 5), ("q", 1, 5), ("r", 1, 5)];

const ONE: [File; 1] = [("a", 1, 5)];

const NOTHING_AT_A: [File; 1] = [("a", 0, 5)];

const NOTHING_AT_B: [File; 1] = [("b", 0, 5)];

#[test]
fn files_are_added_moved_and_changed(rt: HostRuntime) -> Result<(), Fail> {
    let alloc = rt.alloc();
    assert!(rt;
        is_laid(
            alloc,
            &NONE,
            &FOUR,
            PLAIN,
            "a; b 0; c 1; d 2 3; length 4; pending 0 1 2 3"
        )?,
        "first"
    );
    assert!(rt;
        is_laid(
            alloc,
            &FOUR,
            &FOUR,
            PLAIN,
            "a; b 0; c 1; d 2 3; length 4; pending"
        )?,
        "same"
    );
    assert!(rt;
        is_laid(
            alloc,
            &FOUR,
            &ADDED,
            PLAIN,
            "a; b 0; d 2 3; e 1 4 5; length 6; pending 1 4 5"
        )?,
        "added"
    );
    assert!(rt;
        is_laid(
            alloc,
            &FOUR,
            &STAMPED,
            PLAIN,
            "a; b 0; c 1; d 2 3; length 4; pending 1"
        )?,
        "changed"
    );
    assert!(rt;
        is_laid(
            alloc,
            &TWINS,
            &THREE,
            PLAIN,
            "p 0; q 1; r 2; length 3; pending 2"
        )?,
        "twins"
    );
    Ok(())
}

#[test]
fn files_are_renamed(rt: HostRuntime) -> Result<(), Fail> {
    let alloc = rt.alloc();
    assert!(rt;
        is_laid(
            alloc,
            &FOUR,
            &RENAMED,
            PLAIN,
            "a; c 1; d 2 3; z 0; length 4; pending"
        )?,
        "renamed"
    );
    assert!(rt;
        is_laid(
            alloc,
            &FOUR_AT_0,
            &RENAMED_AT_0,
            PLAIN,
            "a; c 1; d 2 3; z 0; length 4; pending 0"
        )?,
        "no stamps"
    );
    assert!(rt;
        is_laid(
            alloc,
            &FOUR,
            &INSIDE,
            PLAIN,
            "a; b 0; c 1; d/y 2 3; length 4; pending"
        )?,
        "moved"
    );
    Ok(())
}

// An empty file is never moved, so a disk that has no other file lost all of its files by that.
#[test]
fn empty_files_are_renamed(rt: HostRuntime) -> Result<(), Fail> {
    let alloc = rt.alloc();
    for (before, after, way, want) in [
        (
            FOUR.as_slice(),
            EMPTY_AT_Y.as_slice(),
            PLAIN,
            "b 0; c 1; d 2 3; y; length 4; pending",
        ),
        (&NOTHING_AT_A, &NOTHING_AT_B, PLAIN, "Emptied { disk: 0 }"),
        (&NOTHING_AT_A, &NOTHING_AT_B, EMPTY, "b; length 0; pending"),
    ] {
        assert!(rt; is_laid(alloc, before, after, way, want)?, "{want}");
    }
    Ok(())
}

#[test]
fn files_that_are_empty_or_gone_are_refused(rt: HostRuntime) -> Result<(), Fail> {
    let alloc = rt.alloc();
    assert!(rt;
        is_laid(alloc, &FOUR, &EMPTIED, PLAIN, "Zeroed { disk: 0, rec: 3 }")?,
        "empty now"
    );
    assert!(rt;
        is_laid(
            alloc,
            &FOUR,
            &EMPTIED,
            ZERO,
            "a; b 0; c 1; d; length 2; pending"
        )?,
        "forced"
    );
    assert!(rt;
        is_laid(alloc, &ONE, &NONE, PLAIN, "Emptied { disk: 0 }")?,
        "all gone"
    );
    assert!(rt;
        is_laid(alloc, &ONE, &NONE, EMPTY, "length 0; pending")?,
        "forced"
    );
    Ok(())
}
