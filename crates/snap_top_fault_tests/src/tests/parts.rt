// Runs over a level in two parts of 2,048 bytes: where its blocks stand, and what comes of it where a part is lost, or where a
// sync is stopped.
ghost use Rattle.std.specs.Prelude.{[], ◌∷◌, IfOk};
ghost use Rattle.disk_model.specs.Vault.{IsSettled};
ghost use Rattle.disk_memory.specs.Given.{HasNoDraft};
ghost use Rattle.disk_memory.specs.Vault.{vault_view};

use crate::tests::stopping::is_known;
use crate::tests::stops::KNOWN;
use disk_memory::{MemFolder, MemVault};
use disk_model::Vault;
use parity_split::{Shape, SplitVault};
use snap_top::Outcome;
use snap_top_memory::arrays::{
    Array, Disk, FIVE, Left, ONE, Ran, content, folders, limited, parity, picking, run_asked, vault,
};
use snap_top_memory::cases::{Case, SYNCED, follows, vault_after};
use snap_top_memory::contents::{FIVE_PENDING, FIVE_SYNCED, ONE_FILE};
use snap_top_memory::damage::Damage;
use snap_top_memory::left::{Level, compare, compare_left};
use std::alloc::Global;
use std::test::Fail;
use std::thread::Threads;

// One level of two parts of 2,048 bytes. The second part holds all the rest.
struct Two;

impl Shape for Two {
    ghost counts = { 2 ∷ [] };

    ghost capacity = { 2048 };
}

// The vault whose one level has these two files.
fn joined(alloc: Global, files: MemVault) -> Result<SplitVault<MemVault, Two>, Fail>
    requires settled { IsSettled (vault_view files) }
    requires drafts { HasNoDraft (vault_view files) }
    ensures settled { IfOk result (λ vault. IsSettled (⟦<SplitVault<MemVault, Two> as Vault>⟧.view vault)) }
    ensures drafts { IfOk result (λ vault. HasNoDraft (⟦<SplitVault<MemVault, Two> as Vault>⟧.view vault)) }
{
    if files.levels() != 2 {
        return Err("not two files".into());
    }
    let parts = vec![in alloc; 2u32]?;
    Ok(SplitVault::new(files, parts, 2048))
}

// What was left, with the files of the parts as they are.
fn in_files<P: Shape>(ran: Ran<MemFolder, SplitVault<MemVault, P>>) -> Left {
    let Ran {
        outcome,
        opener_faults,
        out,
        err,
    } = ran;
    let Outcome {
        status,
        folders,
        vault,
    } = outcome;
    let vault = match vault {
        Some(vault) => Some(vault.into_base()),
        None => None,
    };
    Ran {
        outcome: Outcome {
            status,
            folders,
            vault,
        },
        opener_faults,
        out,
        err,
    }
}

/// What a run leaves over a level in parts.
pub fn run_joined<R: Threads + Sync, P: Shape>(
    rt: &R,
    alloc: Global,
    case: &Case,
    vault: SplitVault<MemVault, P>,
) -> Result<Left, Fail>
    requires settled { IsSettled (⟦<SplitVault<MemVault, P> as Vault>⟧.view vault) }
    requires drafts { HasNoDraft (⟦<SplitVault<MemVault, P> as Vault>⟧.view vault) }
{
    let folders = folders(alloc, case.array)?;
    Ok(in_files(run_asked(rt, alloc, case.asked(), folders, vault)?))
}

// What a run leaves over a level of these two files.
fn run_in_parts<R: Threads + Sync>(
    rt: &R,
    alloc: Global,
    case: &Case,
    files: MemVault,
) -> Result<Left, Fail>
    requires settled { IsSettled (vault_view files) }
    requires drafts { HasNoDraft (vault_view files) }
{
    run_joined(rt, alloc, case, joined(alloc, files)?)
}

// Makes each run over the files that the one before left, with their damage, and compares what it left.
fn follow_in_parts<R: Threads + Sync>(rt: &R, alloc: Global, cases: &[Case]) -> Result<(), Fail> {
    let mut left = None;
    let mut number = 0u64;
    for case in cases {
        left = Some(next_in_parts(rt, alloc, number, left, case)?);
        number = number.saturating_add(1);
    }
    Ok(())
}

fn next_in_parts<R: Threads + Sync>(
    rt: &R,
    alloc: Global,
    number: u64,
    mut before: Option<Left>,
    case: &Case,
) -> Result<Left, Fail> {
    let files = vault_after(alloc, &mut before, case)?;
    let mut left = run_in_parts(rt, alloc, case, files)?;
    compare(alloc, number, &mut left, case)?;
    Ok(left)
}

const IN_PARTS: Array = Array {
    config: "blocksize 1\nparity p\ncontent content\ncontent copy\ndata d1 d\n",
    levels: 2,
    copies: 2,
    ..FIVE
};

// The blocks of the two parts.
const BLOCKS: &[Level] = &[&[b"a", b"b"], &[b"c", b"d", b"e"]];

const DONE: Case = Case {
    array: IN_PARTS,
    out: "sync: 5 stripes synced, 0 pending\n",
    contents: &[FIVE_SYNCED, FIVE_SYNCED],
    levels: BLOCKS,
    ..SYNCED
};

// The five files as they are restored.
const FILES: &[Disk] = &[&[
    ("a", b"a", 1, 5),
    ("b", b"b", 1, 5),
    ("c", b"c", 1, 5),
    ("d", b"d", 1, 5),
    ("e", b"e", 1, 5),
]];

const FIX: &[&str] = &["snapraid", "fix", "-c", "FILE"];

const CHECK: &[&str] = &["snapraid", "check", "-c", "FILE"];

// A block in the second part restores a lost file. Where the second part is lost, its three blocks are missing; where the
// first one is, so is all that stands behind it.
#[test]
fn a_part_that_is_lost_is_made_anew(rt: HostRuntime) -> Result<(), Fail> {
    static CASES: [Case; 6] = [
        DONE,
        Case {
            words: FIX,
            array: Array {
                disks: &[&[
                    ("a", b"a", 1, 5),
                    ("b", b"b", 1, 5),
                    ("d", b"d", 1, 5),
                    ("e", b"e", 1, 5),
                ]],
                ..IN_PARTS
            },
            out: "changed d1:c recorded 1 1.000000005 found nothing\n\
                  fixed 2 d1:c 0\n\
                  restored d1:c\n\
                  fix: 1 blocks and 0 parities fixed, 0 findings left\n",
            left: Some(FILES),
            ..DONE
        },
        Case {
            words: CHECK,
            damage: Damage::Cut([2048, 0, 0]),
            status: 1,
            out: "wrong-parity 2 parity\n\
                  wrong-parity 3 parity\n\
                  wrong-parity 4 parity\n\
                  check: 3 findings\n",
            levels: &[&[b"a", b"b"], &[]],
            ..DONE
        },
        Case {
            words: FIX,
            out: "wrong-parity 2 parity\n\
                  fixed-parity 2 parity\n\
                  wrong-parity 3 parity\n\
                  fixed-parity 3 parity\n\
                  wrong-parity 4 parity\n\
                  fixed-parity 4 parity\n\
                  fix: 0 blocks and 3 parities fixed, 0 findings left\n",
            ..DONE
        },
        Case {
            words: FIX,
            damage: Damage::Cut([0, 3072, 0]),
            out: "wrong-parity 0 parity\n\
                  fixed-parity 0 parity\n\
                  wrong-parity 1 parity\n\
                  fixed-parity 1 parity\n\
                  wrong-parity 2 parity\n\
                  fixed-parity 2 parity\n\
                  wrong-parity 3 parity\n\
                  fixed-parity 3 parity\n\
                  wrong-parity 4 parity\n\
                  fixed-parity 4 parity\n\
                  fix: 0 blocks and 5 parities fixed, 0 findings left\n",
            ..DONE
        },
        Case {
            words: CHECK,
            out: "check: 0 findings\n",
            ..DONE
        },
    ];
    follow_in_parts(&rt, rt.alloc(), &CASES)
}

// The vault has a file for each part. Each but the last of a level may hold almost a gigabyte.
const THREE_FILES: Array = Array {
    config: "blocksize 1\nsplitsize 1\nparity p,q,r\ncontent content\ndata d1 d\n",
    levels: 3,
    ..ONE
};

const IN_THREE: Case = Case {
    array: THREE_FILES,
    contents: &[ONE_FILE],
    levels: &[&[b"qrstuvwxyz"], &[], &[]],
    ..SYNCED
};

#[test]
fn a_part_that_a_configuration_names_is_made_anew(rt: HostRuntime) -> Result<(), Fail> {
    static CASES: [Case; 2] = [
        IN_THREE,
        Case {
            words: FIX,
            damage: Damage::Cut([0, 0, 0]),
            out: "wrong-parity 0 parity\n\
                  fixed-parity 0 parity\n\
                  fix: 0 blocks and 1 parities fixed, 0 findings left\n",
            ..IN_THREE
        },
    ];
    follows(&rt, rt.alloc(), &CASES)
}

// What these bytes pick of what may be left, the two files one after the other.
fn picked(alloc: Global, left: &Left, byte: u8) -> Result<(MemVault, Vec<u8>), Fail>
    ensures settled { IfOk result (λ image. IsSettled (vault_view image.0)) }
    ensures drafts { IfOk result (λ image. HasNoDraft (vault_view image.0)) }
{
    let choice = picking(alloc, byte)?;
    let mut files = left.stopped(choice.as_slice())?;
    let mut level = parity(alloc, &mut files, 0)?;
    level.extend_from_slice(parity(alloc, &mut files, 1)?.as_slice())?;
    Ok((left.stopped(choice.as_slice())?, level))
}

// Whether both copies are such as may be left, with the sums of the stripes that they call synced.
fn is_sound(alloc: Global, files: &mut MemVault, level: &[u8]) -> Result<bool, Fail> {
    let first = content(alloc, files, 0)?;
    let second = content(alloc, files, 1)?;
    Ok(is_known(first.as_slice(), level, KNOWN) && is_known(second.as_slice(), level, KNOWN))
}

// A sync that is stopped after so many calls of the files, and the next one over what is left. Says whether it was stopped.
fn stops<R: Threads + Sync>(rt: &R, alloc: Global, calls: u64, byte: u8) -> Result<bool, Fail> {
    let left = run_in_parts(rt, alloc, &DONE, limited(vault(alloc, IN_PARTS)?, calls))?;
    let (mut files, level) = picked(alloc, &left, byte)?;
    if !is_sound(alloc, &mut files, level.as_slice())? {
        return Err(Fail::new(format_args!("after {calls} calls: not sound")));
    }
    let (files, _) = picked(alloc, &left, byte)?;
    let mut next = run_in_parts(rt, alloc, &DONE, files)?;
    if next.outcome.status != 0 {
        return Err(Fail::new(format_args!("after {calls} calls: next status")));
    }
    compare_left(alloc, calls, &mut next, &DONE)?;
    Ok(left.outcome.status != 0)
}

// Two calls look for copies, eight save, and seven set the length: each part is asked for its length, the second is synced
// before the first is filled, and the first before the second grows. A write takes three calls, the sync two, and the save
// eight.
#[test]
fn the_next_sync_over_two_parts_ends_as_one_never_stopped(rt: HostRuntime) -> Result<(), Fail> {
    for calls in 0..43 {
        for byte in [0, 1, 0xff] {
            let is_stopped = stops(&rt, rt.alloc(), calls, byte)?;
            assert_eq!(rt; is_stopped, calls < 42, "{calls}");
        }
    }
    Ok(())
}

// Whether both copies call all stripes pending, and parity has this byte everywhere.
fn leaves_any(alloc: Global, left: &Left, byte: u8) -> Result<bool, Fail> {
    let (mut files, level) = picked(alloc, left, byte)?;
    Ok(
        level.len() == 5120
            && level.iter().all(|other| *other == byte)
            && content(alloc, &mut files, 0)?.as_slice() == FIVE_PENDING
            && content(alloc, &mut files, 1)?.as_slice() == FIVE_PENDING,
    )
}

// Whether the next sync over it is done, and says just that.
fn all_are_synced_next<R: Threads + Sync>(
    rt: &R,
    alloc: Global,
    left: &Left,
    byte: u8,
) -> Result<bool, Fail> {
    let (files, _) = picked(alloc, left, byte)?;
    Ok(run_in_parts(rt, alloc, &DONE, files)?.is(0, DONE.out, ""))
}

// The 23rd call is the second write.
#[test]
fn a_stop_within_the_second_write_leaves_any_parity_in_both_parts(
    rt: HostRuntime,
) -> Result<(), Fail> {
    let alloc = rt.alloc();
    let left = run_in_parts(&rt, alloc, &DONE, limited(vault(alloc, IN_PARTS)?, 22))?;
    for byte in [1, 0x5a, 0xff] {
        assert!(rt; leaves_any(alloc, &left, byte)?, "{byte}");
        assert!(rt; all_are_synced_next(&rt, alloc, &left, byte)?, "{byte}");
    }
    Ok(())
}
