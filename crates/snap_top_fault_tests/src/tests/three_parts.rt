// A level in three parts of 2,048 bytes: a first sync fills two of them, and a second one the third.
ghost use Rattle.std.specs.Prelude.{[], ◌∷◌, IfOk};
ghost use Rattle.disk_model.specs.Vault.{IsSettled};
ghost use Rattle.disk_memory.specs.Given.{HasNoDraft};
ghost use Rattle.disk_memory.specs.Vault.{vault_view};

use crate::tests::parts::run_joined;
use disk_memory::MemVault;
use disk_model::Vault;
use parity_split::{Shape, SplitVault};
use snap_top_memory::arrays::{Array, EMPTY, Left};
use snap_top_memory::cases::{Case, SYNCED, vault_after};
use snap_top_memory::left::compare;
use std::alloc::Global;
use std::test::Fail;
use std::thread::Threads;

// One level of three parts of 2,048 bytes. The last part holds all the rest.
struct Three;

impl Shape for Three {
    ghost counts = { 3 ∷ [] };

    ghost capacity = { 2048 };
}

// The vault whose one level has these three files.
fn joined(alloc: Global, files: MemVault) -> Result<SplitVault<MemVault, Three>, Fail>
    requires settled { IsSettled (vault_view files) }
    requires drafts { HasNoDraft (vault_view files) }
    ensures settled { IfOk result (λ vault. IsSettled (⟦<SplitVault<MemVault, Three> as Vault>⟧.view vault)) }
    ensures drafts { IfOk result (λ vault. HasNoDraft (⟦<SplitVault<MemVault, Three> as Vault>⟧.view vault)) }
{
    if files.levels() != 3 {
        return Err("not three files".into());
    }
    let parts = vec![in alloc; 3u32]?;
    Ok(SplitVault::new(files, parts, 2048))
}

// Makes a run over the files that the one before left, if there was one, and compares what it left.
fn next_in_three<R: Threads + Sync>(
    rt: &R,
    alloc: Global,
    number: u64,
    mut before: Option<Left>,
    case: &Case,
) -> Result<Left, Fail> {
    let files = vault_after(alloc, &mut before, case)?;
    let mut left = run_joined(rt, alloc, case, joined(alloc, files)?)?;
    compare(alloc, number, &mut left, case)?;
    Ok(left)
}

fn follow_in_three<R: Threads + Sync>(rt: &R, alloc: Global, cases: &[Case]) -> Result<(), Fail> {
    let mut left = None;
    let mut number = 0u64;
    for case in cases {
        left = Some(next_in_three(rt, alloc, number, left, case)?);
        number = number.saturating_add(1);
    }
    Ok(())
}

// Files of no block, of one, of a whole one and of two.
const FIRST: Case = Case {
    array: Array {
        levels: 3,
        disks: &[&[
            ("a", b"", 1, 5),
            ("b", b"1", 1, 5),
            ("c", &[8; 1024], 1, 5),
            ("d", &[7; 1025], 1, 5),
        ]],
        ..EMPTY
    },
    out: "sync: 4 stripes synced, 0 pending\n",
    levels: &[&[b"1", &[8; 1024]], &[&[7; 1024], b"\x07"], &[]],
    ..SYNCED
};

// File `c` is gone, and one of three blocks is added: the first takes the free place, and the others come behind.
const SECOND: Case = Case {
    array: Array {
        levels: 3,
        disks: &[&[
            ("a", b"", 1, 5),
            ("b", b"1", 1, 5),
            ("d", &[7; 1025], 1, 5),
            ("e", &[6; 2049], 1, 5),
        ]],
        ..EMPTY
    },
    out: "sync: 3 stripes synced, 0 pending\n",
    levels: &[
        &[b"1", &[6; 1024]],
        &[&[7; 1024], b"\x07"],
        &[&[6; 1024], b"\x06"],
    ],
    ..SYNCED
};

// The blocks of the parts one after the other are those of a level in one file.
#[test]
fn two_syncs_fill_three_parts_in_order(rt: HostRuntime) -> Result<(), Fail> {
    static CASES: [Case; 3] = [
        FIRST,
        SECOND,
        Case {
            words: &["snapraid", "check", "-c", "FILE"],
            out: "check: 0 findings\n",
            ..SECOND
        },
    ];
    follow_in_three(&rt, rt.alloc(), &CASES)
}
