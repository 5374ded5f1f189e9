// Runs as tables.
ghost use Rattle.std.specs.Prelude.{IfOk};
ghost use Rattle.disk_model.specs.Vault.{IsSettled};
ghost use Rattle.disk_memory.specs.Given.{HasNoDraft};
ghost use Rattle.disk_memory.specs.Vault.{vault_view};

use crate::tests::disks::{Change, Disk, Fault, File, Runs, Scene, are, folders, has_just};
use disk_memory::{MemVault, ScriptedFolder};
use snap_top_memory::arrays::{EMPTY, Ran, SYNC, run_with, vault};
use std::alloc::Global;
use std::test::Fail;
use std::thread::Threads;

const CONFIG: &str = "blocksize 1\nparity p\ncontent content\ndata d1 d\ndata d2 e\n";

/// Blocks of which a window has sixteen.
pub const LARGE: &str = "blocksize 64\nparity p\ncontent content\ndata d1 d\ndata d2 e\n";

const CHECK: &[&str] = &["snapraid", "check", "-c", "FILE"];

/// Three blocks on each disk, the last of the first one shorter.
pub const A: File = ("a", &[(1, 1024), (2, 1024), (3, 952)], 1);

pub const B: File = ("b", &[(0x10, 1024), (0x20, 1024), (0x30, 1024)], 1);

/// The block behind them.
pub const K: File = ("k", &[(8, 100)], 1);

pub const WHOLE: &[Disk] = &[&[A, K], &[B]];

/// The level of these disks.
pub const SUMS: Runs = &[
    (0x11, 1024),
    (0x22, 1024),
    (0x33, 952),
    (0x30, 72),
    (8, 100),
    (0, 924),
];

/// One large block more than a window has.
pub const WIDE: &[Disk] = &[
    &[("a", &[(1, 1048576), (2, 65536)], 1)],
    &[("b", &[(0x10, 1048576), (0x20, 65536)], 1)],
];

pub const WIDE_SUMS: Runs = &[(0x11, 1048576), (0x22, 65536)];

/// A run over two disks, and what it leaves.
#[derive(Clone, Copy)]
pub struct Case<'a> {
    pub config: &'a str,
    /// What is synced before; nothing where there is no disk.
    pub synced: &'a [Disk<'a>],
    pub words: &'a [&'a str],
    /// As they are when they are listed.
    pub disks: &'a [Disk<'a>],
    /// What happens to the files of the first disk.
    pub script: &'a [Change<'a>],
    pub fault: Fault,
    pub status: u8,
    pub out: &'a str,
    /// The files of the first disk after it.
    pub left: Disk<'a>,
    /// The level after it.
    pub level: Runs<'a>,
    /// What these words print then over these disks, where nothing changes.
    pub next: &'a [&'a str],
    pub later: &'a [Disk<'a>],
    pub checked: &'a str,
}

/// A first sync, at which nothing happens.
pub const SYNCED: Case = Case {
    config: CONFIG,
    synced: &[],
    words: SYNC,
    disks: WHOLE,
    script: &[],
    fault: (0, 0),
    status: 0,
    out: "sync: 4 stripes synced, 0 pending\n",
    left: &[A, K],
    level: SUMS,
    next: CHECK,
    later: WHOLE,
    checked: "check: 0 findings\n",
};

/// A check after it.
pub const CHECKED: Case = Case {
    synced: WHOLE,
    words: CHECK,
    out: "check: 0 findings\n",
    ..SYNCED
};

type Left = Ran<ScriptedFolder, MemVault>;

/// Makes each run, and compares what it left.
pub fn plays<R: Threads + Sync>(rt: &R, alloc: Global, cases: &[Case]) -> Result<(), Fail> {
    let mut number = 0u64;
    for case in cases {
        play(rt, alloc, number, case)?;
        number = number.saturating_add(1);
    }
    Ok(())
}

fn play<R: Threads + Sync>(rt: &R, alloc: Global, number: u64, case: &Case) -> Result<(), Fail> {
    let vault = vault_before(rt, alloc, case)?;
    let mut left = run_case(rt, alloc, case, vault)?;
    compare(alloc, number, case, &mut left)?;
    check(rt, alloc, number, case, &left)
}

// The vault that a run is made over.
fn vault_before<R: Threads + Sync>(rt: &R, alloc: Global, case: &Case) -> Result<MemVault, Fail>
    ensures settled { IfOk result (λ vault. IsSettled (vault_view vault)) }
    ensures drafts { IfOk result (λ vault. HasNoDraft (vault_view vault)) }
{
    let first = vault(alloc, EMPTY)?;
    if case.synced.is_empty() {
        return Ok(first);
    }
    run_calm(rt, alloc, case.config, SYNC, case.synced, first)?.reopened()
}

// Runs words over disks where nothing happens.
fn run_calm<R: Threads + Sync>(
    rt: &R,
    alloc: Global,
    config: &str,
    words: &[&str],
    disks: &[Disk],
    vault: MemVault,
) -> Result<Left, Fail>
    requires settled { IsSettled (vault_view vault) }
    requires drafts { HasNoDraft (vault_view vault) }
{
    let scene = Scene {
        disks,
        script: &[],
        fault: (0, 0),
    };
    let folders = folders(alloc, scene)?;
    run_with(rt, alloc, words, config, folders, vault)
}

fn run_case<R: Threads + Sync>(
    rt: &R,
    alloc: Global,
    case: &Case,
    vault: MemVault,
) -> Result<Left, Fail>
    requires settled { IsSettled (vault_view vault) }
    requires drafts { HasNoDraft (vault_view vault) }
{
    let scene = Scene {
        disks: case.disks,
        script: case.script,
        fault: case.fault,
    };
    let folders = folders(alloc, scene)?;
    run_with(rt, alloc, case.words, case.config, folders, vault)
}

// Fails where a run left something else than a case says.
fn compare(alloc: Global, number: u64, case: &Case, left: &mut Left) -> Result<(), Fail> {
    if !left.is(case.status, case.out, "") {
        let status = left.outcome.status;
        return Err(Fail::new(format_args!("case {number}: status {status}")));
    }
    if !are(left.parity(alloc, 0)?.as_slice(), case.level) {
        return Err(Fail::new(format_args!("case {number}: parity")));
    }
    if !has_left(alloc, left, case.left)? {
        return Err(Fail::new(format_args!("case {number}: files")));
    }
    Ok(())
}

// Whether the first disk has just these files.
fn has_left(alloc: Global, left: &mut Left, files: Disk) -> Result<bool, Fail> {
    match left.outcome.folders.first_mut() {
        Some(folder) => has_just(alloc, folder, files),
        None => Ok(false),
    }
}

// Fails where the next run prints something else.
fn check<R: Threads + Sync>(
    rt: &R,
    alloc: Global,
    number: u64,
    case: &Case,
    left: &Left,
) -> Result<(), Fail> {
    let again = left.reopened()?;
    let checked = run_calm(rt, alloc, case.config, case.next, case.later, again)?;
    if checked.out.bytes() != case.checked.as_bytes() {
        return Err(Fail::new(format_args!("case {number}: next run")));
    }
    Ok(())
}
