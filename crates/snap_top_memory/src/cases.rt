// Runs as tables: what each is made over, and what it leaves.
ghost use Rattle.std.specs.Prelude.{IfOk};
ghost use Rattle.disk_model.specs.Vault.{IsSettled};
ghost use Rattle.disk_memory.specs.Given.{HasNoDraft};
ghost use Rattle.disk_memory.specs.Vault.{vault_view};

use crate::arrays::{
    Array, Asked, Disk, EMPTY, Failing, LIST, Left, NONE, NOW, ONE, SYNC, calls_before,
    failing_vault, folder, run_told, vault,
};
use crate::damage::{Copied, Damage, damaged, with_contents};
use crate::left::{Level, compare, compare_kept};
use disk_memory::{MemFolder, MemVault};
use snap_report::Report;
use std::alloc::Global;
use std::test::Fail;
use std::thread::Threads;

/// A run over an array, and what it leaves.
#[derive(Clone, Copy)]
pub struct Case<'a> {
    pub words: &'a [&'a str],
    pub array: Array<'a>,
    /// When it is made, in seconds since 1970.
    pub now: u64,
    /// The first content copies, written anew before the run; at most two.
    pub put: &'a [Copied<'a>],
    /// What becomes of what the run before left, before this one.
    pub damage: Damage,
    pub failing: Failing,
    pub status: u8,
    pub out: &'a str,
    pub err: &'a str,
    /// Whether the opener gave its folders and its vault.
    pub is_opened: bool,
    /// Whether the first content copy stays as it was before the run.
    pub keeps: bool,
    /// The levels from this one on stay as they were before the run, with their damage.
    pub stays: Option<u32>,
    /// The first content copies after the run, as bytes; no byte where there is none.
    pub contents: &'a [&'a [u8]],
    /// The first levels after the run.
    pub levels: &'a [Level<'a>],
    /// All files of the disks after the run, where they are looked at.
    pub left: Option<&'a [Disk<'a>]>,
}

impl<'a> Case<'a> {
    /// What is run.
    pub fn asked(&self) -> Asked<'a> {
        Asked {
            words: self.words,
            config: self.array.config,
            now: self.now,
        }
    }
}

/// A sync of one file, of which nothing more is looked at.
pub const SYNCED: Case = Case {
    words: SYNC,
    array: ONE,
    now: NOW,
    put: &[],
    damage: Damage::Nothing,
    failing: NONE,
    status: 0,
    out: "sync: 1 stripes synced, 0 pending\n",
    err: "",
    is_opened: true,
    keeps: false,
    stays: None,
    contents: &[],
    levels: &[],
    left: None,
};

/// A list over nothing, that prints nothing.
pub const LISTED: Case = Case {
    words: LIST,
    array: EMPTY,
    out: "",
    ..SYNCED
};

/// Makes each run over an array without parity and content, and compares what it left.
pub fn plays<R: Threads + Sync>(rt: &R, alloc: Global, cases: &[Case]) -> Result<(), Fail> {
    let mut number = 0u64;
    for case in cases {
        play(rt, alloc, number, case)?;
        number = number.saturating_add(1);
    }
    Ok(())
}

fn play<R: Threads + Sync>(rt: &R, alloc: Global, number: u64, case: &Case) -> Result<(), Fail> {
    let mut left = run_case(rt, alloc, case, vault(alloc, case.array)?)?;
    compare(alloc, number, &mut left, case)
}

/// The same, where each run but the first is made over the vault that the one before left, opened anew.
pub fn follows<R: Threads + Sync>(rt: &R, alloc: Global, cases: &[Case]) -> Result<(), Fail> {
    let mut left = None;
    let mut number = 0u64;
    for case in cases {
        left = Some(follow(rt, alloc, number, left, case)?);
        number = number.saturating_add(1);
    }
    Ok(())
}

/// The same, where each run is made over the vault that a first one left.
pub fn each_follows<R: Threads + Sync>(
    rt: &R,
    alloc: Global,
    first: &Case,
    cases: &[Case],
) -> Result<(), Fail> {
    let mut number = 0u64;
    for case in cases {
        follow_first(rt, alloc, number, first, case)?;
        number = number.saturating_add(1);
    }
    Ok(())
}

fn follow_first<R: Threads + Sync>(
    rt: &R,
    alloc: Global,
    number: u64,
    first: &Case,
    case: &Case,
) -> Result<Left, Fail> {
    let left = follow(rt, alloc, number, None, first)?;
    follow(rt, alloc, number, Some(left), case)
}

/// Makes a run over the vault that the one before left, if there was one, and compares what it left.
pub fn follow<R: Threads + Sync>(
    rt: &R,
    alloc: Global,
    number: u64,
    mut before: Option<Left>,
    case: &Case,
) -> Result<Left, Fail> {
    let mut given = vault_after(alloc, &mut before, case)?;
    let mut left = run_after(rt, alloc, before, case)?;
    compare(alloc, number, &mut left, case)?;
    compare_kept(alloc, number, &mut left, &mut given, case)?;
    Ok(left)
}

/// A run over the vault that the one before left.
pub fn run_after<R: Threads + Sync>(
    rt: &R,
    alloc: Global,
    mut before: Option<Left>,
    case: &Case,
) -> Result<Left, Fail> {
    let vault = vault_after(alloc, &mut before, case)?;
    run_case(rt, alloc, case, vault)
}

/// The vault that a run is made over.
pub fn vault_after(alloc: Global, before: &mut Option<Left>, case: &Case) -> Result<MemVault, Fail>
    ensures settled { IfOk result (λ vault. IsSettled (vault_view vault)) }
    ensures drafts { IfOk result (λ vault. HasNoDraft (vault_view vault)) }
{
    match before {
        Some(left) => damaged(alloc, left, case.damage),
        None => vault(alloc, case.array),
    }
}

/// What a run leaves that a case tells of.
pub fn run_case<R: Threads + Sync>(
    rt: &R,
    alloc: Global,
    case: &Case,
    vault: MemVault,
) -> Result<Left, Fail>
    requires settled { IsSettled (vault_view vault) }
    requires drafts { HasNoDraft (vault_view vault) }
{
    let mut reports = Vec::new(alloc);
    run_case_told(rt, alloc, case, vault, &mut reports)
}

/// The same with reports.
pub fn run_case_told<R: Threads + Sync>(
    rt: &R,
    alloc: Global,
    case: &Case,
    vault: MemVault,
    reports: &mut Vec<Box<dyn Report>>,
) -> Result<Left, Fail>
    requires settled { IsSettled (vault_view vault) }
    requires drafts { HasNoDraft (vault_view vault) }
{
    let vault = failing_vault(with_contents(vault, case.put)?, case.failing)?;
    let folders = failing_folders(alloc, case.array, case.failing)?;
    run_told(
        rt,
        alloc,
        case.asked(),
        folders,
        vault,
        reports,
        case.failing,
    )
}

// The folders of an array, of which one fails as is asked for.
fn failing_folders(alloc: Global, array: Array, failing: Failing) -> Result<Vec<MemFolder>, Fail> {
    let mut folders = Vec::new(alloc);
    for (d, disk) in array.disks.iter().enumerate() {
        let call = if d == failing.disk { failing.folder } else { 0 };
        let made = failing_folder(folder(alloc, disk)?, call, failing.stops)?;
        folders.push(made)?;
    }
    Ok(folders)
}

// A folder of which this call fails, or all from this one on.
fn failing_folder(folder: MemFolder, call: u64, stops: bool) -> Result<MemFolder, Fail> {
    let mut folder = folder;
    match calls_before(call, stops) {
        Some(calls) => folder.stop_after(calls),
        None => folder.fail_at(call)?,
    }
    Ok(folder)
}
