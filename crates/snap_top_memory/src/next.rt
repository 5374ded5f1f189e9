// A run that breaks, and the next one.
use crate::arrays::{Left, Ran, run_asked};
use crate::cases::{Case, follow};
use crate::left::{compare_kept, compare_left};
use disk_memory::{MemFolder, MemVault};
use disk_model::{Folder, Sink, Vault};
use snap_top::Outcome;
use std::alloc::Global;
use std::test::Fail;
use std::thread::Threads;

/// What picks the vault where all was written, among those that a stop may leave.
pub const WRITTEN: &[u8] = &[0xff; 8];

/// The same, with other bytes wherever one was written and not handed to the disk.
pub const TORN: &[u8] = &[0xff; 16384];

/// Makes each run over the vault that a first one left, and compares what it left; and then the next run, as
/// `run_next` does.
pub fn each_is_followed<R: Threads + Sync>(
    rt: &R,
    alloc: Global,
    first: &Case,
    cases: &[Case],
    next: &Case,
    choice: &[u8],
) -> Result<(), Fail> {
    let mut number = 0u64;
    for case in cases {
        is_followed(rt, alloc, number, first, case, next, choice)?;
        number = number.saturating_add(1);
    }
    Ok(())
}

fn is_followed<R: Threads + Sync>(
    rt: &R,
    alloc: Global,
    number: u64,
    first: &Case,
    case: &Case,
    next: &Case,
    choice: &[u8],
) -> Result<(), Fail> {
    let before = follow(rt, alloc, number, None, first)?;
    let mut whole = before.reopened()?;
    let left = follow(rt, alloc, number, Some(before), case)?;
    run_next(rt, alloc, number, left, &mut whole, next, choice)
}

/// Runs words over the folders that a run left, and over the vault that these bytes pick among those that a stop may
/// leave, where no call fails any more. The status is compared, and what is left: what a case keeps is that of the
/// whole vault.
pub fn run_next<R: Threads + Sync>(
    rt: &R,
    alloc: Global,
    number: u64,
    left: Left,
    whole: &mut MemVault,
    next: &Case,
    choice: &[u8],
) -> Result<(), Fail> {
    let mut again = run_then(rt, alloc, number, left, next, choice)?;
    compare_kept(alloc, number, &mut again, whole, next)
}

/// The same, where nothing is kept.
pub fn run_then<R: Threads + Sync>(
    rt: &R,
    alloc: Global,
    number: u64,
    left: Left,
    next: &Case,
    choice: &[u8],
) -> Result<Left, Fail> {
    let mut again = run_again(rt, alloc, left, next, choice)?;
    if again.outcome.status != next.status {
        return Err(Fail::new(format_args!("case {number}: next status")));
    }
    compare_left(alloc, number, &mut again, next)?;
    Ok(again)
}

fn run_again<R: Threads + Sync>(
    rt: &R,
    alloc: Global,
    left: Left,
    next: &Case,
    choice: &[u8],
) -> Result<Left, Fail> {
    let vault = left.stopped(choice)?;
    let folders = calmed(folders_of(left));
    run_asked(rt, alloc, next.asked(), folders, vault)
}

fn folders_of(left: Left) -> Vec<MemFolder> {
    let Ran { outcome, .. } = left;
    let Outcome { folders, .. } = outcome;
    folders
}

// The folders, where no call is to fail.
fn calmed(folders: Vec<MemFolder>) -> Vec<MemFolder> {
    let mut folders = folders;
    for folder in folders.iter_mut() {
        folder.stop_after(u64::MAX);
    }
    folders
}

/// Whether a call of the opener, of the vault, of a folder or of a stream failed.
pub fn has_failed(left: &Left) -> bool {
    let vault = match &left.outcome.vault {
        Some(vault) => vault.faults() > 0,
        None => false,
    };
    vault
        || left.opener_faults > 0
        || left.out.faults() > 0
        || left.err.faults() > 0
        || left
            .outcome
            .folders
            .iter()
            .any(|folder| folder.faults() > 0)
}
