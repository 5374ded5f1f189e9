// What a sync does once all its memory is taken.
ghost use Rattle.std.specs.Prelude.{◌≡◌, IfOk, OnErr, length, map};
ghost use Rattle.content_file.specs.Encoding.{IsDigestOf};
ghost use Rattle.snap_sync.specs.Course.{outside, Ends, Breaks};
ghost use Rattle.snap_sync.specs.Run.{plan_for, IsBegun};
ghost use Rattle.stripe_reader.specs.Held.{AreDisksOf};

use crate::SyncEnd;
use crate::beginning::Work;
use crate::opening::checkpoint;
use crate::stripes::{Pace, sync_stripes};
use content_file::TableDigest;
use disk_model::{Failed, Folder, Sink, Vault};
use file_table::Table;
use snap_report::{Lines, Report};
use std::thread::Threads;

// The digest of a table after so many stripes were read. Where none was, it is the one from before.
fn digest_after(done: u32, before: TableDigest, table: &Table) -> TableDigest
    requires { done ≡ 0 → IsDigestOf table.now before }
    ensures { IsDigestOf table.now result }
{
    if done == 0 {
        before
    } else {
        TableDigest::of(table)
    }
}

/// Goes through the pending stripes, and ends with a checkpoint and the last line. It fails only by the vault.
pub(crate) fn carry_out<R: Threads + Sync, F: Folder, V: Vault, W: Sink>(
    rt: &R,
    work: Work,
    pace: Pace,
    folders: &mut [F],
    vault: &mut V,
    lines: &mut Lines<'_, W>,
    reports: &mut Vec<Box<dyn Report>>,
) -> Result<SyncEnd, Failed>
    requires begun { IsBegun pace.every work }
    requires disks { AreDisksOf work.table (length folders.old) (V.view vault.old) }
    ensures ends { IfOk result (Ends W.view standing stands (plan_for work pace (V.view vault.old))
        (outside (map F.view folders.old) (V.view vault.old) lines.old reports.old.items)
        (outside (map F.view folders.new) (V.view vault.new) lines.new reports.new.items)) }
    ensures broke { OnErr result (Breaks W.view standing stands (plan_for work pace (V.view vault.old))
        (outside (map F.view folders.old) (V.view vault.old) lines.old reports.old.items)
        (outside (map F.view folders.new) (V.view vault.new) lines.new reports.new.items)) }
{
    let mut work = work;
    let start = TableDigest::of(&work.table);
    let progress = sync_stripes(rt, &mut work, start, pace, folders, vault, lines, reports)?;
    let Work {
        table,
        pending,
        mut room,
    } = work;
    let digest = digest_after(progress.done, start, &table);
    checkpoint(vault, &table, digest, room.piece.as_mut_slice())?;
    let rest = pending.len() as u32 - progress.synced;
    lines.end_sync(progress.synced, rest);
    Ok(SyncEnd {
        table,
        synced: progress.synced,
        pending: rest,
        findings: progress.findings,
    })
}
