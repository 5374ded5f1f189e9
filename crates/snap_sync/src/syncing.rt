// A sync.
ghost use Rattle.std.specs.Prelude.{◌≡◌, IfOk, IfErr, length, map};
ghost use Rattle.disk_model.specs.Vault.{SomeCalls};
ghost use Rattle.array_setup.specs.Setup.{setup_value};
ghost use Rattle.snap_sync.specs.Course.{IsArray, Syncs, SyncsNot, outside};

use crate::SyncFault;
use crate::beginning::begin;
use crate::carrying::carry_out;
use crate::schedule::save_after;
use crate::stripes::Pace;
use array_setup::{Setup, SyncWay};
use disk_model::{Folder, Sink, Vault};
use file_table::Table;
use snap_report::{Lines, Report, RunFault};
use std::alloc::Global;
use std::thread::Threads;

/// How a sync ended.
#[derive(Drop)]
pub struct SyncEnd {
    /// The table that every content copy holds now.
    pub table: Table,
    /// How many stripes this sync closed.
    pub synced: u32,
    /// How many stripes are pending at its end.
    pub pending: u32,
    /// How many findings it told; it stays at the greatest u64.
    pub findings: u64,
}

/// Lays the files of the folders out over the table of the last sync, and closes the pending stripes: they are read by so
/// many readers at most, told, written where they are verified, and called synced at a checkpoint. A checkpoint stands
/// after as many pending stripes as `way` or `setup` say, and at the end. `now` is in seconds since 1970. A layout that is
/// refused hands the old table back, and the vault is unchanged then; so it is after want of memory.
pub fn sync<R: Threads + Sync, F: Folder, V: Vault, W: Sink>(
    rt: &R,
    alloc: Global,
    folders: &mut [F],
    vault: &mut V,
    setup: &Setup,
    way: &SyncWay,
    readers: u32,
    old: Table,
    now: u64,
    reports: &mut Vec<Box<dyn Report>>,
    lines: &mut Lines<'_, W>,
) -> Result<SyncEnd, SyncFault>
    requires { IsArray (setup_value setup.now) way.now old (map F.view folders.old) (V.view vault.old) }
    ensures calls { SomeCalls (V.view vault.old) (V.view vault.new) }
    ensures done { IfOk result (Syncs W.view standing stands (setup_value setup.now) way.now old now
        (outside (map F.view folders.old) (V.view vault.old) lines.old reports.old.items)
        (outside (map F.view folders.new) (V.view vault.new) lines.new reports.new.items)) }
    ensures failed { IfErr result (SyncsNot W.view standing stands (setup_value setup.now) way.now old now
        (outside (map F.view folders.old) (V.view vault.old) lines.old reports.old.items)
        (outside (map F.view folders.new) (V.view vault.new) lines.new reports.new.items)
        ((vault.new ≡ vault.old) × (lines.new ≡ lines.old) × (reports.new ≡ reports.old))) }
{
    let work = begin(rt, alloc, folders, setup, way, old)?;
    let columns = u64::from(work.table.disks());
    let stripe_bytes = u64::from(work.table.shape().block_size) * columns;
    let pace = Pace {
        every: save_after(way.save_every, setup.autosave, stripe_bytes),
        readers,
        now,
    };
    match carry_out(rt, work, pace, folders, vault, lines, reports) {
        Ok(end) => Ok(end),
        Err(_) => Err(SyncFault::Run(RunFault::Vault)),
    }
}
