// A scrub.
ghost use Rattle.std.specs.Prelude.{◌≡◌, ◌≢◌, ◌<◌, ◌^◌, [], IfOk, IfErr, IsOk, length, map};
ghost use Rattle.content_file.specs.Save.{piece_size};
ghost use Rattle.disk_model.specs.Vault.{SomeCalls};
ghost use Rattle.snap_report.specs.EndLines.{scrub_text};
ghost use Rattle.snap_report.specs.State.{Puts, state_of};
ghost use Rattle.snap_report.specs.Telling.{Settled};
ghost use Rattle.snap_scrub.specs.Course.{IsArray, Scrubs, ScrubsNot, outside};
ghost use Rattle.snap_scrub.specs.Saving.{Saves};

use crate::beginning::begin;
use crate::marking::mark_all;
use crate::passing::look_over;
use array_setup::ScrubWay;
use content_file::{TableDigest, save};
use disk_model::{Failed, Folder, Sink, Vault};
use file_table::Table;
use snap_report::{Lines, Report, RunFault};
use std::alloc::Global;
use std::thread::Threads;

/// How a scrub ended.
#[derive(Drop)]
pub struct ScrubEnd {
    /// The table with what the scrub keeps. Every content copy holds it, where a stripe was checked.
    pub table: Table,
    /// How many stripes were checked.
    pub checked: u32,
    /// How many findings were told; it stays at the greatest u64.
    pub findings: u64,
}

// Saves the table to every copy, where stripes were checked.
fn save_marked<V: Vault>(
    vault: &mut V,
    table: &Table,
    stripes: &[u32],
    piece: &mut [u8],
) -> Result<(), Failed>
    requires { length piece.old ≡ piece_size }
    ensures rests { stripes.now ≡ [] → IsOk result × (vault.new ≡ vault.old) }
    ensures saves { stripes.now ≢ [] → Saves table.now result (V.view vault.old) (V.view vault.new) }
{
    if stripes.is_empty() {
        return Ok(());
    }
    save(vault, table, TableDigest::of(table), piece)
}

// The end of a scrub of these stripes: its last line is told.
fn end<W: Sink>(table: Table, stripes: &[u32], findings: u64, lines: &mut Lines<'_, W>) -> ScrubEnd
    requires few { length stripes.now < 2 ^ 32 }
    ensures end { result ≡ record { table = table; checked = length stripes.now; findings = findings } }
    ensures puts { Puts W.view (scrub_text (length stripes.now) findings) lines.old lines.new }
    ensures settled { Settled (state_of W.view lines.new) }
{
    let checked = stripes.len() as u32;
    lines.end_scrub(checked, findings);
    ScrubEnd {
        table,
        checked,
        findings,
    }
}

/// Checks the stripes that `way` asks for, ascending: the cells of each are read, by so many readers at most, and where
/// all are right its levels. What is found is told, and marks the stripe in the table. It is bad where a block could
/// not be read or is another one, or where a level could not be read or is not the sum; where nothing is found it is
/// not bad and not fresh, and was checked `now`, in seconds since 1970; a changed file marks nothing. The table is
/// saved once, at the end, where a stripe was checked. Parity is never written. A folder that fails is a finding. The
/// scrub breaks off where memory runs out, before anything was read, and where the vault fails in saving.
pub fn scrub<R: Threads + Sync, F: Folder, V: Vault, W: Sink>(
    rt: &R,
    alloc: Global,
    folders: &mut [F],
    vault: &mut V,
    way: &ScrubWay,
    readers: u32,
    table: Table,
    now: u64,
    reports: &mut Vec<Box<dyn Report>>,
    lines: &mut Lines<'_, W>,
) -> Result<ScrubEnd, RunFault>
    requires { IsArray table (map F.view folders.old) (V.view vault.old) }
    ensures calls { SomeCalls (V.view vault.old) (V.view vault.new) }
    ensures done { IfOk result (Scrubs W.view standing stands table way.now now
        (outside (map F.view folders.old) (V.view vault.old) lines.old reports.old.items)
        (outside (map F.view folders.new) (V.view vault.new) lines.new reports.new.items)) }
    ensures failed { IfErr result (ScrubsNot W.view standing stands table way.now now
        (outside (map F.view folders.old) (V.view vault.old) lines.old reports.old.items)
        (outside (map F.view folders.new) (V.view vault.new) lines.new reports.new.items)
        ((folders.new ≡ folders.old) × (vault.new ≡ vault.old) × (lines.new ≡ lines.old) × (reports.new ≡ reports.old))) }
{
    // A table has fewer stripes than 2^32.
    let _count = table.length();
    let Ok(mut work) = begin(alloc, &table, way, now, readers) else {
        return Err(RunFault::Memory);
    };
    let findings = look_over(rt, &table, &mut work, folders, vault, lines, reports);
    let mut table = table;
    mark_all(&mut table, &work.stripes, &work.verdicts, now);
    let saved = save_marked(vault, &table, &work.stripes, work.room.piece.as_mut_slice());
    if saved.is_err() {
        return Err(RunFault::Vault);
    }
    Ok(end(table, &work.stripes, findings, lines))
}
