// The stripes of a window, which was read for them.
ghost use Rattle.std.specs.Prelude.{◌≡◌, ℕ, ◌<◌, ◌≤◌, length, take};
ghost use Rattle.stripe_reader.specs.Fetched.{IsUnhashedWindow, hashed_window};
ghost use Rattle.stripe_reader.specs.Held.{HoldsStripes};
ghost use Rattle.snap_scrub.specs.Looking.{LooksInto, scene};
ghost use Rattle.snap_scrub.specs.Room.{IsCheckFor, KeepsCheck, UsesCheck};
ghost use Rattle.snap_scrub.specs.Summing.{HasSums};
ghost use Rattle.snap_scrub.specs.Windows.{CanLook};

use crate::found::verdict;
use crate::looking::look_at;
use crate::room::Check;
use crate::turning::Round;
use crate::verdict::Verdict;
use disk_model::{Sink, Vault};
use file_table::Table;
use parity_writer::sum_window;
use snap_report::{Lines, Report};
use std::thread::Threads;
use stripe_reader::{Window, hash_window};

/// Stripes of a table that were read into a window: their numbers, and the window that holds them.
#[derive(Clone, Copy)]
pub(crate) struct Batch<'a> {
    pub table: &'a Table,
    pub stripes: &'a [u32],
    pub window: &'a Window,
}

// Looks at the stripes of a window, whose sums are made, keeps the verdict on each, and counts the findings.
fn look_into<V: Vault, W: Sink>(
    batch: &Batch<'_>,
    check: &mut Check,
    verdicts: &mut [Verdict],
    vault: &mut V,
    lines: &mut Lines<'_, W>,
    reports: &mut Vec<Box<dyn Report>>,
) -> u64
    requires holds { HoldsStripes batch.now.table.now batch.now.stripes.now batch.now.window.now }
    requires check { IsCheckFor batch.now.table.now check.old }
    requires sums { (i : ℕ) → i < length batch.now.stripes.now →
        HasSums batch.now.table.now batch.now.window.now check.old i }
    requires verdicts { length verdicts.old ≡ length batch.now.stripes.now }
    requires levels { (V.view vault.old).levels ≡ batch.now.table.now.shape.levels }
    ensures check { KeepsCheck batch.now.table.now check.old check.new }
    ensures looks { LooksInto W.view standing stands batch.now.table.now batch.now.stripes.now batch.now.window.now
        (length batch.now.stripes.now) (take (length batch.now.stripes.now) verdicts.new) result
        (scene (V.view vault.old) lines.old reports.old.items) (scene (V.view vault.new) lines.new reports.new.items) }
{
    let mut findings = 0u64;
    for i in 0..batch.window.count() {
        let found = look_at(batch, i, check, vault, lines, reports);
        verdicts[i as usize] = verdict(found);
        findings = findings.saturating_add(u64::from(found.count));
    }
    findings
}

// Hashes the blocks of a window that was fetched.
fn hash_near<R: Threads + Sync>(rt: &R, round: &Round<'_>, window: &mut Window)
    requires holds { HoldsStripes round.now.table.now round.now.stripes.now window.old }
    requires unhashed { IsUnhashedWindow window.old }
    ensures hashed { window.new ≡ hashed_window round.now.table.now.shape window.old }
    ensures holds { HoldsStripes round.now.table.now round.now.stripes.now window.new }
{
    hash_window(rt, round.table.shape(), round.threads, window);
}

/// Hashes the blocks of a window that was fetched, makes the sums of its stripes, looks at these stripes, keeps the verdict
/// on each, and counts the findings.
pub(crate) fn look_window<R: Threads + Sync, V: Vault, W: Sink>(
    rt: &R,
    round: &Round<'_>,
    window: &mut Window,
    check: &mut Check,
    vault: &mut V,
    lines: &mut Lines<'_, W>,
    reports: &mut Vec<Box<dyn Report>>,
    verdicts: &mut [Verdict],
) -> u64
    requires look { CanLook round.now.table.now round.now.stripes.now window.old check.old verdicts.old }
    requires levels { (V.view vault.old).levels ≡ round.now.table.now.shape.levels }
    ensures window { window.new ≡ hashed_window round.now.table.now.shape window.old }
    ensures check { UsesCheck round.now.table.now check.old check.new }
    ensures looks { LooksInto W.view standing stands round.now.table.now round.now.stripes.now window.new
        (length round.now.stripes.now) (take (length round.now.stripes.now) verdicts.new) result
        (scene (V.view vault.old) lines.old reports.old.items) (scene (V.view vault.new) lines.new reports.new.items) }
{
    hash_near(rt, round, window);
    let levels = round.table.shape().levels;
    let sums = check.sums.as_mut_slice();
    sum_window(rt, window, levels, round.threads, sums);
    let batch = Batch {
        table: round.table,
        stripes: round.stripes,
        window,
    };
    look_into(&batch, check, verdicts, vault, lines, reports)
}
