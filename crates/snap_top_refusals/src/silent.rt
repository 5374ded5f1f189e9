// A run that goes to its end writes nothing to its standard error.
ghost use Rattle.std.specs.Prelude.{IfOk};
ghost use Rattle.disk_memory.specs.Folder.{folder_view};
ghost use Rattle.disk_memory.specs.Sink.{sink_view};
ghost use Rattle.disk_memory.specs.Vault.{vault_view};
ghost use Rattle.snap_top_refusals.specs.Silent.{IsSilentRun};

use disk_memory::{MemFolder, MemOpener, MemSink, MemVault};
use disk_model::Opener;
use snap_top::run;
use snap_top_histories::lived::SEED;
use snap_top_instances::told::says_else;
use snap_top_memory::arrays::{Array, NOW, folders, owned};
use std::alloc::Global;
use std::test::Fail;
use std::thread::Threads;

/// Runs words over an array without content. It answers the status, and nothing unless that is 0 or 1 and something was
/// printed.
pub fn run_silently<R: Threads + Sync>(
    rt: &R,
    alloc: Global,
    array: Array,
    words: &[&str],
) -> Result<u8, Fail>
    ensures { IfOk result (IsSilentRun (⟦<MemOpener<MemFolder, MemVault> as Opener>⟧.view) folder_view vault_view sink_view) }
{
    let line = owned(alloc, words)?;
    let config = Vec::from_slice(alloc, array.config.as_bytes())?;
    let disks = folders(alloc, array)?;
    let vault = MemVault::new(alloc, array.levels, array.copies)?;
    let mut opener = MemOpener::new(alloc, config, disks, vault);
    run_over(rt, alloc, line.as_slice(), &mut opener)
}

// The same over what an opener holds.
fn run_over<R: Threads + Sync>(
    rt: &R,
    alloc: Global,
    words: &[String],
    opener: &mut MemOpener<MemFolder, MemVault>,
) -> Result<u8, Fail>
    ensures { IfOk result (IsSilentRun (⟦<MemOpener<MemFolder, MemVault> as Opener>⟧.view) folder_view vault_view sink_view) }
{
    let mut out = MemSink::new(alloc);
    let mut err = MemSink::new(alloc);
    let mut reports = Vec::new(alloc);
    let outcome = run(
        rt,
        alloc,
        words,
        opener,
        &mut reports,
        &mut out,
        &mut err,
        NOW,
        SEED,
    );
    if outcome.status > 1 {
        return Err("it did not go to its end".into());
    }
    if !says_else(out.bytes(), b"") {
        return Err("nothing was printed".into());
    }
    Ok(outcome.status)
}
