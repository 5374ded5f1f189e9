// A sync that is stopped, a level that is lost, and one more sync: the copies stay sound over them.
ghost use Rattle.std.specs.Prelude.{◌≡◌, IfOk, length};
ghost use Rattle.disk_memory.specs.Folder.{folder_view};
ghost use Rattle.disk_memory.specs.Sink.{sink_view};
ghost use Rattle.disk_memory.specs.Vault.{vault_view};
ghost use Rattle.disk_model.specs.Files.{parity_of};
ghost use Rattle.snap_top_histories.specs.Changed.{IsChangedLevel};
ghost use Rattle.snap_top_histories.specs.Lived.{IsNew};
ghost use Rattle.snap_top_stops.specs.StaysSound.{IsSoundHistory};

use crate::stopped_runs::has_content;
use disk_memory::{MemFolder, MemOpener, MemSink, MemVault};
use disk_model::{Opener, Vault};
use snap_top::laws::copies_stay_sound;
use snap_top_histories::lived::{Made, run_anew};
use snap_top_histories::resumed::ask_for_sync;
use snap_top_instances::asked::has_whole_levels;
use snap_top_instances::resumed::has_parity;
use snap_top_instances::told::picked;
use snap_top_memory::arrays::{Array, folders, owned};
use std::alloc::Global;
use std::test::Fail;
use std::thread::Threads;

/// Makes a sync of an array without content, which is stopped where these bytes pick; then the first level is lost; and one
/// more sync is made. It answers the last status, and nothing unless the stop left a content copy and parity, and the last
/// sync went to its end and left parity too.
pub fn sync_over_a_lost_level<R: Threads + Sync>(
    rt: &R,
    alloc: Global,
    array: Array,
    words: &[&str],
    choice: &[u8],
) -> Result<u8, Fail>
    ensures { IfOk result (λ _. IsSoundHistory (⟦<MemOpener<MemFolder, MemVault> as Opener>⟧.view) folder_view vault_view sink_view) }
{
    copies_stay_sound::<MemOpener<MemFolder, MemVault>, MemFolder, MemVault, MemSink>();
    let line = owned(alloc, words)?;
    let words = line.as_slice();
    if !has_whole_levels(alloc, array.config) {
        return Err("a level of several files".into());
    }
    if !ask_for_sync(alloc, words, array.config) {
        return Err("not the words of a sync, or another configuration".into());
    }
    let disks = folders(alloc, array)?;
    let fresh = MemVault::new(alloc, array.levels, array.copies)?;
    let copies = fresh.copies();
    let made = run_anew(rt, alloc, words, array.config, disks, fresh)?;
    let seen = picked(&made.vault, choice, copies)?;
    let shown = picked(&made.vault, choice, copies)?;
    let left = picked(&made.vault, choice, copies)?;
    if !has_content(shown) {
        return Err("no content copy was left".into());
    }
    if !has_parity(seen) {
        return Err("no parity was left".into());
    }
    let hurt = without_level(left)?;
    let last = run_anew(rt, alloc, words, array.config, made.folders, hurt)?;
    let Made { status, vault, .. } = last;
    if status > 1 {
        return Err("a sync that did not go to its end".into());
    }
    if !has_parity(vault) {
        return Err("no parity was written".into());
    }
    Ok(status)
}

// The vault after the bytes of its first level were lost.
fn without_level(vault: MemVault) -> Result<MemVault, Fail>
    requires { IsNew (vault_view vault) }
    ensures changed { IfOk result (λ made. IsChangedLevel 0 (vault_view vault) (vault_view made)) }
    ensures lost { IfOk result (λ made. length (parity_of (vault_view made).files 0) ≡ 0) }
{
    if vault.levels() == 0 {
        return Err("no level".into());
    }
    let mut vault = vault;
    vault.set_parity(0, b"")?;
    Ok(vault)
}
