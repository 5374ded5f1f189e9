// The levels of stripes in a row, read ahead side by side.
ghost use Rattle.std.specs.Prelude.{◌≡◌, ◌<◌, ◌≤◌, All, IfSome, length, map};
ghost use Rattle.std.specs.Thread.{IsSend, IsSync};
ghost use Rattle.disk_model.specs.Vault.{IsUntouched};
ghost use Rattle.stripe_reader.specs.Fetched.{FetchesWindow};
ghost use Rattle.stripe_reader.specs.Held.{CanRead, HoldsCells};
ghost use Rattle.stripe_reader.specs.Starts.{StartsFit};
ghost use Rattle.stripe_reader.specs.WindowValue.{Fits};

use disk_model::{Ahead, Folder, Vault};
use file_table::Table;
use std::thread::{Threads, join_mut};
use stripe_reader::{Starts, Window, fetch_window, for_each_mut};

// The fewest bytes of a level that are read ahead: below, the start of a thread costs more than it saves.
const LEAST_BYTES: usize = 262_144;

// The first stripe, and how many follow one another from it on; `None` where there are none, or they do not.
fn run_of(stripes: &[u32]) -> Option<(u32, usize)>
    ensures { IfSome result (λ run. run.1 ≤ 4294967296) }
{
    let first = *stripes.first()?;
    let last = *stripes.last()?;
    let count = last.checked_sub(first)? as usize + 1;
    if count != stripes.len() {
        return None;
    }
    Some((first, count))
}

// Plans the same bytes of each level.
fn plan_levels<V: Vault>(vault: &mut V, at: u64, len: usize)
    ensures { IsUntouched (V.view vault.old) (V.view vault.new) }
{
    for level in 0..vault.levels() {
        vault.plan_ahead(level, at, len);
    }
}

/// What reads the levels of stripes in a row ahead, with these bytes planned; `None` where the vault reads nothing ahead, the
/// stripes do not follow one another, or they are too few. It goes back by `put_ahead`. Meanwhile calls come as ever, and
/// what was read before serves them.
pub fn take_ahead<V: Vault>(
    vault: &mut V,
    stripes: &[u32],
    block_size: u32,
) -> Option<Vec<V::Ahead>>
    requires size { block_size ≤ 4194304 }
    ensures { IsUntouched (V.view vault.old) (V.view vault.new) }
{
    let (first, count) = run_of(stripes)?;
    let len = count * block_size as usize;
    if len < LEAST_BYTES {
        return None;
    }
    plan_levels(vault, u64::from(first) * u64::from(block_size), len);
    vault.take_ahead()
}

// Reads what was planned, each part in a thread of its own.
fn fetch_ahead<R: Threads + Sync, A: Ahead>(rt: &R, ahead: &mut Option<Vec<A>>) {
    let Some(parts) = ahead else {
        return;
    };
    let threads = parts.len().max(1);
    let one = |_: usize, part: &mut A|
        requires { IsSend A.row }
    { part.fetch() };
    for_each_mut(rt, parts.as_mut_slice(), threads, &one);
}

/// Gives back what was taken. The calls that read these levels come as before and answer the same.
pub fn put_ahead<V: Vault>(vault: &mut V, ahead: Option<Vec<V::Ahead>>)
    ensures { IsUntouched (V.view vault.old) (V.view vault.new) }
{
    if let Some(parts) = ahead {
        vault.put_ahead(parts);
    }
}

/// Reads what the levels hold of so many stripes in a row ahead, those of each level in a thread of its own, where the
/// vault can and the stripes follow one another. The calls that read them come as before and answer the same.
pub fn read_ahead<R: Threads + Sync, V: Vault>(
    rt: &R,
    vault: &mut V,
    stripes: &[u32],
    block_size: u32,
)
    requires size { block_size ≤ 4194304 }
    ensures { IsUntouched (V.view vault.old) (V.view vault.new) }
{
    let mut ahead = take_ahead(vault, stripes, block_size);
    fetch_ahead(rt, &mut ahead);
    put_ahead(vault, ahead);
}

/// Reads stripes of all columns into a window, as `fetch_window` does, and meanwhile what was planned of their levels.
pub fn fetch_beside<R: Threads + Sync, F: Folder, A: Ahead>(
    rt: &R,
    folders: &mut [F],
    table: &Table,
    starts: &Starts,
    stripes: &[u32],
    window: &mut Window,
    ahead: &mut Option<Vec<A>>,
)
    requires folders { length folders.old ≡ length table.now.columns }
    requires starts { StartsFit table.now starts.now }
    requires stripes { All (λ stripe. stripe < length table.now.infos) stripes.now }
    requires fits { Fits table.now window.old }
    requires room { length stripes.now ≤ window.old.room }
    ensures fits { Fits table.now window.new }
    ensures count { window.new.count ≡ length stripes.now }
    ensures cells { HoldsCells table.now stripes.now window.new }
    ensures fetched { FetchesWindow table.now starts.now stripes.now window.old window.new
        (map F.view folders.old) (map F.view folders.new) }
{
    if ahead.is_none() {
        return fetch_window(rt, folders, table, starts, stripes, window);
    }
    let mut levels = ||
        requires { IsSync R.row × IsSend A.row }
    { fetch_ahead(rt, ahead) };
    let mut cells = ||
        requires { IsSync R.row × IsSend F.row × CanRead table.now starts.now stripes.now window.now (length folders.now) }
    { fetch_window(rt, folders, table, starts, stripes, window) };
    // This thread goes on with the cells: it starts their readers.
    join_mut(rt, &mut levels, &mut cells);
}
