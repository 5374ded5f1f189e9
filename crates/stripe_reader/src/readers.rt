// The columns of a window: read side by side, a thread for each, and then hashed.
ghost use Rattle.std.specs.Prelude.{◌≡◌, ◌<◌, ◌≤◌, All, length, map};
ghost use Rattle.std.specs.Thread.{IsSend, IsSync};
ghost use Rattle.stripe_reader.specs.Columns.{HasLanes, ReadsColumns, ReadsWindow};
ghost use Rattle.stripe_reader.specs.Fetched.{FetchesWindow, IsUnhashedFront, hashed_front};
ghost use Rattle.stripe_reader.specs.Held.{HoldsCells};
ghost use Rattle.stripe_reader.specs.LookedUp.{AreLookedUp};
ghost use Rattle.stripe_reader.specs.Starts.{StartsFit};
ghost use Rattle.stripe_reader.specs.WindowValue.{Fits};

use crate::cells::{CellLane, cells_of, look_up};
use crate::hashers::hash_window;
use crate::reading::read_cells;
use crate::slot::Lane;
use crate::{Starts, Window};
use disk_model::Folder;
use file_table::Table;
use std::thread::{Threads, join_mut};

// The most threads that read columns.
const MOST_THREADS: u32 = 64;

// How many threads read so many stripes of so many columns: of no stripes, this one alone.
fn threads_for(stripes: usize, columns: u32) -> u32 {
    if stripes == 0 {
        1
    } else {
        columns.min(MOST_THREADS)
    }
}

// Reads columns one after another.
fn fetch_lanes<F: Folder>(
    table: &Table,
    starts: &Starts,
    stripes: &[u32],
    cells: &[CellLane],
    room: u32,
    first: u32,
    folders: &mut [F],
    lanes: &mut [Lane],
)
    requires cells { AreLookedUp table.now stripes.now cells.now }
    requires lanes { HasLanes table.now starts.now first stripes.now room (length folders.old) lanes.old }
    ensures lanes { HasLanes table.now starts.now first stripes.now room (length folders.new) lanes.new }
    ensures unhashed { All (IsUnhashedFront table.now.shape.block_size (length stripes.now)) lanes.new }
    ensures read { ReadsColumns table.now starts.now first stripes.now
        (map (hashed_front table.now.shape (length stripes.now)) lanes.new)
        (map F.view folders.old) (map F.view folders.new) }
{
    for k in 0..folders.len() {
        let d = first + k as u32;
        let lane = &mut lanes[k];
        read_cells(
            &mut folders[k],
            table,
            starts,
            d,
            stripes,
            cells_of(cells, d),
            lane.slots.as_mut_slice(),
        );
    }
}

// A group of columns, from one on, and how many threads read it.
#[derive(Clone, Copy)]
struct Group {
    first: u32,
    threads: u32,
}

// Reads the columns of a group, as even shares by so many threads. All of them are started by this one, which reads
// the last share: a thread that has only just begun starts others late.
#[cycle(groups)]
fn fetch_group<R: Threads + Sync, F: Folder>(
    rt: &R,
    table: &Table,
    starts: &Starts,
    stripes: &[u32],
    cells: &[CellLane],
    room: u32,
    group: Group,
    folders: &mut [F],
    lanes: &mut [Lane],
)
    requires cells { AreLookedUp table.now stripes.now cells.now }
    requires lanes { HasLanes table.now starts.now group.first stripes.now room (length folders.old) lanes.old }
    ensures lanes { HasLanes table.now starts.now group.first stripes.now room (length folders.new) lanes.new }
    ensures unhashed { All (IsUnhashedFront table.now.shape.block_size (length stripes.now)) lanes.new }
    ensures read { ReadsColumns table.now starts.now group.first stripes.now
        (map (hashed_front table.now.shape (length stripes.now)) lanes.new)
        (map F.view folders.old) (map F.view folders.new) }
{
    if group.threads < 2 {
        fetch_lanes(
            table,
            starts,
            stripes,
            cells,
            room,
            group.first,
            folders,
            lanes,
        );
        return;
    }
    let count = folders.len() / group.threads as usize;
    let rest = Group {
        first: group.first + count as u32,
        threads: group.threads - 1,
    };
    let (near_folders, far_folders) = folders.split_at_mut(count);
    let (near_lanes, far_lanes) = lanes.split_at_mut(count);
    fetch_both(
        rt,
        table,
        starts,
        stripes,
        cells,
        room,
        group.first,
        rest,
        near_folders,
        near_lanes,
        far_folders,
        far_lanes,
    );
}

// Reads columns in a new thread, and a group beside it. The slices that are written come last, as in the calls of the
// closures.
#[cycle(groups)]
fn fetch_both<R: Threads + Sync, F: Folder>(
    rt: &R,
    table: &Table,
    starts: &Starts,
    stripes: &[u32],
    cells: &[CellLane],
    room: u32,
    first: u32,
    rest: Group,
    near_folders: &mut [F],
    near_lanes: &mut [Lane],
    far_folders: &mut [F],
    far_lanes: &mut [Lane],
)
    requires cells { AreLookedUp table.now stripes.now cells.now }
    requires near { HasLanes table.now starts.now first stripes.now room
        (length near_folders.old) near_lanes.old }
    requires far { HasLanes table.now starts.now rest.first stripes.now room
        (length far_folders.old) far_lanes.old }
    ensures near { HasLanes table.now starts.now first stripes.now room
        (length near_folders.new) near_lanes.new }
    ensures near_unhashed { All (IsUnhashedFront table.now.shape.block_size (length stripes.now)) near_lanes.new }
    ensures near_read { ReadsColumns table.now starts.now first stripes.now
        (map (hashed_front table.now.shape (length stripes.now)) near_lanes.new)
        (map F.view near_folders.old) (map F.view near_folders.new) }
    ensures far { HasLanes table.now starts.now rest.first stripes.now room
        (length far_folders.new) far_lanes.new }
    ensures far_unhashed { All (IsUnhashedFront table.now.shape.block_size (length stripes.now)) far_lanes.new }
    ensures far_read { ReadsColumns table.now starts.now rest.first stripes.now
        (map (hashed_front table.now.shape (length stripes.now)) far_lanes.new)
        (map F.view far_folders.old) (map F.view far_folders.new) }
{
    let mut one = ||
        requires { IsSend F.row × AreLookedUp table.now stripes.now cells.now ×
            HasLanes table.now starts.now first stripes.now room (length near_folders.now) near_lanes.now }
        ensures lanes { HasLanes table.entry.now starts.entry.now first stripes.entry.now room
            (length near_folders.exit.now) near_lanes.exit.now }
        ensures unhashed { All (IsUnhashedFront table.entry.now.shape.block_size (length stripes.entry.now))
            near_lanes.exit.now }
        ensures read { ReadsColumns table.entry.now starts.entry.now first stripes.entry.now
            (map (hashed_front table.entry.now.shape (length stripes.entry.now)) near_lanes.exit.now)
            (map F.view near_folders.entry.now) (map F.view near_folders.exit.now) }
    {
        fetch_lanes(
            table,
            starts,
            stripes,
            cells,
            room,
            first,
            near_folders,
            near_lanes,
        )
    };
    let mut other = ||
        requires { IsSync R.row × IsSend F.row × AreLookedUp table.now stripes.now cells.now ×
            HasLanes table.now starts.now rest.first stripes.now room (length far_folders.now) far_lanes.now }
        ensures lanes { HasLanes table.entry.now starts.entry.now rest.first stripes.entry.now room
            (length far_folders.exit.now) far_lanes.exit.now }
        ensures unhashed { All (IsUnhashedFront table.entry.now.shape.block_size (length stripes.entry.now))
            far_lanes.exit.now }
        ensures read { ReadsColumns table.entry.now starts.entry.now rest.first stripes.entry.now
            (map (hashed_front table.entry.now.shape (length stripes.entry.now)) far_lanes.exit.now)
            (map F.view far_folders.entry.now) (map F.view far_folders.exit.now) }
    {
        fetch_group(
            rt,
            table,
            starts,
            stripes,
            cells,
            room,
            rest,
            far_folders,
            far_lanes,
        )
    };
    join_mut(rt, &mut one, &mut other);
}

/// Reads these stripes of all columns into a window, side by side: a thread for each column, up to 64 of them, and none
/// where there are no stripes. Each cell is looked up once, and the window keeps which it is. No block is hashed, and no
/// memory is taken.
pub fn fetch_window<R: Threads + Sync, F: Folder>(
    rt: &R,
    folders: &mut [F],
    table: &Table,
    starts: &Starts,
    stripes: &[u32],
    window: &mut Window,
)
    requires folders { length folders.old ≡ length table.now.columns }
    requires starts { StartsFit table.now starts.now }
    requires stripes { All (λ stripe. stripe < length table.now.infos) stripes.now }
    requires fits { Fits table.now window.old }
    requires room { length stripes.now ≤ window.old.room }
    ensures fits { Fits table.now window.new }
    ensures count { window.new.count ≡ length stripes.now }
    ensures fetched { FetchesWindow table.now starts.now stripes.now window.old window.new
        (map F.view folders.old) (map F.view folders.new) }
{
    let all = Group {
        first: 0,
        threads: threads_for(stripes.len(), table.disks()),
    };
    let room = window.room;
    window.count = stripes.len() as u32;
    let cells = window.cells.as_mut_slice();
    look_up(table, stripes, room, cells);
    let lanes = window.lanes.as_mut_slice();
    fetch_group(rt, table, starts, stripes, cells, room, all, folders, lanes);
}

/// Reads these stripes of all columns into a window, side by side, and hashes their blocks by so many threads at most.
/// No memory is taken.
pub fn read_window<R: Threads + Sync, F: Folder>(
    rt: &R,
    folders: &mut [F],
    table: &Table,
    starts: &Starts,
    stripes: &[u32],
    readers: u32,
    window: &mut Window,
)
    requires folders { length folders.old ≡ length table.now.columns }
    requires starts { StartsFit table.now starts.now }
    requires stripes { All (λ stripe. stripe < length table.now.infos) stripes.now }
    requires fits { Fits table.now window.old }
    requires room { length stripes.now ≤ window.old.room }
    ensures fits { Fits table.now window.new }
    ensures cells { HoldsCells table.now stripes.now window.new }
    ensures read { ReadsWindow table.now starts.now stripes.now window.old window.new
        (map F.view folders.old) (map F.view folders.new) }
{
    fetch_window(rt, folders, table, starts, stripes, window);
    hash_window(rt, table.shape(), readers, window);
}
