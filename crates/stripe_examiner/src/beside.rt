// The cells of a window are read or hashed beside the levels of its stripes, and these are read ahead of the calls that
// take them.
ghost use Rattle.std.specs.Prelude.{◌≡◌, ◌<◌, ◌≤◌, All, length, map, true};
ghost use Rattle.std.specs.Thread.{IsSend, IsSync};
ghost use Rattle.disk_model.specs.Vault.{IsUntouched};
ghost use Rattle.stripe_reader.specs.Columns.{ReadsWindow};
ghost use Rattle.stripe_reader.specs.Fetched.{IsUnhashedWindow, hashed_window};
ghost use Rattle.stripe_reader.specs.Held.{AreDisksOf, CanRead, HoldsCells};
ghost use Rattle.stripe_reader.specs.WindowValue.{Fits};
ghost use Rattle.parity_writer.specs.LevelReading.{ReadsLevels};
ghost use Rattle.stripe_examiner.specs.Examining.{ReadsTried};
ghost use Rattle.stripe_examiner.specs.MarkedWindow.{ReadsRooms};
ghost use Rattle.repair_scope.specs.Plan.{is_searched as is_searched_at};
ghost use Rattle.stripe_examiner.specs.Room.{AreRoomsFor, IsStripeRoomFor};
ghost use Rattle.stripe_examiner.specs.Surveyed.{plan_in};

use crate::room::StripeRoom;
use crate::survey::Survey;
use disk_model::{Folder, Vault};
use file_table::Table;
use parity_writer::{Levels, read_ahead, read_levels, take_ahead};
use repair_scope::{Plan, is_searched};
use std::thread::{Threads, join_mut};
use stripe_reader::{Starts, Window, hash_window, read_window};

// Reads the levels of a stripe of a table.
fn read_all<V: Vault>(table: &Table, stripe: u32, vault: &mut V, levels: &mut Levels)
    requires levels { (V.view vault.old).levels ≡ table.now.shape.levels }
    requires size { levels.old.block_size ≡ table.now.shape.block_size }
    ensures size { levels.new.block_size ≡ table.now.shape.block_size }
    ensures count { levels.new.count ≡ table.now.shape.levels }
    ensures room { levels.new.count ≤ length levels.new.levels }
    ensures read { ReadsLevels levels.new.block_size stripe levels.new.count levels.new.levels
        (V.view vault.old) (V.view vault.new) }
{
    // A table has at most six levels, and blocks of at most 4 MiB.
    let _shape = table.shape();
    read_levels(vault, stripe, levels);
}

// Reads the levels of a stripe into its room, where a recovery of its blocks is tried.
fn read_searched<V: Vault>(survey: &Survey<'_>, stripe: u32, vault: &mut V, own: &mut StripeRoom)
    requires within { stripe < length survey.now.plan.table.now.infos }
    requires levels { (V.view vault.old).levels ≡ survey.now.plan.table.now.shape.levels }
    requires room { IsStripeRoomFor survey.now.plan.table.now own.old }
    ensures room { IsStripeRoomFor survey.now.plan.table.now own.new }
    ensures count { is_searched_at (plan_in survey.now) stripe ≡ true →
        own.new.levels.count ≡ survey.now.plan.table.now.shape.levels }
    ensures places { is_searched_at (plan_in survey.now) stripe ≡ true →
        own.new.levels.count ≤ length own.new.levels.levels }
    ensures read { ReadsTried (is_searched_at (plan_in survey.now) stripe) stripe own.new.levels
        (V.view vault.old) (V.view vault.new) }
{
    if is_searched(&survey.plan, stripe) {
        read_all(survey.plan.table, stripe, vault, &mut own.levels);
    }
}

// Reads the levels of stripes, one stripe after another.
fn read_levels_of<V: Vault>(survey: &Survey<'_>, vault: &mut V, rooms: &mut [StripeRoom])
    requires within { All (λ stripe. stripe < length survey.now.plan.table.now.infos) survey.now.stripes.now }
    requires levels { (V.view vault.old).levels ≡ survey.now.plan.table.now.shape.levels }
    requires rooms { AreRoomsFor survey.now.plan.table.now (length survey.now.stripes.now) rooms.old }
    ensures { ReadsRooms (plan_in survey.now) survey.now.stripes.now rooms.new (V.view vault.old) (V.view vault.new) }
{
    for k in 0..survey.stripes.len() {
        read_searched(survey, survey.stripes[k], vault, &mut rooms[k]);
    }
}

// The stripes whose levels are read ahead: none where no recovery is tried of the first or of the last, as in an audit.
fn stripes_ahead<'s>(plan: &Plan<'_>, stripes: &'s [u32]) -> &'s [u32]
    requires { All (λ stripe. stripe < length plan.now.table.now.infos) stripes.now }
{
    let Some(last) = stripes.len().checked_sub(1) else {
        return stripes;
    };
    if is_searched(plan, stripes[0]) && is_searched(plan, stripes[last]) {
        stripes
    } else {
        &stripes[..0]
    }
}

/// What reads the levels of stripes ahead, where a recovery of their blocks is tried: all that is known of the vault stays
/// as it is. It is for `parity_writer::fetch_beside`, and goes back by `parity_writer::put_ahead`.
pub fn take_levels_ahead<V: Vault>(
    plan: &Plan<'_>,
    stripes: &[u32],
    vault: &mut V,
) -> Option<Vec<V::Ahead>>
    requires { All (λ stripe. stripe < length plan.now.table.now.infos) stripes.now }
    ensures { IsUntouched (V.view vault.old) (V.view vault.new) }
{
    // A table has blocks of at most 4 MiB.
    let block_size = plan.table.shape().block_size;
    take_ahead(vault, stripes_ahead(plan, stripes), block_size)
}

// Reads levels ahead: all that is known of the vault stays as it is.
fn read_stripes_ahead<R: Threads + Sync, V: Vault>(rt: &R, survey: &Survey<'_>, vault: &mut V)
    requires { All (λ stripe. stripe < length survey.now.plan.table.now.infos) survey.now.stripes.now }
    ensures { IsUntouched (V.view vault.old) (V.view vault.new) }
{
    // A table has blocks of at most 4 MiB.
    let block_size = survey.plan.table.shape().block_size;
    read_ahead(
        rt,
        vault,
        stripes_ahead(&survey.plan, survey.stripes),
        block_size,
    );
}

// Reads the levels of stripes ahead, and then takes them one stripe after another.
fn take_levels_of<R: Threads + Sync, V: Vault>(
    rt: &R,
    survey: &Survey<'_>,
    vault: &mut V,
    rooms: &mut [StripeRoom],
)
    requires within { All (λ stripe. stripe < length survey.now.plan.table.now.infos) survey.now.stripes.now }
    requires levels { (V.view vault.old).levels ≡ survey.now.plan.table.now.shape.levels }
    requires rooms { AreRoomsFor survey.now.plan.table.now (length survey.now.stripes.now) rooms.old }
    ensures { ReadsRooms (plan_in survey.now) survey.now.stripes.now rooms.new (V.view vault.old) (V.view vault.new) }
{
    read_stripes_ahead(rt, survey, vault);
    read_levels_of(survey, vault, rooms);
}

/// Reads the stripes of all columns into a window, and meanwhile their levels, where a recovery of their blocks is tried.
pub(crate) fn read_beside<R: Threads + Sync, F: Folder, V: Vault>(
    rt: &R,
    survey: &Survey<'_>,
    starts: &Starts,
    folders: &mut [F],
    window: &mut Window,
    vault: &mut V,
    rooms: &mut [StripeRoom],
)
    requires can { CanRead survey.now.plan.table.now starts.now survey.now.stripes.now
        window.old (length folders.old) }
    requires disks { AreDisksOf survey.now.plan.table.now (length folders.old) (V.view vault.old) }
    requires rooms { AreRoomsFor survey.now.plan.table.now (length survey.now.stripes.now) rooms.old }
    ensures window { Fits survey.now.plan.table.now window.new }
    ensures cells { HoldsCells survey.now.plan.table.now survey.now.stripes.now window.new }
    ensures read { ReadsWindow survey.now.plan.table.now starts.now survey.now.stripes.now
        window.old window.new (map F.view folders.old) (map F.view folders.new) }
    ensures levels { ReadsRooms (plan_in survey.now) survey.now.stripes.now rooms.new
        (V.view vault.old) (V.view vault.new) }
{
    let (table, stripes, threads) = (survey.plan.table, survey.stripes, survey.threads);
    let mut cells = ||
        requires { IsSync R.row × IsSend F.row ×
            CanRead table.now starts.now stripes.now window.now (length folders.now) }
    { read_window(rt, folders, table, starts, stripes, threads, window) };
    let mut levels = ||
        requires { IsSync R.row × All (λ stripe. stripe < length survey.now.plan.table.now.infos) survey.now.stripes.now ×
            ((V.view vault.now).levels ≡ survey.now.plan.table.now.shape.levels) ×
            AreRoomsFor survey.now.plan.table.now (length survey.now.stripes.now) rooms.now }
    { take_levels_of(rt, survey, vault, rooms) };
    // This thread goes on with the cells: it starts their readers.
    join_mut(rt, &mut levels, &mut cells);
}

/// Hashes the cells that were fetched into a window, and meanwhile takes the levels of its stripes, where a recovery of their
/// blocks is tried. They may have been read ahead while the cells were fetched.
pub(crate) fn hash_beside<R: Threads + Sync, V: Vault>(
    rt: &R,
    survey: &Survey<'_>,
    window: &mut Window,
    vault: &mut V,
    rooms: &mut [StripeRoom],
)
    requires within { All (λ stripe. stripe < length survey.now.plan.table.now.infos) survey.now.stripes.now }
    requires size { window.old.block_size ≡ survey.now.plan.table.now.shape.block_size }
    requires unhashed { IsUnhashedWindow window.old }
    requires levels { (V.view vault.old).levels ≡ survey.now.plan.table.now.shape.levels }
    requires rooms { AreRoomsFor survey.now.plan.table.now (length survey.now.stripes.now) rooms.old }
    ensures window { window.new ≡ hashed_window survey.now.plan.table.now.shape window.old }
    ensures levels { ReadsRooms (plan_in survey.now) survey.now.stripes.now rooms.new
        (V.view vault.old) (V.view vault.new) }
{
    let shape = &survey.plan.table.shape();
    let threads = survey.threads;
    let mut hashes = ||
        requires { IsSync R.row × (window.now.block_size ≡ shape.now.block_size) × (shape.now.block_size ≤ 4194304) ×
            IsUnhashedWindow window.now }
        ensures { window.exit.now ≡ hashed_window shape.entry.now window.entry.now }
    { hash_window(rt, *shape, threads, window) };
    let mut levels = ||
        requires { All (λ stripe. stripe < length survey.now.plan.table.now.infos) survey.now.stripes.now ×
            ((V.view vault.now).levels ≡ survey.now.plan.table.now.shape.levels) ×
            AreRoomsFor survey.now.plan.table.now (length survey.now.stripes.now) rooms.now }
    { read_levels_of(survey, vault, rooms) };
    // This thread goes on with the hashes: it starts those that help it.
    join_mut(rt, &mut levels, &mut hashes);
}
