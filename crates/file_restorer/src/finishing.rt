// The files of the selected records, once all blocks are written.
ghost use Rattle.std.specs.Prelude.{◌≡◌, ◌≢◌, ◌||◌, not, true, None, IfOk, IfErr, IsTrue};
ghost use Rattle.disk_model.specs.Tree.{file_of};
ghost use Rattle.disk_model.specs.declared.meta.Meta.{Meta};
ghost use Rattle.file_restorer.specs.Finishing.{CanFinish, FinishesRecord, FinishesNot, IsWholeCall, IsFinishCall, finish_of, lost_finish, whole_finish, finish_calls, lost_calls, size_calls, whole_calls, same_stamp as same_stamp_by, is_changed as is_changed_by, stamped_finish as stamped_finish_by};
ghost use Rattle.file_restorer.specs.FinishSteps.{IsPlaced, IsReady, IsPutCall, IsSizeCall, IsLostCall, BreaksBy, SetsUp, FitsSize, FinishesBy};
ghost use Rattle.file_restorer.specs.Order.{put_calls};
ghost use Rattle.file_restorer.specs.State.{stands as stands_by};

use crate::state::{FileState, States};
use disk_model::{Failed, FileFault, Folder, Meta, Path, Stamp};
use file_table::Table;
use stripe_reader::{Place, Start, Starts};

/// What was done to the file of a record at the end.
#[derive(Clone, Copy, Debug, PartialEq, Eq)]
pub enum Finish {
    /// Nothing: it stands as it was recorded, or there is none, or it stands under PATH`.unrecoverable` already.
    Kept,
    /// It is as it was recorded, and the folder says whether it keeps the stamp.
    Restored { stamped: bool },
    /// Its stamp alone differs, and the folder does not keep the recorded one.
    Unstamped,
    /// It has a lost block, and stands under PATH`.unrecoverable`.
    Renamed,
    /// It was gone.
    Gone,
}

// Whether a file stands under its path.
fn stands(place: Place, touched: bool) -> bool
    ensures { result ≡ stands_by place touched }
{
    match place {
        Place::Plain => true,
        Place::Lost => false,
        Place::Nowhere => touched,
    }
}

// Whether a file was listed with this stamp.
fn same_stamp(stamp: Stamp, listed: Option<Meta>) -> bool
    ensures { result ≡ same_stamp_by stamp listed }
{
    match listed {
        None => false,
        Some(meta) => meta.stamp.seconds == stamp.seconds && meta.stamp.nanos == stamp.nanos,
    }
}

// Whether a file differs from the listed one, once it stands under its path with its recorded size.
fn is_changed(meta: Meta, start: Start, state: FileState) -> bool
    ensures { result ≡ is_changed_by meta start state }
{
    state.touched || !stands(start.place, state.touched) || state.size != meta.size
}

// Puts the file of a record under its path: it is renamed back, or made.
fn set_up<F: Folder>(
    folder: &mut F,
    path: &Path,
    place: Place,
    touched: bool,
) -> Result<(), FileFault>
    requires { IsPlaced path.now place touched (F.view folder.old) }
    ensures set_up { IfOk result (λ _. SetsUp path.now place touched
        (F.view folder.old) (F.view folder.new)) }
    ensures broke { IfErr result (λ fault.
        BreaksBy fault (IsPutCall place touched path.now) (put_calls place touched path.now)
        (F.view folder.old) (F.view folder.new)) }
{
    if stands(place, touched) {
        return Ok(());
    }
    match place {
        Place::Lost => folder.rename(path, false),
        Place::Plain | Place::Nowhere => match folder.make(path) {
            Ok(()) => Ok(()),
            Err(Failed) => Err(FileFault::Failed),
        },
    }
}

// Gives the file under a path, which has one size, another.
fn fit_size<F: Folder>(folder: &mut F, path: &Path, before: u64, size: u64) -> Result<(), FileFault>
    requires { IsTrue (F.view folder.old).tells →
        file_of (F.view folder.old).tree path.now ≢ None }
    ensures sized { IfOk result (λ _. FitsSize path.now before size
        (F.view folder.old) (F.view folder.new)) }
    ensures broke { IfErr result (λ fault.
        BreaksBy fault (IsSizeCall path.now before size) (size_calls before size path.now)
        (F.view folder.old) (F.view folder.new)) }
{
    if before == size {
        return Ok(());
    }
    folder.set_size(path, size)
}

// Finishes a file without a lost block.
fn finish_whole<F: Folder>(
    folder: &mut F,
    path: &Path,
    listed: Option<Meta>,
    meta: Meta,
    start: Start,
    state: FileState,
) -> Result<Finish, FileFault>
    requires { IsReady path.now listed meta start state (F.view folder.old) }
    ensures finished { IfOk result (λ finish. FinishesBy
        (whole_finish meta listed start state (F.view folder.old).keeps) finish
        (IsWholeCall listed start state path.now meta) (whole_calls listed start state path.now meta)
        meta start state path.now (F.view folder.old) (F.view folder.new)) }
    ensures broke { IfErr result (λ fault. BreaksBy fault (IsWholeCall listed start state path.now meta)
        (whole_calls listed start state path.now meta) (F.view folder.old) (F.view folder.new)) }
{
    set_up(folder, path, start.place, state.touched)?;
    fit_size(folder, path, state.size, meta.size)?;
    let changed = is_changed(meta, start, state);
    if !needs_stamp(changed, meta.stamp, listed) {
        return Ok(Finish::Kept);
    }
    let stamped = folder.set_stamp(path, meta.stamp)?;
    Ok(stamped_finish(changed, stamped))
}

// Whether the stamp of a file is set: it was changed, or listed with another one.
fn needs_stamp(changed: bool, stamp: Stamp, listed: Option<Meta>) -> bool
    ensures { result ≡ (changed || not (same_stamp_by stamp listed)) }
{
    changed || !same_stamp(stamp, listed)
}

// What was done to a file whose stamp was to be set, by whether the folder keeps it.
fn stamped_finish(changed: bool, stamped: bool) -> Finish
    ensures { result ≡ stamped_finish_by changed stamped }
{
    if changed || stamped {
        Finish::Restored { stamped }
    } else {
        Finish::Unstamped
    }
}

// Finishes a file with a lost block.
fn finish_lost<F: Folder>(
    folder: &mut F,
    path: &Path,
    start: Start,
    state: FileState,
) -> Result<Finish, FileFault>
    requires { IsPlaced path.now start.place state.touched (F.view folder.old) }
    ensures finished { (meta : Meta) → IfOk result (λ finish. FinishesBy (lost_finish start state)
        finish (IsLostCall start state path.now) (lost_calls start state path.now) meta start state path.now
        (F.view folder.old) (F.view folder.new)) }
    ensures broke { IfErr result (λ fault. BreaksBy fault (IsLostCall start state path.now)
        (lost_calls start state path.now) (F.view folder.old) (F.view folder.new)) }
{
    if !stands(start.place, state.touched) {
        return Ok(Finish::Kept);
    }
    folder.rename(path, true)?;
    Ok(Finish::Renamed)
}

// Finishes a file.
fn finish_file<F: Folder>(
    folder: &mut F,
    path: &Path,
    listed: Option<Meta>,
    meta: Meta,
    start: Start,
    state: FileState,
) -> Result<Finish, FileFault>
    requires { IsReady path.now listed meta start state (F.view folder.old) }
    ensures finished { IfOk result (λ finish. FinishesBy
        (finish_of meta listed start state (F.view folder.old).keeps) finish
        (IsFinishCall state.lost listed start state path.now meta)
        (finish_calls state.lost listed start state path.now meta)
        meta start state path.now (F.view folder.old) (F.view folder.new)) }
    ensures broke { IfErr result (λ fault. BreaksBy fault
        (IsFinishCall state.lost listed start state path.now meta)
        (finish_calls state.lost listed start state path.now meta) (F.view folder.old) (F.view folder.new)) }
{
    if state.lost {
        finish_lost(folder, path, start, state)
    } else {
        finish_whole(folder, path, listed, meta, start, state)
    }
}

/// Finishes the file of a selected record that isn't blocked. One without a lost block stands under its path then, with its
/// recorded size and stamp. One with a lost block stands under PATH`.unrecoverable`.
pub fn finish_record<F: Folder>(
    table: &Table,
    d: u32,
    i: u32,
    listed: Option<Meta>,
    starts: &mut Starts,
    states: &mut States,
    folder: &mut F,
) -> Result<Finish, Failed>
    requires { CanFinish table.now d i listed starts.old states.old (F.view folder.old) }
    ensures finished { IfOk result (λ finish. FinishesRecord table.now d i listed finish
        starts.old states.old (F.view folder.old) starts.new states.new (F.view folder.new)) }
    ensures failed { IfErr result (λ _. FinishesNot table.now d i listed starts.old states.old
        (F.view folder.old) (F.view folder.new)) }
{
    // The path of a record leaves room for the name of its lost file, and its stamp is one.
    let _shape = table.shape();
    let start = starts.at(d, i);
    let state = states.at(d, i);
    match finish_file(
        folder,
        table.path(d, i),
        listed,
        table.meta(d, i),
        start,
        state,
    ) {
        Ok(finish) => Ok(finish),
        Err(FileFault::Missing) => Ok(Finish::Gone),
        Err(FileFault::Failed) => Err(Failed),
    }
}
