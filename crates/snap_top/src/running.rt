// A run.
ghost use Rattle.std.specs.Prelude.{◌≡◌, [], List, length, map, string_bytes, IfOk, IfErr, None, Ok, Option, ℕ};
ghost use Rattle.file_table.specs.Valid.{IsValid};
ghost use Rattle.parity_split.specs.Split.{split_view};
ghost use Rattle.array_setup.specs.Setup.{IsSetup, setup_value};
ghost use Rattle.snap_config.specs.Words.{IsOptions, IsWay};
ghost use Rattle.snap_top.specs.Complete.{IsSilent, RefusalsTouchNothing, SmoothRunsAreDone};
ghost use Rattle.snap_top.specs.Levels.{IsOpenedBy, IsShapedBy, by_levels, is_split};
ghost use Rattle.snap_top.specs.Moment.{EveryMomentIsSound};
ghost use Rattle.snap_top.specs.AsAsked.{ChecksEnd, FixesEnd, ScrubsEnd, SyncsEndInPart};
ghost use Rattle.snap_top.specs.Asked.{asked_by, WorksOnArray};
ghost use Rattle.snap_top.specs.Task.{task_of};
ghost use Rattle.snap_top.specs.Run.{BeginsNot, IsAccounted, Works, Ran, RanWith, EndsWith};
ghost use Rattle.snap_top.specs.Loading.{BeginsWith};
ghost use Rattle.snap_top.specs.Entry.{at_entry, ByLevels, exit_of};
ghost use Rattle.snap_top.specs.Step.{EveryRunSteps};
ghost use Rattle.snap_top.specs.Unwritten.{WritesAsAsked};
ghost use Rattle.snap_top.specs.Views.{AreAllOpen, world_view};

use crate::commands::{COMMANDS, carry_out};
use crate::empty::empty;
use crate::exercising::exercise_alone;
use crate::job::{Done, Job};
use crate::matching::difference;
use crate::opening::{Session, open_all};
use crate::saying::say;
use crate::{End, Ending, Refusal};
use array_scan::laws::a_layout_keeps_its_stripes;
use content_file::laws::one_table_has_a_spelling;
use content_file::load;
use disk_model::{Folder, Opener, Sink, Vault};
use file_table::Table;
use parity_split::{Shape, SplitVault};
use snap_config::{Command, Options, read_words_among};
use snap_fix::laws::{a_fix_keeps_what_is_sound, a_fix_restores, a_known_row_is_the_snapshots};
use snap_report::Report;
use snap_scrub::laws::a_scrub_keeps_what_is_synced;
use snap_sync::laws::{a_sync_is_a_part_sync, every_moment_is_sound, what_is_pending_is_found};
use std::alloc::Global;
use std::marker::Brand;
use std::thread::Threads;

/// How a run ended, and all that was opened.
#[derive(Drop)]
pub struct Outcome<F, V> {
    /// 0: done. 1: done, with findings or bad stripes. 2: words, configuration or content were refused. 3: the opener,
    /// a folder, the vault or `out` failed. 4: memory ran out. 5: content is there, and none is whole.
    pub status: u8,
    pub folders: Vec<F>,
    pub vault: Option<V>,
}

// The same, with how it ended.
struct Ended<F, V> {
    end: End,
    folders: Vec<F>,
    vault: Option<V>,
}

// The table that a command begins with: what was loaded, if that is of this array, or that of an array without content.
fn first_table(alloc: Global, job: &Job, loaded: Option<Table>) -> Result<Table, Ending>
    requires { IsSetup (setup_value job.now.setup) }
    ensures begins { IfOk result (BeginsWith (setup_value job.now.setup) job.now.seed loaded) }
    ensures valid { IfOk result IsValid }
    ensures not { IfErr result (BeginsNot (setup_value job.now.setup) loaded) }
{
    let Some(content) = loaded else {
        return empty(alloc, &job.setup, job.seed).map_err(|_| Ending::NoTable);
    };
    match difference(&content, &job.setup) {
        Some(difference) => Err(Ending::OtherArray {
            difference,
            content,
        }),
        None => Ok(content),
    }
}

// All that is done with what was opened.
fn work_on<R: Threads + Sync, F: Folder, V: Vault, W: Sink>(
    rt: &R,
    alloc: Global,
    job: &Job,
    folders: &mut [F],
    vault: &mut V,
    reports: &mut Vec<Box<dyn Report>>,
    out: &mut W,
) -> Ending
    requires works { WorksOnArray job.now.command }
    requires way { IsWay job.now.command }
    requires valid { IsSetup (setup_value job.now.setup) }
    requires folders { length folders.old ≡ length job.now.setup.disks }
    requires open { AreAllOpen (map F.view folders.old) }
    requires levels { (V.view vault.old).levels ≡ length job.now.setup.parts.items }
    ensures { Works standing stands (task_of job.now)
        (world_view (map F.view folders.old) (V.view vault.old) (W.view out.old))
        (world_view (map F.view folders.new) (V.view vault.new) (W.view out.new))
        reports.old.items reports.new.items result }
{
    let loaded = match load(alloc, vault) {
        Ok(loaded) => loaded,
        Err(fault) => return Ending::NotLoaded(fault),
    };
    let table = match first_table(alloc, job, loaded) {
        Ok(table) => table,
        Err(ending) => return ending,
    };
    let Done { answer, named } = carry_out(rt, alloc, job, table, folders, vault, reports, out);
    Ending::Answered { answer, named }
}

// Whether some level has several files.
fn has_split(parts: &[u32]) -> bool
    ensures { result ≡ is_split parts.now }
{
    parts.iter().any(|count| *count > 1)
}

// The same with the levels of the vault split. Gives the vault back.
fn work_split<R: Threads + Sync, F: Folder, V: Vault, W: Sink, P: Shape>(
    rt: &R,
    alloc: Global,
    job: &Job,
    parts: Vec<u32>,
    folders: &mut [F],
    vault: V,
    reports: &mut Vec<Box<dyn Report>>,
    out: &mut W,
) -> (Ending, V)
    requires works { WorksOnArray job.now.command }
    requires way { IsWay job.now.command }
    requires valid { IsSetup (setup_value job.now.setup) }
    requires folders { length folders.old ≡ length job.now.setup.disks }
    requires open { AreAllOpen (map F.view folders.old) }
    requires opened { IsShapedBy P.counts P.capacity parts.items (setup_value job.now.setup) (V.view vault) }
    ensures { Works standing stands (task_of job.now)
        (world_view (map F.view folders.old) (split_view P.counts P.capacity (V.view vault)) (W.view out.old))
        (world_view (map F.view folders.new) (split_view P.counts P.capacity (V.view result.1)) (W.view out.new))
        reports.old.items reports.new.items result.0 }
{
    let mut split = SplitVault::<V, P>::new(vault, parts, job.setup.split);
    let ending = work_on(rt, alloc, job, folders, &mut split, reports, out);
    (ending, split.into_base())
}

// The same by the levels of the configuration. Gives the vault back.
fn work_by_levels<R: Threads + Sync, F: Folder, V: Vault, W: Sink>(
    rt: &R,
    alloc: Global,
    job: &Job,
    parts: Vec<u32>,
    folders: &mut [F],
    vault: V,
    reports: &mut Vec<Box<dyn Report>>,
    out: &mut W,
) -> (Ending, V)
    requires works { WorksOnArray job.now.command }
    requires way { IsWay job.now.command }
    requires valid { IsSetup (setup_value job.now.setup) }
    requires folders { length folders.old ≡ length job.now.setup.disks }
    requires open { AreAllOpen (map F.view folders.old) }
    requires opened { IsOpenedBy parts.items (setup_value job.now.setup) (V.view vault) }
    ensures { Works standing stands (task_of job.now)
        (world_view (map F.view folders.old) (by_levels (setup_value job.now.setup) (V.view vault)) (W.view out.old))
        (world_view (map F.view folders.new) (by_levels (setup_value job.now.setup) (V.view result.1)) (W.view out.new))
        reports.old.items reports.new.items result.0 }
{
    if has_split(parts.as_slice()) {
        return work_split::<R, F, V, W, Brand>(rt, alloc, job, parts, folders, vault, reports, out);
    }
    let mut vault = vault;
    let ending = work_on(rt, alloc, job, folders, &mut vault, reports, out);
    (ending, vault)
}

// Nothing was opened, and it ended so.
fn unopened<F, V>(alloc: Global, end: End) -> Ended<F, V>
    ensures end { result.end ≡ end }
    ensures folders { result.folders.items ≡ [] }
    ensures vault { result.vault ≡ None }
{
    Ended {
        end,
        folders: Vec::new(alloc),
        vault: None,
    }
}

// All that is done where the words ask for a command over the array of a configuration: of all words that ask for this.
fn work_on_array<R: Threads + Sync, O: Opener, W: Sink>(
    rt: &R,
    alloc: Global,
    asked: Options,
    opener: &mut O,
    reports: &mut Vec<Box<dyn Report>>,
    out: &mut W,
    now: u64,
    seed: [u8; 16],
) -> Ended<O::Folder, O::Vault>
    requires options { IsOptions asked }
    requires works { WorksOnArray asked.command }
    ensures { (texts : List (List ℕ)) → asked_by texts ≡ Ok asked → RanWith standing stands
        (at_entry texts (O.view opener.old) (W.view out.old) now seed)
        (exit_of O.Folder.view O.Vault.view (O.view opener.new) result.folders.items result.vault (W.view out.new))
        reports.old.items reports.new.items result.end }
{
    match open_all(alloc, asked, opener) {
        Ok(session) => {
            let Session {
                command,
                readers,
                setup,
                parts,
                mut folders,
                vault,
            } = session;
            let job = Job {
                command,
                readers,
                setup,
                moment: now,
                seed,
            };
            let (ending, vault) = work_by_levels(
                rt,
                alloc,
                &job,
                parts,
                folders.as_mut_slice(),
                vault,
                reports,
                out,
            );
            Ended {
                end: End::Worked {
                    setup: job.setup,
                    ending,
                },
                folders,
                vault: Some(vault),
            }
        }
        Err(refusal) => unopened(alloc, End::Refused(refusal)),
    }
}

// All but what is said on the standard error.
fn work<R: Threads + Sync, O: Opener, W: Sink>(
    rt: &R,
    alloc: Global,
    words: &[String],
    opener: &mut O,
    reports: &mut Vec<Box<dyn Report>>,
    out: &mut W,
    now: u64,
    seed: [u8; 16],
) -> Ended<O::Folder, O::Vault>
    ensures { RanWith standing stands (at_entry (map string_bytes words.now) (O.view opener.old) (W.view out.old) now seed)
        (exit_of O.Folder.view O.Vault.view (O.view opener.new) result.folders.items result.vault (W.view out.new))
        reports.old.items reports.new.items result.end }
{
    let asked = match read_words_among(alloc, &COMMANDS, words) {
        Ok(asked) => asked,
        Err(fault) => return unopened(alloc, End::Refused(Refusal::Words(fault))),
    };
    if let Command::Exercise(n) = asked.command {
        return unopened(alloc, End::Exercised(exercise_alone(rt, alloc, n, out)));
    }
    work_on_array(rt, alloc, asked, opener, reports, out, now, seed)
}

/// Runs the words. The first of them is the program's name. `now` is in seconds since 1970, and `seed` is that of a new
/// array's hashes. What was opened goes back in the outcome, also after a refusal. A failure of `out` stops its lines
/// alone; one of `err` or of a report changes nothing else.
pub fn run<R: Threads + Sync, O: Opener, W: Sink, E: Sink>(
    rt: &R,
    alloc: Global,
    words: &[String],
    opener: &mut O,
    reports: &mut Vec<Box<dyn Report>>,
    out: &mut W,
    err: &mut E,
    now: u64,
    seed: [u8; 16],
) -> Outcome<O::Folder, O::Vault>
    ensures ended { EndsWith standing stands (at_entry (map string_bytes words.now) (O.view opener.old) (W.view out.old) now seed)
        (exit_of O.Folder.view O.Vault.view (O.view opener.new) result.folders.items result.vault (W.view out.new))
        reports.old.items reports.new.items result.status (E.view err.old) (E.view err.new) }
    ensures account { ByLevels IsAccounted (at_entry (map string_bytes words.now) (O.view opener.old) (W.view out.old) now seed)
        (exit_of O.Folder.view O.Vault.view (O.view opener.new) result.folders.items result.vault (W.view out.new))
        result.status }
    ensures refused { ByLevels RefusalsTouchNothing (at_entry (map string_bytes words.now) (O.view opener.old) (W.view out.old) now seed)
        (exit_of O.Folder.view O.Vault.view (O.view opener.new) result.folders.items result.vault (W.view out.new))
        result.status }
    ensures unwritten { WritesAsAsked (at_entry (map string_bytes words.now) (O.view opener.old) (W.view out.old) now seed)
        (exit_of O.Folder.view O.Vault.view (O.view opener.new) result.folders.items result.vault (W.view out.new))
        result.status }
    ensures silent { IsSilent result.status (E.view err.old) (E.view err.new) }
    ensures sound { ByLevels EveryMomentIsSound (at_entry (map string_bytes words.now) (O.view opener.old) (W.view out.old) now seed)
        (exit_of O.Folder.view O.Vault.view (O.view opener.new) result.folders.items result.vault (W.view out.new))
        result.status }
    ensures synced { ByLevels SyncsEndInPart (at_entry (map string_bytes words.now) (O.view opener.old) (W.view out.old) now seed)
        (exit_of O.Folder.view O.Vault.view (O.view opener.new) result.folders.items result.vault (W.view out.new))
        result.status }
    ensures checked { ByLevels ChecksEnd (at_entry (map string_bytes words.now) (O.view opener.old) (W.view out.old) now seed)
        (exit_of O.Folder.view O.Vault.view (O.view opener.new) result.folders.items result.vault (W.view out.new))
        result.status }
    ensures fixed { ByLevels FixesEnd (at_entry (map string_bytes words.now) (O.view opener.old) (W.view out.old) now seed)
        (exit_of O.Folder.view O.Vault.view (O.view opener.new) result.folders.items result.vault (W.view out.new))
        result.status }
    ensures scrubbed { ByLevels ScrubsEnd (at_entry (map string_bytes words.now) (O.view opener.old) (W.view out.old) now seed)
        (exit_of O.Folder.view O.Vault.view (O.view opener.new) result.folders.items result.vault (W.view out.new))
        result.status }
    ensures step { ByLevels EveryRunSteps (at_entry (map string_bytes words.now) (O.view opener.old) (W.view out.old) now seed)
        (exit_of O.Folder.view O.Vault.view (O.view opener.new) result.folders.items result.vault (W.view out.new))
        result.status }
    ensures complete { ByLevels SmoothRunsAreDone (at_entry (map string_bytes words.now) (O.view opener.old) (W.view out.old) now seed)
        (exit_of O.Folder.view O.Vault.view (O.view opener.new) result.folders.items result.vault (W.view out.new))
        result.status }
{
    a_layout_keeps_its_stripes();
    a_sync_is_a_part_sync();
    what_is_pending_is_found();
    every_moment_is_sound();
    one_table_has_a_spelling();
    a_fix_keeps_what_is_sound();
    a_fix_restores();
    a_known_row_is_the_snapshots();
    a_scrub_keeps_what_is_synced();
    let Ended {
        end,
        folders,
        vault,
    } = work(rt, alloc, words, opener, reports, out, now, seed);
    say(err, &end);
    Outcome {
        status: end.status(),
        folders,
        vault,
    }
}
