// An exercise of which the output does not fail is surely done.
ghost use Rattle.std.specs.Prelude.{IfOk, IfSome, map, string_bytes};
ghost use Rattle.disk_memory.specs.Folder.{folder_view};
ghost use Rattle.disk_memory.specs.Sink.{sink_view};
ghost use Rattle.disk_memory.specs.Vault.{vault_view};
ghost use Rattle.snap_top.specs.Exercising.{AsksForExercise};
ghost use Rattle.snap_top_refusals.specs.Exercised.{IsSmoothlyExercised, RunsAlone};

use disk_memory::{MemFolder, MemOpener, MemSink, MemVault};
use disk_model::{Opener, Sink};
use snap_config::{Command, read_words_among};
use snap_top::{COMMANDS, run};
use snap_top_histories::lived::SEED;
use snap_top_instances::told::{opened_well, says_else};
use snap_top_memory::arrays::{NOW, owned};
use std::alloc::Global;
use std::test::Fail;
use std::thread::Threads;

/// Makes an exercise. It answers the status, and nothing unless the words ask for one, neither the opener nor the output
/// failed, and something was printed.
pub fn exercise_smoothly<R: Threads + Sync>(
    rt: &R,
    alloc: Global,
    words: &[&str],
) -> Result<u8, Fail>
    ensures { IfOk result (IsSmoothlyExercised (⟦<MemOpener<MemFolder, MemVault> as Opener>⟧.view) folder_view vault_view sink_view) }
{
    let line = owned(alloc, words)?;
    let words = line.as_slice();
    let Some(_number) = number_asked(alloc, words) else {
        return Err("no exercise".into());
    };
    let made = run_over_nothing(rt, alloc, words)?;
    let Printed {
        status,
        opener,
        out,
    } = made;
    if !opened_well(opener) {
        return Err("the opener failed".into());
    }
    if out.faults() > 0 {
        return Err("the output failed".into());
    }
    if !says_else(out.bytes(), b"") {
        return Err("nothing was printed".into());
    }
    Ok(status)
}

// What a run left that opened nothing.
#[derive(Drop)]
struct Printed {
    status: u8,
    opener: MemOpener<MemFolder, MemVault>,
    out: MemSink,
}

// Runs words over an opener that has nothing to open.
fn run_over_nothing<R: Threads + Sync>(
    rt: &R,
    alloc: Global,
    words: &[String],
) -> Result<Printed, Fail>
    ensures { IfOk result (λ made. RunsAlone (⟦<MemOpener<MemFolder, MemVault> as Opener>⟧.view) folder_view vault_view sink_view
        (map string_bytes words.now) made.status made.out) }
{
    let disks: Vec<MemFolder> = Vec::new(alloc);
    let vault = MemVault::new(alloc, 0, 0)?;
    let mut opener = MemOpener::new(alloc, Vec::new(alloc), disks, vault);
    let mut out = MemSink::new(alloc);
    let mut err = MemSink::new(alloc);
    let mut reports = Vec::new(alloc);
    let outcome = run(
        rt,
        alloc,
        words,
        &mut opener,
        &mut reports,
        &mut out,
        &mut err,
        NOW,
        SEED,
    );
    Ok(Printed {
        status: outcome.status,
        opener,
        out,
    })
}

// The number of the exercise that the words ask for.
fn number_asked(alloc: Global, words: &[String]) -> Option<u32>
    ensures { IfSome result (AsksForExercise (map string_bytes words.now)) }
{
    match read_words_among(alloc, &COMMANDS, words) {
        Ok(asked) => match asked.command {
            Command::Exercise(number) => Some(number),
            _ => None,
        },
        Err(_) => None,
    }
}
