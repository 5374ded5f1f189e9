// The exercise of a run.
ghost use Rattle.std.specs.Prelude.{◌≡◌, ◌≤◌, if◌then◌else◌};
ghost use Rattle.snap_top.specs.Exercising.{Exercises};

use disk_model::Sink;
use snap_exercise::exercise;
use snap_report::{Answer, Lines, RunFault};
use std::alloc::Global;
use std::thread::Threads;

// One that is not well counts as a finding.
fn findings(is_well: bool) -> u64
    ensures { result ≡ (if is_well then 0 else 1) }
{
    if is_well { 0 } else { 1 }
}

/// Exercises the array of a number, in memory alone.
pub(crate) fn exercise_alone<R: Threads + Sync, W: Sink>(
    rt: &R,
    alloc: Global,
    n: u32,
    out: &mut W,
) -> Answer
    requires { n ≤ 999999999 }
    ensures { Exercises n (W.view out.old) (W.view out.new) result }
{
    let mut lines = Lines::over(out);
    match exercise(rt, alloc, n, &mut lines) {
        Ok(is_well) => Answer::done(findings(is_well), lines.failed()),
        Err(_) => Answer::Broken(RunFault::Memory),
    }
}
