// Each call of an object fails in turn.
use crate::arrays::{Failing, Left};
use crate::cases::{Case, follow};
use crate::next::{has_failed, run_then};
use std::alloc::Global;
use std::test::Fail;
use std::thread::Threads;

/// How a run ends: its status, what it prints, and its line on the standard error.
pub type Ended<'a> = (u8, &'a str, &'a str);

/// A run over what another one left, if there is one before it; and the run after it, where a call of it failed.
#[derive(Clone, Copy)]
pub struct Turns<'a> {
    pub before: Option<Case<'a>>,
    pub whole: Case<'a>,
    pub next: Case<'a>,
}

/// The calls of an object, from the first one on: how the run ends where that call fails.
#[derive(Clone, Copy)]
pub struct Calls<'a> {
    pub first: Failing,
    pub ends: &'a [Ended<'a>],
}

/// Makes the run once for each call of each object, which fails, and compares how it ends. The next run is made over what
/// these bytes pick of what a stop may leave then. The call after the last is none: the run ends as without a failure.
pub fn each_call_fails<R: Threads + Sync>(
    rt: &R,
    alloc: Global,
    turns: &Turns,
    objects: &[Calls],
    choice: &[u8],
) -> Result<(), Fail> {
    for object in objects {
        let mut failing = object.first;
        for ended in object.ends {
            call_fails(rt, alloc, turns, failing, *ended, choice)?;
            failing = failing.later();
        }
        is_undisturbed(rt, alloc, turns, failing)?;
    }
    Ok(())
}

fn run_before<R: Threads + Sync>(
    rt: &R,
    alloc: Global,
    turns: &Turns,
) -> Result<Option<Left>, Fail> {
    match &turns.before {
        Some(case) => Ok(Some(follow(rt, alloc, 0, None, case)?)),
        None => Ok(None),
    }
}

fn call_fails<R: Threads + Sync>(
    rt: &R,
    alloc: Global,
    turns: &Turns,
    failing: Failing,
    ended: Ended,
    choice: &[u8],
) -> Result<(), Fail> {
    let left = run_before(rt, alloc, turns)?;
    let left = follow(rt, alloc, 0, left, &broken(turns, failing, ended))?;
    if !has_failed(&left) {
        return Err(Fail::new(format_args!("{failing:?}: no call failed")));
    }
    // nothing was opened, so no run can be made over it
    if failing.opener > 0 {
        return Ok(());
    }
    run_then(rt, alloc, 0, left, &turns.next, choice)?;
    Ok(())
}

// The run, of which a call fails.
fn broken<'a>(turns: &Turns<'a>, failing: Failing, ended: Ended<'a>) -> Case<'a> {
    let (status, out, err) = ended;
    Case {
        failing,
        status,
        out,
        err,
        is_opened: failing.opener == 0,
        keeps: false,
        stays: None,
        contents: &[],
        levels: &[],
        left: None,
        ..turns.whole
    }
}

fn is_undisturbed<R: Threads + Sync>(
    rt: &R,
    alloc: Global,
    turns: &Turns,
    failing: Failing,
) -> Result<(), Fail> {
    let left = run_before(rt, alloc, turns)?;
    let mut case = turns.whole;
    case.failing = failing;
    // what is looked at afterwards is not to fail
    case.failing.stops = true;
    let left = follow(rt, alloc, 0, left, &case)?;
    if has_failed(&left) {
        return Err(Fail::new(format_args!("{failing:?}: one more call")));
    }
    Ok(())
}
