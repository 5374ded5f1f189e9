// Runs that are told to logs, and what was written to each.
use crate::arrays::Left;
use crate::cases::{Case, follow, run_case_told, vault_after};
use crate::left::compare;
use disk_memory::MemSink;
use disk_model::{Failed, Sink};
use snap_report::{LogReport, Report};
use std::alloc::Global;
use std::cell::RefCell;
use std::rc::Rc;
use std::test::Fail;
use std::thread::Threads;

/// What three logs of a run have, of which the second fails.
#[derive(Clone, Copy)]
pub struct Logged<'a> {
    /// The lines of all events of the run.
    pub lines: &'a str,
    /// How many lines the second log takes.
    pub room: u64,
    /// Those lines.
    pub taken: &'a str,
}

// What was written to a sink, where others see it.
type Seen = Rc<RefCell<Vec<u8>>>;

// A sink in memory that copies what is written to it.
#[derive(Drop)]
struct SeenSink {
    own: MemSink,
    seen: Seen,
}

impl Sink for SeenSink {
    ghost use Rattle.disk_memory.specs.Sink.{sink_view};

    ghost view = { λ sink. sink_view sink.own };

    fn faults(&self) -> u64 {
        self.own.faults()
    }

    fn write(&mut self, bytes: &[u8]) -> Result<(), Failed> {
        let answer = self.own.write(bytes);
        if answer.is_ok() {
            copy(&self.seen, bytes);
        }
        answer
    }
}

// Adds bytes, if there is memory for them.
fn copy(seen: &Seen, bytes: &[u8]) {
    if let Ok(mut seen) = seen.try_borrow_mut() {
        let _ = seen.extend_from_slice(bytes);
    }
}

// A log that writes there, and of which each write after so many fails.
fn log_to(alloc: Global, seen: &Seen, writes: u64) -> Result<LogReport<SeenSink>, Fail> {
    let mut own = MemSink::new(alloc);
    own.stop_after(writes);
    let seen = seen.clone()?;
    Ok(LogReport::new(SeenSink { own, seen }))
}

// Nothing yet.
fn nothing(alloc: Global) -> Result<Seen, Fail> {
    Ok(Rc::new(alloc, RefCell::new(Vec::new(alloc)))?)
}

// Whether just this was written there.
fn has_just(seen: &Seen, text: &str) -> bool {
    match seen.try_borrow() {
        Ok(seen) => seen.as_slice() == text.as_bytes(),
        Err(_) => false,
    }
}

// Whether there are three reports, the second failed once, and the other two did not.
fn the_second_failed(reports: &[Box<dyn Report>]) -> bool {
    let [first, second, third] = reports else {
        return false;
    };
    first.faults() == 0
        && !first.failed()
        && second.faults() == 1
        && second.failed()
        && third.faults() == 0
        && !third.failed()
}

// What the last of some runs left, where each but the first is made over the vault that the one before left.
fn runs<R: Threads + Sync>(rt: &R, alloc: Global, cases: &[Case]) -> Result<Option<Left>, Fail> {
    let mut left = None;
    for case in cases {
        left = Some(follow(rt, alloc, 0, left, case)?);
    }
    Ok(left)
}

// Makes a run with reports over what the runs before left, and compares what it left.
fn run_to<R: Threads + Sync>(
    rt: &R,
    alloc: Global,
    before: &[Case],
    case: &Case,
    reports: &mut Vec<Box<dyn Report>>,
) -> Result<(), Fail> {
    let mut before = runs(rt, alloc, before)?;
    let vault = vault_after(alloc, &mut before, case)?;
    let mut left = run_case_told(rt, alloc, case, vault, reports)?;
    compare(alloc, 0, &mut left, case)
}

/// Makes a run with three logs over what the runs before left, and compares what it left, and what is in the logs. The
/// second log fails, and is asked for no other line. It stays in its place, and the run goes on as without it.
pub fn is_logged<R: Threads + Sync>(
    rt: &R,
    alloc: Global,
    before: &[Case],
    case: &Case,
    logged: Logged,
) -> Result<(), Fail> {
    let first = nothing(alloc)?;
    let second = nothing(alloc)?;
    let third = nothing(alloc)?;
    let mut reports: Vec<Box<dyn Report>> = Vec::new(alloc);
    reports.push(Box::new(alloc, log_to(alloc, &first, u64::MAX)?)?)?;
    reports.push(Box::new(alloc, log_to(alloc, &second, logged.room)?)?)?;
    reports.push(Box::new(alloc, log_to(alloc, &third, u64::MAX)?)?)?;
    run_to(rt, alloc, before, case, &mut reports)?;
    if !the_second_failed(&reports) {
        return Err("reports".into());
    }
    if !has_just(&first, logged.lines)
        || !has_just(&second, logged.taken)
        || !has_just(&third, logged.lines)
    {
        return Err("logs".into());
    }
    Ok(())
}
