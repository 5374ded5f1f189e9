//! The program: the words, files and streams of the system, handed to `snap_top::run`.
//!
//! Start at `main`. It locks the configuration (`locking.rt`), and makes the reports, a tally and the log that the words
//! name. It hands `run` the objects of `disk_host`, by way of `progress`, which shows on the terminal how far the run has
//! come (`terminal.rt`). Once the run has ended, what it wrote is handed to the disks (`syncing.rt`). Behind the lines of
//! the run it prints why something failed (`causes.rt`), and how a command is called where the words were refused
//! (`synopsis.rt`).
//! Proved: it is safe and ends. What a command does is the contract of `run`.
#![tactic(auto)]

mod causes;
mod locking;
mod syncing;
mod synopsis;
mod terminal;
#[cfg(test)]
mod tests;

use causes::print_causes;
use disk_host::{DiskOpener, Failures, LogSink, StreamSink};
use disk_model::{NoMemory, Sink, Text};
use locking::{Hold, lock_configuration, print_refusal};
use progress::{ClearingSink, Meter, MeteredOpener};
use snap_config::log_name;
use snap_report::{LogReport, Report, TallyReport};
use snap_top::run;
use std::fs::{File, OpenOptions};
use std::io::ErrorKind;
use std::process::ExitCode;
use std::random::RandomSource;
use std::rt::{Env, Files};
use std::time::{Clock, SystemTime, UNIX_EPOCH};
use std::{env, io};
use syncing::sync_folders;
use synopsis::print_synopsis;
use terminal::open_terminal;

// Why the program ends before its run.
#[derive(Drop)]
enum Unready {
    NoStreams,
    NoRandomBytes,
    // Another run has locked the configuration of this name.
    Locked(Text),
    Memory,
}

impl From<NoMemory> for Unready {
    ghost from_gives = { λ _ _. Unit {0} };

    fn from(_error: NoMemory) -> Unready {
        Unready::Memory
    }
}

impl Unready {
    // Says it on standard error, where that can be written.
    fn print<W: Sink>(&self, err: &mut W) {
        let line = match self {
            Unready::NoStreams => "snapraid: /dev/null cannot be opened\n",
            Unready::NoRandomBytes => "snapraid: the system gave no random bytes\n",
            Unready::Locked(conf) => return print_refusal(err, conf.as_str()),
            Unready::Memory => "snapraid: out of memory\n",
        };
        let _ = err.write(line.as_bytes());
    }

    fn status(&self) -> u8 {
        match self {
            Unready::NoStreams | Unready::NoRandomBytes | Unready::Locked(_) => 3,
            Unready::Memory => 4,
        }
    }
}

// What a run is given besides the objects that it works on.
#[derive(Drop)]
struct Ready {
    // Both are held for the whole run.
    streams: [File; 3],
    hold: Hold,
    seed: [u8; 16],
    words: Vec<String>,
    log: Option<Text>,
}

fn main(rt: HostRuntime) -> ExitCode {
    let alloc = rt.alloc();
    let mut err = StreamSink::new(rt.stderr());
    let ready = match get_ready(&rt) {
        Ok(ready) => ready,
        Err(why) => return ends(&mut err, why),
    };
    let mut failures = Failures::none(alloc);
    let mut reports: Vec<Box<dyn Report>> = Vec::new(alloc);
    let Ok(tally) = Box::new(alloc, TallyReport::new()) else {
        return ends(&mut err, Unready::Memory);
    };
    if reports.push(tally).is_err() {
        return ends(&mut err, Unready::Memory);
    }
    if let Some(name) = &ready.log {
        let Ok(name) = name.copy() else {
            return ends(&mut err, Unready::Memory);
        };
        let Ok(log) = Box::new(alloc, LogReport::new(LogSink::new(rt, name))) else {
            return ends(&mut err, Unready::Memory);
        };
        if reports.push(log).is_err() {
            return ends(&mut err, Unready::Memory);
        }
    }
    let meter = Meter::new(alloc, rt, open_terminal(&rt, &rt.stderr()));
    let mut opener = MeteredOpener::new(rt, DiskOpener::with_log(alloc, rt, ready.log), &meter);
    let mut out = ClearingSink::new(StreamSink::new(rt.stdout()), &meter);
    let mut err = ClearingSink::new(err, &meter);
    let words = ready.words.as_slice();
    let now = seconds_since_1970(&rt);
    let mut ended = run(
        &rt,
        alloc,
        words,
        &mut opener,
        &mut reports,
        &mut out,
        &mut err,
        now,
        ready.seed,
    );
    meter.clear();
    let status = ended.status;
    let status = sync_folders(&mut err, &mut ended.folders, status);
    out.get_ref().note(&mut failures, "standard output");
    print_causes(&mut err, opener.get_ref(), &ended, &failures);
    print_synopsis(alloc, words, &mut err);
    ExitCode::from(status)
}

// Opens the streams that are held, reads words and seed, and locks the configuration that the words name. The log is emptied
// later, by what opens the disks.
fn get_ready(rt: &HostRuntime) -> Result<Ready, Unready> {
    let Ok(streams) = open_streams(rt) else {
        return Err(Unready::NoStreams);
    };
    let mut seed = [0; 16];
    if rt.fill_bytes(&mut seed).is_err() {
        return Err(Unready::NoRandomBytes);
    }
    let words = words(rt)?;
    let log = log_name(rt.alloc(), words.as_slice())?;
    let hold = match lock_configuration(rt, words.as_slice())? {
        Hold::Refused(conf) => return Err(Unready::Locked(conf)),
        hold => hold,
    };
    Ok(Ready {
        streams,
        hold,
        seed,
        words,
        log,
    })
}

// Ends before the run, and says why.
fn ends<W: Sink>(err: &mut W, why: Unready) -> ExitCode {
    why.print(err);
    ExitCode::from(why.status())
}

// Opens the null device three times, to be held for the whole run: where the program was started without one of its standard
// streams, the next file to be opened would take that stream's place, and printed lines would be written into it.
fn open_streams<R: Files>(rt: &R) -> io::Result<[R::File; 3]> {
    let open = || OpenOptions::new()
        .read(true)
        .write(true)
        .open(rt, "/dev/null");
    Ok([open()?, open()?, open()?])
}

// The system's clock. One that cannot be read, or that is set before 1970, is taken as 0.
fn seconds_since_1970(clock: &impl Clock) -> u64 {
    match SystemTime::now(clock) {
        Ok(now) => match now.duration_since(UNIX_EPOCH) {
            Ok(since) => since.as_secs(),
            Err(_) => 0,
        },
        Err(_) => 0,
    }
}

// The words of the command line. Where one of them is not UTF-8 the list is empty, which `run` refuses.
fn words<R: Env + AllocGlobal>(rt: &R) -> Result<Vec<String>, NoMemory> {
    match env::args(rt) {
        Ok(words) => Ok(words.collect(rt.alloc())?),
        Err(error) if error.kind() == ErrorKind::OutOfMemory => Err(NoMemory),
        Err(_) => Ok(Vec::new(rt.alloc())),
    }
}
