// Runs over real arrays, each in a folder that this process alone has. What `main` does around a run is done here, too, but for the
// lock, the log and the terminal.
use crate::causes::print_causes;
use crate::syncing::sync_folders;
use crate::synopsis::print_synopsis;
use crate::tests::folder::{Act, File, enter, leave, make};
use disk_host::{DiskOpener, Failures, StreamSink};
use progress::{ClearingSink, Meter, MeteredOpener};
use snap_report::{Report, TallyReport};
use snap_top::run;
use std::alloc::{AllocError, Global};
use std::test::Fail;
use std::thread::Threads;
use std::{fs, io};

// Words behind the program's name, and what a run of them ends with and prints.
pub struct Case {
    pub words: &'static [&'static str],
    pub status: u8,
    pub out: &'static str,
    pub err: &'static str,
}

// What is done to the files of the array, and runs.
pub enum Step {
    Do(Act),
    Run(Case),
}

fn owned(alloc: Global, words: &[&str]) -> Result<Vec<String>, AllocError> {
    let mut line = Vec::new(alloc);
    line.push(String::from_str(alloc, "snapraid")?)?;
    for word in words {
        line.push(String::from_str(alloc, word)?)?;
    }
    Ok(line)
}

// Runs words at 100 seconds, prints into the files `out` and `err`, and gives the status.
fn status_of<T: Threads + Sync>(threads: &T, rt: HostRuntime, words: &[&str]) -> Result<u8, Fail> {
    let alloc = rt.alloc();
    let words = owned(alloc, words)?;
    let mut failures = Failures::none(alloc);
    let mut reports: Vec<Box<dyn Report>> = Vec::new(alloc);
    reports.push(Box::new(alloc, TallyReport::new())?)?;
    let meter = Meter::new(alloc, rt, None::<fs::File>);
    let mut opener = MeteredOpener::new(rt, DiskOpener::new(alloc, rt), &meter);
    let mut out = ClearingSink::new(StreamSink::new(fs::create(&rt, "out")?), &meter);
    let mut err = ClearingSink::new(StreamSink::new(fs::create(&rt, "err")?), &meter);
    let mut ended = run(
        threads,
        alloc,
        words.as_slice(),
        &mut opener,
        &mut reports,
        &mut out,
        &mut err,
        100,
        *b"abcdefghijklmnop",
    );
    let status = ended.status;
    let status = sync_folders(&mut err, &mut ended.folders, status);
    out.get_ref().note(&mut failures, "standard output");
    print_causes(&mut err, opener.get_ref(), &ended, &failures);
    print_synopsis(alloc, words.as_slice(), &mut err);
    Ok(status)
}

fn holds(rt: HostRuntime, name: &str, text: &str) -> io::Result<bool> {
    Ok(fs::read_to_string(&rt, name)?.as_str() == text)
}

fn runs<T: Threads + Sync>(
    threads: &T,
    rt: HostRuntime,
    number: usize,
    case: &Case,
) -> Result<(), Fail> {
    let status = status_of(threads, rt, case.words)?;
    if status != case.status || !holds(rt, "out", case.out)? || !holds(rt, "err", case.err)? {
        return Err(Fail::new(format_args!("step {number}: status {status}")));
    }
    Ok(())
}

// Makes each step in turn.
pub fn plays<T: Threads + Sync>(threads: &T, rt: HostRuntime, steps: &[Step]) -> Result<(), Fail> {
    for (number, step) in steps.iter().enumerate() {
        match step {
            Step::Do(act) => make(rt, number, act)?,
            Step::Run(case) => runs(threads, rt, number, case)?,
        }
    }
    Ok(())
}

// The content of an array of one disk with a file of ten bytes that was synced at 100.
const CONTENT: &[u8] = &[
    0x53, 0x4e, 0x41, 0x50, 0x52, 0x43, 0x46, 0x01, 0x01, 0x00, 0x00, 0x00, 0x01, 0x01, 0x61, 0x62,
    0x63, 0x64, 0x65, 0x66, 0x67, 0x68, 0x69, 0x6a, 0x6b, 0x6c, 0x6d, 0x6e, 0x6f, 0x70, 0x01, 0x00,
    0x00, 0x00, 0x01, 0x02, 0x64, 0x31, 0x01, 0x00, 0x00, 0x00, 0x01, 0x00, 0x61, 0x0a, 0x00, 0x00,
    0x00, 0x00, 0x00, 0x00, 0x00, 0x01, 0x00, 0x00, 0x00, 0x00, 0x00, 0x00, 0x00, 0x05, 0x00, 0x00,
    0x00, 0x00, 0x00, 0x00, 0x00, 0x01, 0xc3, 0xfc, 0xd3, 0xd7, 0x61, 0x92, 0xe4, 0x00, 0x7d, 0xfb,
    0x49, 0x6c, 0xca, 0x67, 0xe1, 0x3b, 0x05, 0x64, 0x00, 0x00, 0x00, 0x00, 0x00, 0x00, 0x00, 0x02,
    0xc3, 0xa9, 0xa1, 0x60, 0x02, 0x75, 0xe4, 0xf6, 0x5c, 0x85, 0xb7, 0x03, 0xd4, 0x92, 0x6f, 0xa4,
    0xa6, 0x56, 0xec, 0x18, 0x84, 0x31, 0x7a, 0xe9, 0xa2, 0x8c, 0x6b, 0x3d, 0xf8, 0xd5, 0xd1,
];

#[test]
fn lists_a_synced_file(rt: HostRuntime) -> Result<(), Fail> {
    static STEPS: [Step; 7] = [
        Step::Do(Act::Folder("d1")),
        Step::Do(Act::Put(File {
            name: "array.conf",
            bytes: &[(
                b"blocksize 1\nparity parity\ncontent content\ndata d1 d1\n",
                1,
            )],
            seconds: 1,
        })),
        Step::Do(Act::Put(File {
            name: "content",
            bytes: &[(CONTENT, 1)],
            seconds: 1,
        })),
        Step::Run(Case {
            words: &["list", "-c", "array.conf"],
            status: 0,
            out: "10 1.000000005 d1:a\n1 files, 10 bytes\n",
            err: "",
        }),
        Step::Run(Case {
            words: &["status", "-c", "array.conf"],
            status: 0,
            out: "files 1\nbytes 10\nstripes 1\nsynced 1\npending 0\nfresh 1\nbad 0\noldest 100\n\
                  disk d1 files 1 blocks 1 free 0\n",
            err: "",
        }),
        Step::Run(Case {
            words: &["dup", "-c", "array.conf"],
            status: 0,
            out: "dup: 0 pairs\n",
            err: "",
        }),
        Step::Run(Case {
            words: &["frob", "-c", "array.conf"],
            status: 2,
            out: "",
            err: "snapraid: unknown command 'frob'\n\
                  snapraid: usage: snapraid sync|scrub|check|fix|list|status|dup|exercise [OPTION].., \
                  see 'man snapraid'\n",
        }),
    ];
    let top = enter(rt, "listed")?;
    plays(&rt, rt, &STEPS)?;
    Ok(leave(rt, top.as_str())?)
}
