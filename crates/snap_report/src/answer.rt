// How an engine ended: its answer, the status, and the line on standard error.
ghost use Rattle.std.specs.Prelude.{◌≡◌, []};
ghost use Rattle.snap_report.specs.Telling.{Settled};
ghost use Rattle.snap_report.specs.State.{state_of, Puts};
ghost use Rattle.snap_report.specs.Answer.{done_answer, status_of, disk_of, answer_line};

use crate::{Lines, Piece};
use disk_model::Sink;
use thiserror::Error;

/// Why a run broke off. A folder or the vault failed in a call without which the run can't go on: its count
/// of faults rose by more than the events of failed readings that were told of it.
#[derive(Clone, Copy, Debug, PartialEq, Eq, Error)]
pub enum RunFault {
    #[error("a disk failed")]
    Folder { disk: u32 },
    #[error("parity or content failed")]
    Vault,
    #[error("out of memory")]
    Memory,
}

/// How an engine ended. What it means for status, line and cause is said once, of this.
#[derive(Clone, Copy, Debug, PartialEq, Eq)]
pub enum Answer {
    /// Done, and nothing is wrong.
    Clean,
    /// Done. There are findings, a fix left some, or a stripe is bad.
    Found,
    /// Done, but a line of the output was not written.
    OutputFailed,
    /// The layout is refused: a file with bytes has become empty.
    Zeroed { disk: u32, rec: u32 },
    /// The layout is refused: all files of a disk are missing or rewritten.
    Emptied { disk: u32 },
    /// The layout is refused: the array has limits.
    Full { blocks: u64, files: u64 },
    /// The run broke off.
    Broken(RunFault),
}

impl From<RunFault> for Answer {
    ghost use Rattle.snap_report.specs.declared.answer.Answer.TheVariants.{Broken};

    ghost from_gives = { λ fault answer. answer ≡ Broken fault };

    fn from(fault: RunFault) -> Answer {
        Answer::Broken(fault)
    }
}

impl Answer {
    /// That of an engine that is done, by how many findings count, and by whether a write to the output failed.
    pub fn done(findings: u64, output_failed: bool) -> Answer
        ensures { result ≡ done_answer findings output_failed }
    {
        if output_failed {
            Answer::OutputFailed
        } else if findings == 0 {
            Answer::Clean
        } else {
            Answer::Found
        }
    }

    /// The status of the program.
    pub fn status(self) -> u8
        ensures { result ≡ status_of self }
    {
        match self {
            Answer::Clean => 0,
            Answer::Found => 1,
            Answer::Zeroed { .. } | Answer::Emptied { .. } | Answer::Full { .. } => 2,
            Answer::OutputFailed => 3,
            Answer::Broken(fault) => fault.status(),
        }
    }

    /// The number of the disk that its line names.
    pub fn disk(self) -> Option<u32>
        ensures { result ≡ disk_of self }
    {
        match self {
            Answer::Zeroed { disk, .. }
            | Answer::Emptied { disk }
            | Answer::Broken(RunFault::Folder { disk }) => Some(disk),
            _ => None,
        }
    }
}

impl RunFault {
    fn status(self) -> u8
        ensures { result ≡ status_of (Answer.Broken self) }
    {
        match self {
            RunFault::Folder { .. } | RunFault::Vault => 3,
            RunFault::Memory => 4,
        }
    }
}

impl<'a, W: Sink> Lines<'a, W> {
    fn put_zeroed<'b>(&mut self, name: &'b str, path: &'b str)
        ensures { Puts W.view
            (answer_line name.now path.now (Answer.Zeroed 0 0))
            self.old self.new }
    {
        self.put_all(&[
            Piece::Text("snapraid: file '"),
            Piece::File(name, path),
            Piece::Text("' has become empty, use --force-zero\n"),
        ]);
    }

    fn put_emptied(&mut self, name: &str)
        ensures { Puts W.view (answer_line name.now [] (Answer.Emptied 0)) self.old self.new }
    {
        self.put_all(&[
            Piece::Text("snapraid: all files of disk '"),
            Piece::Printed(name),
            Piece::Text("' are missing or rewritten, use --force-empty\n"),
        ]);
    }

    fn put_full(&mut self, blocks: u64, files: u64)
        ensures { Puts W.view (answer_line [] [] (Answer.Full blocks files)) self.old self.new }
    {
        self.put_all(&[
            Piece::Text("snapraid: "),
            Piece::Number(u128::from(blocks)),
            Piece::Text(" blocks and "),
            Piece::Number(u128::from(files)),
            Piece::Text(" files are too many\n"),
        ]);
    }

    fn put_folder_failed(&mut self, name: &str)
        ensures { Puts W.view
            (answer_line name.now [] (Answer.Broken (RunFault.Folder 0)))
            self.old self.new }
    {
        self.put_all(&[
            Piece::Text("snapraid: disk '"),
            Piece::Printed(name),
            Piece::Text("' failed\n"),
        ]);
    }

    fn put_fault(&mut self, fault: RunFault, name: &str)
        ensures { Puts W.view (answer_line name.now [] (Answer.Broken fault)) self.old self.new }
    {
        match fault {
            RunFault::Folder { .. } => self.put_folder_failed(name),
            RunFault::Vault => self.put(b"snapraid: parity or content failed\n"),
            RunFault::Memory => self.put(b"snapraid: out of memory\n"),
        }
    }

    fn put_answer(&mut self, answer: Answer, name: &str, path: &str)
        ensures { Puts W.view (answer_line name.now path.now answer) self.old self.new }
    {
        match answer {
            Answer::Clean | Answer::Found => {}
            Answer::OutputFailed => self.put(b"snapraid: output failed\n"),
            Answer::Zeroed { .. } => self.put_zeroed(name, path),
            Answer::Emptied { .. } => self.put_emptied(name),
            Answer::Full { blocks, files } => self.put_full(blocks, files),
            Answer::Broken(fault) => self.put_fault(fault, name),
        }
    }

    /// Tells the line of an answer, for the standard error. `name` is that of the disk that it names, and `path`
    /// that of the file; where it names none, they are not looked at.
    pub fn tell_answer(&mut self, answer: Answer, name: &str, path: &str)
        ensures puts { Puts W.view (answer_line name.now path.now answer) self.old self.new }
        ensures settled { Settled (state_of W.view self.new) }
    {
        self.put_answer(answer, name, path);
        self.hand_on();
    }
}
