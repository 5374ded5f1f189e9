// The status of each answer, and its line on the standard error.
use disk_memory::MemSink;
use snap_report::{Answer, Lines, RunFault};
use std::str;
use std::test::Fail;

const ANSWERS: [(Answer, u8, &str); 9] = [
    (Answer::Clean, 0, ""),
    (Answer::Found, 1, ""),
    (
        Answer::Zeroed { disk: 0, rec: 0 },
        2,
        "snapraid: file 'd1:a\\x5c' has become empty, use --force-zero\n",
    ),
    (
        Answer::Emptied { disk: 0 },
        2,
        "snapraid: all files of disk 'd1' are missing or rewritten, use --force-empty\n",
    ),
    (
        Answer::Full {
            blocks: 67_108_865,
            files: 1,
        },
        2,
        "snapraid: 67108865 blocks and 1 files are too many\n",
    ),
    (Answer::OutputFailed, 3, "snapraid: output failed\n"),
    (
        Answer::Broken(RunFault::Folder { disk: 0 }),
        3,
        "snapraid: disk 'd1' failed\n",
    ),
    (
        Answer::Broken(RunFault::Vault),
        3,
        "snapraid: parity or content failed\n",
    ),
    (
        Answer::Broken(RunFault::Memory),
        4,
        "snapraid: out of memory\n",
    ),
];

#[test]
fn each_answer_has_a_status_and_a_line(rt: HostRuntime) -> Result<(), Fail> {
    for (answer, status, line) in ANSWERS {
        let mut err = MemSink::new(rt.alloc());
        let mut lines = Lines::over(&mut err);
        lines.tell_answer(answer, "d1", "a\\");
        assert!(rt; !lines.failed());
        assert_eq!(rt; answer.status(), status);
        assert_eq!(rt; str::from_utf8(err.bytes())?, line);
    }
    assert!(rt; Answer::done(0, false) == Answer::Clean);
    assert!(rt; Answer::done(1, false) == Answer::Found);
    assert!(rt; Answer::done(1, true) == Answer::OutputFailed);
    assert!(rt; Answer::from(RunFault::Folder { disk: 3 }).disk() == Some(3));
    Ok(())
}
