// An array of two disks from its first sync on: files change, a block rots, both disks are lost, and all is restored.
use crate::tests::folder::{Act, File, enter, leave};
use crate::tests::running::{Case, Step, plays};
use std::test::Fail;

const FIRST: File = File {
    name: "d1/notes/first.txt",
    bytes: &[(b"hello array\n", 1)],
    seconds: 1_700_000_000,
};

const PICTURE: File = File {
    name: "d1/picture",
    bytes: &[(b"p", 3000)],
    seconds: 1_700_000_000,
};

const SONG: File = File {
    name: "d2/song",
    bytes: &[(b"s", 700)],
    seconds: 1_700_000_000,
};

const MOVED: File = File {
    name: "d1/notes/picture",
    bytes: &[(b"p", 3000)],
    seconds: 1_700_000_000,
};

const ROTTEN: File = File {
    name: "d1/notes/picture",
    bytes: &[(b"p", 1500), (b"q", 1), (b"p", 1499)],
    seconds: 1_700_000_000,
};

const SAME: File = File {
    name: "d2/first.txt",
    bytes: &[(b"hello array\n", 1)],
    seconds: 1_700_000_001,
};

const NEW: File = File {
    name: "d2/new",
    bytes: &[(b"n", 1500)],
    seconds: 1_700_000_001,
};

// Two disks, two levels, and two copies of the content, one of them on a disk.
static MAKING: [Step; 7] = [
    Step::Do(Act::Folder("d1/notes")),
    Step::Do(Act::Folder("d2")),
    Step::Do(Act::Put(File {
        name: "array.conf",
        bytes: &[(
            b"parity parity\n2-parity parity2\ncontent content\ncontent d2/content\n\
              data d1 d1/\ndata d2 d2/\nexclude *.tmp\nblocksize 1\n",
            1,
        )],
        seconds: 1,
    })),
    Step::Do(Act::Put(FIRST)),
    Step::Do(Act::Put(PICTURE)),
    Step::Do(Act::Put(SONG)),
    Step::Run(Case {
        words: &["sync", "-c", "array.conf"],
        status: 0,
        out: "sync: 4 stripes synced, 0 pending\n",
        err: "",
    }),
];

// A file is moved, one is deleted, one is new, and one holds what another one holds. All of the second disk is rewritten, which is
// refused first.
static CHANGING: [Step; 8] = [
    Step::Do(Act::Move("d1/picture", "d1/notes/picture")),
    Step::Do(Act::Remove("d2/song")),
    Step::Do(Act::Put(NEW)),
    Step::Do(Act::Put(SAME)),
    Step::Run(Case {
        words: &["sync", "-c", "array.conf"],
        status: 2,
        out: "",
        err: "snapraid: all files of disk 'd2' are missing or rewritten, use --force-empty\n",
    }),
    Step::Run(Case {
        words: &["sync", "-c", "array.conf", "--force-empty"],
        status: 0,
        out: "sync: 3 stripes synced, 0 pending\n",
        err: "",
    }),
    Step::Run(Case {
        words: &["list", "-c", "array.conf"],
        status: 0,
        out: "12 1700000000.500000000 d1:notes/first.txt\n\
              3000 1700000000.500000000 d1:notes/picture\n\
              12 1700000001.500000000 d2:first.txt\n\
              1500 1700000001.500000000 d2:new\n\
              4 files, 4524 bytes\n",
        err: "",
    }),
    Step::Run(Case {
        words: &["dup", "-c", "array.conf"],
        status: 0,
        out: "dup 12 d1:notes/first.txt d2:first.txt\ndup: 1 pairs\n",
        err: "",
    }),
];

// One byte is another one, and the time is as it was.
static ROTTING: [Step; 8] = [
    Step::Do(Act::Put(ROTTEN)),
    Step::Run(Case {
        words: &["scrub", "-c", "array.conf", "-p", "full"],
        status: 1,
        out: "silent 2 d1:notes/picture 1 recorded eeeab1e714f71cd830da51dbb7738055 \
              found d043382a82f96b4efb231fd45ad5b0f7\nscrub: 4 stripes checked, 1 findings\n",
        err: "",
    }),
    Step::Run(Case {
        words: &["status", "-c", "array.conf"],
        status: 1,
        out: "files 4\nbytes 4524\nstripes 4\nsynced 4\npending 0\nfresh 1\nbad 1\noldest 100\n\
              disk d1 files 2 blocks 4 free 0\ndisk d2 files 2 blocks 3 free 1\nbad stripe 2\n",
        err: "",
    }),
    Step::Run(Case {
        words: &["fix", "-c", "array.conf", "-e"],
        status: 0,
        out: "silent 2 d1:notes/picture 1 recorded eeeab1e714f71cd830da51dbb7738055 \
              found d043382a82f96b4efb231fd45ad5b0f7\nfixed 2 d1:notes/picture 1\n\
              restored d1:notes/picture\nfix: 1 blocks and 0 parities fixed, 0 findings left\n",
        err: "",
    }),
    Step::Do(Act::Find(MOVED)),
    Step::Run(Case {
        words: &["scrub", "-c", "array.conf", "-p", "bad"],
        status: 0,
        out: "scrub: 1 stripes checked, 0 findings\n",
        err: "",
    }),
    Step::Run(Case {
        words: &["scrub", "-c", "array.conf", "-p", "full"],
        status: 0,
        out: "scrub: 4 stripes checked, 0 findings\n",
        err: "",
    }),
    Step::Run(Case {
        words: &["status", "-c", "array.conf"],
        status: 0,
        out: "files 4\nbytes 4524\nstripes 4\nsynced 4\npending 0\nfresh 0\nbad 0\noldest 100\n\
              disk d1 files 2 blocks 4 free 0\ndisk d2 files 2 blocks 3 free 1\n",
        err: "",
    }),
];

// All files of both disks are deleted.
static LOSING: [Step; 12] = [
    Step::Do(Act::Remove("d1/notes/first.txt")),
    Step::Do(Act::Remove("d1/notes/picture")),
    Step::Do(Act::Remove("d2/first.txt")),
    Step::Do(Act::Remove("d2/new")),
    Step::Run(Case {
        words: &["check", "-c", "array.conf"],
        status: 1,
        out: "changed d1:notes/first.txt recorded 12 1700000000.500000000 found nothing\n\
              changed d1:notes/picture recorded 3000 1700000000.500000000 found nothing\n\
              changed d2:first.txt recorded 12 1700000001.500000000 found nothing\n\
              changed d2:new recorded 1500 1700000001.500000000 found nothing\n\
              check: 4 findings\n",
        err: "",
    }),
    Step::Run(Case {
        words: &["fix", "-c", "array.conf"],
        status: 0,
        out: "changed d1:notes/first.txt recorded 12 1700000000.500000000 found nothing\n\
              changed d1:notes/picture recorded 3000 1700000000.500000000 found nothing\n\
              changed d2:first.txt recorded 12 1700000001.500000000 found nothing\n\
              changed d2:new recorded 1500 1700000001.500000000 found nothing\n\
              fixed 0 d1:notes/first.txt 0\nfixed 0 d2:first.txt 0\n\
              fixed 1 d1:notes/picture 0\nfixed 1 d2:new 0\n\
              fixed 2 d1:notes/picture 1\nfixed 2 d2:new 1\n\
              fixed 3 d1:notes/picture 2\n\
              restored d1:notes/first.txt\nrestored d1:notes/picture\n\
              restored d2:first.txt\nrestored d2:new\n\
              fix: 7 blocks and 0 parities fixed, 0 findings left\n",
        err: "",
    }),
    Step::Do(Act::Find(FIRST)),
    Step::Do(Act::Find(MOVED)),
    Step::Do(Act::Find(SAME)),
    Step::Do(Act::Find(NEW)),
    Step::Run(Case {
        words: &["check", "-c", "array.conf"],
        status: 0,
        out: "check: 0 findings\n",
        err: "",
    }),
    Step::Run(Case {
        words: &["sync", "-c", "array.conf"],
        status: 0,
        out: "sync: 0 stripes synced, 0 pending\n",
        err: "",
    }),
];

#[test]
fn an_array_is_synced_and_changed_and_restored(rt: HostRuntime) -> Result<(), Fail> {
    let top = enter(rt, "array")?;
    plays(&rt, rt, &MAKING)?;
    plays(&rt, rt, &CHANGING)?;
    plays(&rt, rt, &ROTTING)?;
    plays(&rt, rt, &LOSING)?;
    Ok(leave(rt, top.as_str())?)
}
