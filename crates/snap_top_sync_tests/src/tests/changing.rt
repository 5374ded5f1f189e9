// Files that are changed from outside between the listing and the reading.
ghost use Rattle.std.specs.Prelude.{◌≡◌, ◌≤◌, true};
ghost use Rattle.disk_model.specs.Cause.{Rose};
ghost use Rattle.disk_model.specs.Folder.{quiet_keeping, quiet_keeping-is_folder};

use disk_memory::{MemFolder, MemVault};
use disk_model::{Failed, FileFault, FileInfo, Folder, ListFault, Meta, Path, Stamp, count_write};
use snap_top_memory::arrays::{CONFIG, Disk, ONE, Ran, SYNC, folder, run_with, vault};
use snap_top_memory::contents::ONE_PENDING;
use std::alloc::Global;
use std::test::Fail;
use std::thread::Threads;

// Lists one tree, and reads another. It takes no change.
#[derive(Drop)]
struct Changing {
    listed: MemFolder,
    there: MemFolder,
    faults: u64,
    writes: u64,
}

impl Changing {
    fn new(alloc: Global, listed: Disk, there: Disk) -> Result<Changing, Fail> {
        Ok(Changing {
            listed: folder(alloc, listed)?,
            there: folder(alloc, there)?,
            faults: 0,
            writes: 0,
        })
    }

    fn raise(&mut self)
        ensures later { self.old.faults ≤ self.new.faults }
        ensures rose { Rose self.old.faults self.new.faults }
        ensures writes { self.new.writes ≡ self.old.writes }
    {
        self.faults = self.faults.saturating_add(1);
    }
}

impl Folder for Changing {
    ghost view = { λ s. quiet_keeping s.faults s.writes (λ stamp. true) };

    ghost well_formed = { λ s. quiet_keeping-is_folder s.faults s.writes (λ stamp. true) };

    fn faults(&self) -> u64 {
        self.faults
    }

    fn list(&mut self, alloc: Global) -> Result<Vec<FileInfo>, ListFault> {
        let answer = self.listed.list(alloc);
        if answer.is_err() {
            self.raise();
        }
        answer
    }

    fn look(&mut self, path: &Path, lost: bool) -> Result<Meta, FileFault> {
        let answer = self.there.look(path, lost);
        if answer.is_err() {
            self.raise();
        }
        answer
    }

    fn read_at(
        &mut self,
        path: &Path,
        lost: bool,
        at: u64,
        out: &mut [u8],
    ) -> Result<usize, FileFault> {
        let answer = self.there.read_at(path, lost, at, out);
        if answer.is_err() {
            self.raise();
        }
        answer
    }

    fn make(&mut self, _path: &Path) -> Result<(), Failed> {
        count_write(&mut self.writes);
        self.raise();
        Err(Failed)
    }

    fn write_at(&mut self, _path: &Path, _at: u64, _bytes: &[u8]) -> Result<(), FileFault> {
        count_write(&mut self.writes);
        self.raise();
        Err(FileFault::Failed)
    }

    fn set_size(&mut self, _path: &Path, _size: u64) -> Result<(), FileFault> {
        count_write(&mut self.writes);
        self.raise();
        Err(FileFault::Failed)
    }

    fn set_stamp(&mut self, _path: &Path, _stamp: Stamp) -> Result<bool, FileFault> {
        count_write(&mut self.writes);
        self.raise();
        Err(FileFault::Failed)
    }

    fn rename(&mut self, _path: &Path, _lost: bool) -> Result<(), FileFault> {
        count_write(&mut self.writes);
        self.raise();
        Err(FileFault::Failed)
    }
}

const FILE: Disk<'static> = &[("a", b"qrstuvwxyz", 1, 5)];

// The file was listed with ten bytes. What it is when it is read, and what is told of it.
#[derive(Clone, Copy)]
struct Case {
    there: Disk<'static>,
    out: &'static str,
}

fn run_changing<R: Threads + Sync>(
    rt: &R,
    alloc: Global,
    there: Disk,
) -> Result<Ran<Changing, MemVault>, Fail> {
    let vault = vault(alloc, ONE)?;
    let mut folders = Vec::new(alloc);
    folders.push(Changing::new(alloc, FILE, there)?)?;
    run_with(rt, alloc, SYNC, CONFIG, folders, vault)
}

// Whether a sync printed this, and left the stripe pending.
fn stays_pending(
    alloc: Global,
    left: &mut Ran<Changing, MemVault>,
    out: &str,
) -> Result<bool, Fail> {
    if !left.is(1, out, "") {
        return Ok(false);
    }
    Ok(left.content(alloc, 0)?.as_slice() == ONE_PENDING)
}

fn plays<R: Threads + Sync>(rt: &R, alloc: Global, case: &Case) -> Result<(), Fail> {
    let mut left = run_changing(rt, alloc, case.there)?;
    if !stays_pending(alloc, &mut left, case.out)? {
        return Err(Fail::new(format_args!("{}", case.out)));
    }
    Ok(())
}

// The stripe stays pending, and a sync over the files as they are now closes it.
#[test]
fn a_file_that_is_changed_while_it_is_read_stays_pending(rt: HostRuntime) -> Result<(), Fail> {
    static CASES: [Case; 5] = [
        Case {
            there: &[("a", b"qrstuvwxyz", 2, 5)],
            out: "changed-block 0 d1:a 0 recorded 10 1.000000005 found 10 2.000000005 got 10\n\
                  sync: 0 stripes synced, 1 pending\n",
        },
        Case {
            there: &[("a", b"qrstuvwxyz", 1, 6)],
            out: "changed-block 0 d1:a 0 recorded 10 1.000000005 found 10 1.000000006 got 10\n\
                  sync: 0 stripes synced, 1 pending\n",
        },
        Case {
            there: &[("a", b"qrstuvwxyz1", 1, 5)],
            out: "changed-block 0 d1:a 0 recorded 10 1.000000005 found 11 1.000000005 got 10\n\
                  sync: 0 stripes synced, 1 pending\n",
        },
        Case {
            there: &[("a", b"qrst", 1, 5)],
            out: "changed-block 0 d1:a 0 recorded 10 1.000000005 found 4 1.000000005 got 4\n\
                  sync: 0 stripes synced, 1 pending\n",
        },
        Case {
            there: &[("b", b"qrstuvwxyz", 1, 5)],
            out: "changed-block 0 d1:a 0 recorded 10 1.000000005 found nothing got 0\n\
                  sync: 0 stripes synced, 1 pending\n",
        },
    ];
    for case in &CASES {
        plays(&rt, rt.alloc(), case)?;
    }
    Ok(())
}
