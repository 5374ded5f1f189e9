// Any number of readers gives the same, and they read beside one another and beside the writer.
ghost use Rattle.std.specs.Prelude.{IfOk, IfSome};
ghost use Rattle.disk_model.specs.Vault.{IsSettled};
ghost use Rattle.disk_memory.specs.Given.{HasNoDraft};
ghost use Rattle.disk_memory.specs.Vault.{vault_view};

use disk_memory::{GateFolder, GateVault, MemVault};
use disk_model::Vault;
use snap_top_memory::arrays::{Array, Disk, EMPTY, Left, SYNC, folder, run_first, run_with, vault};
use snap_top_memory::left::has_contents;
use std::alloc::Global;
use std::sync::atomic::AtomicBool;
use std::test::Fail;
use std::thread::Threads;

// Four disks, two levels and three contents, as a user may have them.
const USUAL: &str = "# four disks, two parities
parity /mnt/parity1/snapraid.parity
2-parity /mnt/parity2/snapraid.2-parity
content /var/snapraid/snapraid.content
content /mnt/disk1/snapraid.content
content /mnt/disk2/snapraid.content
data d1 /mnt/disk1/
data d2 /mnt/disk2/
data d3 /mnt/disk3/
data d4 /mnt/disk4/
exclude *.tmp
exclude /lost+found/
autosave 500
pool /pool
blocksize 256
";

// What the second and the third file system hold beside `a` is left out.
const FOUR_DISKS: Array = Array {
    config: USUAL,
    levels: 2,
    copies: 3,
    disks: &[
        &[("a", b"\x01", 1, 5), ("snapraid.content", b"1", 1, 5)],
        &[("a", b"\x02", 1, 5), ("snapraid.content.tmp", b"2", 1, 5)],
        &[("a", b"\x04", 1, 5), ("b.tmp", b"3", 1, 5)],
        &[("a", b"\x08", 1, 5), ("lost+found/c", b"4", 1, 5)],
    ],
};

// Whether a level has one block of 256 KiB, of zeros but this first byte.
fn is_block(level: &[u8], first: u8) -> bool {
    level.len() == 262_144
        && level.first() == Some(&first)
        && level.iter().skip(1).all(|byte| *byte == 0)
}

// Whether the first content copy is there, and so are the other two.
fn copies_agree(alloc: Global, left: &mut Left) -> Result<bool, Fail> {
    let first = left.content(alloc, 0)?;
    Ok(!first.is_empty() && has_contents(alloc, left, &[first.as_slice(); 3])?)
}

// Whether a sync of the array left its two levels and its three copies.
fn is_synced(alloc: Global, left: &mut Left) -> Result<bool, Fail> {
    Ok(
        left.is(0, "sync: 1 stripes synced, 0 pending\n", "")
            && is_block(left.parity(alloc, 0)?.as_slice(), 0x0f)
            && is_block(left.parity(alloc, 1)?.as_slice(), 0x55)
            && copies_agree(alloc, left)?,
    )
}

// The content after a sync by some readers.
fn synced_by<R: Threads + Sync>(rt: &R, alloc: Global, words: &[&str]) -> Result<Vec<u8>, Fail> {
    let mut left = run_first(rt, alloc, words, FOUR_DISKS)?;
    if !is_synced(alloc, &mut left)? {
        return Err("another sync".into());
    }
    left.content(alloc, 0)
}

#[test]
fn a_usual_array_by_any_number_of_readers(rt: HostRuntime) -> Result<(), Fail> {
    let want = synced_by(&rt, rt.alloc(), SYNC)?;
    for readers in ["1", "3", "16"] {
        let words = ["snapraid", "sync", "-c", "FILE", "--readers", readers];
        assert!(rt; synced_by(&rt, rt.alloc(), &words)?.as_slice() == want.as_slice());
    }
    Ok(())
}

const BYTE: Disk<'static> = &[("a", b"1", 1, 5)];

const TWO_DISKS: &str = "blocksize 1\nparity p\ncontent content\ndata d1 d\ndata d2 e\n";

// The vault that words by so many readers over two disks with a file each leave, if they end so, and so many of the
// two folders see at their first reading that the other one is read. That is the call of this number, after the folder
// was listed and the file looked at. A scrub lists nothing.
fn sees_readings<R: Threads + Sync>(
    rt: &R,
    alloc: Global,
    words: &[&str],
    call: u64,
    vault: MemVault,
    out: &str,
    see: usize,
) -> Result<Option<MemVault>, Fail>
    requires settled { IsSettled (vault_view vault) }
    requires drafts { HasNoDraft (vault_view vault) }
    ensures settled { IfOk result (λ found. IfSome found (λ vault. IsSettled (vault_view vault))) }
    ensures drafts { IfOk result (λ found. IfSome found (λ vault. HasNoDraft (vault_view vault))) }
{
    let one = AtomicBool::new(false);
    let two = AtomicBool::new(false);
    let mut folders = Vec::new(alloc);
    folders.push(GateFolder::new(folder(alloc, BYTE)?, call, &one, &two))?;
    folders.push(GateFolder::new(folder(alloc, BYTE)?, call, &two, &one))?;
    let left = run_with(rt, alloc, words, TWO_DISKS, folders, vault)?;
    let saw = left
        .outcome
        .folders
        .iter()
        .filter(|folder| folder.saw())
        .count();
    if !left.is(0, out, "") || left.outcome.folders.len() != 2 || saw != see {
        return Ok(None);
    }
    Ok(Some(left.reopened()?))
}

const SYNC_BY_TWO: &[&str] = &["snapraid", "sync", "-c", "FILE", "--readers", "2"];

const SCRUB_BY_TWO: &[&str] = &[
    "snapraid",
    "scrub",
    "-c",
    "FILE",
    "-p",
    "full",
    "--readers",
    "2",
];

const CHECK_BY_TWO: &[&str] = &["snapraid", "check", "-c", "FILE", "--readers", "2"];

#[test]
fn two_disks_are_read_at_once(rt: HostRuntime) -> Result<(), Fail> {
    let alloc = rt.alloc();
    let first = vault(alloc, EMPTY)?;
    let done = "sync: 1 stripes synced, 0 pending\n";
    let Some(synced) = sees_readings(&rt, alloc, SYNC_BY_TWO, 3, first, done, 2)? else {
        return Err("a sync".into());
    };
    let done = "scrub: 1 stripes checked, 0 findings\n";
    let Some(scrubbed) = sees_readings(&rt, alloc, SCRUB_BY_TWO, 2, synced, done, 2)? else {
        return Err("a scrub".into());
    };
    let done = "check: 0 findings\n";
    let found = sees_readings(&rt, alloc, CHECK_BY_TWO, 3, scrubbed, done, 2)?;
    assert!(rt; found.is_some(), "a check");
    Ok(())
}

// A reader reads the disks that it owns side by side, too.
#[test]
fn one_reader_reads_two_disks_at_once(rt: HostRuntime) -> Result<(), Fail> {
    let first = vault(rt.alloc(), EMPTY)?;
    let done = "sync: 1 stripes synced, 0 pending\n";
    let words = ["snapraid", "sync", "-c", "FILE", "--readers", "1"];
    let found = sees_readings(&rt, rt.alloc(), &words, 3, first, done, 2)?;
    assert!(rt; found.is_some());
    Ok(())
}

// One file a stripe. A window has sixteen of them, since their blocks are of 64 KiB.
const SEVENTEEN: Array = Array {
    config: "blocksize 64\nparity p\ncontent content\ndata d1 d\n",
    disks: &[&[
        ("a", b"1", 1, 5),
        ("b", b"1", 1, 5),
        ("c", b"1", 1, 5),
        ("d", b"1", 1, 5),
        ("e", b"1", 1, 5),
        ("f", b"1", 1, 5),
        ("g", b"1", 1, 5),
        ("h", b"1", 1, 5),
        ("i", b"1", 1, 5),
        ("j", b"1", 1, 5),
        ("k", b"1", 1, 5),
        ("l", b"1", 1, 5),
        ("m", b"1", 1, 5),
        ("n", b"1", 1, 5),
        ("o", b"1", 1, 5),
        ("p", b"1", 1, 5),
        ("q", b"1", 1, 5),
    ]],
    ..EMPTY
};

// The number of the first write to parity in a sync of those files.
fn first_write<R: Threads + Sync>(rt: &R, alloc: Global) -> Result<u64, Fail> {
    let left = run_first(rt, alloc, SYNC, SEVENTEEN)?;
    match &left.outcome.vault {
        Some(vault) => Ok(vault.first_write()),
        None => Err("no vault".into()),
    }
}

// The vault, which waits for the other flag at its call of this number.
fn gated<'a>(
    vault: MemVault,
    call: u64,
    mine: &'a AtomicBool,
    other: &'a AtomicBool,
) -> GateVault<'a>
    requires settled { IsSettled (vault_view vault) }
    requires drafts { HasNoDraft (vault_view vault) }
    ensures settled { IsSettled (⟦<GateVault<'a> as Vault>⟧.view result) }
    ensures drafts { HasNoDraft (⟦<GateVault<'a> as Vault>⟧.view result) }
{
    GateVault::new(vault, call, mine, other)
}

// Whether a sync of those files by so many readers ends well, and that write is made while the last stripe is read. The
// folder's 35th call reads it, after it was listed, and then each file looked at and read.
fn writes_beside<R: Threads + Sync>(
    rt: &R,
    alloc: Global,
    readers: &str,
    write: u64,
) -> Result<bool, Fail> {
    let one = AtomicBool::new(false);
    let two = AtomicBool::new(false);
    let mut folders = Vec::new(alloc);
    folders.push(GateFolder::new(folder(alloc, SEVENTEEN.disks[0])?, 35, &one, &two))?;
    let vault = gated(vault(alloc, SEVENTEEN)?, write, &two, &one);
    let words = ["snapraid", "sync", "-c", "FILE", "--readers", readers];
    let left = run_with(rt, alloc, &words, SEVENTEEN.config, folders, vault)?;
    let saw = left.outcome.folders.iter().all(|folder| folder.saw());
    Ok(
        left.is(0, "sync: 17 stripes synced, 0 pending\n", "")
            && saw
            && vault_saw(&left.outcome.vault),
    )
}

// Whether the gated call of the vault saw the other gate's flag.
fn vault_saw(vault: &Option<GateVault>) -> bool {
    match vault {
        Some(vault) => vault.saw(),
        None => false,
    }
}

// The writer begins with the first window while the last stripe, which is the second window, is read.
#[test]
fn one_window_is_written_while_the_next_is_read(rt: HostRuntime) -> Result<(), Fail> {
    let alloc = rt.alloc();
    let write = first_write(&rt, alloc)?;
    for readers in ["1", "3", "16"] {
        assert!(rt; writes_beside(&rt, alloc, readers, write)?, "{readers}");
    }
    Ok(())
}
