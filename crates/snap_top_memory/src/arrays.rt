// Arrays in memory, and words that are run over them.
ghost use Rattle.std.specs.Prelude.{IfOk, map};
ghost use Rattle.disk_model.specs.Stamp.{IsStamp};
ghost use Rattle.disk_model.specs.Vault.{IsSettled};
ghost use Rattle.disk_memory.specs.Given.{CanGive, HasNoDraft};
ghost use Rattle.disk_memory.specs.Vault.{vault_view};

pub use crate::failing::{Failing, NONE, calls_before};
use disk_memory::{MemFolder, MemOpener, MemSink, MemVault};
use disk_model::{Folder, Opener, Path, Stamp, Vault};
use snap_report::Report;
use snap_top::{Outcome, run};
use std::alloc::Global;
use std::test::Fail;
use std::thread::Threads;

/// A configuration of one disk, one level and one content copy.
pub const CONFIG: &str = "blocksize 1\nparity p\ncontent content\ndata d1 d\n";

/// When a run is made unless another time is given, in seconds since 1970.
pub const NOW: u64 = 100;

pub const SYNC: &[&str] = &["snapraid", "sync", "-c", "FILE"];

pub const LIST: &[&str] = &["snapraid", "list", "-c", "FILE"];

/// A file by its path: its bytes, and the second and the nanosecond at which it was changed last.
pub type File<'a> = (&'a str, &'a [u8], i64, u32);

/// The files of a disk.
pub type Disk<'a> = &'a [File<'a>];

/// What an array is made of.
#[derive(Clone, Copy)]
pub struct Array<'a> {
    pub config: &'a str,
    pub levels: u32,
    pub copies: u32,
    pub disks: &'a [Disk<'a>],
}

/// One disk without a file.
pub const EMPTY: Array = Array {
    config: CONFIG,
    levels: 1,
    copies: 1,
    disks: &[&[]],
};

/// One file of ten bytes.
pub const ONE: Array = Array {
    disks: &[&[("a", b"qrstuvwxyz", 1, 5)]],
    ..EMPTY
};

/// Five files of one block each.
pub const FIVE: Array = Array {
    disks: &[&[
        ("a", b"a", 1, 5),
        ("b", b"b", 1, 5),
        ("c", b"c", 1, 5),
        ("d", b"d", 1, 5),
        ("e", b"e", 1, 5),
    ]],
    ..EMPTY
};

/// How a run ended, what it printed, and what was opened.
#[derive(Drop)]
pub struct Ran<F: Folder + Drop, V: Vault + Drop> {
    pub outcome: Outcome<F, V>,
    /// How often a call of the opener failed.
    pub opener_faults: u64,
    pub out: MemSink,
    pub err: MemSink,
}

impl<F: Folder + Drop, V: Vault + Drop> Ran<F, V> {
    /// Whether it ended with this status, and this was printed.
    pub fn is(&self, status: u8, out: &str, err: &str) -> bool {
        self.outcome.status == status
            && self.out.bytes() == out.as_bytes()
            && self.err.bytes() == err.as_bytes()
    }
}

/// A run over objects in memory.
pub type Left = Ran<MemFolder, MemVault>;

impl<F: Folder + Drop> Ran<F, MemVault> {
    /// The bytes of a content copy, none where there is no such file.
    pub fn content(&mut self, alloc: Global, copy: u32) -> Result<Vec<u8>, Fail> {
        match &mut self.outcome.vault {
            Some(vault) => content(alloc, vault, copy),
            None => Err("no vault".into()),
        }
    }

    /// The bytes of a level.
    pub fn parity(&mut self, alloc: Global, level: u32) -> Result<Vec<u8>, Fail> {
        match &mut self.outcome.vault {
            Some(vault) => parity(alloc, vault, level),
            None => Err("no vault".into()),
        }
    }

    /// The vault, opened anew.
    pub fn reopened(&self) -> Result<MemVault, Fail>
        ensures settled { IfOk result (λ vault. IsSettled (vault_view vault)) }
        ensures drafts { IfOk result (λ vault. HasNoDraft (vault_view vault)) }
    {
        self.stopped(&[0xff; 8])
    }

    /// The vault that these bytes pick among those that a stop may leave.
    pub fn stopped(&self, choice: &[u8]) -> Result<MemVault, Fail>
        ensures settled { IfOk result (λ vault. IsSettled (vault_view vault)) }
        ensures drafts { IfOk result (λ vault. HasNoDraft (vault_view vault)) }
    {
        match &self.outcome.vault {
            Some(vault) => Ok(vault.image(choice)?),
            None => Err("no vault".into()),
        }
    }
}

/// The bytes of a content copy, none where there is no such file.
pub fn content(alloc: Global, vault: &mut MemVault, copy: u32) -> Result<Vec<u8>, Fail> {
    if copy >= vault.copies() {
        return Err("no such copy".into());
    }
    vault.stop_after(u64::MAX);
    let size = vault.content_size(copy)?.unwrap_or(0);
    let mut bytes = vec![in alloc; 0u8; size as usize]?;
    vault.content_read(copy, 0, bytes.as_mut_slice())?;
    Ok(bytes)
}

/// The bytes of a level.
pub fn parity(alloc: Global, vault: &mut MemVault, level: u32) -> Result<Vec<u8>, Fail> {
    if level >= vault.levels() {
        return Err("no such level".into());
    }
    vault.stop_after(u64::MAX);
    let size = vault.parity_len(level)?;
    let mut bytes = vec![in alloc; 0u8; size as usize]?;
    vault.parity_read(level, 0, bytes.as_mut_slice())?;
    Ok(bytes)
}

/// A vault without parity and content.
pub fn vault(alloc: Global, array: Array) -> Result<MemVault, Fail>
    ensures settled { IfOk result (λ vault. IsSettled (vault_view vault)) }
    ensures drafts { IfOk result (λ vault. HasNoDraft (vault_view vault)) }
{
    Ok(MemVault::new(alloc, array.levels, array.copies)?)
}

/// What picks one of the vaults that a stop may leave: that of the last moment, and this byte for all else. At most seven
/// blocks of parity are picked.
pub fn picking(alloc: Global, byte: u8) -> Result<Vec<u8>, Fail> {
    let mut choice = Vec::from_slice(alloc, &[0xff; 8])?;
    choice.resize(8 + 8 + 7168 + 16, byte)?;
    Ok(choice)
}

/// The vault, of which all calls after so many fail.
pub fn limited(vault: MemVault, calls: u64) -> MemVault
    requires settled { IsSettled (vault_view vault) }
    requires drafts { HasNoDraft (vault_view vault) }
    ensures settled { IsSettled (vault_view result) }
    ensures drafts { HasNoDraft (vault_view result) }
{
    let mut vault = vault;
    vault.stop_after(calls);
    vault
}

/// The vault, of which the call of this number fails, counted from 1; 0 is none.
pub fn failing_at(vault: MemVault, call: u64) -> Result<MemVault, Fail>
    requires settled { IsSettled (vault_view vault) }
    requires drafts { HasNoDraft (vault_view vault) }
    ensures settled { IfOk result (λ vault. IsSettled (vault_view vault)) }
    ensures drafts { IfOk result (λ vault. HasNoDraft (vault_view vault)) }
{
    let mut vault = vault;
    vault.fail_at(call)?;
    Ok(vault)
}

/// The vault, where its calls fail as is asked for.
pub fn failing_vault(vault: MemVault, failing: Failing) -> Result<MemVault, Fail>
    requires settled { IsSettled (vault_view vault) }
    requires drafts { HasNoDraft (vault_view vault) }
    ensures settled { IfOk result (λ vault. IsSettled (vault_view vault)) }
    ensures drafts { IfOk result (λ vault. HasNoDraft (vault_view vault)) }
{
    match calls_before(failing.vault, failing.stops) {
        Some(calls) => Ok(limited(vault, calls)),
        None => failing_at(vault, failing.vault),
    }
}

/// A stamp of these seconds and nanoseconds, of which there are fewer than a second has.
pub fn stamp(seconds: i64, nanos: u32) -> Stamp
    ensures { IsStamp result }
{
    Stamp {
        seconds,
        nanos: nanos.min(999_999_999),
    }
}

/// A folder of these files.
pub fn folder(alloc: Global, files: Disk) -> Result<MemFolder, Fail> {
    let mut folder = MemFolder::new(alloc, true);
    for (name, bytes, seconds, nanos) in files {
        let path = Path::new(alloc, name)?;
        folder.put(path, stamp(*seconds, *nanos), bytes)?;
    }
    Ok(folder)
}

/// The folders of an array.
pub fn folders(alloc: Global, array: Array) -> Result<Vec<MemFolder>, Fail> {
    let mut folders = Vec::new(alloc);
    for disk in array.disks {
        folders.push(folder(alloc, disk)?)?;
    }
    Ok(folders)
}

/// Words of a command line.
pub fn owned(alloc: Global, words: &[&str]) -> Result<Vec<String>, Fail> {
    let mut line = Vec::new(alloc);
    for word in words {
        line.push(String::from_str(alloc, word)?)?;
    }
    Ok(line)
}

/// What a run reads and writes beside its array.
#[derive(Drop)]
struct Streams {
    line: Vec<String>,
    out: MemSink,
    err: MemSink,
}

// A stream of which the call of this number fails.
fn sink(alloc: Global, call: u64) -> Result<MemSink, Fail> {
    let mut sink = MemSink::new(alloc);
    sink.fail_at(call)?;
    Ok(sink)
}

fn open_streams(alloc: Global, words: &[&str], failing: Failing) -> Result<Streams, Fail> {
    let line = owned(alloc, words)?;
    let out = sink(alloc, failing.out)?;
    let err = sink(alloc, failing.err)?;
    Ok(Streams { line, out, err })
}

// An opener of which the call of this number fails.
fn opener<F: Folder + Drop, V: Vault + Drop>(
    alloc: Global,
    config: &str,
    folders: Vec<F>,
    vault: V,
    call: u64,
) -> Result<MemOpener<F, V>, Fail>
    requires { CanGive F.view folders.items (V.view vault) }
{
    let config = Vec::from_slice(alloc, config.as_bytes())?;
    let mut opener = MemOpener::new(alloc, config, folders, vault);
    opener.fail_at(call)?;
    Ok(opener)
}

/// The words of a run, its configuration, and when it is made, in seconds since 1970.
#[derive(Clone, Copy)]
pub struct Asked<'a> {
    pub words: &'a [&'a str],
    pub config: &'a str,
    pub now: u64,
}

/// Runs words over folders and a vault, with reports, where the opener and the streams fail as is asked for.
pub fn run_told<R: Threads + Sync, F: Folder + Drop, V: Vault + Drop>(
    rt: &R,
    alloc: Global,
    asked: Asked,
    folders: Vec<F>,
    vault: V,
    reports: &mut Vec<Box<dyn Report>>,
    failing: Failing,
) -> Result<Ran<F, V>, Fail>
    requires { CanGive F.view folders.items (V.view vault) }
{
    let Asked { words, config, now } = asked;
    let mut opener = opener(alloc, config, folders, vault, failing.opener)?;
    let Streams {
        line,
        mut out,
        mut err,
    } = open_streams(alloc, words, failing)?;
    let outcome = run(
        rt,
        alloc,
        line.as_slice(),
        &mut opener,
        reports,
        &mut out,
        &mut err,
        now,
        *b"abcdefghijklmnop",
    );
    Ok(Ran {
        outcome,
        opener_faults: opener.faults(),
        out,
        err,
    })
}

/// Runs what is asked for over folders and a vault, where neither the opener nor a stream fails.
pub fn run_asked<R: Threads + Sync, F: Folder + Drop, V: Vault + Drop>(
    rt: &R,
    alloc: Global,
    asked: Asked,
    folders: Vec<F>,
    vault: V,
) -> Result<Ran<F, V>, Fail>
    requires { CanGive F.view folders.items (V.view vault) }
{
    let mut reports = Vec::new(alloc);
    run_told(rt, alloc, asked, folders, vault, &mut reports, NONE)
}

/// Runs words over folders and a vault.
pub fn run_with<R: Threads + Sync, F: Folder + Drop, V: Vault + Drop>(
    rt: &R,
    alloc: Global,
    words: &[&str],
    config: &str,
    folders: Vec<F>,
    vault: V,
) -> Result<Ran<F, V>, Fail>
    requires { CanGive F.view folders.items (V.view vault) }
{
    let asked = Asked {
        words,
        config,
        now: NOW,
    };
    run_asked(rt, alloc, asked, folders, vault)
}

/// Runs words over an array and a vault.
pub fn run_over<R: Threads + Sync>(
    rt: &R,
    alloc: Global,
    words: &[&str],
    array: Array,
    vault: MemVault,
) -> Result<Left, Fail>
    requires settled { IsSettled (vault_view vault) }
    requires drafts { HasNoDraft (vault_view vault) }
{
    let folders = folders(alloc, array)?;
    run_with(rt, alloc, words, array.config, folders, vault)
}

/// Runs words over an array without parity and content.
pub fn run_first<R: Threads + Sync>(
    rt: &R,
    alloc: Global,
    words: &[&str],
    array: Array,
) -> Result<Left, Fail> {
    let vault = vault(alloc, array)?;
    run_over(rt, alloc, words, array, vault)
}
