// Steps, made one after another, and what each answers. No function here tells what it did: so a proof gathers no facts.
use crate::tests::steps::{Answer, Buffer, Failing, FileStep, Listed, STAMP, VaultStep, wanted};
use disk_memory::MemFolder;
use disk_model::{Failed, FileFault, FileInfo, Folder, NoMemory, Path, Stamp, Vault};
use std::alloc::Global;
use std::test::Fail;

const BLANK: Buffer = [9; 6];

/// Makes steps of a vault and compares what each answers.
pub(super) fn plays<V: Vault>(
    vault: &mut V,
    steps: &[(VaultStep, Answer)],
    failing: Failing,
) -> Result<(), Fail> {
    let mut number = 0u64;
    for (step, usual) in steps {
        number = number.saturating_add(1);
        let got = of_vault(vault, *step);
        if got != wanted(failing, number, *usual) {
            return Err(differs(number, got));
        }
    }
    Ok(())
}

/// The same of a file of a folder.
pub(super) fn plays_file(
    alloc: Global,
    folder: &mut MemFolder,
    path: &Path,
    steps: &[(FileStep, Answer)],
    failing: Failing,
) -> Result<(), Fail> {
    let mut number = 0u64;
    for (step, usual) in steps {
        number = number.saturating_add(1);
        let got = of_path(alloc, folder, path, *step)?;
        if got != wanted(failing, number, *usual) {
            return Err(differs(number, got));
        }
    }
    Ok(())
}

fn differs(number: u64, got: Answer) -> Fail {
    Fail::new(format_args!("step {number} answers {got:?}"))
}

/// One step of a vault.
pub(super) fn of_vault<V: Vault>(vault: &mut V, step: VaultStep) -> Answer {
    match step {
        VaultStep::ParityLen => parity_len(vault),
        VaultStep::ParityReads(at, count, out) => parity_reads(vault, at, count, out),
        VaultStep::Write(at, text) => parity_write(vault, at, text),
        VaultStep::SetLen(len) => parity_set_len(vault, len),
        VaultStep::Sync => parity_sync(vault),
        VaultStep::Size => content_size(vault),
        VaultStep::Reads(at, count, out) => content_reads(vault, at, count, out),
        VaultStep::Seal(first, second) => done(sealed(vault, first, second)),
        VaultStep::Save(first, second) => done(saved(vault, first, second)),
    }
}

fn parity_len<V: Vault>(vault: &mut V) -> Answer {
    if vault.levels() == 0 {
        return Answer::Missing;
    }
    match vault.parity_len(0) {
        Ok(len) => Answer::Size(len),
        Err(Failed) => Answer::Failed,
    }
}

fn parity_reads<V: Vault>(vault: &mut V, at: u32, count: usize, wanted: &Buffer) -> Answer {
    if vault.levels() == 0 {
        return Answer::Missing;
    }
    let mut out = BLANK;
    match vault.parity_read(0, u64::from(at), &mut out) {
        Ok(got) => is_done(got == count && out == *wanted),
        Err(Failed) => Answer::Failed,
    }
}

fn parity_write<V: Vault>(vault: &mut V, at: u32, text: &str) -> Answer {
    if vault.levels() == 0 {
        return Answer::Missing;
    }
    done(vault.parity_write(0, u64::from(at), text.as_bytes()))
}

fn parity_set_len<V: Vault>(vault: &mut V, len: u64) -> Answer {
    if vault.levels() == 0 {
        return Answer::Missing;
    }
    done(vault.parity_set_len(0, len))
}

fn parity_sync<V: Vault>(vault: &mut V) -> Answer {
    if vault.levels() == 0 {
        return Answer::Missing;
    }
    done(vault.parity_sync(0))
}

fn content_size<V: Vault>(vault: &mut V) -> Answer {
    if vault.copies() == 0 {
        return Answer::Missing;
    }
    match vault.content_size(0) {
        Ok(None) => Answer::Missing,
        Ok(Some(size)) => Answer::Size(size),
        Err(Failed) => Answer::Failed,
    }
}

fn content_reads<V: Vault>(vault: &mut V, at: u32, count: usize, wanted: &Buffer) -> Answer {
    if vault.copies() == 0 {
        return Answer::Missing;
    }
    let mut out = BLANK;
    match vault.content_read(0, u64::from(at), &mut out) {
        Ok(got) => is_done(got == count && out == *wanted),
        Err(Failed) => Answer::Failed,
    }
}

fn sealed<V: Vault>(vault: &mut V, first: &str, second: &str) -> Result<(), Failed> {
    if vault.copies() == 0 {
        return Err(Failed);
    }
    vault.draft_begin(0)?;
    vault.draft_append(0, first.as_bytes())?;
    vault.draft_append(0, second.as_bytes())?;
    vault.draft_seal(0)
}

fn saved<V: Vault>(vault: &mut V, first: &str, second: &str) -> Result<(), Failed> {
    if vault.copies() == 0 {
        return Err(Failed);
    }
    vault.draft_begin(0)?;
    vault.draft_append(0, first.as_bytes())?;
    vault.draft_append(0, second.as_bytes())?;
    vault.draft_seal(0)?;
    vault.publish(0)
}

// One step of a file, of a folder that says which files it allows.
fn of_path(
    alloc: Global,
    folder: &mut MemFolder,
    path: &Path,
    step: FileStep,
) -> Result<Answer, NoMemory> {
    match step {
        FileStep::Make => makes(folder, path),
        FileStep::Rename(lost) => renames(folder, path, lost),
        step => Ok(of_file(alloc, folder, path, step)),
    }
}

fn makes(folder: &mut MemFolder, path: &Path) -> Result<Answer, NoMemory> {
    if !folder.allows(path, false)? {
        return Ok(Answer::Differs);
    }
    Ok(done(folder.make(path)))
}

fn renames(folder: &mut MemFolder, path: &Path, lost: bool) -> Result<Answer, NoMemory> {
    if !folder.allows(path, lost)? {
        return Ok(Answer::Differs);
    }
    Ok(written(folder.rename(path, lost)))
}

/// One step of a file, but none that makes or renames it.
pub(super) fn of_file<F: Folder>(
    alloc: Global,
    folder: &mut F,
    path: &Path,
    step: FileStep,
) -> Answer {
    match step {
        FileStep::Lists(wanted) => lists(alloc, folder, wanted),
        FileStep::Look(lost) => looks(folder, path, lost),
        FileStep::Reads(lost, at, count, out) => reads(folder, path, lost, at, count, out),
        FileStep::Write(at, text) => writes(folder, path, at, text),
        FileStep::SetSize(size) => written(folder.set_size(path, size)),
        FileStep::SetStamp(stamp) => stamps(folder, path, stamp),
        FileStep::Make | FileStep::Rename(_) => Answer::Differs,
    }
}

fn lists<F: Folder>(alloc: Global, folder: &mut F, wanted: &[Listed]) -> Answer {
    match folder.list(alloc) {
        Ok(files) => is_done(are(&files, wanted)),
        Err(_) => Answer::Failed,
    }
}

// Whether these are the files.
fn are(files: &[FileInfo], wanted: &[Listed]) -> bool {
    for (file, (path, size)) in files.iter().zip(wanted) {
        if file.path.as_str() != *path || file.meta.size != *size || file.meta.stamp != STAMP {
            return false;
        }
    }
    files.len() == wanted.len()
}

fn looks<F: Folder>(folder: &mut F, path: &Path, lost: bool) -> Answer {
    match folder.look(path, lost) {
        Ok(meta) => Answer::Meta(meta),
        Err(fault) => failed(fault),
    }
}

fn reads<F: Folder>(
    folder: &mut F,
    path: &Path,
    lost: bool,
    at: u32,
    count: usize,
    wanted: &Buffer,
) -> Answer {
    let mut out = BLANK;
    match folder.read_at(path, lost, u64::from(at), &mut out) {
        Ok(got) => is_done(got == count && out == *wanted),
        Err(fault) => failed(fault),
    }
}

fn writes<F: Folder>(folder: &mut F, path: &Path, at: u32, text: &str) -> Answer {
    written(folder.write_at(path, u64::from(at), text.as_bytes()))
}

fn stamps<F: Folder>(folder: &mut F, path: &Path, stamp: Stamp) -> Answer {
    let nanos = stamp.nanos.min(999_999_999);
    let seconds = stamp.seconds;
    match folder.set_stamp(path, Stamp { seconds, nanos }) {
        Ok(true) => Answer::Done,
        Ok(false) => Answer::NotKept,
        Err(fault) => failed(fault),
    }
}

fn written(answer: Result<(), FileFault>) -> Answer {
    match answer {
        Ok(()) => Answer::Done,
        Err(fault) => failed(fault),
    }
}

fn failed(fault: FileFault) -> Answer {
    match fault {
        FileFault::Missing => Answer::Missing,
        FileFault::Failed => Answer::Failed,
    }
}

fn done(answer: Result<(), Failed>) -> Answer {
    match answer {
        Ok(()) => Answer::Done,
        Err(Failed) => Answer::Failed,
    }
}

fn is_done(is: bool) -> Answer {
    if is { Answer::Done } else { Answer::Differs }
}
