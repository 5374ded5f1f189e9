// What opens files and folders of the system.
ghost use Rattle.std.specs.Prelude.{◌≡◌, ◌<◌, ◌^◌, length, vec_len, IfOk, All};
ghost use Rattle.disk_host.specs.Drafts.{state_of};
ghost use Rattle.disk_model.specs.declared.draft.Draft.{Draft};

use crate::ahead::AheadFiles;
use crate::apart::are_apart;
use crate::contents::ContentFile;
use crate::failures::{Failure, Failures, Request};
use crate::faults::{is_memory, raise};
use crate::folder::DiskFolder;
use crate::log::empty_log;
use crate::parity::ParityFile;
use crate::vault::DiskVault;
use disk_model::{NoMemory, OpenFault, Opened, Opener, Places, Text};
use std::alloc::Global;
use std::io::Read;
use std::os::unix::fs::FileExt;
use std::rt::Files;
use std::{fs, io};

// One byte more than a configuration may have, so that a longer one shows.
const LONGEST: u64 = 1_048_577;

// More names than a vault can number.
const MANY: usize = 1 << 32;

/// Opens what a configuration names, by name. It is a failure where two of the names are those of one file, the
/// configuration among them, or where one data folder is another one or inside of it.
#[derive(Drop)]
pub struct DiskOpener<R> {
    rt: R,
    // the configuration that was read last
    config: Option<Text>,
    log: Option<Text>,
    faults: u64,
    failures: Failures,
}

impl<R: Files> DiskOpener<R> {
    pub fn new(alloc: Global, rt: R) -> DiskOpener<R>
        ensures { result.faults ≡ 0 }
    {
        DiskOpener::with_log(alloc, rt, None)
    }

    /// One of a run that may write a log. The log has to be another file than the configuration and all that are opened. Once that is known it
    /// is emptied, or made. Where that fails, `failures` tells it, and what is to be written to the log fails.
    pub fn with_log(alloc: Global, rt: R, log: Option<Text>) -> DiskOpener<R>
        ensures { result.faults ≡ 0 }
    {
        DiskOpener {
            rt,
            config: None,
            log,
            faults: 0,
            failures: Failures::none(alloc),
        }
    }

    /// What failed so far.
    pub fn failures(&self) -> &[Failure] {
        self.failures.as_slice()
    }
}

// The bytes of a file, of a longer one a front. Any kind of file will do, as a pipe.
fn read_start<R: Files>(rt: &R, name: &str, bytes: &mut Vec<u8>) -> io::Result<usize> {
    fs::open(rt, name)?.take(LONGEST).read_to_end(bytes)
}

fn folders_of<R: Files + Clone>(
    alloc: Global,
    rt: &R,
    dirs: &[Text],
) -> Result<Vec<DiskFolder<R>>, NoMemory>
    ensures count { IfOk result (λ v. vec_len v ≡ length dirs.now) }
    ensures new { IfOk result (λ v. All (λ folder. folder.faults ≡ 0) v.items) }
    ensures unwritten { IfOk result (λ v. All (λ folder. folder.writes ≡ 0) v.items) }
{
    let mut folders = Vec::new(alloc);
    for dir in dirs {
        folders.push(DiskFolder::new(alloc, rt.clone()?, dir.copy()?))?;
    }
    Ok(folders)
}

fn folder_to_read<R: Files + AllocGlobal + Clone>(
    rt: &R,
    dir: &str,
) -> Result<DiskFolder<R>, NoMemory>
    ensures faults { IfOk result (λ folder. folder.faults ≡ 0) }
    ensures writes { IfOk result (λ folder. folder.writes ≡ 0) }
{
    let alloc = rt.alloc();
    Ok(DiskFolder::to_read(alloc, rt.clone()?, Text::new(alloc, dir)?))
}

fn parities_of<R: Files>(alloc: Global, names: &[Text]) -> Result<Vec<ParityFile<R>>, NoMemory>
where
    R::File: FileExt,
    ensures { IfOk result (λ v. vec_len v ≡ length names.now) }
{
    let mut parities = Vec::new(alloc);
    for name in names {
        parities.push(ParityFile::new(name.copy()?))?;
    }
    Ok(parities)
}

fn contents_of<R: Files>(alloc: Global, names: &[Text]) -> Result<Vec<ContentFile<R>>, NoMemory>
where
    R::File: FileExt,
    ensures count { IfOk result (λ v. vec_len v ≡ length names.now) }
    ensures new { IfOk result (λ v. All (λ content. state_of content.draft.stage ≡ Draft.Absent) v.items) }
{
    let mut contents = Vec::new(alloc);
    for name in names {
        contents.push(ContentFile::new(alloc, name)?)?;
    }
    Ok(contents)
}

fn vault_of<R: Files + Clone + Drop>(
    alloc: Global,
    rt: &R,
    places: &Places,
) -> Result<DiskVault<R>, NoMemory>
where
    R::File: FileExt,
    requires levels { vec_len places.now.parities < 2 ^ 32 }
    requires copies { vec_len places.now.contents < 2 ^ 32 }
    ensures faults { IfOk result (λ v. v.faults ≡ 0) }
    ensures writes { IfOk result (λ v. v.writes ≡ 0) }
    ensures levels { IfOk result (λ v. vec_len v.parities ≡ vec_len places.now.parities) }
    ensures copies { IfOk result (λ v. vec_len v.contents ≡ vec_len places.now.contents) }
    ensures new { IfOk result (λ v. All (λ content. state_of content.draft.stage ≡ Draft.Absent) v.contents.items) }
{
    let parities = parities_of(alloc, places.parities.as_slice())?;
    let contents = contents_of(alloc, places.contents.as_slice())?;
    let ahead = AheadFiles::new(alloc, rt, places.parities.as_slice())?;
    Ok(DiskVault::new(alloc, rt.clone()?, parities, contents, ahead))
}

// Whether the names are of different files. Once they are, the log is emptied.
fn may_open<R: Files>(
    alloc: Global,
    rt: &R,
    places: &Places,
    config: Option<&Text>,
    log: Option<&Text>,
    failures: &mut Failures,
) -> Result<bool, NoMemory> {
    let are_apart = are_apart(alloc, rt, places, config, log, failures)?;
    if are_apart {
        if let Some(log) = log {
            empty_log(rt, log.as_str(), failures);
        }
    }
    Ok(are_apart)
}

impl<R: Files + AllocGlobal + Clone + Drop + Send> Opener for DiskOpener<R>
where
    R::File: FileExt + Send,
{
    type Folder = DiskFolder<R>;

    type Vault = DiskVault<R>;

    ghost use Rattle.disk_host.specs.Opener.{quiet_opener};

    ghost view = { λ s. quiet_opener s.faults };

    fn faults(&self) -> u64 {
        self.faults
    }

    fn config(&mut self, alloc: Global, name: &str) -> Result<Vec<u8>, OpenFault> {
        let Ok(own) = Text::new(alloc, name) else {
            return Err(OpenFault::Memory);
        };
        self.config = Some(own);
        let mut bytes = Vec::new(alloc);
        let answer = read_start(&self.rt, name, &mut bytes);
        self.failures.note(Request::Read, name, &answer);
        match answer {
            Ok(_) => Ok(bytes),
            Err(error) if is_memory(&error) => Err(OpenFault::Memory),
            Err(_) => {
                raise(&mut self.faults);
                Err(OpenFault::Failed)
            }
        }
    }

    fn open(
        &mut self,
        alloc: Global,
        places: &Places,
    ) -> Result<Opened<DiskFolder<R>, DiskVault<R>>, OpenFault> {
        if places.parities.len() >= MANY || places.contents.len() >= MANY {
            raise(&mut self.faults);
            return Err(OpenFault::Failed);
        }
        let (config, log) = (self.config.as_ref(), self.log.as_ref());
        let may_open = may_open(alloc, &self.rt, places, config, log, &mut self.failures);
        if may_open.is_err() {
            return Err(OpenFault::Memory);
        }
        if !may_open.unwrap_or(false) {
            raise(&mut self.faults);
            return Err(OpenFault::Failed);
        }
        match (
            folders_of(alloc, &self.rt, places.dirs.as_slice()),
            vault_of(alloc, &self.rt, places),
        ) {
            (Ok(folders), Ok(vault)) => Ok(Opened { folders, vault }),
            _ => Err(OpenFault::Memory),
        }
    }

    // It may be a data folder too, or stand in one, since it is only read. Where there is none, its listing fails.
    fn import(&mut self, dir: &str) -> Result<DiskFolder<R>, OpenFault> {
        match folder_to_read(&self.rt, dir) {
            Ok(folder) => Ok(folder),
            Err(NoMemory) => Err(OpenFault::Memory),
        }
    }
}
