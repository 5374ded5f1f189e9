// What is opened in a scene, and the steps of its parts.
use crate::answer::{Answer, is_done};
use crate::causes::are_causes;
use crate::folder::folder_step;
use crate::outside::{config_step, import_step, opener_faults};
use crate::system::{Host, Plan};
use crate::vault::{ahead_step, copy_step, level_step, vault_faults};
use crate::words::place_of;
use disk_host::{DiskFolder, DiskOpener, DiskVault};
use disk_model::{OpenFault, Opened, Opener, Places, Text};
use std::alloc::Global;

#[derive(Drop)]
pub struct Array {
    system: Host,
    opener: DiskOpener<Host>,
    folders: Vec<DiskFolder<Host>>,
    vault: DiskVault<Host>,
}

/// A part of it, by the first word of a step.
#[derive(Clone, Copy)]
pub enum Part {
    Folder,
    Level,
    Ahead,
    Copy,
    Config,
    Import,
    OpenerFaults,
    VaultFaults,
    OpenerCauses,
    VaultCauses,
    /// How many calls the system took that change something.
    Calls,
    /// Whether the last of these calls is the one that was to fail.
    Stopped,
}

/// The part that a first word names.
pub fn part_of(verb: &str) -> Option<Part> {
    match verb {
        "folder" => Some(Part::Folder),
        "level" => Some(Part::Level),
        "ahead" => Some(Part::Ahead),
        "copy" => Some(Part::Copy),
        "config" => Some(Part::Config),
        "import" => Some(Part::Import),
        "opener-faults" => Some(Part::OpenerFaults),
        "vault-faults" => Some(Part::VaultFaults),
        "opener-causes" => Some(Part::OpenerCauses),
        "vault-causes" => Some(Part::VaultCauses),
        "calls" => Some(Part::Calls),
        "stopped" => Some(Part::Stopped),
        _ => None,
    }
}

impl Array {
    pub fn open(rt: HostRuntime, plan: Plan, places: &Places, log: Option<Text>) -> Option<Array> {
        let system = Host::new(rt, plan).ok()?;
        let mut opener = DiskOpener::with_log(rt.alloc(), system.clone().ok()?, log);
        let Opened { folders, vault } = opener.open(rt.alloc(), places).ok()?;
        Some(Array {
            system,
            opener,
            folders,
            vault,
        })
    }

    pub fn play(&mut self, alloc: Global, part: Part, step: &str) -> Option<Answer> {
        match part {
            Part::Folder => column_step(alloc, &mut self.folders, step),
            Part::Level => level_step(alloc, &mut self.vault, step),
            Part::Ahead => ahead_step(alloc, &mut self.vault, step),
            Part::Copy => copy_step(alloc, &mut self.vault, step),
            Part::Config => Some(config_step(alloc, &mut self.opener, step)),
            Part::Import => Some(import_step(&mut self.opener, &mut self.folders, step)),
            Part::OpenerFaults => Some(opener_faults(&self.opener)),
            Part::VaultFaults => Some(vault_faults(&self.vault)),
            Part::OpenerCauses => are_causes(alloc, self.opener.failures(), step),
            Part::VaultCauses => are_causes(alloc, self.vault.failures(), step),
            Part::Calls => Some(Answer::Number(self.system.made() as u64)),
            Part::Stopped => Some(is_done(self.system.is_stopped())),
        }
    }
}

/// Whether these may not be opened, and the causes are those that a word stands for.
pub fn is_refused(
    rt: HostRuntime,
    plan: Plan,
    places: &Places,
    log: Option<Text>,
    causes: &str,
) -> Option<Answer> {
    let mut opener = DiskOpener::with_log(rt.alloc(), Host::new(rt, plan).ok()?, log);
    match opener.open(rt.alloc(), places) {
        Err(OpenFault::Failed) if opener.faults() == 1 => {
            are_causes(rt.alloc(), opener.failures(), causes)
        }
        Err(OpenFault::Memory) => Some(Answer::OutOfMemory),
        _ => Some(Answer::Differs),
    }
}

fn column_step(alloc: Global, folders: &mut [DiskFolder<Host>], step: &str) -> Option<Answer> {
    let (column, rest) = place_of(step)?;
    match folders.get_mut(column as usize) {
        Some(folder) => folder_step(alloc, folder, rest),
        None => Some(Answer::Missing),
    }
}
