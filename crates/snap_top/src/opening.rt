// All that a run opens.
ghost use Rattle.std.specs.Prelude.{◌≡◌, ◌∷◌, [], map, false, IfOk, IfErr, OnErr, OnOk, IsTrue};
ghost use Rattle.disk_model.specs.Moments.{SameImages};
ghost use Rattle.disk_model.specs.Opener.{OpenerGoesOn, HoldsSame};
ghost use Rattle.array_setup.specs.Setup.{IsSetup, setup_value};
ghost use Rattle.snap_config.specs.Words.{IsOptions, IsWay};
ghost use Rattle.snap_top.specs.Asked.{Says, WorksOnArray};
ghost use Rattle.snap_top.specs.Levels.{IsOpenedBy};
ghost use Rattle.snap_top.specs.Opening.{ConfiguresNot, IsGivenFor, RefusesFor, reads_config};

use crate::Refusal;
use crate::known::known_command;
use array_setup::Setup;
use disk_model::{Opener, Text};
use snap_config::{Command, ConfigFault, Options, read_config};
use std::alloc::Global;

/// An array that was opened, and what is to be done with it.
pub(crate) struct Session<F, V> {
    pub command: Command,
    /// 1 to 16.
    pub readers: u32,
    pub setup: Setup,
    /// How many files each level has, once more: a vault whose levels are split keeps these.
    pub parts: Vec<u32>,
    pub folders: Vec<F>,
    pub vault: V,
}

// Reads a configuration file. How many files each level has is given twice.
fn configure<O: Opener>(
    alloc: Global,
    file: Text,
    log: Option<Text>,
    opener: &mut O,
) -> Result<(Setup, Vec<u32>), Refusal>
    ensures says { IfOk result (λ made. Says (O.view opener.old) log (setup_value made.0)) }
    ensures valid { IfOk result (λ made. IsSetup (setup_value made.0)) }
    ensures parts { IfOk result (λ made. made.1.items ≡ made.0.parts.items) }
    ensures called { OnOk result (OpenerGoesOn (O.view opener.old) (O.view opener.new) (reads_config file false ∷ [])) }
    ensures refused { IfErr result (ConfiguresNot file log (O.view opener.old) (O.view opener.new)) }
    ensures kept { HoldsSame (O.view opener.old) (O.view opener.new) }
{
    let bytes = match opener.config(alloc, file.as_str()) {
        Ok(bytes) => bytes,
        Err(fault) => return Err(Refusal::Unread(fault)),
    };
    let setup = match read_config(alloc, bytes.as_slice(), log) {
        Ok(setup) => setup,
        Err(fault) => return Err(Refusal::Config { file, fault }),
    };
    match setup.parts.to_vec(alloc) {
        Ok(parts) => Ok((setup, parts)),
        Err(_) => Err(Refusal::Config {
            file,
            fault: ConfigFault::Memory,
        }),
    }
}

/// Reads the configuration that the words name, and opens what that names. This is what they ask for.
pub(crate) fn open_all<O: Opener>(
    alloc: Global,
    asked: Options,
    opener: &mut O,
) -> Result<Session<O::Folder, O::Vault>, Refusal>
    requires options { IsOptions asked }
    requires works { WorksOnArray asked.command }
    ensures given { IfOk result (λ session. IsGivenFor asked (O.view opener.old) (O.view opener.new) session.command session.readers
        (setup_value session.setup) (map O.Folder.view session.folders.items) (O.Vault.view session.vault)) }
    ensures images { IfOk result (λ session. IsTrue (O.view opener.old).tells → SameImages (O.view opener.old).vault.images (O.Vault.view session.vault).images) }
    ensures opened { IfOk result (λ session. IsOpenedBy session.parts.items (setup_value session.setup) (O.Vault.view session.vault)) }
    ensures works { IfOk result (λ session. WorksOnArray session.command) }
    ensures way { IfOk result (λ session. IsWay session.command) }
    ensures valid { IfOk result (λ session. IsSetup (setup_value session.setup)) }
    ensures refused { IfErr result (RefusesFor asked (O.view opener.old) (O.view opener.new)) }
    ensures kept { OnErr result (HoldsSame (O.view opener.old) (O.view opener.new)) }
{
    let Options {
        conf,
        log,
        readers,
        command,
    } = asked;
    let (setup, parts) = configure(alloc, conf, log, opener)?;
    let command = match known_command(&setup, command) {
        Ok(command) => command,
        Err(name) => return Err(Refusal::NoDisk(name)),
    };
    match opener.open(alloc, &setup.places) {
        Ok(opened) => Ok(Session {
            command,
            readers,
            setup,
            parts,
            folders: opened.folders,
            vault: opened.vault,
        }),
        Err(fault) => Err(Refusal::Unopened(fault)),
    }
}
