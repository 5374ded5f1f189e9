// A calm opener.
ghost use Rattle.std.specs.Prelude.{◌≡◌, ◌↔◌, false, IsTrue, IfSome};
ghost use Rattle.std.proofs.Props.{props};
ghost use Rattle.disk_calm.specs.Calm.{calm_folder_view, calm_vault_view};
ghost use Rattle.disk_memory.specs.Given.{CanGive, Fits};

use crate::opener::{are_so_many, front_of};
use disk_calm::{CalmFolder, CalmVault, fail};
use disk_model::{OpenFault, Opened, Opener, Places, Vault};
use std::alloc::Global;

/// Gives its folders and its vault once, and once the folder to import that was set.
#[derive(Drop)]
pub struct CalmOpener {
    faults: u64,
    /// What its configuration file holds.
    pub config: Vec<u8>,
    /// What it has still to give; nothing after an `open` that succeeded.
    pub held: Option<Opened<CalmFolder, CalmVault>>,
    /// The folder that it has still to give to be imported; nothing after an `import` that succeeded.
    pub imported: Option<CalmFolder>,
    ghost can_give: { IfSome held (λ o. CanGive calm_folder_view o.folders.items (calm_vault_view o.vault)) } by { Prim.hlevel props },
    ghost import_is_open: { IfSome imported (λ folder. (calm_folder_view folder).closed ≡ false) } by { Prim.hlevel props },
}

impl CalmOpener {
    ghost use Rattle.std.specs.Prelude.{◌≡◌, map, None, Some, false};
    ghost use Rattle.disk_memory.specs.CalmOpener.{calm_opener_view};
    ghost use Rattle.disk_memory.specs.Opener.{IsCalmFresh, SameOpener};

    /// An opener that holds these, and no folder to import. No folder is closed, and the vault has no draft.
    pub fn new(config: Vec<u8>, folders: Vec<CalmFolder>, vault: CalmVault) -> CalmOpener
        requires { CanGive calm_folder_view folders.items (calm_vault_view vault) }
        ensures view { IsCalmFresh config.items (map calm_folder_view folders.items) (calm_vault_view vault) (calm_opener_view result) }
        ensures held { result.held ≡ Some (record { folders = folders; vault = vault }) }
        ensures imported { result.imported ≡ None }
    {
        CalmOpener {
            faults: 0,
            config,
            held: Some(Opened { folders, vault }),
            imported: None,
        }
    }

    /// Sets the folder that `import` gives once, in place of one that was set before. It isn't closed.
    pub fn set_import(&mut self, folder: CalmFolder)
        requires { (calm_folder_view folder).closed ≡ false }
        ensures same { SameOpener (record (calm_opener_view self.old) { import = calm_folder_view folder }) (calm_opener_view self.new) }
        ensures imported { self.new.imported ≡ Some folder }
        ensures held { self.new.held ≡ self.old.held }
    {
        self.imported = Some(folder);
    }
}

impl Opener for CalmOpener {
    type Folder = CalmFolder;

    type Vault = CalmVault;

    ghost use Rattle.std.specs.Prelude.{◌≡◌, ◌<◌, ℕ, map, length, take, get_or, vec_len, true, false, IfOk, OnOk, OnErr, None, is_err};
    ghost use Rattle.disk_model.specs.Folder.{quiet_folder};
    ghost use Rattle.disk_model.specs.Opener.{Config, Open, Import, IsOpenerCall, HoldsSame, HoldsArray, HoldsImport, FolderIsGiven, VaultIsGiven, folder_held, has_failed};
    ghost use Rattle.disk_calm.specs.Calm.{IsCalm};
    ghost use Rattle.disk_memory.specs.CalmOpener.{calm_opener_view};

    ghost view = { calm_opener_view };

    fn faults(&self) -> u64 {
        self.faults
    }

    fn config(&mut self, alloc: Global, name: &str) -> Result<Vec<u8>, OpenFault>
        ensures call { IsOpenerCall (Config name.now) result (calm_opener_view self.old) (calm_opener_view self.new) }
        ensures same { HoldsSame (calm_opener_view self.old) (calm_opener_view self.new) }
        ensures found { IsTrue (calm_opener_view self.old).tells → IfOk result (λ bytes. bytes.items ≡ take 1048577 (calm_opener_view self.old).config) }
        ensures calm { IsCalm (has_failed result) self.old.faults self.new.faults }
        ensures spent { self.old.held ≡ None → self.new.held ≡ None }
        ensures imported { self.old.imported ≡ None → self.new.imported ≡ None }
    {
        let _ = name;
        front_of(alloc, self.config.as_slice())
    }

    fn open(
        &mut self,
        alloc: Global,
        places: &Places,
    ) -> Result<Opened<CalmFolder, CalmVault>, OpenFault>
        ensures call { IsOpenerCall (Open places.now.dirs.items places.now.parities.items places.now.contents.items) result (calm_opener_view self.old) (calm_opener_view self.new) }
        ensures columns { IfOk result (λ opened. vec_len opened.folders ≡ vec_len places.now.dirs) }
        ensures just { IsTrue (calm_opener_view self.old).tells → IfOk result (λ opened. vec_len opened.folders ≡ length (calm_opener_view self.old).folders) }
        ensures folders { IfOk result (λ opened. (column : ℕ) → column < vec_len opened.folders →
            FolderIsGiven (calm_opener_view self.old).tells (folder_held (calm_opener_view self.old) column) (get_or (map calm_folder_view opened.folders.items) column (quiet_folder 0 false))) }
        ensures vault { IfOk result (λ opened.
            VaultIsGiven (calm_opener_view self.old).tells (vec_len places.now.parities) (vec_len places.now.contents) (calm_opener_view self.old).vault (calm_vault_view opened.vault)) }
        ensures import { HoldsImport (calm_opener_view self.old) (calm_opener_view self.new) }
        ensures kept { OnErr result (HoldsSame (calm_opener_view self.old) (calm_opener_view self.new)) }
        ensures given { OnOk result (self.new.held ≡ None) }
        ensures calm { OnErr result (¬ (Fits calm_vault_view places.now self.old.held)) }
        ensures spent { self.old.held ≡ None → self.new.held ≡ None }
        ensures imported { self.old.imported ≡ None → self.new.imported ≡ None }
    {
        let _ = alloc;
        if !fits(&self.held, places) {
            fail(&mut self.faults);
            return Err(OpenFault::Failed);
        }
        match self.held.take() {
            Some(opened) => Ok(opened),
            None => {
                fail(&mut self.faults);
                Err(OpenFault::Failed)
            }
        }
    }

    fn import(&mut self, dir: &str) -> Result<CalmFolder, OpenFault>
        ensures call { IsOpenerCall (Import dir.now) result (calm_opener_view self.old) (calm_opener_view self.new) }
        ensures folder { IfOk result (λ folder. FolderIsGiven (calm_opener_view self.old).tells (calm_opener_view self.old).import (calm_folder_view folder)) }
        ensures array { HoldsArray (calm_opener_view self.old) (calm_opener_view self.new) }
        ensures kept { OnErr result (HoldsSame (calm_opener_view self.old) (calm_opener_view self.new)) }
        ensures failed { OnErr result (has_failed result ≡ true) }
        ensures given { OnOk result (self.new.imported ≡ None) }
        ensures empty { self.old.imported ≡ None → is_err result ≡ true }
        ensures calm { OnErr result (self.old.imported ≡ None) }
        ensures spent { self.old.held ≡ None → self.new.held ≡ None }
        ensures imported { self.old.imported ≡ None → self.new.imported ≡ None }
    {
        let _ = dir;
        match self.imported.take() {
            Some(folder) => Ok(folder),
            None => {
                fail(&mut self.faults);
                Err(OpenFault::Failed)
            }
        }
    }
}

// Whether this is held, with as many folders, levels and copies as there are places.
fn fits(held: &Option<Opened<CalmFolder, CalmVault>>, places: &Places) -> bool
    ensures { IsTrue result ↔ Fits calm_vault_view places.now held.now }
{
    match held {
        Some(opened) => {
            let levels = opened.vault.levels();
            are_so_many(places, opened.folders.len(), levels, opened.vault.copies())
        }
        None => false,
    }
}
