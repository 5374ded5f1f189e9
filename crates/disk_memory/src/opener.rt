// An opener in memory.
ghost use Rattle.std.specs.Prelude.{◌≡◌, ◌↔◌, take, false, IsTrue, IfSome, IfOk, OnErr};
ghost use Rattle.std.proofs.Props.{props};
ghost use Rattle.disk_memory.specs.Given.{AreSoMany, CanGive};

use crate::calls::{OpenerEntry, config_entry, import_entry, open_entry};
use crate::past::{Past, begin};
use crate::schedule::Schedule;
use disk_model::{Answer, Folder, NoMemory, OpenFault, Opened, Opener, Places, Vault};
use std::alloc::Global;

/// Gives its folders and its vault once, and once the folder to import that was set.
#[derive(Drop)]
pub struct MemOpener<F: Folder, V: Vault> {
    alloc: Global,
    schedule: Schedule,
    past: Past<OpenerEntry>,
    /// What its configuration file holds.
    pub config: Vec<u8>,
    /// What it has still to give; nothing after an `open` that succeeded.
    pub held: Option<Opened<F, V>>,
    /// The folder that it has still to give to be imported; nothing after an `import` that succeeded.
    pub imported: Option<F>,
    ghost can_give: { IfSome held (λ o. CanGive F.view o.folders.items (V.view o.vault)) } by { Prim.hlevel props },
    ghost import_is_open: { IfSome imported (λ folder. (F.view folder).closed ≡ false) } by { Prim.hlevel props },
}

impl<F: Folder, V: Vault> MemOpener<F, V> {
    ghost use Rattle.std.specs.Prelude.{◌≡◌, [], ◌∷◌, ◌++◌, map, None, OnOk, OnErr};
    ghost use Rattle.disk_memory.specs.Schedule.{fresh_plan, plan_of};
    ghost use Rattle.disk_memory.specs.Opener.{IsFreshOpener, SameOpener};

    /// An opener that holds these, and no folder to import. No folder is closed, and the vault has no draft and nothing unsynced.
    pub fn new(alloc: Global, config: Vec<u8>, folders: Vec<F>, vault: V) -> Self
        requires { CanGive F.view folders.items (V.view vault) }
        ensures view { IsFreshOpener config.items (map F.view folders.items) (V.view vault) (⟦<MemOpener<F, V> as Opener>⟧.view result) }
        ensures config { result.config.items ≡ config.items }
        ensures held { result.held ≡ Some (record { folders = folders; vault = vault }) }
        ensures imported { result.imported ≡ None }
        ensures plan { plan_of result.schedule ≡ fresh_plan }
    {
        MemOpener {
            alloc,
            schedule: Schedule::new(alloc),
            past: Past::new(alloc),
            config,
            held: Some(Opened { folders, vault }),
            imported: None,
        }
    }

    /// Adds a number to the list of failing calls.
    pub fn fail_at(&mut self, call: u64) -> Result<(), NoMemory>
        ensures same { SameOpener (⟦<MemOpener<F, V> as Opener>⟧.view self.old) (⟦<MemOpener<F, V> as Opener>⟧.view self.new) }
        ensures added { OnOk result (plan_of self.new.schedule ≡ record (plan_of self.old.schedule) { failing = (plan_of self.old.schedule).failing ++ call ∷ [] }) }
        ensures err { OnErr result (plan_of self.new.schedule ≡ plan_of self.old.schedule) }
        ensures spent { self.old.held ≡ None → self.new.held ≡ None }
        ensures imported { self.old.imported ≡ None → self.new.imported ≡ None }
    {
        self.schedule.fail_at(call)
    }

    /// Every call after so many fails; the greatest u64 means none.
    pub fn stop_after(&mut self, calls: u64)
        ensures same { SameOpener (⟦<MemOpener<F, V> as Opener>⟧.view self.old) (⟦<MemOpener<F, V> as Opener>⟧.view self.new) }
        ensures plan { plan_of self.new.schedule ≡ record (plan_of self.old.schedule) { stop = calls } }
        ensures spent { self.old.held ≡ None → self.new.held ≡ None }
        ensures imported { self.old.imported ≡ None → self.new.imported ≡ None }
    {
        self.schedule.stop_after(calls);
    }
}

impl<F: Folder + Drop, V: Vault> MemOpener<F, V> {
    ghost use Rattle.std.specs.Prelude.{◌≡◌, Some};
    ghost use Rattle.disk_memory.specs.Schedule.{plan_of};
    ghost use Rattle.disk_memory.specs.Opener.{SameOpener};

    /// Sets the folder that `import` gives once, in place of one that was set before. It isn't closed.
    pub fn set_import(&mut self, folder: F)
        requires { (F.view folder).closed ≡ false }
        ensures same { SameOpener (record (⟦<MemOpener<F, V> as Opener>⟧.view self.old) { import = F.view folder }) (⟦<MemOpener<F, V> as Opener>⟧.view self.new) }
        ensures imported { self.new.imported ≡ Some folder }
        ensures held { self.new.held ≡ self.old.held }
        ensures plan { plan_of self.new.schedule ≡ plan_of self.old.schedule }
    {
        self.imported = Some(folder);
    }
}

impl<F: Folder, V: Vault> Opener for MemOpener<F, V> {
    type Folder = F;

    type Vault = V;

    ghost use Rattle.std.specs.Prelude.{◌≡◌, ◌<◌, ℕ, map, length, take, get_or, vec_len, true, false, IsTrue, IfOk, OnOk, OnErr, None, is_err};
    ghost use Rattle.disk_model.specs.Folder.{quiet_folder};
    ghost use Rattle.disk_model.specs.Opener.{Config, Open, Import, IsOpenerCall, HoldsSame, HoldsArray, HoldsImport, FolderIsGiven, VaultIsGiven, folder_held, has_failed};
    ghost use Rattle.disk_memory.specs.Schedule.{ObeysExactly, ObeysUnless, plan_of};
    ghost use Rattle.disk_memory.specs.Calls.{opener_calls};
    ghost use Rattle.disk_memory.specs.Given.{Fits};
    ghost use Rattle.disk_memory.specs.Opener.{opener_view, folders_left, vault_left, import_left};

    ghost view = { λ s. opener_view s.schedule.faults s.config.items
        (folders_left (λ o. map F.view o.folders.items) s.held)
        (vault_left (λ o. V.view o.vault) s.held)
        (import_left F.view s.imported)
        s.past.lost (opener_calls s.past.made.items) };

    fn faults(&self) -> u64 {
        self.schedule.faults
    }

    fn config(&mut self, alloc: Global, name: &str) -> Result<Vec<u8>, OpenFault>
        ensures call { IsOpenerCall (Config name.now) result (⟦<MemOpener<F, V> as Opener>⟧.view self.old) (⟦<MemOpener<F, V> as Opener>⟧.view self.new) }
        ensures same { HoldsSame (⟦<MemOpener<F, V> as Opener>⟧.view self.old) (⟦<MemOpener<F, V> as Opener>⟧.view self.new) }
        ensures found { IsTrue (⟦<MemOpener<F, V> as Opener>⟧.view self.old).tells → IfOk result (λ bytes. bytes.items ≡ take 1048577 (⟦<MemOpener<F, V> as Opener>⟧.view self.old).config) }
        ensures scheduled { ObeysExactly (has_failed result) (plan_of self.old.schedule) (plan_of self.new.schedule) (⟦<MemOpener<F, V> as Opener>⟧.view self.old).tells_calls (⟦<MemOpener<F, V> as Opener>⟧.view self.new).tells_calls }
        ensures spent { self.old.held ≡ None → self.new.held ≡ None }
        ensures imported { self.old.imported ≡ None → self.new.imported ≡ None }
    {
        let entry = config_entry(alloc, name);
        if !begin(&mut self.schedule, &mut self.past, entry) {
            self.schedule.fail();
            return Err(OpenFault::Failed);
        }
        self.past.end(Answer::Done);
        front_of(alloc, self.config.as_slice())
    }

    fn open(&mut self, alloc: Global, places: &Places) -> Result<Opened<F, V>, OpenFault>
        ensures call { IsOpenerCall (Open places.now.dirs.items places.now.parities.items places.now.contents.items) result (⟦<MemOpener<F, V> as Opener>⟧.view self.old) (⟦<MemOpener<F, V> as Opener>⟧.view self.new) }
        ensures columns { IfOk result (λ opened. vec_len opened.folders ≡ vec_len places.now.dirs) }
        ensures just { IsTrue (⟦<MemOpener<F, V> as Opener>⟧.view self.old).tells → IfOk result (λ opened. vec_len opened.folders ≡ length (⟦<MemOpener<F, V> as Opener>⟧.view self.old).folders) }
        ensures folders { IfOk result (λ opened. (column : ℕ) → column < vec_len opened.folders →
            FolderIsGiven (⟦<MemOpener<F, V> as Opener>⟧.view self.old).tells (folder_held (⟦<MemOpener<F, V> as Opener>⟧.view self.old) column) (get_or (map F.view opened.folders.items) column (quiet_folder 0 false))) }
        ensures vault { IfOk result (λ opened.
            VaultIsGiven (⟦<MemOpener<F, V> as Opener>⟧.view self.old).tells (vec_len places.now.parities) (vec_len places.now.contents) (⟦<MemOpener<F, V> as Opener>⟧.view self.old).vault (V.view opened.vault)) }
        ensures import { HoldsImport (⟦<MemOpener<F, V> as Opener>⟧.view self.old) (⟦<MemOpener<F, V> as Opener>⟧.view self.new) }
        ensures kept { OnErr result (HoldsSame (⟦<MemOpener<F, V> as Opener>⟧.view self.old) (⟦<MemOpener<F, V> as Opener>⟧.view self.new)) }
        ensures failed { OnErr result (has_failed result ≡ true) }
        ensures given { OnOk result (self.new.held ≡ None) }
        ensures empty { self.old.held ≡ None → is_err result ≡ true }
        ensures scheduled { ObeysUnless (¬ (Fits V.view places.now self.old.held)) (has_failed result) (plan_of self.old.schedule) (plan_of self.new.schedule) (⟦<MemOpener<F, V> as Opener>⟧.view self.old).tells_calls (⟦<MemOpener<F, V> as Opener>⟧.view self.new).tells_calls }
        ensures spent { self.old.held ≡ None → self.new.held ≡ None }
        ensures imported { self.old.imported ≡ None → self.new.imported ≡ None }
    {
        let entry = open_entry(alloc, places);
        let may = begin(&mut self.schedule, &mut self.past, entry);
        let fits = match &self.held {
            Some(held) => {
                let levels = held.vault.levels();
                are_so_many(places, held.folders.len(), levels, held.vault.copies())
            }
            None => false,
        };
        if !may || !fits {
            self.schedule.fail();
            return Err(OpenFault::Failed);
        }
        match self.held.take() {
            Some(opened) => {
                self.past.end(Answer::Done);
                Ok(opened)
            }
            None => {
                self.schedule.fail();
                Err(OpenFault::Failed)
            }
        }
    }

    fn import(&mut self, dir: &str) -> Result<F, OpenFault>
        ensures call { IsOpenerCall (Import dir.now) result (⟦<MemOpener<F, V> as Opener>⟧.view self.old) (⟦<MemOpener<F, V> as Opener>⟧.view self.new) }
        ensures folder { IfOk result (λ folder. FolderIsGiven (⟦<MemOpener<F, V> as Opener>⟧.view self.old).tells (⟦<MemOpener<F, V> as Opener>⟧.view self.old).import (F.view folder)) }
        ensures array { HoldsArray (⟦<MemOpener<F, V> as Opener>⟧.view self.old) (⟦<MemOpener<F, V> as Opener>⟧.view self.new) }
        ensures kept { OnErr result (HoldsSame (⟦<MemOpener<F, V> as Opener>⟧.view self.old) (⟦<MemOpener<F, V> as Opener>⟧.view self.new)) }
        ensures failed { OnErr result (has_failed result ≡ true) }
        ensures given { OnOk result (self.new.imported ≡ None) }
        ensures empty { self.old.imported ≡ None → is_err result ≡ true }
        ensures scheduled { ObeysUnless (self.old.imported ≡ None) (has_failed result) (plan_of self.old.schedule) (plan_of self.new.schedule) (⟦<MemOpener<F, V> as Opener>⟧.view self.old).tells_calls (⟦<MemOpener<F, V> as Opener>⟧.view self.new).tells_calls }
        ensures spent { self.old.held ≡ None → self.new.held ≡ None }
        ensures imported { self.old.imported ≡ None → self.new.imported ≡ None }
    {
        let entry = import_entry(self.alloc, dir);
        if !begin(&mut self.schedule, &mut self.past, entry) {
            self.schedule.fail();
            return Err(OpenFault::Failed);
        }
        match self.imported.take() {
            Some(folder) => {
                self.past.end(Answer::Done);
                Ok(folder)
            }
            None => {
                self.schedule.fail();
                Err(OpenFault::Failed)
            }
        }
    }
}

// Whether there are so many places of each kind.
pub fn are_so_many(places: &Places, folders: usize, levels: u32, copies: u32) -> bool
    ensures { IsTrue result ↔ AreSoMany places.now folders levels copies }
{
    folders == places.dirs.len()
        && levels as usize == places.parities.len()
        && copies as usize == places.contents.len()
}

const LONGEST_CONFIG: usize = 1_048_577;

// As many of the configuration's bytes as are given.
#[tactic(auto, using(std::proofs::lemmas::List::take_min))]
pub fn front_of(alloc: Global, bytes: &[u8]) -> Result<Vec<u8>, OpenFault>
    ensures copied { IfOk result (λ front. front.items ≡ take LONGEST_CONFIG bytes.now) }
    ensures memory { OnErr result (result ≡ Err OpenFault.Memory) }
{
    let (front, _) = bytes.split_at(LONGEST_CONFIG.min(bytes.len()));
    match Vec::from_slice(alloc, front) {
        Ok(front) => Ok(front),
        Err(_) => Err(OpenFault::Memory),
    }
}
