// A folder in memory with a gate.
use crate::MemFolder;
use crate::gate::Gate;
use disk_model::{Failed, FileFault, FileInfo, Folder, ListFault, Meta, Path, Stamp};
use std::alloc::Global;
use std::sync::atomic::AtomicBool;

/// A folder that waits at one of its calls, and else is its base.
#[derive(Drop)]
pub struct GateFolder<'a> {
    base: MemFolder,
    gate: Gate<'a>,
}

impl<'a> GateFolder<'a> {
    ghost use Rattle.std.specs.Prelude.{◌≡◌, false};
    ghost use Rattle.disk_memory.specs.Folder.{folder_view};

    /// A gate at the call of this number among those made of it, from 1; 0 means none. `mine` is set then, and `other` waited for.
    pub fn new(
        base: MemFolder,
        call: u64,
        mine: &'a AtomicBool,
        other: &'a AtomicBool,
    ) -> GateFolder<'a>
        ensures base { folder_view result.base ≡ folder_view base }
        ensures saw { result.gate.saw ≡ false }
    {
        GateFolder {
            base,
            gate: Gate::new(call, mine, other),
        }
    }

    /// A gate that looks at the other flag so often at most, and not 200,000,000 times.
    pub fn with_turns(self, turns: u64) -> GateFolder<'a>
        ensures base { folder_view result.base ≡ folder_view self.entry.base }
        ensures saw { result.gate.saw ≡ self.entry.gate.saw }
    {
        let mut gated = self;
        gated.gate.turns = turns;
        gated
    }

    /// Whether the gated call saw the other gate's flag.
    pub fn saw(&self) -> bool
        ensures { result ≡ self.now.gate.saw }
    {
        self.gate.saw
    }
}

impl<'a> Folder for GateFolder<'a> {
    ghost use Rattle.disk_memory.specs.Folder.{folder_view, folder_well_formed};

    ghost view = { λ g. folder_view g.base };

    ghost well_formed = { λ g. folder_well_formed g.base };

    fn faults(&self) -> u64 {
        self.base.faults()
    }

    fn list(&mut self, alloc: Global) -> Result<Vec<FileInfo>, ListFault> {
        self.gate.pass();
        self.base.list(alloc)
    }

    fn look(&mut self, path: &Path, lost: bool) -> Result<Meta, FileFault> {
        self.gate.pass();
        self.base.look(path, lost)
    }

    fn read_at(
        &mut self,
        path: &Path,
        lost: bool,
        at: u64,
        out: &mut [u8],
    ) -> Result<usize, FileFault> {
        self.gate.pass();
        self.base.read_at(path, lost, at, out)
    }

    fn make(&mut self, path: &Path) -> Result<(), Failed> {
        self.gate.pass();
        self.base.make(path)
    }

    fn write_at(&mut self, path: &Path, at: u64, bytes: &[u8]) -> Result<(), FileFault> {
        self.gate.pass();
        self.base.write_at(path, at, bytes)
    }

    fn set_size(&mut self, path: &Path, size: u64) -> Result<(), FileFault> {
        self.gate.pass();
        self.base.set_size(path, size)
    }

    fn set_stamp(&mut self, path: &Path, stamp: Stamp) -> Result<bool, FileFault> {
        self.gate.pass();
        self.base.set_stamp(path, stamp)
    }

    fn rename(&mut self, path: &Path, lost: bool) -> Result<(), FileFault> {
        self.gate.pass();
        self.base.rename(path, lost)
    }
}
