// A vault in memory with a gate.
use crate::MemVault;
use crate::gate::Gate;
use disk_model::{Failed, Vault};
use std::sync::atomic::AtomicBool;

/// A vault that waits at one of its calls, and else is its base.
#[derive(Drop)]
pub struct GateVault<'a> {
    base: MemVault,
    gate: Gate<'a>,
}

impl<'a> GateVault<'a> {
    ghost use Rattle.std.specs.Prelude.{◌≡◌, false};
    ghost use Rattle.disk_memory.specs.Vault.{vault_value};

    /// A gate at the call of this number among those made of it, from 1; 0 means none. `mine` is set then, and `other` waited for.
    pub fn new(
        base: MemVault,
        call: u64,
        mine: &'a AtomicBool,
        other: &'a AtomicBool,
    ) -> GateVault<'a>
        ensures base { vault_value result.base ≡ vault_value base }
        ensures saw { result.gate.saw ≡ false }
    {
        GateVault {
            base,
            gate: Gate::new(call, mine, other),
        }
    }

    /// A gate that looks at the other flag so often at most, and not 200,000,000 times.
    pub fn with_turns(self, turns: u64) -> GateVault<'a>
        ensures base { vault_value result.base ≡ vault_value self.entry.base }
        ensures saw { result.gate.saw ≡ self.entry.gate.saw }
    {
        let mut gated = self;
        gated.gate.turns = turns;
        gated
    }

    /// Whether the gated call saw the other gate's flag.
    pub fn saw(&self) -> bool
        ensures { result ≡ self.now.gate.saw }
    {
        self.gate.saw
    }
}

impl<'a> Vault for GateVault<'a> {
    type Ahead = <MemVault as Vault>::Ahead;

    ghost use Rattle.disk_model.specs.Vault.{IsUntouched};
    ghost use Rattle.disk_memory.specs.Vault.{vault_view};
    ghost use Rattle.disk_memory.specs.VaultLaws.{vault_well_formed};

    ghost view = { λ g. vault_view g.base };

    ghost well_formed = { λ g. vault_well_formed g.base };

    fn faults(&self) -> u64 {
        self.base.faults()
    }

    fn levels(&self) -> u32 {
        self.base.levels()
    }

    fn copies(&self) -> u32 {
        self.base.copies()
    }

    fn parity_len(&mut self, level: u32) -> Result<u64, Failed> {
        self.gate.pass();
        self.base.parity_len(level)
    }

    fn parity_read(&mut self, level: u32, at: u64, out: &mut [u8]) -> Result<usize, Failed> {
        self.gate.pass();
        self.base.parity_read(level, at, out)
    }

    // No call of the vault: the gate stays as it is.
    fn plan_ahead(&mut self, level: u32, at: u64, len: usize) {
        self.base.plan_ahead(level, at, len)
    }

    fn take_ahead(&mut self) -> Option<Vec<Self::Ahead>> {
        self.base.take_ahead()
    }

    fn put_ahead(&mut self, ahead: Vec<Self::Ahead>)
        ensures { IsUntouched (vault_view self.old.base) (vault_view self.new.base) }
    {
        self.base.put_ahead(ahead)
    }

    fn parity_write(&mut self, level: u32, at: u64, bytes: &[u8]) -> Result<(), Failed> {
        self.gate.pass();
        self.base.parity_write(level, at, bytes)
    }

    fn parity_set_len(&mut self, level: u32, len: u64) -> Result<(), Failed> {
        self.gate.pass();
        self.base.parity_set_len(level, len)
    }

    fn parity_sync(&mut self, level: u32) -> Result<(), Failed> {
        self.gate.pass();
        self.base.parity_sync(level)
    }

    fn content_size(&mut self, copy: u32) -> Result<Option<u64>, Failed> {
        self.gate.pass();
        self.base.content_size(copy)
    }

    fn content_read(&mut self, copy: u32, at: u64, out: &mut [u8]) -> Result<usize, Failed> {
        self.gate.pass();
        self.base.content_read(copy, at, out)
    }

    fn draft_begin(&mut self, copy: u32) -> Result<(), Failed> {
        self.gate.pass();
        self.base.draft_begin(copy)
    }

    fn draft_append(&mut self, copy: u32, bytes: &[u8]) -> Result<(), Failed> {
        self.gate.pass();
        self.base.draft_append(copy, bytes)
    }

    fn draft_seal(&mut self, copy: u32) -> Result<(), Failed> {
        self.gate.pass();
        self.base.draft_seal(copy)
    }

    fn publish(&mut self, copy: u32) -> Result<(), Failed> {
        self.gate.pass();
        self.base.publish(copy)
    }
}
