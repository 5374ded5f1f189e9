// The parity calls of a vault, from which those on a level of several parts are made.
ghost use Rattle.std.specs.Prelude.{◌≡◌, ◌+◌, ◌^◌, ◌<◌, ◌≤◌, length, take, IfOk, OnOk, IsTrue};
ghost use Rattle.disk_model.specs.Bytes.{put, resized, read_from};
ghost use Rattle.disk_model.specs.Files.{parity_of, TearsParity, StretchesParity, Stays};
ghost use Rattle.disk_model.specs.Vault.{VaultView, ParityLen, ParityRead, ParityWrite, ParitySetLen, ParitySync};
ghost use Rattle.disk_model.specs.Vault.{IsCall, IsReading, IsUntouched, ChangesBy, Reads, Holds, DraftsStay, IsWellFormed};

use disk_model::{Answer, Failed, Vault};

/// The calls of `Vault` on parity files, each with its clauses. A method of an `impl` hands a bound on only where that
/// isn't `Send`, and `Vault` is.
pub trait Base {
    ghost view: { Self → VaultView };

    ghost well_formed: { (base : Self) → IsWellFormed (view base) };

    fn part_len(&mut self, level: u32) -> Result<u64, Failed>
        requires { level < (view self.old).levels }
        ensures call { IsReading (ParityLen level) Answer.Bytes result (view self.old) (view self.new) }
        ensures found { IsTrue (view self.old).tells →
            IfOk result (λ n. n ≡ length (parity_of (view self.old).files level)) };

    fn part_read(&mut self, level: u32, at: u64, out: &mut [u8]) -> Result<usize, Failed>
        requires { level < (view self.old).levels }
        ensures call { IsReading (ParityRead level at (length out.old)) Answer.Bytes result
            (view self.old) (view self.new) }
        ensures bound { IfOk result (λ n. n ≤ length out.new) }
        ensures found { IsTrue (view self.old).tells → IfOk result (λ n.
            take n out.new ≡ read_from (parity_of (view self.old).files level) at (length out.old)) };

    fn part_plan(&mut self, level: u32, at: u64, len: usize)
        requires { level < (view self.old).levels }
        ensures { IsUntouched (view self.old) (view self.new) };

    fn part_write(&mut self, level: u32, at: u64, bytes: &[u8]) -> Result<(), Failed>
        requires level { level < (view self.old).levels }
        requires room { at + length bytes.now < 2 ^ 64 }
        ensures call { IsCall (ParityWrite level at bytes.now) result (view self.old) (view self.new) }
        ensures written { OnOk result (Reads
            (λ files. parity_of files level ≡ put (parity_of (view self.old).files level) at bytes.now)
            (view self.new)) }
        ensures changes { ChangesBy (TearsParity level at (length bytes.now)) (view self.old) (view self.new) }
        ensures drafts { DraftsStay (view self.old) (view self.new) };

    fn part_set_len(&mut self, level: u32, len: u64) -> Result<(), Failed>
        requires { level < (view self.old).levels }
        ensures call { IsCall (ParitySetLen level len) result (view self.old) (view self.new) }
        ensures written { OnOk result (Reads
            (λ files. parity_of files level ≡ resized (parity_of (view self.old).files level) len)
            (view self.new)) }
        ensures changes { ChangesBy (StretchesParity level len) (view self.old) (view self.new) }
        ensures drafts { DraftsStay (view self.old) (view self.new) };

    fn part_sync(&mut self, level: u32) -> Result<(), Failed>
        requires { level < (view self.old).levels }
        ensures call { IsCall (ParitySync level) result (view self.old) (view self.new) }
        ensures changes { ChangesBy Stays (view self.old) (view self.new) }
        ensures drafts { DraftsStay (view self.old) (view self.new) }
        ensures synced { OnOk result (Holds
            (λ files. parity_of files level ≡ parity_of (view self.old).files level) (view self.new)) };
}

impl<V: Vault> Base for V {
    ghost view = { λ v. V.view v };

    ghost well_formed = { λ v. V.well_formed v };

    fn part_len(&mut self, level: u32) -> Result<u64, Failed> {
        self.parity_len(level)
    }

    fn part_read(&mut self, level: u32, at: u64, out: &mut [u8]) -> Result<usize, Failed> {
        self.parity_read(level, at, out)
    }

    fn part_plan(&mut self, level: u32, at: u64, len: usize) {
        self.plan_ahead(level, at, len)
    }

    fn part_write(&mut self, level: u32, at: u64, bytes: &[u8]) -> Result<(), Failed> {
        self.parity_write(level, at, bytes)
    }

    fn part_set_len(&mut self, level: u32, len: u64) -> Result<(), Failed> {
        self.parity_set_len(level, len)
    }

    fn part_sync(&mut self, level: u32) -> Result<(), Failed> {
        self.parity_sync(level)
    }
}
