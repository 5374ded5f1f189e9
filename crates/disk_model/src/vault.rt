// All parity files and content copies as one object, so that one moment means the same for all of them.
ghost use Rattle.std.specs.Prelude.{◌≡◌, ◌≢◌, ◌+◌, ◌^◌, ◌<◌, ◌≤◌, ◌++◌, [], length, take, IfOk, OnOk, OnErr, IsTrue, unwrap_or};
ghost use Rattle.std.specs.Option.{option_map};
ghost use Rattle.disk_model.specs.Answer.{size_answer};
ghost use Rattle.disk_model.specs.Bytes.{put, resized, read_from};
ghost use Rattle.disk_model.specs.Files.{parity_of, content_of, TearsParity, StretchesParity, MayPublish, Stays};
ghost use Rattle.disk_model.specs.Vault.{VaultView, ParityLen, ParityRead, ParityWrite, ParitySetLen, ParitySync, ContentSize, ContentRead, DraftBegin, DraftAppend, DraftSeal, Publish};
ghost use Rattle.disk_model.specs.Vault.{copies_of, draft_of, staged_of, is_sealed, IsCall, IsReading, IsUntouched, ChangesBy, Reads, Holds, DraftIs, DraftsStay, IsWellFormed};

use crate::{Ahead, Answer, Draft, Failed};

/// Parity files, numbered by level, and content copies. A call answers `Failed` only where `faults` rose in it. All
/// calls but `parity_len`, `parity_read`, `content_size` and `content_read` write: these four leave the view's count of
/// writing calls, and where that is exact, each of the others raises it.
/// Where a vault tells what a stop may leave, `changes` says it of each moment within the call and of its end.
pub trait Vault: Send {
    /// What reads parity ahead, a part of it in each.
    type Ahead: Ahead;

    ghost view: { Self → VaultView };

    ghost well_formed: { (vault : Self) → IsWellFormed (view vault) };

    /// A count of faults. It never falls, and stays at the greatest u64.
    fn faults(&self) -> u64
        ensures { result ≡ (view self.now).faults };

    fn levels(&self) -> u32
        ensures { result ≡ (view self.now).levels };

    fn copies(&self) -> u32
        ensures { result ≡ copies_of (view self.now) };

    /// The number of a parity file's bytes, 0 where there is no file.
    fn parity_len(&mut self, level: u32) -> Result<u64, Failed>
        requires { level < (view self.old).levels }
        ensures call { IsReading (ParityLen level) Answer.Bytes result (view self.old) (view self.new) }
        ensures found { IsTrue (view self.old).tells → IfOk result (λ n. n ≡ length (parity_of (view self.old).files level)) };

    /// Fills a front of `out`: as many bytes as the parity file has from there.
    fn parity_read(&mut self, level: u32, at: u64, out: &mut [u8]) -> Result<usize, Failed>
        requires { level < (view self.old).levels }
        ensures call { IsReading (ParityRead level at (length out.old)) Answer.Bytes result (view self.old) (view self.new) }
        ensures bound { IfOk result (λ n. n ≤ length out.new) }
        ensures found { IsTrue (view self.old).tells → IfOk result (λ n. take n out.new ≡ read_from (parity_of (view self.old).files level) at (length out.old)) };

    /// Says which bytes of a level are read next, for what reads them ahead. No call answers otherwise for it.
    fn plan_ahead(&mut self, level: u32, at: u64, len: usize)
        requires { level < (view self.old).levels }
        ensures { IsUntouched (view self.old) (view self.new) };

    /// Hands out what reads ahead, so that each may read in a thread of its own; `None` where nothing does.
    fn take_ahead(&mut self) -> Option<Vec<Self::Ahead>>
        ensures { IsUntouched (view self.old) (view self.new) };

    /// Takes back what reads ahead.
    fn put_ahead(&mut self, ahead: Vec<Self::Ahead>)
        ensures { IsUntouched (view self.old) (view self.new) };

    /// Writes all bytes, with zeros before them where the file was shorter.
    fn parity_write(&mut self, level: u32, at: u64, bytes: &[u8]) -> Result<(), Failed>
        requires level { level < (view self.old).levels }
        requires room { at + length bytes.now < 2 ^ 64 }
        ensures call { IsCall (ParityWrite level at bytes.now) result (view self.old) (view self.new) }
        ensures written { OnOk result (Reads (λ files. parity_of files level ≡ put (parity_of (view self.old).files level) at bytes.now) (view self.new)) }
        ensures changes { ChangesBy (TearsParity level at (length bytes.now)) (view self.old) (view self.new) }
        ensures drafts { DraftsStay (view self.old) (view self.new) };

    /// Cuts the parity file, or extends it with zeros.
    fn parity_set_len(&mut self, level: u32, len: u64) -> Result<(), Failed>
        requires { level < (view self.old).levels }
        ensures call { IsCall (ParitySetLen level len) result (view self.old) (view self.new) }
        ensures written { OnOk result (Reads (λ files. parity_of files level ≡ resized (parity_of (view self.old).files level) len) (view self.new)) }
        ensures changes { ChangesBy (StretchesParity level len) (view self.old) (view self.new) }
        ensures drafts { DraftsStay (view self.old) (view self.new) };

    /// After it, a stop leaves of this level what a read gives.
    fn parity_sync(&mut self, level: u32) -> Result<(), Failed>
        requires { level < (view self.old).levels }
        ensures call { IsCall (ParitySync level) result (view self.old) (view self.new) }
        ensures changes { ChangesBy Stays (view self.old) (view self.new) }
        ensures drafts { DraftsStay (view self.old) (view self.new) }
        ensures synced { OnOk result (Holds (λ files. parity_of files level ≡ parity_of (view self.old).files level) (view self.new)) };

    /// The number of a copy's bytes, `None` exactly where there is no file.
    fn content_size(&mut self, copy: u32) -> Result<Option<u64>, Failed>
        requires { copy < copies_of (view self.old) }
        ensures call { IsReading (ContentSize copy) size_answer result (view self.old) (view self.new) }
        ensures found { IsTrue (view self.old).tells → IfOk result (λ n. n ≡ option_map length (content_of (view self.old).files copy)) };

    /// Fills a front of `out`: as many bytes as the copy has from there, none where there is no file.
    fn content_read(&mut self, copy: u32, at: u64, out: &mut [u8]) -> Result<usize, Failed>
        requires { copy < copies_of (view self.old) }
        ensures call { IsReading (ContentRead copy at (length out.old)) Answer.Bytes result (view self.old) (view self.new) }
        ensures bound { IfOk result (λ n. n ≤ length out.new) }
        ensures found { IsTrue (view self.old).tells → IfOk result (λ n. take n out.new ≡ read_from (unwrap_or (content_of (view self.old).files copy) []) at (length out.old)) };

    /// Begins an empty open draft of a copy, in place of any older one. Where it fails there is none.
    fn draft_begin(&mut self, copy: u32) -> Result<(), Failed>
        requires { copy < copies_of (view self.old) }
        ensures call { IsCall (DraftBegin copy) result (view self.old) (view self.new) }
        ensures begun { OnOk result (DraftIs copy Draft.Open [] (view self.old) (view self.new)) }
        ensures gone { OnErr result (DraftIs copy Draft.Absent [] (view self.old) (view self.new)) }
        ensures changes { ChangesBy Stays (view self.old) (view self.new) };

    /// Appends bytes to an open draft. Where it fails there is none.
    fn draft_append(&mut self, copy: u32, bytes: &[u8]) -> Result<(), Failed>
        requires copy { copy < copies_of (view self.old) }
        requires draft { draft_of (view self.old) copy ≡ Draft.Open }
        ensures call { IsCall (DraftAppend copy bytes.now) result (view self.old) (view self.new) }
        ensures appended { OnOk result (DraftIs copy Draft.Open (staged_of (view self.old) copy ++ bytes.now) (view self.old) (view self.new)) }
        ensures gone { OnErr result (DraftIs copy Draft.Absent [] (view self.old) (view self.new)) }
        ensures changes { ChangesBy Stays (view self.old) (view self.new) };

    /// Seals an open draft: its bytes are all there, and stay. Where it fails there is none.
    fn draft_seal(&mut self, copy: u32) -> Result<(), Failed>
        requires copy { copy < copies_of (view self.old) }
        requires draft { draft_of (view self.old) copy ≡ Draft.Open }
        ensures call { IsCall (DraftSeal copy) result (view self.old) (view self.new) }
        ensures sealed { OnOk result (DraftIs copy Draft.Sealed (staged_of (view self.old) copy) (view self.old) (view self.new)) }
        ensures gone { OnErr result (DraftIs copy Draft.Absent [] (view self.old) (view self.new)) }
        ensures changes { ChangesBy Stays (view self.old) (view self.new) };

    /// Puts the draft in the place of the copy. There is no draft afterwards.
    fn publish(&mut self, copy: u32) -> Result<(), Failed>
        requires copy { copy < copies_of (view self.old) }
        requires draft { draft_of (view self.old) copy ≢ Draft.Absent }
        ensures call { IsCall (Publish copy) result (view self.old) (view self.new) }
        ensures gone { DraftIs copy Draft.Absent [] (view self.old) (view self.new) }
        ensures published { OnOk result (draft_of (view self.old) copy ≡ Draft.Sealed →
            Holds (λ files. content_of files copy ≡ Some (staged_of (view self.old) copy)) (view self.new)) }
        ensures changes { ChangesBy (MayPublish copy (is_sealed (draft_of (view self.old) copy)) (staged_of (view self.old) copy)) (view self.old) (view self.new) };
}
