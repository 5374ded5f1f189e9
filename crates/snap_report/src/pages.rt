// Text on a sink, by way of a page.
ghost use Rattle.std.specs.Prelude.{◌≡◌, [], false, IsTrue};
ghost use Rattle.snap_report.specs.Telling.{Tells, Settled, between};
ghost use Rattle.snap_report.specs.State.{state_of, Puts};

use arrayvec::ArrayVec;
use disk_model::Sink;

/// Text on its way to a sink. It is held in a page of 4,096 bytes, which is handed on where it is full.
/// After a write that failed nothing more is written.
#[derive(Drop)]
pub struct Lines<'a, W: Sink> {
    out: &'a mut W,
    page: ArrayVec<u8, 4096>,
    failed: bool,
}

impl<'a, W: Sink> Lines<'a, W> {
    pub fn over(out: &'a mut W) -> Lines<'a, W>
        ensures same_reference { result.out.ghost_name ≡ out.entry.ghost_name }
        ensures state { state_of W.view result ≡ between false (W.view out.old) }
    {
        Lines {
            out,
            page: ArrayVec::new(),
            failed: false,
        }
    }

    /// Whether a write failed.
    pub fn failed(&self) -> bool
        ensures { result ≡ (state_of W.view self.now).failed }
    {
        self.failed
    }

    /// Hands on what is held.
    pub fn hand_on(&mut self)
        ensures puts { Puts W.view [] self.old self.new }
        ensures settled { Settled (state_of W.view self.new) }
    {
        if !self.failed && !self.page.is_empty() {
            self.failed = self.out.write(self.page.as_slice()).is_err();
            self.page.clear();
        }
    }

    // One write of a text that the page has no room for.
    fn write(&mut self, bytes: &[u8])
        requires { Settled (state_of W.view self.old) }
        ensures puts { Puts W.view bytes.now self.old self.new }
        ensures settled { Settled (state_of W.view self.new) }
    {
        if !self.failed {
            self.failed = self.out.write(bytes).is_err();
        }
    }

    // Whether a text needs no write: after a failed one, and where the page has room, which then holds it.
    fn hold(&mut self, bytes: &[u8]) -> bool
        ensures same_reference { self.new.out.ghost_name ≡ self.old.out.ghost_name }
        ensures tells { IsTrue result → Tells bytes.now (state_of W.view self.old) (state_of W.view self.new) }
        ensures full { result ≡ false → state_of W.view self.new ≡ state_of W.view self.old }
    {
        self.failed || self.page.try_extend_from_slice(bytes).is_ok()
    }

    /// Tells a text.
    pub fn put(&mut self, bytes: &[u8])
        ensures { Puts W.view bytes.now self.old self.new }
    {
        if self.hold(bytes) {
            return;
        }
        self.hand_on();
        if !self.hold(bytes) {
            self.write(bytes);
        }
    }
}
