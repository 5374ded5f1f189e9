// Objects in memory that wait for one another at one of their calls, so that a test sees two calls run at once.
use std::sync::atomic::{AtomicBool, Ordering};

mod folder;
mod vault;

pub use folder::GateFolder;
pub use vault::GateVault;

// How often the other gate's flag is looked at, unless another number is given.
const TURNS: u64 = 200_000_000;

/// One of two gates. At its call it sets its own flag and then waits for the other's, for a while.
#[derive(Drop)]
struct Gate<'a> {
    call: u64,
    calls: u64,
    // how often the other flag is looked at
    turns: u64,
    mine: &'a AtomicBool,
    other: &'a AtomicBool,
    saw: bool,
}

impl<'a> Gate<'a> {
    ghost use Rattle.std.specs.Prelude.{◌≡◌, false};

    // Calls are numbered from 1; 0 means none.
    fn new(call: u64, mine: &'a AtomicBool, other: &'a AtomicBool) -> Gate<'a>
        ensures { result.saw ≡ false }
    {
        Gate {
            call,
            calls: 0,
            turns: TURNS,
            mine,
            other,
            saw: false,
        }
    }

    // Before each call of the object.
    fn pass(&mut self) {
        self.calls = self.calls.saturating_add(1);
        if self.calls == self.call {
            self.mine.store(true, Ordering::SeqCst);
            self.saw = wait(self.other, self.turns);
        }
    }
}

// Whether the flag was seen before the turns were spent.
fn wait(flag: &AtomicBool, turns: u64) -> bool {
    for _ in 0..turns {
        if flag.load(Ordering::SeqCst) {
            return true;
        }
    }
    false
}
