// Which calls of a run fail.

/// Which calls are to fail, by their numbers from 1 on; 0 is none.
#[derive(Clone, Copy, Debug)]
pub struct Failing {
    pub opener: u64,
    pub vault: u64,
    /// Of the folder of this disk.
    pub folder: u64,
    pub disk: usize,
    /// Whether each later call of that vault and of that folder fails too.
    pub stops: bool,
    pub out: u64,
    pub err: u64,
}

impl Failing {
    /// The same for the call after that of each object.
    pub fn later(self) -> Failing {
        let mut later = self;
        later.opener = after(self.opener);
        later.vault = after(self.vault);
        later.folder = after(self.folder);
        later.out = after(self.out);
        later.err = after(self.err);
        later
    }
}

// The next call, if there is one.
fn after(call: u64) -> u64 {
    if call == 0 { 0 } else { call.saturating_add(1) }
}

/// No call fails.
pub const NONE: Failing = Failing {
    opener: 0,
    vault: 0,
    folder: 0,
    disk: 0,
    stops: false,
    out: 0,
    err: 0,
};

/// How many calls are made before all fail, if all are to fail from this one on.
pub fn calls_before(call: u64, stops: bool) -> Option<u64> {
    if stops { call.checked_sub(1) } else { None }
}
