// Where the work is in a level that has several files.
//
// Such a level asks how long its files are, from the first one on, before each reading and writing. Its length is the sum,
// and a place in one of these files lies behind the files before it. A level of one file asks for no length once the work
// has begun.

// A level has no more files.
const MANY: usize = 8;

/// The files whose lengths were asked one after another, as far as a level in several files asks for them.
#[derive(Drop)]
pub(crate) struct Extent {
    // whether parity was read or written
    has_begun: bool,
    // whether lengths were asked after that
    is_split: bool,
    // whether parity was read or written since the last length was asked
    is_used: bool,
    // the first of the files, and the one behind the last of them
    first: u32,
    end: u32,
    // where each of them begins, and how long all of them are
    starts: [u64; MANY],
    length: u64,
}

impl Extent {
    pub(crate) fn new() -> Extent {
        Extent {
            has_begun: false,
            is_split: false,
            is_used: false,
            first: 0,
            end: 0,
            starts: [0; MANY],
            length: 0,
        }
    }

    /// The length of a file was asked. Says how long parity is, if that is known by it.
    pub(crate) fn ask(&mut self, file: u32, length: u64) -> Option<u64> {
        self.is_split = self.is_split || self.has_begun;
        if self.is_used || file != self.end {
            self.is_used = false;
            self.first = file;
            self.length = 0;
        }
        self.end = file.saturating_add(1);
        let at = file.saturating_sub(self.first) as usize;
        if at < MANY {
            self.starts[at] = self.length;
        }
        self.length = self.length.saturating_add(length);
        self.known(length)
    }

    /// How long parity is where a file got this length: that of a file says nothing of a level in several files.
    pub(crate) fn known(&self, length: u64) -> Option<u64> {
        if self.is_split { None } else { Some(length) }
    }

    /// The work came to a place in a file. Says which place in parity that is, and how long parity is, if that is known.
    pub(crate) fn come(&mut self, file: u32, place: u64) -> (u64, Option<u64>) {
        self.has_begun = true;
        self.is_used = true;
        let at = file.saturating_sub(self.first) as usize;
        if !self.is_split || file < self.first || file >= self.end || at >= MANY {
            return (place, None);
        }
        (self.starts[at].saturating_add(place), Some(self.length))
    }
}
