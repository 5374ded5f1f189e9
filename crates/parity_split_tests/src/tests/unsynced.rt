// What a stop may leave of a level, by the calls since its last sync.
use crate::tests::calls::{Answer, Buffer, Call, WIDTH};

/// What a level reads as, and what was done to it since its last sync.
#[derive(Clone, Copy)]
pub(super) struct Unsynced {
    read: Buffer,
    len: usize,
    /// Places that were written, cut off or added.
    touched: [bool; WIDTH],
    /// The least length and the greatest.
    least: usize,
    greatest: usize,
}

impl Unsynced {
    /// It reads so, and was just synced.
    pub(super) fn synced(read: Answer) -> Unsynced {
        let (len, read) = match read {
            Answer::Bytes(len, bytes) => (len, bytes),
            _ => (0, [0; WIDTH]),
        };
        Unsynced {
            read,
            len,
            touched: [false; WIDTH],
            least: len,
            greatest: len,
        }
    }

    fn touch(&mut self, from: usize, to: usize) {
        for (place, touched) in self.touched.iter_mut().enumerate() {
            if from <= place && place < to {
                *touched = true;
            }
        }
    }

    /// A call is made, and may stop half way.
    pub(super) fn begin(&mut self, call: Call) {
        match call {
            Call::Write(at, count, _) => {
                let end = (at as usize).saturating_add(count);
                self.touch(self.len.min(at as usize), end);
                self.greatest = self.greatest.max(end);
            }
            Call::SetLen(len) => {
                let len = len as usize;
                self.touch(self.len.min(len), self.len.max(len));
                self.least = self.least.min(len);
                self.greatest = self.greatest.max(len);
            }
            Call::Len | Call::Read(_, _) | Call::Sync => {}
        }
    }

    /// The call went well, and the level reads so now.
    pub(super) fn end(&mut self, call: Call, read: Answer) {
        if let Call::Sync = call {
            *self = Unsynced::synced(read);
        } else if let Answer::Bytes(len, bytes) = read {
            self.read = bytes;
            self.len = len;
        }
    }

    /// Whether a stop may leave of the level what reads so.
    pub(super) fn may_leave(&self, left: Answer) -> bool {
        let Answer::Bytes(len, bytes) = left else {
            return false;
        };
        let places = bytes.iter().zip(&self.read).zip(&self.touched);
        for ((left, read), touched) in places.take(len) {
            if !*touched && left != read {
                return false;
            }
        }
        self.least <= len && len <= self.greatest
    }
}
