// What went through one object.
ghost use Rattle.std.specs.Prelude.{◌≡◌, IfOk, OnErr};

use crate::meter::Meter;
use std::io::Write;
use std::time::Clock;

// As much goes through before a meter is told of it, so that small calls cost next to nothing.
const BYTES: u64 = 1 << 16;

const CALLS: u32 = 16;

/// What went through an object since its meter was told of it.
#[derive(Drop)]
pub(crate) struct Tally<'a, C, T> {
    meter: &'a Meter<C, T>,
    bytes: u64,
    place: u64,
    calls: u32,
}

impl<'a, C, T> Tally<'a, C, T> {
    pub(crate) fn new(meter: &'a Meter<C, T>) -> Tally<'a, C, T> {
        Tally {
            meter,
            bytes: 0,
            place: 0,
            calls: 0,
        }
    }

    pub(crate) fn meter(&self) -> &'a Meter<C, T> {
        self.meter
    }
}

impl<'a, C: Clock, T: Write + Drop> Tally<'a, C, T> {
    /// One call read so many bytes.
    pub(crate) fn count(&mut self, bytes: u64) {
        if !self.meter.is_on() {
            return;
        }
        self.bytes = self.bytes.saturating_add(bytes);
        self.calls = self.calls.saturating_add(1);
        if self.bytes >= BYTES || self.calls >= CALLS {
            self.meter.tell(self.bytes, self.place);
            self.bytes = 0;
            self.calls = 0;
        }
    }

    /// One call read so many bytes, and came to this place in parity.
    pub(crate) fn count_at(&mut self, bytes: u64, place: u64) {
        self.place = self.place.max(place);
        self.count(bytes);
    }
}

/// How many bytes a call read, by its answer.
pub(crate) fn bytes_of<E>(answer: &Result<usize, E>) -> u64
    ensures read { IfOk answer.now (λ n. result ≡ n) }
    ensures failed { OnErr answer.now (result ≡ 0) }
{
    match answer {
        Ok(bytes) => *bytes as u64,
        Err(_) => 0,
    }
}
