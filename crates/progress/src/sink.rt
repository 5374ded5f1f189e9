// A sink beside which a line may stand.
use crate::meter::Meter;
use disk_model::{Failed, Sink};
use std::io::Write;
use std::time::Clock;

/// A sink before whose writes the line is cleared, so that a terminal shows both one after the other.
#[derive(Drop)]
pub struct ClearingSink<'a, S, C, T> {
    sink: S,
    meter: &'a Meter<C, T>,
}

impl<'a, S, C, T> ClearingSink<'a, S, C, T> {
    ghost use Rattle.std.specs.Prelude.{◌≡◌};

    pub fn new(sink: S, meter: &'a Meter<C, T>) -> ClearingSink<'a, S, C, T>
        ensures { result.sink ≡ sink }
    {
        ClearingSink { sink, meter }
    }

    pub fn get_ref(&self) -> &S
        ensures { result.now ≡ self.now.sink }
    {
        &self.sink
    }
}

impl<'a, S: Sink, C: Clock, T: Write + Drop> Sink for ClearingSink<'a, S, C, T> {
    ghost view = { λ s. S.view s.sink };

    fn faults(&self) -> u64 {
        self.sink.faults()
    }

    fn write(&mut self, bytes: &[u8]) -> Result<(), Failed> {
        self.meter.clear();
        self.sink.write(bytes)
    }
}
