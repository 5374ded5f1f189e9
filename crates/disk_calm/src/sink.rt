// A sink that keeps nothing of what is written to it.
use disk_model::{Failed, Sink};

/// Counts the bytes that are written to it, and never fails.
#[derive(Drop)]
pub struct CalmSink {
    count: u64,
}

impl CalmSink {
    pub fn new() -> CalmSink {
        CalmSink { count: 0 }
    }
}

impl Sink for CalmSink {
    ghost use Rattle.std.specs.Prelude.{◌≡◌, Ok};
    ghost use Rattle.disk_model.specs.Sink.{IsWrite, quiet_sink};

    ghost view = { λ s. quiet_sink 0 };

    fn faults(&self) -> u64 {
        0
    }

    fn write(&mut self, bytes: &[u8]) -> Result<(), Failed>
        ensures written { IsWrite bytes.now result (quiet_sink 0) (quiet_sink 0) }
        ensures calm { result ≡ Ok tt }
    {
        self.count = self.count.saturating_add(bytes.len() as u64);
        Ok(())
    }
}
