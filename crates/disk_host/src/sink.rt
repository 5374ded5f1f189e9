// Streams of the system that are written to.
ghost use Rattle.std.specs.Prelude.{◌≡◌};
ghost use Rattle.disk_model.specs.Sink.{quiet_sink};

use crate::failures::{Failures, Request};
use crate::faults::counted;
use disk_model::{Failed, Sink};
use std::io;
use std::io::Write;

/// A stream of the system, as standard output. Each write goes to it at once.
#[derive(Drop)]
pub struct StreamSink<W> {
    stream: W,
    faults: u64,
    failure: Option<io::Error>,
}

impl<W: Write> StreamSink<W> {
    pub fn new(stream: W) -> StreamSink<W>
        ensures { result.faults ≡ 0 }
    {
        StreamSink {
            stream,
            faults: 0,
            failure: None,
        }
    }

    /// Adds what failed last to these, under this name.
    pub fn note(&self, failures: &mut Failures, name: &str) {
        if let Some(error) = self.failure {
            failures.note::<()>(Request::Write, name, &Err(error));
        }
    }
}

impl<W: Write> Sink for StreamSink<W> {
    ghost view = { λ s. quiet_sink s.faults };

    fn faults(&self) -> u64 {
        self.faults
    }

    fn write(&mut self, bytes: &[u8]) -> Result<(), Failed> {
        let answer = self.stream.write_all(bytes);
        if let Err(error) = &answer {
            self.failure = Some(*error);
        }
        counted(&mut self.faults, answer)
    }
}
