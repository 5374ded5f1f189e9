// A sink in memory.
use crate::calls::sink_entry;
use crate::past::{Past, begin};
use crate::schedule::Schedule;
use disk_calm::Bytes;
use disk_model::{Answer, Failed, NoMemory, Sink};
use std::alloc::Global;

/// Keeps all that is written to it.
#[derive(Drop)]
pub struct MemSink {
    alloc: Global,
    schedule: Schedule,
    past: Past<Bytes>,
    written: Vec<u8>,
}

impl MemSink {
    ghost use Rattle.std.specs.Prelude.{◌≡◌, [], ◌∷◌, ◌++◌, true, OnOk, OnErr};
    ghost use Rattle.disk_memory.specs.Schedule.{fresh_plan};
    ghost use Rattle.disk_memory.specs.Sink.{sink_view, sink_plan, fresh_sink};

    pub fn new(alloc: Global) -> MemSink
        ensures view { sink_view result ≡ fresh_sink }
        ensures plan { sink_plan result ≡ fresh_plan }
    {
        MemSink {
            alloc,
            schedule: Schedule::new(alloc),
            past: Past::new(alloc),
            written: Vec::new(alloc),
        }
    }

    /// All bytes so far.
    pub fn bytes(&self) -> &[u8]
        ensures { result.now ≡ (sink_view self.now).written }
    {
        self.written.as_slice()
    }

    /// Adds a number to the list of failing calls.
    pub fn fail_at(&mut self, call: u64) -> Result<(), NoMemory>
        ensures same { sink_view self.new ≡ sink_view self.old }
        ensures added { OnOk result (sink_plan self.new ≡ record (sink_plan self.old) { failing = (sink_plan self.old).failing ++ call ∷ [] }) }
        ensures err { OnErr result (sink_plan self.new ≡ sink_plan self.old) }
    {
        self.schedule.fail_at(call)
    }

    /// Every call after so many fails; the greatest u64 means none.
    pub fn stop_after(&mut self, calls: u64)
        ensures same { sink_view self.new ≡ sink_view self.old }
        ensures plan { sink_plan self.new ≡ record (sink_plan self.old) { stop = calls } }
    {
        self.schedule.stop_after(calls);
    }
}

// Each write meets the trait's clause, and fails as its schedule says (`scheduled`).
impl Sink for MemSink {
    ghost use Rattle.std.specs.Prelude.{is_err};
    ghost use Rattle.disk_model.specs.Sink.{IsWrite};
    ghost use Rattle.disk_memory.specs.Sink.{sink_view, SinkObeys};

    ghost view = { sink_view };

    fn faults(&self) -> u64 {
        self.schedule.faults
    }

    fn write(&mut self, bytes: &[u8]) -> Result<(), Failed>
        ensures written { IsWrite bytes.now result (sink_view self.old) (sink_view self.new) }
        ensures scheduled { SinkObeys bytes.now (is_err result) self.old self.new }
    {
        let entry = sink_entry(self.alloc, bytes);
        if !begin(&mut self.schedule, &mut self.past, entry) {
            return Err(self.schedule.fail());
        }
        if self.written.extend_from_slice(bytes).is_err() {
            return Err(self.schedule.fail());
        }
        self.past.end(Answer::Done);
        Ok(())
    }
}
