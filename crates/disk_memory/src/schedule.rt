// When the calls of an object fail.
ghost use Rattle.std.specs.Prelude.{◌≡◌, ◌↔◌, ◌⊎◌, ◌+◌, ◌-◌, ◌^◌, ◌<◌, ◌≤◌, [], ◌∷◌, ◌++◌, min, IsTrue, OnOk, OnErr, Contains, true, false};
ghost use Rattle.disk_model.specs.Cause.{Rose, AtMostOnce};
ghost use Rattle.disk_memory.specs.Schedule.{plan_of, IsDue, counted, fresh_plan, answer_of};

use disk_model::{Failed, NoMemory};
use std::alloc::Global;

/// Which calls are to fail, and how many failed.
#[derive(Drop)]
pub struct Schedule {
    // calls so far
    pub calls: u64,
    // the numbers of calls that are to fail
    pub failing: Vec<u64>,
    // every call after so many fails
    pub stop: u64,
    pub faults: u64,
}

impl Schedule {
    pub fn new(alloc: Global) -> Schedule
        ensures plan { plan_of result ≡ fresh_plan }
        ensures faults { result.faults ≡ 0 }
    {
        Schedule {
            calls: 0,
            failing: Vec::new(alloc),
            stop: u64::MAX,
            faults: 0,
        }
    }

    pub fn fail_at(&mut self, call: u64) -> Result<(), NoMemory>
        ensures added { OnOk result (plan_of self.new ≡ record (plan_of self.old) { failing = (plan_of self.old).failing ++ call ∷ [] }) }
        ensures err { OnErr result (plan_of self.new ≡ plan_of self.old) }
        ensures faults { self.new.faults ≡ self.old.faults }
    {
        self.failing.push(call)?;
        Ok(())
    }

    pub fn stop_after(&mut self, calls: u64)
        ensures plan { plan_of self.new ≡ record (plan_of self.old) { stop = calls } }
        ensures faults { self.new.faults ≡ self.old.faults }
    {
        self.stop = calls;
    }

    // Counts a call. Is it to fail?
    pub fn next_call(&mut self) -> bool
        ensures plan { plan_of self.new ≡ counted (plan_of self.old) }
        ensures due { IsTrue result ↔ IsDue (plan_of self.new) }
        ensures faults { self.new.faults ≡ self.old.faults }
    {
        self.calls = self.calls.saturating_add(1);
        self.stop < self.calls || self.failing.contains(&self.calls)
    }

    // What a call answers that did its work or not; a failure counts.
    pub fn answer(&mut self, done: bool) -> Result<(), Failed>
        ensures result { result ≡ answer_of done }
        ensures plan { plan_of self.new ≡ plan_of self.old }
        ensures done { done ≡ true → self.new.faults ≡ self.old.faults }
        ensures later { self.old.faults ≤ self.new.faults }
        ensures cause { done ≡ false → Rose self.old.faults self.new.faults }
    {
        if done { Ok(()) } else { Err(self.fail()) }
    }

    // One failure more.
    pub fn fail(&mut self) -> Failed
        ensures plan { plan_of self.new ≡ plan_of self.old }
        ensures later { self.old.faults ≤ self.new.faults }
        ensures cause { Rose self.old.faults self.new.faults }
        ensures once { AtMostOnce self.old.faults self.new.faults }
    {
        self.faults = self.faults.saturating_add(1);
        Failed
    }
}
