// The record of an object's calls.
ghost use Rattle.std.specs.Prelude.{◌≡◌, ◌⊎◌, [], IsTrue, IfSome, IfNone, true, false, if◌then◌else◌};
ghost use Rattle.std.specs.Bool.{OnTrue};
ghost use Rattle.disk_model.specs.Answer.{is_failure};
ghost use Rattle.disk_memory.specs.Past.{Notes, Loses, LosesNow, Ends};
ghost use Rattle.disk_memory.specs.Schedule.{plan_of, IsDue, counted};

use crate::schedule::Schedule;
use disk_model::Answer;
use std::alloc::Global;

/// A call that was made, and what it answered.
#[derive(Drop)]
pub struct Made<C> {
    pub call: C,
    pub answer: Answer,
}

impl<C> Made<C> {
    // Whether it answered `Failed`.
    pub fn failed(&self) -> bool
        ensures { result ≡ is_failure self.now.answer }
    {
        match self.answer {
            Answer::Failed => true,
            _ => false,
        }
    }
}

/// All calls so far, or those until memory refused an entry.
#[derive(Drop)]
pub struct Past<C> {
    pub made: Vec<Made<C>>,
    pub lost: bool,
}

impl<C> Past<C> {
    pub fn new(alloc: Global) -> Past<C>
        ensures made { result.made.items ≡ [] }
        ensures told { result.lost ≡ false }
    {
        Past {
            made: Vec::new(alloc),
            lost: false,
        }
    }

    // The call of the last entry didn't fail, and answers this.
    pub fn end(&mut self, answer: Answer)
        ensures { Ends answer self.old self.new }
    {
        let count = self.made.len();
        if !self.lost && count > 0 {
            self.made[count - 1].answer = answer;
        }
    }

    // The call of the last entry answers this, or it failed.
    pub fn end_if(&mut self, done: bool, answer: Answer)
        ensures done { done ≡ true → Ends answer self.old self.new }
        ensures failed { done ≡ false → self.new ≡ self.old }
    {
        if done {
            self.end(answer);
        }
    }
}

impl<C: Drop> Past<C> {
    // Writes a call down, as one that failed. None stands for one that memory refused already. Is it written?
    pub fn note(&mut self, call: Option<C>) -> bool
        ensures noted { IfSome call (λ c. Notes c Answer.Failed self.old self.new) }
        ensures refused { IfNone call (Loses self.old self.new) }
        ensures cause { result ≡ false → LosesNow self.old self.new }
        ensures lost { self.old.lost ≡ false → self.new.lost ≡ true → result ≡ false }
    {
        if self.lost {
            return true;
        }
        if let Some(call) = call {
            if self
                .made
                .push(Made {
                    call,
                    answer: Answer::Failed,
                })
                .is_ok()
            {
                return true;
            }
        }
        self.lost = true;
        false
    }

    // Writes a call down that may do its work or not. Does it? If so, it ends so.
    pub fn admit(&mut self, may: bool, call: Option<C>) -> bool
        ensures noted { IfSome call (λ c. Notes c Answer.Failed self.old self.new) }
        ensures refused { IfNone call (Loses self.old self.new) }
        ensures may { may ≡ false → result ≡ false }
        ensures lost { self.old.lost ≡ false → self.new.lost ≡ true → result ≡ false }
        ensures cause { result ≡ false → (may ≡ false) ⊎ LosesNow self.old self.new }
    {
        let noted = self.note(call);
        noted && may
    }
}

// Counts a call and writes it down. May it do its work? If so, it has to `end`, or else to `fail`.
pub fn begin<C: Drop>(schedule: &mut Schedule, past: &mut Past<C>, call: Option<C>) -> bool
    ensures faults { schedule.new.faults ≡ schedule.old.faults }
    ensures counts { plan_of schedule.new ≡ counted (plan_of schedule.old) }
    ensures due { OnTrue result (¬ (IsDue (plan_of schedule.new))) }
    ensures cause { result ≡ false → IsDue (plan_of schedule.new) ⊎ LosesNow past.old past.new }
    ensures lost { past.old.lost ≡ false → past.new.lost ≡ true → result ≡ false }
    ensures noted { IfSome call (λ c. Notes c Answer.Failed past.old past.new) }
    ensures refused { IfNone call (Loses past.old past.new) }
{
    let fails = schedule.next_call();
    let noted = past.note(call);
    noted && !fails
}

// What a call on one file answers that did its work where the file was there, as it is kept.
pub fn answer_where(there: bool) -> Answer
    ensures { result ≡ (if there then Answer.Done else Answer.Missing) }
{
    if there { Answer::Done } else { Answer::Missing }
}
