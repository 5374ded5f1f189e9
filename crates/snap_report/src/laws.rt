//! What follows from the definitions of answers. The calls do nothing: their contracts are laws.
ghost use Rattle.std.specs.Prelude.{◌≡◌, ◌≢◌, ◌≤◌, ℕ, List, [], Bool, true, false, IsTrue};
ghost use Rattle.disk_model.specs.Cause.{Rose};
ghost use Rattle.snap_report.specs.declared.events.Event.{Event};
ghost use Rattle.snap_report.specs.declared.answer.Answer.{Answer};
ghost use Rattle.snap_report.specs.Answer.{done_answer, status_of, answer_line, Outside, IsCaused, SomeRose};

/// A run that is done says nothing on the standard error, and each other one says something.
pub fn a_run_that_is_not_done_has_a_line()
    ensures done { (name path : List ℕ) (answer : Answer) →
        status_of answer ≤ 1 → answer_line name path answer ≡ [] }
    ensures not_done { (name path : List ℕ) (answer : Answer) →
        2 ≤ status_of answer → answer_line name path answer ≢ [] }
{}

/// The answer of an engine that is done has its cause, where a failed output has one. It has status 3 exactly
/// where the output failed, and else 0 exactly where no finding counts.
pub fn an_engine_that_is_done_has_its_answer()
    ensures caused { (counted : ℕ) (output_failed : Bool) (told : List Event) (old new : Outside) →
        (IsTrue output_failed → Rose old.output_faults new.output_faults) →
        IsCaused (done_answer counted output_failed) counted told old new }
    ensures clean { status_of (done_answer 0 false) ≡ 0 }
    ensures found { (counted : ℕ) → 1 ≤ counted → status_of (done_answer counted false) ≡ 1 }
    ensures output { (counted : ℕ) → status_of (done_answer counted true) ≡ 3 }
{}

/// Status 3 has a cause: the count of a folder, of the vault or of the output rose.
pub fn status_three_has_a_cause()
    ensures { (answer : Answer) (counted : ℕ) (told : List Event) (old new : Outside) →
        IsCaused answer counted told old new → status_of answer ≡ 3 → SomeRose old new }
{}
