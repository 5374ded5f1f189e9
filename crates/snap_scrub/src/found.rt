// What was found in a stripe.
ghost use Rattle.std.specs.Prelude.{◌≡◌, ◌+◌, ◌<◌, ◌≤◌, ◌++◌, ◌∷◌, ◌^◌, [], List};
ghost use Rattle.std.specs.Option.{option_to_list};
ghost use Rattle.snap_report.specs.declared.events.Event.{Event};
ghost use Rattle.snap_scrub.specs.Looking.{AreFound};
ghost use Rattle.snap_scrub.specs.Marks.{verdict_by, makes_bad as makes_bad_by};

use crate::verdict::{Found, Verdict};
use snap_report::events::Event;

/// Nothing was found.
pub(crate) fn nothing() -> Found
    ensures { AreFound [] result }
{
    Found {
        count: 0,
        bad: false,
    }
}

// Whether a finding makes its stripe bad: each but that of a changed file does.
fn makes_bad(event: &Event) -> bool
    ensures { result ≡ makes_bad_by event.now }
{
    !matches!(event, Event::ChangedBlock { .. })
}

/// One finding.
pub(crate) fn one(event: &Event) -> Found
    ensures found { AreFound (event.now ∷ []) result }
    ensures count { result.count ≡ 1 }
{
    Found {
        count: 1,
        bad: makes_bad(event),
    }
}

/// What was found in one place, if anything was.
pub(crate) fn found_of(event: Option<Event>) -> Found
    ensures found { AreFound (option_to_list event) result }
    ensures few { result.count ≤ 1 }
{
    match event {
        None => nothing(),
        Some(event) => one(&event),
    }
}

/// Some findings, and then others.
pub(crate) fn both(first: Found, rest: Found) -> Found
    requires few { first.count + rest.count < 2 ^ 32 }
    ensures found { (events others : List Event) → AreFound events first → AreFound others rest →
        AreFound (events ++ others) result }
    ensures count { result.count ≡ first.count + rest.count }
{
    Found {
        count: first.count + rest.count,
        bad: first.bad || rest.bad,
    }
}

/// What they make of the stripe.
pub(crate) fn verdict(found: Found) -> Verdict
    ensures { (events : List Event) → AreFound events found → result ≡ verdict_by events }
{
    if found.count == 0 {
        Verdict::Right
    } else if found.bad {
        Verdict::Wrong
    } else {
        Verdict::Changed
    }
}
