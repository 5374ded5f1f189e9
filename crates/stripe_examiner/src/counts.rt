// How many findings there are.
ghost use Rattle.std.specs.Prelude.{◌≡◌, List, ◌++◌};
ghost use Rattle.snap_report.specs.declared.events.Event.{Event};
ghost use Rattle.stripe_examiner.specs.Counts.{AreCounts};

/// How many findings were told, and how many of them a fix leaves. Both stay at the greatest u64.
#[derive(Clone, Copy, Debug, PartialEq, Eq)]
pub struct Counts {
    pub found: u64,
    pub left: u64,
}

impl Counts {
    /// None.
    pub const NONE: Counts = Counts { found: 0, left: 0 };

    /// These and then others.
    pub fn and(self, more: Counts) -> Counts
        ensures { (events others : List Event) → AreCounts events self → AreCounts others more →
            AreCounts (events ++ others) result }
    {
        Counts {
            found: self.found.saturating_add(more.found),
            left: self.left.saturating_add(more.left),
        }
    }
}
