// What a scrub makes of a stripe.

/// What a scrub makes of a stripe.
#[derive(Clone, Copy, Debug, PartialEq, Eq)]
pub enum Verdict {
    /// Nothing was found in it.
    Right,
    /// Something was found that makes it bad.
    Wrong,
    /// Files were changed, and nothing else was found.
    Changed,
}

/// How many findings there are, and whether one of them makes its stripe bad.
#[derive(Clone, Copy)]
pub struct Found {
    pub count: u32,
    pub bad: bool,
}
