// What is known of a stripe.

/// Whether a stripe's parity was written and closed by a sync.
#[derive(Clone, Copy, Debug, PartialEq, Eq)]
pub enum Mark {
    Pending,
    Synced,
}

/// What is known of a stripe. A pending one has no last check, is not bad and not fresh.
#[derive(Clone, Copy, Debug, PartialEq, Eq)]
pub struct Info {
    pub mark: Mark,
    /// When it was last synced or checked, in seconds since 1970.
    pub last: u64,
    /// A check found it wrong, and none found it right since.
    pub bad: bool,
    /// No scrub has checked it since its sync.
    pub fresh: bool,
}
