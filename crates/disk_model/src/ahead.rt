// What reads parity ahead of the calls that ask for it.

/// Reads bytes of a parity file ahead of the calls that ask for them. No call answers otherwise for it: what fails here is
/// read again by the call itself, and counted there.
pub trait Ahead: Send {
    /// Reads what was planned last.
    fn fetch(&mut self);
}

/// Of a vault that reads nothing ahead.
#[derive(Drop)]
pub struct NoAhead;

impl Ahead for NoAhead {
    fn fetch(&mut self) {}
}
