// What a run is to do, and what of the array it is for.
/// What is done with what is damaged.
#[derive(Clone, Copy, Debug, PartialEq, Eq)]
pub enum Mode {
    /// It is told, and nothing is written.
    Check,
    /// Files alone are looked at, and no parity is read.
    Audit,
    /// It is told and written anew.
    Fix,
}

/// What a run is to do, whether only what is known to be bad is meant, and which of six levels are.
#[derive(Clone, Copy, Debug, PartialEq, Eq)]
pub struct Scope {
    pub mode: Mode,
    pub only_bad: bool,
    pub levels: [bool; 6],
}
