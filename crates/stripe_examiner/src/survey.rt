// What stripes are examined by.
use repair_scope::Plan;

/// Stripes of a table that are examined in one window: by which plan, and by how many threads at most.
#[derive(Clone, Copy)]
pub struct Survey<'a> {
    pub plan: Plan<'a>,
    /// The numbers of the stripes.
    pub stripes: &'a [u32],
    pub threads: u32,
}
