// Two files that hold the same.

/// Two records of a table, each by the number of its column and its number there.
#[derive(Clone, Copy, Debug, PartialEq, Eq)]
pub struct Pair {
    pub disk: u32,
    pub rec: u32,
    pub other_disk: u32,
    pub other_rec: u32,
}
