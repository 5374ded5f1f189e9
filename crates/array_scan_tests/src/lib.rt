//! Tests of `array_scan`: the positions of a layout, moves, and what is refused.
//! They stand in a crate of their own, since a crate's tests prove the crate once more.
#![tactic(auto)]

#[cfg(test)]
mod tests;
