//! Tests of `content_file`: whole files, damaged ones, and copies of them.
//! They stand in a crate of their own, since a crate's tests prove the crate once more.
#![tactic(auto)]

#[cfg(test)]
mod hostile;
#[cfg(test)]
mod kept;
#[cfg(test)]
mod samples;
#[cfg(test)]
mod tests;
