//! Instances of what clauses of `run` suppose of runs that are refused, silent or unheard, and of exercises.
//!
//! Each call makes a run over an array and answers nothing unless all went as it says. Its contract gives the run, with what a
//! clause supposes of it and what then follows, and shows that there was something to lose.
//! Start at `silent.rt`. `refused.rt` has runs that touch nothing, `unheard.rt` a sync whose output fails, and `exercised.rt`
//! an exercise that surely ends well, if memory does not run out.
//! Proved: none of these clauses is empty.
#![tactic(auto)]

pub mod exercised;
pub mod refused;
pub mod silent;
pub mod unheard;
