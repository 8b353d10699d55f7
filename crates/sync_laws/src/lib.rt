//! What it means that a solver keeps up with a log of shared clauses, and that each move keeps it.
//!
//! A clause of the log is met where the solver's private state has what it says, also in what it
//! took out of its clauses. A met clause outlasts every move, so a state that is in step with a log
//! stays so. The crate has no code that runs.
#![tactic(auto)]

pub mod laws;
