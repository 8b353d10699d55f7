//! One solver: a private state, a search over it, and what it answers.
//!
//! `OneSolver` takes the items of a formula, begins a call, and then searches interval by interval.
//! Each verdict that it gives is right for the items that it took. Between intervals it may exchange
//! clauses with a log of shared ones.
#![tactic(auto)]

mod answer;
mod free;
pub mod laws;
mod learned;
mod settle;
mod solver;
mod take;
#[cfg(test)]
mod tests;
mod tidy;
mod units;

pub use answer::StepAnswer;
pub use solver::OneSolver;
