//! The library calls: a solver that takes variables and clauses, and answers whether an assignment
//! satisfies them all.
//!
//! More may be added after each answer, and the question asked again. Several solvers may search at
//! the same time, each in a thread of its own, and share clauses.
#![tactic(auto)]

mod compete;
mod error;
mod solver;
mod solvers;
#[cfg(test)]
mod tests;

pub use error::ApiError;
pub use solver::{Answer, Cause, SatSolver};
