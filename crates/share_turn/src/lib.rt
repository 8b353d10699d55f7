//! The exchange between the solvers of one question: who may use the store of shared clauses now,
//! and whether an outcome was posted.
//!
//! The store and the outcome lie in two slots of a table with two atomic words. Each solver has a
//! `Pass`, and takes and gives the store, looks and posts by it. No call waits or tries again, so a
//! solver that finds the turn held goes on without the store.
#![tactic(auto)]

mod answers;
mod exchange;
mod held;
pub mod laws;
mod pass;
mod steps;
mod table;
#[cfg(test)]
mod tests;
mod view;
mod words;

pub use answers::{BeginRefused, Closed, Look, PostAnswer, Turn};
pub use exchange::Exchange;
pub use held::{Held, Outcome};
pub use pass::Pass;
pub use view::{Claim, Phase, Question, View};
