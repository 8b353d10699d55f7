//! The exchange of clauses between solvers, as a machine of five kinds of events.
//!
//! It has no threads, no turns and no private states: a formula, the log of the clauses that were
//! given, and what each solver took of both. Its laws say why sharing clauses is sound.
#![tactic(auto)]

mod event;
pub mod laws;
mod machine;
mod taken;
#[cfg(test)]
mod tests;

pub use event::Event;
pub use machine::Machine;
