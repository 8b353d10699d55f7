//! The private state of one solver: what it took from its caller, and the clauses that it holds.
//!
//! `PrivateState` changes by moves alone, and after each of them it stands for what it took
//! (`Stands` of `state_laws`): whatever satisfies what was taken satisfies the clauses, and values
//! that satisfy the hard clauses are rebuilt to a model of what was taken.
#![tactic(auto)]

mod bound;
mod eliminate;
mod exceed;
mod import;
mod resolve;
mod restore;
mod state;
mod take_out;
#[cfg(test)]
mod tests;
mod values;

pub use import::Import;
pub use state::PrivateState;
pub use state_laws::Definition;
