//! What a solver took out of its clauses, and how the values of what it took out are rebuilt.
//!
//! A solver fixes variables, replaces them by literals of others and takes them out of its clauses.
//! Each time it pushes an entry that says how the value of the variable follows from the values of
//! the others. `RebuildStack::rebuild` undoes the entries from the newest to the oldest, and so
//! completes values that satisfy the clauses that are left. What it computes is the definition
//! `rebuild` in `specs/`, beside laws on it that other crates cite.
#![tactic(auto)]

mod block;
mod entry;
mod stack;
#[cfg(test)]
mod tests;
mod values;

pub use block::Block;
pub use entry::{Entry, Root};
pub use stack::RebuildStack;
