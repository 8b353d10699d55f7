//! The log of the clauses that the solvers of one formula share.
//!
//! Its entries stay as they are: a clause is added at the end, or is known and changes nothing.
#![tactic(auto)]

mod store;
#[cfg(test)]
mod tests;

pub use store::{Offer, Store};
