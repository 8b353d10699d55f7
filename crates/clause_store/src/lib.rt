//! The clauses that a solver holds, each named by an id.
//!
//! A clause is hard, where the question itself asks it, or learned, where it follows from others.
//! A mark tells the clauses that were held when it was set from those that were added since, also
//! after the ids were given anew.
#![tactic(auto)]

mod store;

pub use store::ClauseStore;
