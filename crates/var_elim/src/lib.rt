//! Bounded variable elimination and subsumption over the clauses of a private state (Eén and
//! Biere, 2005).
#![tactic(auto)]

mod drop;
mod eliminate;
mod marks;
mod subsume;
#[cfg(test)]
mod tests;

pub use drop::drop_subsumed;
pub use eliminate::eliminate_some;
