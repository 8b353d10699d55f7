//! Assumptions of the caller, as literals of the clauses that a solver holds.
//!
//! A solver fixes and replaces variables, so an assumption may be true already, false already, or
//! come to the same literal as another one. `map_assumptions` gives the literals that are left to
//! be assumed, or the positions of assumptions that clash; `failed_lits` goes back from positions
//! to assumptions.
#![tactic(auto)]

mod failed;
pub mod laws;
mod mapped;
#[cfg(test)]
mod tests;
mod walk;

pub use failed::failed_lits;
pub use mapped::{Mapped, map_assumptions};
