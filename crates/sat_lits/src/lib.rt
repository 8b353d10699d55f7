//! Literals, clauses, parities, formulas and verdicts in the caller's numbers, and what they mean.
//!
//! Every other crate stands on the definitions of this one, in `specs/`.
#![tactic(auto)]

mod formula;
pub mod laws;
mod limits;
mod list;
mod literal;
mod satisfaction;
mod shared;
mod verdict;

pub use formula::{Formula, FormulaError, Item};
pub use limits::Limits;
pub use list::{List, NoMemory};
pub use literal::{ClauseId, InLit, Inner, Lit, Own, OwnLit, Var};
pub use shared::Shared;
pub use verdict::Verdict;
