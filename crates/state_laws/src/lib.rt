//! What the private state of one solver means, and laws on its moves.
//!
//! A solver changes the clauses that it holds by a few moves: it fixes a variable, replaces one by a
//! literal, takes one out, learns a clause. `specs/` says what a state is, when it *stands* for what
//! it took, what each move does to it, and that each move keeps a state standing. The crate has no
//! code that runs: the structure that makes the moves stands above it.
#![tactic(auto)]

mod definition;
pub mod laws;

pub use definition::Definition;
