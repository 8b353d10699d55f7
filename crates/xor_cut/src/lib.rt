//! Parities over a solver's own variables, cut into pieces of at most four variables.
//!
//! A clause form of a parity has a clause for half of all values of its variables, so a long parity
//! is cut first: a fresh variable stands for the exclusive or of three others (the usual cut of
//! Tseitin, 1968).
#![tactic(auto)]

mod cutting;
mod piece;
mod pieces;

pub use cutting::cut;
pub use piece::Piece;
pub use pieces::Pieces;
