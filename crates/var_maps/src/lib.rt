//! The numbers of one solver's variables.
//!
//! A solver numbers its variables in the order in which it makes them. An outer variable stands for
//! a variable of the caller, a private one for none. The clauses that the solver holds now speak of
//! active variables alone, by inner numbers. A variable that is retired gives its inner number
//! back.
#![tactic(auto)]

mod maps;

pub use maps::VarMaps;
