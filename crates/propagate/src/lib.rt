//! Unit propagation: what clauses say of the variables that a trail leaves unset.
//!
//! A clause is unit where one of its literals is unset and all others are false, so that literal
//! has to be true. A clause all of whose literals are false is a conflict.
#![tactic(auto)]

mod table;
#[cfg(test)]
mod tests;
mod watches;

pub use watches::{Found, Taken, Watches};
