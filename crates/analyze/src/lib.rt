//! What is learned from a conflict, and which decisions make a literal false.
#![tactic(auto)]

mod analyzer;
mod chains;
mod deciding;
pub mod laws;
mod marks;
mod tally;
#[cfg(test)]
mod tests;
mod walk;

pub use analyzer::{Analyzer, Learned};
pub use tally::Tally;
