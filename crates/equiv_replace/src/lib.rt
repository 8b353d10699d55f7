//! Variables that are equivalent by the binary hard clauses are replaced by one of them.
#![tactic(auto)]

mod components;
mod edges;
mod graph;
mod path;
mod replace;
mod roots;
mod rows;
#[cfg(test)]
mod tests;

pub use replace::replace_equivalent;
