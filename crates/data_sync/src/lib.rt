//! One solver's exchange with a log of shared clauses: what it takes from the log, and what it
//! gives.
//!
//! `SyncBook` keeps how far a solver read the log and which entries wait for a variable to come
//! back. `sync` tries these again, reads on, and offers what the solver found since its state was marked
//! last, at the end of the sync before. What came of it is a
//! turn (`IsTurn` of `sync_laws`): entries of the log were taken, and then clauses were added that
//! follow from the items with all that was taken.
#![tactic(auto)]

mod binaries;
mod book;
mod fixed;
mod giving;
mod importing;
pub mod laws;
mod reader;
#[cfg(test)]
mod tests;

pub use book::{Report, SyncBook};
