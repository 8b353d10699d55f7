//! Reads a text, carries out its commands, and writes a block for each of its questions.
#![tactic(auto)]

mod answer;
mod carry;
mod close;
mod failures;
mod read;
mod report;
mod serve;
pub mod status;
#[cfg(test)]
mod tests;
mod words;
mod write;

pub use serve::run;
pub use words::read_words;
