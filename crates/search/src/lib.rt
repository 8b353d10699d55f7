//! One interval of conflict-driven clause learning over a private state.
//!
//! An interval decides assumptions first and then other variables, learns a clause from each
//! conflict, and jumps back, until it has an answer or has met its number of conflicts
//! (Marques-Silva and Sakallah 1996; Eén and Sörensson 2003).
#![tactic(auto)]

mod answer;
mod conflict;
mod decide;
mod ends;
mod lists;
mod run;
mod search;
#[cfg(test)]
mod tests;
mod work;

pub use answer::IntervalAnswer;
pub use search::Search;
