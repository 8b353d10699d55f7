//! The race of several solvers for the answer to one question.
//!
//! Each solver runs in a thread of its own, with a pass to an exchange. Before each of its intervals
//! it tries for the turn, and with it takes and gives shared clauses. The first verdict that is
//! posted stops the others.
#![tactic(auto)]

mod answer;
mod choice;
mod contest;
mod ending;
mod field;
mod home;
mod rounds;
mod runner;
mod seats;
mod task;
mod threads;
mod watch;

pub use answer::RaceAnswer;
pub use contest::race;
