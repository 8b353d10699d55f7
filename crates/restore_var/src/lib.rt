//! Bringing eliminated variables back to the clauses of one solver.
//!
//! The clauses of a variable's entry may name variables that were eliminated later, so these come back
//! first. `restore` goes over the stack and never into itself: once from the oldest entry to the newest,
//! to mark what is needed, since an entry needs newer ones alone; and once back, to list what is marked,
//! so that all that a variable needs comes back before it. Then all that is listed is restored at once.
#![tactic(auto)]

mod bring_back;
mod marks;
mod needed;
#[cfg(test)]
mod tests;

pub use bring_back::restore;
