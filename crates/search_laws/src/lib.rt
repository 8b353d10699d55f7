//! Why a search by decisions, propagation and jumps back ends, and after how many conflicts at most.
//! Each law is the contract of a function that does nothing.
//!
//! A trail over n variables is read as a number of n digits to the base 3, the oldest literal first:
//! 1 for a decision, 2 for a literal that a clause gave, 0 for what is unset. Each move of a search
//! raises that number.
#![tactic(auto)]

ghost use Rattle.search_laws.specs.TrailNumber.{MoreRaises, ConflictRaises, NumberIsBelow, RunsEnd, FitsActive};

/// One literal more raises the number of a trail.
pub fn each_literal_raises_the_number()
    ensures { MoreRaises }
{}

/// So do a jump back to a lower level and a literal that a clause gives there, however many literals
/// the jump takes back.
pub fn each_conflict_raises_the_number()
    ensures { ConflictRaises }
{}

/// The number of a trail over n variables is below 3^n.
pub fn the_number_is_below_a_power()
    ensures { NumberIsBelow }
{}

/// A search over n variables makes fewer than 3^n moves, and so has fewer than 3^n conflicts.
pub fn every_search_ends()
    ensures { RunsEnd }
{}

/// A trail that assigns active variables alone is no longer than their list.
pub fn trails_fit_the_active_variables()
    ensures { FitsActive }
{}
