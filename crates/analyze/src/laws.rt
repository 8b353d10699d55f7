//! Laws on what is learned, and on what a search keeps so that it is new. Each is the contract of a
//! function that does nothing.

ghost use Rattle.analyze.specs.Quiet.{LearnsNew, LearnsUnit, LearnsQuiet, DecisionsKeep, AssignmentsKeep, WayBackKeeps, ConflictsKeep, ConflictsArePresent, AddingKeepsReasons, WayBackKeepsReasons};

/// A learned clause is unit by its first literal after the way back to its level.
pub fn learned_clauses_are_unit_after_the_way_back()
    ensures { LearnsUnit }
{}

/// A learned clause has all literals of no clause that is held, where no held clause was false or
/// unit on the way back to any level below the present one.
pub fn learned_clauses_are_new()
    ensures { LearnsNew }
{}

/// A learned clause is neither false nor unit on the way back to a level below its own.
pub fn learned_clauses_are_quiet_below_their_level()
    ensures { LearnsQuiet }
{}

/// A decision that is made where no clause is false or unit leaves none so below its level.
pub fn decisions_keep_lower_levels_quiet()
    ensures { DecisionsKeep }
{}

/// A literal that is assigned at the present level changes nothing below it.
pub fn assignments_keep_lower_levels_quiet()
    ensures { AssignmentsKeep }
{}

/// The way back changes nothing below the level that it leads to.
pub fn the_way_back_keeps_lower_levels_quiet()
    ensures { WayBackKeeps }
{}

/// After a conflict, with the learned clause added and a literal assigned after the way back, still
/// no clause is false or unit below the present level.
pub fn conflicts_keep_lower_levels_quiet()
    ensures { ConflictsKeep }
{}

/// A false clause holds a literal of the present level, where no clause was false or unit on the way
/// back to any level below it.
pub fn conflicts_hold_a_literal_of_the_present_level()
    ensures { ConflictsArePresent }
{}

/// A reasoned trail stays reasoned when a clause is added.
pub fn an_added_clause_keeps_a_trail_reasoned()
    ensures { AddingKeepsReasons }
{}

/// A reasoned trail stays reasoned on the way back.
pub fn the_way_back_keeps_a_trail_reasoned()
    ensures { WayBackKeepsReasons }
{}
