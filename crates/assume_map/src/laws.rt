//! Laws on mapped assumptions. Each is the contract of a function that does nothing.

ghost use Rattle.assume_map.specs.Theorems.{ClashContradicts, ReadyHasValues, ReadyIsRebuilt, FailedContradict};

/// The assumptions at the positions of a clash contradict every model of the items taken that
/// satisfies the shared entries taken.
pub fn a_clash_contradicts_what_was_taken()
    ensures { ClashContradicts }
{}

/// In each such model, widened to the private variables, a literal that is left to be assumed has
/// the value of the assumption that it comes from.
pub fn a_literal_has_the_value_of_its_assumption()
    ensures { ReadyHasValues }
{}

/// Own values that make the literals that are left true make every assumption true once they are
/// rebuilt.
pub fn rebuilt_values_make_the_assumptions_true()
    ensures { ReadyIsRebuilt }
{}

/// Where the assumptions at some positions are not all true, the failed literals of these positions
/// are not.
pub fn failed_literals_are_not_all_true()
    ensures { FailedContradict }
{}
