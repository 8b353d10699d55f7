//! Laws on the texts of this crate. Each is the contract of a function that does nothing.

ghost use Rattle.dimacs_text.specs.Written.{NoProperFront, TellsEach, TellsVerdict};

/// No text that is written for an answer, a shared clause or a refusal is a proper front of another
/// one.
pub fn texts_are_no_fronts_of_one_another()
    ensures { NoProperFront }
{}

/// Texts that are written one after another say what they were written for.
pub fn texts_in_a_row_are_told_apart()
    ensures { TellsEach }
{}

/// Two verdicts with the same text are the same.
pub fn the_text_of_a_verdict_tells_it()
    ensures { TellsVerdict }
{}
