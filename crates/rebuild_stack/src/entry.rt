use crate::block::Block;
use sat_lits::{Own, OwnLit};

/// How the value of a variable that left a solver's clauses follows from the others.
#[derive(Debug, Drop)]
pub enum Entry {
    /// The literal is true.
    Fix(OwnLit),
    /// The variable has the value of the literal.
    Equal { var: Own, lit: OwnLit },
    /// The variable keeps its value where all the clauses are true, and is flipped otherwise.
    Gone { var: Own, clauses: Block },
}

/// What a literal comes to along the entries of a stack, from the oldest to the newest.
#[derive(Clone, Copy, Debug, PartialEq, Eq)]
pub enum Root {
    /// A value.
    Known(bool),
    /// A literal of a variable that is still there.
    Last(OwnLit),
    /// A variable that was taken out with its clauses.
    Lost(Own),
}
