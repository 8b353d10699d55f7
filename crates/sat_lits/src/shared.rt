use crate::list::List;
use crate::literal::Lit;

/// A clause that one solver gave to the others, as it stands in their log.
#[derive(Debug, Drop)]
pub struct Shared {
    /// The solver that gave it, by its number from 0.
    pub solver: u32,
    /// How many entries of the log, from its front, the clause follows from beside the formula.
    pub after: u64,
    /// One or two literals of different variables, in rising order.
    pub clause: List<Lit>,
}
