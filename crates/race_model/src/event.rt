use sat_lits::{Item, List, Lit, Verdict};

/// What may happen between a formula, a log and their solvers. A solver is named by its number
/// from 0.
#[derive(Debug, Drop)]
pub enum Event {
    /// The formula gets one item more. Its variables must be there.
    Add(Item),
    /// A solver takes all items so far.
    Absorb {
        solver: u32,
    },
    /// A solver gives a clause that follows from what it took: one or two literals of different
    /// variables, in rising order. A clause that the log has already changes nothing.
    Give {
        solver: u32,
        clause: List<Lit>,
    },
    /// A solver that has taken all items takes the entry at this place of the log, counted from 0.
    Take {
        solver: u32,
        at: u64,
    },
    /// A solver says a verdict, which changes nothing: that the assumptions fail, by what it took,
    /// or, where it has taken all items, a model of them in which the assumptions are true.
    Say {
        solver: u32,
        assumptions: List<Lit>,
        verdict: Verdict,
    },
}
