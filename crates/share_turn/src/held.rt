use sat_lits::Verdict;
use share_store::Store;

/// How a question ends.
#[derive(Debug, Drop)]
pub enum Outcome {
    Verdict(Verdict),
    /// The first pass was told to stop.
    Halted,
}

/// What lies in a slot: the store in the first, the outcome in the second.
#[derive(Debug, Drop)]
pub enum Held {
    Stored(Store),
    Said(Outcome),
}
