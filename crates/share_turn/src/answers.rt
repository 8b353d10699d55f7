use crate::held::Outcome;
use share_store::Store;

/// The answer of `take`.
#[derive(Debug, Drop)]
pub enum Turn {
    /// The turn is this pass's, and the store is in its hand.
    Got(Store),
    /// Another pass had the turn.
    Busy,
}

/// The answer of `look`.
#[derive(Clone, Copy, Debug, PartialEq, Eq)]
pub enum Look {
    /// No outcome was posted.
    Go,
    /// An outcome was posted.
    Stop,
}

/// The answer of `post`.
#[derive(Debug, Drop)]
pub enum PostAnswer {
    /// The outcome is the one that the exchange ends with.
    Posted,
    /// Another pass was first; the outcome comes back.
    Late(Outcome),
}

/// Memory ran out at `begin`. The store comes back unchanged.
#[derive(Debug, Drop)]
pub struct BeginRefused {
    pub store: Store,
}

/// What an exchange ends with.
#[derive(Debug, Drop)]
pub struct Closed {
    /// The store, unless a pass that was not joined had the turn.
    pub store: Option<Store>,
    /// The outcome, where one was posted.
    pub outcome: Option<Outcome>,
}
