// The words and the slots of the table by number, and what the words say.

/// The word of the turn.
pub(crate) const TURN_WORD: usize = 0;

/// No pass has the turn.
pub(crate) const TURN_FREE: u64 = 0;

/// One pass has the turn.
pub(crate) const TURN_TAKEN: u64 = 1;

/// The word of the outcome.
pub(crate) const OUTCOME_WORD: usize = 1;

/// No pass claimed the outcome.
pub(crate) const UNCLAIMED: u64 = 0;

/// One pass claims the outcome, and has not posted it.
pub(crate) const CLAIMED: u64 = 1;

/// The outcome was posted.
pub(crate) const POSTED: u64 = 2;

/// The slot of the store.
pub(crate) const STORE_SLOT: usize = 0;

/// The slot of the outcome.
pub(crate) const OUTCOME_SLOT: usize = 1;

/// The number of slots.
pub(crate) const SLOTS: usize = 2;
