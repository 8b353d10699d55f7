// What a pass knows. Proofs alone see these types; no value of them is made.
use crate::held::Outcome;
use sat_lits::{Formula, List, Lit, Shared};
use std::collections::LinkedList;

/// What a pass has of the turn. In `Away` the store's slot is in the pass's hand.
pub enum Phase {
    /// It does not have the turn.
    Free,
    /// It has the turn, and the store is at home.
    Won,
    /// The store, with this log, is on its way out or back.
    Away(LinkedList<Shared>),
    /// The store, with this log when it went out, is in the solver's hand.
    Out(LinkedList<Shared>),
    /// The store is at home again, with this log.
    Back(LinkedList<Shared>),
}

/// What a pass has of the outcome. In `Lifted` the outcome's slot is in the pass's hand.
pub enum Claim {
    Quiet,
    Claimed,
    Lifted,
    Put,
}

/// What all passes of an exchange agree on.
pub struct Question {
    pub formula: Formula,
    pub assumptions: List<Lit>,
    /// The number of solvers; each entry's solver is below it.
    pub solvers: u32,
}

/// What a pass knows of its exchange.
pub struct View {
    pub question: Question,
    /// A log that the store had.
    pub seen: LinkedList<Shared>,
    /// What the pass that was joined last had seen, until the next step.
    pub told: LinkedList<Shared>,
    pub turn: Phase,
    pub claim: Claim,
    /// It knows that an outcome was posted.
    pub posted: bool,
    /// The outcome that it posted, or that a pass that was joined into it had posted.
    pub outcome: Option<Outcome>,
    /// It came too late with an outcome.
    pub late: bool,
    /// It posted `Halted`.
    pub alarmed: bool,
    /// It is the first pass.
    pub first: bool,
    /// How many passes it split off, and how many it joined.
    pub splits: u64,
    pub joins: u64,
    /// It was joined into the first pass.
    pub spent: bool,
    /// How often it tried to take the turn, and how often it looked for an outcome.
    pub tries: u64,
    pub looks: u64,
}
