use crate::held::Held;
use crate::view::View;
use atomic_table::{Table, TableRule};
use sat_lits::{Formula, List, Lit};
use std::alloc::Global;
use std::snapshot::Snapshot;

/// The question of an exchange. It has no formula and no list in it; proofs read them all the same.
#[derive(Drop)]
pub(crate) struct Asked {
    pub(crate) formula: Snapshot<Formula>,
    pub(crate) assumptions: Snapshot<List<Lit>>,
    pub(crate) solvers: u32,
}

/// The rule that the table is under after every step.
pub(crate) struct Turns;

impl TableRule<Option<Held>, View, Asked> for Turns {
    ghost use Rattle.share_turn.specs.Views.{question, opening_view};
    ghost use Rattle.share_turn.specs.Board.{HasBoard};

    ghost holds = { λ key. HasBoard (question key.formula.value key.assumptions.value key.solvers) };

    ghost first = { λ key. opening_view (question key.formula.value key.assumptions.value key.solvers) };
}

pub(crate) type TurnTable = Table<Option<Held>, View, Asked, Turns, Global>;
