use crate::clauses::{add_parity, formula_of};
use crate::error::TourError;
use crate::pigeons::pigeons_in;
use sat_lits::Formula;
use std::alloc::Global;

/// What the tour shows.
#[derive(Clone, Copy)]
pub enum Topic {
    TwoLiterals,
    CutParity,
    TooManyPigeons,
    EnoughHoles,
    OpposedParities,
}

/// How two solvers treat a formula.
#[derive(Clone, Copy)]
pub enum Way {
    /// One is asked, they exchange clauses, and then the other is asked.
    Once,
    /// They search and exchange clauses in turn.
    InTurn,
}

/// The topics in order.
pub const TOPICS: [Topic; 5] = [
    Topic::TwoLiterals,
    Topic::CutParity,
    Topic::TooManyPigeons,
    Topic::EnoughHoles,
    Topic::OpposedParities,
];

impl Topic {
    /// What stands above its lines.
    pub fn title(self) -> &'static str {
        match self {
            Topic::TwoLiterals => "1 and -1 2",
            Topic::CutParity => {
                "A parity of 6 variables, which is cut, and all but the last of them"
            }
            Topic::TooManyPigeons => "6 pigeons in 5 holes, in turn",
            Topic::EnoughHoles => "5 pigeons in 5 holes, in turn",
            Topic::OpposedParities => "Parities that contradict each other, in turn",
        }
    }

    /// What the solvers do.
    pub fn way(self) -> Way {
        match self {
            Topic::TwoLiterals | Topic::CutParity => Way::Once,
            Topic::TooManyPigeons | Topic::EnoughHoles | Topic::OpposedParities => Way::InTurn,
        }
    }

    /// Its formula.
    pub fn formula(self, alloc: Global) -> Result<Formula, TourError> {
        match self {
            Topic::TwoLiterals => formula_of(alloc, 2, &[&[1], &[-1, 2]]),
            Topic::CutParity => cut_parity(alloc),
            Topic::TooManyPigeons => pigeons_in(alloc, 6, 5),
            Topic::EnoughHoles => pigeons_in(alloc, 5, 5),
            Topic::OpposedParities => opposed_parities(alloc),
        }
    }
}

/// An odd number of 6 variables is true, and so are the first 5 of them.
fn cut_parity(alloc: Global) -> Result<Formula, TourError> {
    let mut formula = formula_of(alloc, 6, &[&[1], &[2], &[3], &[4], &[5]])?;
    add_parity(alloc, &mut formula, 0, 6)?;
    Ok(formula)
}

/// An odd number of 8 variables is true, and an odd number of each two of them.
fn opposed_parities(alloc: Global) -> Result<Formula, TourError> {
    let mut formula = formula_of(alloc, 8, &[])?;
    add_parity(alloc, &mut formula, 0, 8)?;
    for first in [0, 2, 4, 6] {
        add_parity(alloc, &mut formula, first, 2)?;
    }
    Ok(formula)
}
