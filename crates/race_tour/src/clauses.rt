//! Formulas and literals by numbers, as in a DIMACS text: 1 is the first variable, and -1 its
//! negation.

use crate::error::TourError;
use sat_lits::{Formula, Limits, Lit, Var};
use std::alloc::Global;

/// The formula of these clauses.
pub fn formula_of(alloc: Global, vars: u32, clauses: &[&[i32]]) -> Result<Formula, TourError> {
    let mut formula = Formula::new(alloc, Limits::standard());
    formula.grow(vars)?;
    for numbers in clauses {
        let lits = lits_of(alloc, numbers)?;
        formula.push_clause(&lits)?;
    }
    Ok(formula)
}

/// The literals of these numbers.
fn lits_of(alloc: Global, numbers: &[i32]) -> Result<Vec<Lit>, TourError> {
    let lits = numbers.iter().map(|number| lit(*number)).collect(alloc)?;
    Ok(lits)
}

/// The literal of a number that is not 0.
fn lit(number: i32) -> Lit {
    Lit {
        var: Var(number.unsigned_abs().saturating_sub(1)),
        negative: number < 0,
    }
}
