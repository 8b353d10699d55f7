//! What a race came to, in words.

use crate::error::TourError;
use crate::racing::Run;
use race::RaceAnswer;
use sat_lits::{Formula, List, Lit, Verdict};

/// Shows what a race came to.
pub fn show<R: Print>(rt: &R, name: &str, formula: &Formula, run: &Run) -> Result<(), TourError> {
    match &run.answer {
        RaceAnswer::Verdict(Verdict::Sat(values)) => show_model(rt, name, formula, values)?,
        RaceAnswer::Verdict(Verdict::Unsat(failed)) => show_failed(rt, name, failed)?,
        RaceAnswer::Interrupted => println!(rt; "{name}: interrupted")?,
        RaceAnswer::Spent { counts } => println!(rt; "{name}: spent {:?}", counts.as_slice())?,
        RaceAnswer::Memory => println!(rt; "{name}: memory ran out")?,
    }
    if !run.whole {
        println!(rt; "a solver did not take the whole formula")?;
    }
    Ok(())
}

/// Shows the values of a model.
pub fn show_values<R: Print>(rt: &R, run: &Run) -> Result<(), TourError> {
    if let RaceAnswer::Verdict(Verdict::Sat(values)) = &run.answer {
        let values = values.as_slice();
        println!(rt; "values: {values:?}")?;
    }
    Ok(())
}

/// Shows that a formula has a model, and whether the one that was found is right.
fn show_model<R: Print>(
    rt: &R,
    name: &str,
    formula: &Formula,
    values: &List<bool>,
) -> Result<(), TourError> {
    let right = is_model(formula, values.as_slice());
    println!(rt;
        "{name}: Sat, by a model that is {}",
        if right { "right" } else { "wrong" }
    )?;
    Ok(())
}

/// Shows which assumptions failed.
fn show_failed<R: Print>(rt: &R, name: &str, failed: &List<Lit>) -> Result<(), TourError> {
    let failed = failed.as_slice();
    println!(rt; "{name}: Unsat {failed:?}")?;
    Ok(())
}

/// Whether these are values for the variables that satisfy every item.
pub fn is_model(formula: &Formula, values: &[bool]) -> bool {
    values.len() == formula.vars() as usize && formula.satisfied_by(values)
}

/// Whether an answer is the verdict that a formula has a model, or that it has none.
pub fn has_verdict(formula: &Formula, run: &Run, sat: bool) -> bool {
    match &run.answer {
        RaceAnswer::Verdict(Verdict::Sat(values)) => sat && is_model(formula, values.as_slice()),
        RaceAnswer::Verdict(Verdict::Unsat(failed)) => !sat && failed.as_slice().is_empty(),
        _ => false,
    }
}
