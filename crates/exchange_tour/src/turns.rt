ghost use Rattle.std.specs.Prelude.{◌≡◌, Ok, None, List, OnOk};
ghost use Rattle.sat_lits.specs.Logs.{IsLegalLog};
ghost use Rattle.sat_lits.specs.Formulas.{no_problem};
ghost use Rattle.sat_lits.specs.declared.shared.Shared.{Shared};
ghost use Rattle.one_solver.specs.InStep.{IsInStep};
ghost use Rattle.one_solver.specs.Parts.{problem_in};
ghost use Rattle.one_solver.specs.Steps.{IsUnderWay};
ghost use Rattle.exchange_tour.specs.Pairs.{AreNew, AreInStep, Exchanged};

use crate::error::TourError;
use crate::exchange::verdict_word;
use one_solver::{OneSolver, StepAnswer};
use sat_lits::{Formula, NoMemory, Shared, Verdict};
use sat_ports::Silent;
use share_store::Store;

/// The most turns that each solver gets.
const MOST_TURNS: u32 = 1000;

/// Shows the verdict that two solvers of the same formula find in turn, and whether all that they
/// share is of the caller's variables.
pub fn show_search<R: Print>(
    rt: &R,
    formula: &Formula,
    first: &mut OneSolver,
    second: &mut OneSolver,
    store: &mut Store,
) -> Result<(), TourError>
    requires { AreNew first.old second.old store.old }
{
    enter(first, formula)?;
    enter(second, formula)?;
    let verdict = search_in_turn(first, second, store)?;
    let word = verdict
        .as_ref()
        .map_or("no verdict", |verdict| verdict_word(formula, verdict));
    println!(rt; "{word}")?;
    let vars = formula.vars();
    let outer = store.from(0).iter().all(|entry| is_of(entry, vars));
    println!(rt; "each shared clause is of the caller's variables: {outer}")?;
    Ok(())
}

/// Lets a solver take a formula and begin a call without assumptions.
fn enter(solver: &mut OneSolver, formula: &Formula) -> Result<(), TourError>
    requires { problem_in solver.old ≡ no_problem }
    ensures problem { OnOk result (problem_in solver.new ≡ formula.now.problem) }
    ensures under_way { OnOk result (IsUnderWay solver.new) }
    ensures in_step { (log : List Shared) → IsInStep solver.old log → IsInStep solver.new log }
{
    solver.absorb(formula)?;
    solver.begin_call(&[])?;
    Ok(())
}

/// One interval of a solver's call, and then its exchange.
fn take_turn(solver: &mut OneSolver, store: &mut Store) -> Result<Option<Verdict>, TourError>
    requires under_way { IsUnderWay solver.old }
    requires legal { IsLegalLog (problem_in solver.old) store.old }
    requires in_step { IsInStep solver.old store.old }
    ensures under_way { result ≡ Ok None → IsUnderWay solver.new }
    ensures exchanged { Exchanged solver.old solver.new store.old store.new }
{
    let answer = solver.step(None, &mut Silent::new());
    solver.catch_up(store)?;
    verdict_of(answer)
}

/// The verdict that an interval came to. None comes where it is only over.
fn verdict_of(answer: StepAnswer) -> Result<Option<Verdict>, TourError>
    ensures { result ≡ Ok None → answer ≡ StepAnswer.IntervalOver }
{
    match answer {
        StepAnswer::Verdict(verdict) => Ok(Some(verdict)),
        StepAnswer::IntervalOver => Ok(None),
        StepAnswer::Spent { .. } | StepAnswer::Asked | StepAnswer::Memory => {
            Err(TourError::from(NoMemory))
        }
    }
}

/// A turn of one solver, and then one of another, unless the first has a verdict.
fn take_turns(
    first: &mut OneSolver,
    second: &mut OneSolver,
    store: &mut Store,
) -> Result<Option<Verdict>, TourError>
    requires first { IsUnderWay first.old }
    requires second { IsUnderWay second.old }
    requires pair { AreInStep first.old second.old store.old }
    ensures first { result ≡ Ok None → IsUnderWay first.new }
    ensures second { result ≡ Ok None → IsUnderWay second.new }
    ensures pair { AreInStep first.new second.new store.new }
{
    if let Some(verdict) = take_turn(first, store)? {
        return Ok(Some(verdict));
    }
    take_turn(second, store)
}

/// Lets two solvers search and exchange clauses in turn, until one has a verdict. None comes where
/// there was none after many turns.
fn search_in_turn(
    first: &mut OneSolver,
    second: &mut OneSolver,
    store: &mut Store,
) -> Result<Option<Verdict>, TourError>
    requires first { IsUnderWay first.old }
    requires second { IsUnderWay second.old }
    requires pair { AreInStep first.old second.old store.old }
{
    'turns: for _ in 0..MOST_TURNS {
        if let Some(verdict) = take_turns(first, second, store)? {
            return Ok(Some(verdict));
        }
    }
    Ok(None)
}

/// Whether the variables of a shared clause are among so many.
fn is_of(entry: &Shared, vars: u32) -> bool {
    entry.clause.as_slice().iter().all(|lit| lit.var.0 < vars)
}
