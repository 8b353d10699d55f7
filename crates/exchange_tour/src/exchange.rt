ghost use Rattle.std.specs.Prelude.{◌≡◌};
ghost use Rattle.sat_lits.specs.Logs.{IsLegalLog};
ghost use Rattle.one_solver.specs.InStep.{IsInStep};
ghost use Rattle.one_solver.specs.Parts.{problem_in};
ghost use Rattle.exchange_tour.specs.Pairs.{AreNew, AreInStep, Exchanged};

use crate::error::TourError;
use one_solver::{OneSolver, StepAnswer};
use sat_lits::{Formula, Verdict};
use sat_ports::Silent;
use share_store::Store;

/// Shows what two solvers of the same formula give each other after the first one was asked, and
/// what the second one answers then.
pub fn show_exchange<R: Print>(
    rt: &R,
    formula: &Formula,
    first: &mut OneSolver,
    second: &mut OneSolver,
    store: &mut Store,
) -> Result<(), TourError>
    requires { AreNew first.old second.old store.old }
{
    first.absorb(formula)?;
    second.absorb(formula)?;
    ask(rt, formula, first, store)?;
    exchange_both(rt, first, second, store)?;
    show_log(rt, store)?;
    ask(rt, formula, second, store)
}

/// Begins a call without assumptions, and shows what its first interval answers.
fn ask<R: Print>(
    rt: &R,
    formula: &Formula,
    solver: &mut OneSolver,
    store: &Store,
) -> Result<(), TourError>
    requires legal { IsLegalLog (problem_in solver.old) store.now }
    requires in_step { IsInStep solver.old store.now }
    ensures in_step { IsInStep solver.new store.now }
    ensures problem { problem_in solver.new ≡ problem_in solver.old }
{
    solver.begin_call(&[])?;
    let answer = solver.step(None, &mut Silent::new());
    println!(rt;
        "solver {}: {}",
        solver.number(),
        answer_word(formula, &answer)
    )?;
    Ok(())
}

/// Shows an exchange of the first solver, one of the second, and one of the first again.
fn exchange_both<R: Print>(
    rt: &R,
    first: &mut OneSolver,
    second: &mut OneSolver,
    store: &mut Store,
) -> Result<(), TourError>
    requires { AreInStep first.old second.old store.old }
    ensures { AreInStep first.new second.new store.new }
{
    exchange(rt, first, store)?;
    exchange(rt, second, store)?;
    exchange(rt, first, store)
}

/// Shows how many clauses a solver gave, and how many it took from others.
fn exchange<R: Print>(rt: &R, solver: &mut OneSolver, store: &mut Store) -> Result<(), TourError>
    requires legal { IsLegalLog (problem_in solver.old) store.old }
    requires in_step { IsInStep solver.old store.old }
    ensures { Exchanged solver.old solver.new store.old store.new }
{
    let gave = solver.catch_up(store)?;
    println!(rt;
        "solver {} gave {gave} and took {}",
        solver.number(),
        solver.took()
    )?;
    Ok(())
}

/// Shows each shared clause.
fn show_log<R: Print>(rt: &R, store: &Store) -> Result<(), TourError> {
    for entry in store.from(0) {
        let clause = entry.clause.as_slice();
        println!(rt;
            "solver {}, after {}: {clause:?}",
            entry.solver, entry.after
        )?;
    }
    Ok(())
}

/// What an interval came to.
fn answer_word(formula: &Formula, answer: &StepAnswer) -> &'static str {
    match answer {
        StepAnswer::Verdict(verdict) => verdict_word(formula, verdict),
        StepAnswer::IntervalOver => "its interval is over",
        StepAnswer::Spent { .. } => "its limit is spent",
        StepAnswer::Asked => "a stop was asked for",
        StepAnswer::Memory => "memory ran out",
    }
}

/// What a verdict says.
pub fn verdict_word(formula: &Formula, verdict: &Verdict) -> &'static str {
    match verdict {
        Verdict::Sat(values) if is_model(formula, values.as_slice()) => "a right model",
        Verdict::Sat(_) => "a wrong model",
        Verdict::Unsat(_) => "no model",
    }
}

/// Whether these are values for the variables that satisfy every item.
fn is_model(formula: &Formula, values: &[bool]) -> bool {
    values.len() == formula.vars() as usize && formula.satisfied_by(values)
}
