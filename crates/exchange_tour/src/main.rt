//! A tour of exchanges: what two solvers on one thread give each other, and what they answer.
#![tactic(auto)]

ghost use Rattle.std.specs.Prelude.{◌≡◌, List};
ghost use Rattle.sat_lits.specs.Formulas.{no_problem};
ghost use Rattle.sat_lits.specs.declared.shared.Shared.{Shared};
ghost use Rattle.one_solver.specs.Parts.{problem_in};
ghost use Rattle.one_solver.specs.InStep.{IsInStep};
ghost use Rattle.exchange_tour.specs.Pairs.{AreNew};

mod clauses;
mod error;
mod exchange;
mod pigeons;
mod topics;
mod turns;

use error::TourError;
use exchange::show_exchange;
use one_solver::OneSolver;
use sat_lits::Formula;
use share_store::Store;
use topics::{TOPICS, Topic, Way};
use turns::show_search;

fn main(rt: HostRuntime) -> Result<(), TourError> {
    for topic in TOPICS {
        show(&rt, topic)?;
    }
    Ok(())
}

/// Shows a topic.
fn show<R: Print + AllocGlobal>(rt: &R, topic: Topic) -> Result<(), TourError> {
    println!(rt; "# {}", topic.title())?;
    let formula = topic.formula(rt.alloc())?;
    show_formula(rt, topic.way(), &formula)
}

/// Shows a formula with a new solver, and with what `show_beside` adds.
fn show_formula<R: Print + AllocGlobal>(
    rt: &R,
    way: Way,
    formula: &Formula,
) -> Result<(), TourError> {
    let mut first = OneSolver::new(rt.alloc(), 0);
    show_beside(rt, way, formula, &mut first)
}

/// Shows a formula with a second new solver beside the first one, and an empty log.
fn show_beside<R: Print + AllocGlobal>(
    rt: &R,
    way: Way,
    formula: &Formula,
    first: &mut OneSolver,
) -> Result<(), TourError>
    requires problem { problem_in first.old ≡ no_problem }
    requires in_step { (log : List Shared) → IsInStep first.old log }
{
    let mut second = OneSolver::new(rt.alloc(), 1);
    show_pair(rt, way, formula, first, &mut second)
}

/// Shows a formula with two new solvers and an empty log.
fn show_pair<R: Print + AllocGlobal>(
    rt: &R,
    way: Way,
    formula: &Formula,
    first: &mut OneSolver,
    second: &mut OneSolver,
) -> Result<(), TourError>
    requires first { problem_in first.old ≡ no_problem }
    requires second { problem_in second.old ≡ no_problem }
    requires first_step { (log : List Shared) → IsInStep first.old log }
    requires second_step { (log : List Shared) → IsInStep second.old log }
{
    let mut store = Store::new(rt.alloc());
    show_on(rt, way, formula, first, second, &mut store)
}

/// Shows a formula with two solvers that took nothing.
fn show_on<R: Print>(
    rt: &R,
    way: Way,
    formula: &Formula,
    first: &mut OneSolver,
    second: &mut OneSolver,
    store: &mut Store,
) -> Result<(), TourError>
    requires { AreNew first.old second.old store.old }
{
    match way {
        Way::Once => show_exchange(rt, formula, first, second, store),
        Way::InTurn => show_search(rt, formula, first, second, store),
    }
}
