//! A tour of the library: what a program that uses it writes, and what each call answers.
//!
//! A clause is written by numbers, as in a DIMACS text: 1 is the first variable, and -1 its
//! negation. The library counts variables from 0. Each topic has a solver of its own.
#![tactic(auto)]

mod calls;
mod error;
mod parities;
mod pigeons;

use calls::{
    add_clause, add_long_clause, add_xor_clause, ask, ask_beside, ask_under, lit, new_vars, read,
    read_okay, set_max_confl,
};
use error::TourError;
use parities::count_all;
use pigeons::add_pigeons;
use sat_api::{Answer, SatSolver};
use sat_lits::Limits;
use sat_ports::{AtPolls, Silent};
use std::alloc::Global;
use std::thread::Threads;

fn main(rt: HostRuntime) -> Result<(), TourError> {
    for topic in TOPICS {
        show(&rt, topic)?;
    }
    println!(rt; "# Models of parities")?;
    count_all(&rt)
}

/// What the tour shows.
#[derive(Clone, Copy)]
enum Topic {
    FirstQuestion,
    OneModel,
    UnderAssumptions,
    AskedAgain,
    EquivalentVariables,
    NamedAgain,
    Parities,
    ParitiesAlone,
    MoreAfterAnswers,
    TheEmptyClause,
    RefusedVariables,
    RefusedClauses,
    TooManyLiterals,
    OwnLimits,
    SpentLimit,
    Interrupted,
    EqualCounts,
    ManyConflicts,
}

/// The topics in order.
const TOPICS: [Topic; 18] = [
    Topic::FirstQuestion,
    Topic::OneModel,
    Topic::UnderAssumptions,
    Topic::AskedAgain,
    Topic::EquivalentVariables,
    Topic::NamedAgain,
    Topic::Parities,
    Topic::ParitiesAlone,
    Topic::MoreAfterAnswers,
    Topic::TheEmptyClause,
    Topic::RefusedVariables,
    Topic::RefusedClauses,
    Topic::TooManyLiterals,
    Topic::OwnLimits,
    Topic::SpentLimit,
    Topic::Interrupted,
    Topic::EqualCounts,
    Topic::ManyConflicts,
];

/// Shows a topic on a new solver.
fn show<R: Print + AllocGlobal + Threads + Sync>(rt: &R, topic: Topic) -> Result<(), TourError> {
    let mut solver = solver_for(rt.alloc(), topic);
    show_on(rt, topic, &mut solver)
}

/// The solver of a topic: with limits of its own, or with the standard ones.
fn solver_for(alloc: Global, topic: Topic) -> SatSolver {
    match (topic, Limits::new(2, 3, 1, 100)) {
        (Topic::OwnLimits, Some(limits)) => SatSolver::with_limits(alloc, limits),
        _ => SatSolver::new(alloc),
    }
}

/// Shows a topic on a solver that took nothing.
fn show_on<R: Print + AllocGlobal + Threads + Sync>(
    rt: &R,
    topic: Topic,
    solver: &mut SatSolver,
) -> Result<(), TourError> {
    match topic {
        Topic::FirstQuestion => first_question(rt, solver),
        Topic::OneModel => one_model(rt, solver),
        Topic::UnderAssumptions => under_assumptions(rt, solver),
        Topic::AskedAgain => asked_again(rt, solver),
        Topic::EquivalentVariables => equivalent_variables(rt, solver),
        Topic::NamedAgain => named_again(rt, solver),
        Topic::Parities => a_parity_more(rt, solver),
        Topic::ParitiesAlone => parities_alone(rt, solver),
        Topic::MoreAfterAnswers => more_after_answers(rt, solver),
        Topic::TheEmptyClause => the_empty_clause(rt, solver),
        Topic::RefusedVariables => refused_variables(rt, solver),
        Topic::RefusedClauses => refused_clauses(rt, solver),
        Topic::TooManyLiterals => too_many_literals(rt, solver),
        Topic::OwnLimits => own_limits(rt, solver),
        Topic::SpentLimit => spent_limit(rt, solver),
        Topic::Interrupted => interrupted(rt, solver),
        Topic::EqualCounts => equal_counts(rt, solver),
        Topic::ManyConflicts => many_conflicts(rt, solver),
    }
}

/// The library in a dozen lines.
fn first_question<R: Print + Threads + Sync>(
    rt: &R,
    solver: &mut SatSolver,
) -> Result<(), TourError> {
    println!(rt; "# A first question")?;
    solver.new_vars(2)?;
    solver.add_clause(&[lit(1), lit(2)])?;
    solver.add_clause(&[lit(-1), lit(2)])?;
    match solver.solve(rt, &[lit(-2)], &mut Silent::new())? {
        Answer::Sat => println!(rt; "the second variable may be false")?,
        Answer::Unsat => println!(rt; "the second variable is never false")?,
        Answer::Unknown(_) => println!(rt; "it is not known")?,
    }
    solver.add_clause(&[lit(-1)])?;
    solver.solve(rt, &[], &mut Silent::new())?;
    let model = solver.get_model();
    println!(rt; "with a clause more: {model:?}")?;
    Ok(())
}

/// Clauses that one assignment satisfies. A refused call between a question and its answer leaves
/// the answer.
fn one_model<R: Print + AllocGlobal + Threads + Sync>(
    rt: &R,
    solver: &mut SatSolver,
) -> Result<(), TourError> {
    println!(rt; "# One model")?;
    new_vars(rt, solver, 2)?;
    add_clause(rt, solver, &[1, 2])?;
    add_clause(rt, solver, &[-1, 2])?;
    add_clause(rt, solver, &[1, -2])?;
    ask(rt, solver)?;
    add_clause(rt, solver, &[3])?;
    read(rt, solver)
}

/// The conflict is the clause of the negated failed assumptions. A question that is refused leaves
/// the answer before it.
fn under_assumptions<R: Print + AllocGlobal + Threads + Sync>(
    rt: &R,
    solver: &mut SatSolver,
) -> Result<(), TourError> {
    println!(rt; "# Under assumptions")?;
    new_vars(rt, solver, 2)?;
    add_clause(rt, solver, &[1, 2])?;
    add_clause(rt, solver, &[-1, 2])?;
    add_clause(rt, solver, &[1, -2])?;
    ask_under(rt, solver, &[-1])?;
    read(rt, solver)?;
    read_okay(rt, solver)?;
    ask_under(rt, solver, &[])?;
    read(rt, solver)?;
    ask_under(rt, solver, &[-1, 3])?;
    read(rt, solver)?;
    ask_under(rt, solver, &[1, 2, 1])?;
    read(rt, solver)?;
    ask_under(rt, solver, &[-2, 1, -1])?;
    read_okay(rt, solver)
}

/// The same question again after an addition, until the clauses alone contradict each other.
fn asked_again<R: Print + AllocGlobal + Threads + Sync>(
    rt: &R,
    solver: &mut SatSolver,
) -> Result<(), TourError> {
    println!(rt; "# Asked again")?;
    new_vars(rt, solver, 3)?;
    add_clause(rt, solver, &[1, 2, 3])?;
    ask_under(rt, solver, &[-2, -1])?;
    read(rt, solver)?;
    add_clause(rt, solver, &[-3])?;
    ask_under(rt, solver, &[-2, -1])?;
    read(rt, solver)?;
    read_okay(rt, solver)?;
    add_clause(rt, solver, &[-2])?;
    ask_under(rt, solver, &[3, -1])?;
    ask_under(rt, solver, &[1])?;
    read(rt, solver)?;
    add_clause(rt, solver, &[-1])?;
    ask_under(rt, solver, &[3])?;
    ask(rt, solver)?;
    read(rt, solver)?;
    read_okay(rt, solver)?;
    ask_under(rt, solver, &[2])?;
    read(rt, solver)
}

/// Variables that the clauses make equal, in questions one after another.
fn equivalent_variables<R: Print + AllocGlobal + Threads + Sync>(
    rt: &R,
    solver: &mut SatSolver,
) -> Result<(), TourError> {
    println!(rt; "# Equivalent variables")?;
    new_vars(rt, solver, 2)?;
    add_clause(rt, solver, &[1, -2])?;
    add_clause(rt, solver, &[-1, 2])?;
    ask_under(rt, solver, &[1])?;
    read(rt, solver)?;
    ask_under(rt, solver, &[1, -2])?;
    read(rt, solver)?;
    read_okay(rt, solver)?;
    add_clause(rt, solver, &[-1])?;
    ask(rt, solver)?;
    read(rt, solver)?;
    ask_under(rt, solver, &[2])?;
    read(rt, solver)
}

/// Clauses and assumptions that name variables which the questions before them had no more need of.
fn named_again<R: Print + AllocGlobal + Threads + Sync>(
    rt: &R,
    solver: &mut SatSolver,
) -> Result<(), TourError> {
    println!(rt; "# Variables that are named again")?;
    new_vars(rt, solver, 4)?;
    add_clause(rt, solver, &[-1, 2])?;
    add_clause(rt, solver, &[-2, 3])?;
    add_clause(rt, solver, &[-3, 4])?;
    ask(rt, solver)?;
    ask_under(rt, solver, &[1, -4])?;
    read(rt, solver)?;
    ask_under(rt, solver, &[1])?;
    read(rt, solver)?;
    add_clause(rt, solver, &[-4])?;
    add_clause(rt, solver, &[3, 1])?;
    ask(rt, solver)?;
    read(rt, solver)?;
    read_okay(rt, solver)
}

/// A parity that the only model of some clauses does not satisfy. One that is refused is not taken.
fn a_parity_more<R: Print + AllocGlobal + Threads + Sync>(
    rt: &R,
    solver: &mut SatSolver,
) -> Result<(), TourError> {
    println!(rt; "# Parities")?;
    new_vars(rt, solver, 2)?;
    add_clause(rt, solver, &[1, 2])?;
    add_clause(rt, solver, &[-1, 2])?;
    add_clause(rt, solver, &[1, -2])?;
    ask(rt, solver)?;
    add_xor_clause(rt, solver, &[2, 3, 4], true)?;
    read(rt, solver)?;
    add_xor_clause(rt, solver, &[1, 2], true)?;
    read(rt, solver)?;
    ask(rt, solver)?;
    read(rt, solver)?;
    read_okay(rt, solver)
}

/// Three parities of which each two leave a model, and a variable that stands twice cancels.
fn parities_alone<R: Print + AllocGlobal + Threads + Sync>(
    rt: &R,
    solver: &mut SatSolver,
) -> Result<(), TourError> {
    println!(rt; "# Parities alone")?;
    new_vars(rt, solver, 3)?;
    add_xor_clause(rt, solver, &[1, 2], true)?;
    add_xor_clause(rt, solver, &[2, 3], true)?;
    ask_under(rt, solver, &[1])?;
    read(rt, solver)?;
    add_xor_clause(rt, solver, &[1, 1], false)?;
    ask_under(rt, solver, &[-1])?;
    read(rt, solver)?;
    add_xor_clause(rt, solver, &[1, 3], true)?;
    ask(rt, solver)?;
    read(rt, solver)
}

/// A solver of at most two variables, and of three literals over all clauses and parities.
fn own_limits<R: Print + AllocGlobal + Threads + Sync>(
    rt: &R,
    solver: &mut SatSolver,
) -> Result<(), TourError> {
    println!(rt; "# At most 2 variables and 3 literals")?;
    new_vars(rt, solver, 3)?;
    new_vars(rt, solver, 2)?;
    add_clause(rt, solver, &[1, 2, 1, 2])?;
    add_clause(rt, solver, &[-1, -1, -1])?;
    add_clause(rt, solver, &[2])?;
    add_xor_clause(rt, solver, &[2], false)?;
    ask_under(rt, solver, &[2])?;
    read(rt, solver)
}

/// A solver is asked twice, takes more, and is asked again, until nothing satisfies it. More
/// variables do not help it then.
fn more_after_answers<R: Print + AllocGlobal + Threads + Sync>(
    rt: &R,
    solver: &mut SatSolver,
) -> Result<(), TourError> {
    println!(rt; "# More after answers")?;
    new_vars(rt, solver, 1)?;
    add_clause(rt, solver, &[1])?;
    ask(rt, solver)?;
    ask(rt, solver)?;
    read(rt, solver)?;
    new_vars(rt, solver, 1)?;
    read(rt, solver)?;
    add_clause(rt, solver, &[-1, -2])?;
    ask(rt, solver)?;
    read(rt, solver)?;
    add_clause(rt, solver, &[-1, 2])?;
    ask(rt, solver)?;
    read(rt, solver)?;
    new_vars(rt, solver, 1)?;
    read(rt, solver)?;
    ask(rt, solver)?;
    read(rt, solver)
}

/// Nothing satisfies the empty clause. Without clauses everything is satisfied.
fn the_empty_clause<R: Print + AllocGlobal + Threads + Sync>(
    rt: &R,
    solver: &mut SatSolver,
) -> Result<(), TourError> {
    println!(rt; "# The empty clause")?;
    ask(rt, solver)?;
    read(rt, solver)?;
    add_clause(rt, solver, &[])?;
    ask(rt, solver)?;
    read(rt, solver)
}

/// There are at most 16777215 variables.
fn refused_variables<R: Print>(rt: &R, solver: &mut SatSolver) -> Result<(), TourError> {
    println!(rt; "# Refused variables")?;
    new_vars(rt, solver, 16_777_215)?;
    new_vars(rt, solver, 1)?;
    println!(rt; "n_vars: {}", solver.n_vars())?;
    Ok(())
}

/// A clause is over variables that are there. One that is refused is not among the clauses.
fn refused_clauses<R: Print + AllocGlobal + Threads + Sync>(
    rt: &R,
    solver: &mut SatSolver,
) -> Result<(), TourError> {
    println!(rt; "# Refused clauses")?;
    new_vars(rt, solver, 1)?;
    add_clause(rt, solver, &[1])?;
    add_clause(rt, solver, &[-1, -3, 2])?;
    ask(rt, solver)?;
    read(rt, solver)
}

/// There are at most 33554432 literals over all clauses. What was there before stays.
fn too_many_literals<R: Print + AllocGlobal + Threads + Sync>(
    rt: &R,
    solver: &mut SatSolver,
) -> Result<(), TourError> {
    println!(rt; "# Too many literals")?;
    new_vars(rt, solver, 1)?;
    add_clause(rt, solver, &[-1])?;
    add_long_clause(rt, solver, 33_554_432)?;
    ask(rt, solver)?;
    read(rt, solver)
}

/// With a conflict limit of 0 a question without units stays open. Without a limit it is decided.
fn spent_limit<R: Print + AllocGlobal + Threads + Sync>(
    rt: &R,
    solver: &mut SatSolver,
) -> Result<(), TourError> {
    println!(rt; "# A conflict limit, spent and lifted")?;
    add_pigeons(rt, solver, 6, 5)?;
    set_max_confl(rt, solver, Some(0))?;
    ask(rt, solver)?;
    read(rt, solver)?;
    set_max_confl(rt, solver, None)?;
    ask(rt, solver)?;
    read(rt, solver)?;
    set_max_confl(rt, solver, Some(0))?;
    read(rt, solver)
}

/// One alarm beside three questions. It ends the first before its search and the second within it.
/// The clauses stay, so the third decides them.
fn interrupted<R: Print + AllocGlobal + Threads + Sync>(
    rt: &R,
    solver: &mut SatSolver,
) -> Result<(), TourError> {
    println!(rt; "# An interrupted question, asked again")?;
    add_pigeons(rt, solver, 6, 5)?;
    println!(rt; "an alarm at polls [0, 4]")?;
    let mut alarm = AtPolls::new(&[0, 4]);
    ask_beside(rt, solver, &mut alarm)?;
    read(rt, solver)?;
    ask_beside(rt, solver, &mut alarm)?;
    read(rt, solver)?;
    read_okay(rt, solver)?;
    ask_beside(rt, solver, &mut alarm)?;
    read(rt, solver)
}

/// As many pigeons as holes. Of the models that there are, any may come.
fn equal_counts<R: Print + AllocGlobal + Threads + Sync>(
    rt: &R,
    solver: &mut SatSolver,
) -> Result<(), TourError> {
    println!(rt; "# As many holes as pigeons")?;
    add_pigeons(rt, solver, 6, 6)?;
    ask(rt, solver)?;
    let true_count = solver
        .get_model()
        .map(|values| values.iter().filter(|value| **value).count());
    println!(rt; "true values in the model: {true_count:?}")?;
    Ok(())
}

/// A question that takes more conflicts than the first interval of a search has.
fn many_conflicts<R: Print + AllocGlobal + Threads + Sync>(
    rt: &R,
    solver: &mut SatSolver,
) -> Result<(), TourError> {
    println!(rt; "# Many conflicts")?;
    add_pigeons(rt, solver, 8, 7)?;
    ask(rt, solver)?;
    let is_long = solver.conflicts() > 100;
    println!(rt; "conflicts above 100: {is_long}")?;
    Ok(())
}
