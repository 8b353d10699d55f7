//! Calls of the library with several threads.

use crate::error::TourError;
use sat_api::{Answer, ApiError, SatSolver};
use sat_lits::{Lit, Shared, Var};
use sat_ports::Silent;
use std::thread::Threads;

/// The literal of a variable, which counts from 1, or its negation.
fn lit(number: i32) -> Lit {
    Lit {
        var: Var(number.unsigned_abs().saturating_sub(1)),
        negative: number < 0,
    }
}

/// Sets the number of threads.
fn set_num_threads<R: Print>(
    rt: &R,
    solver: &mut SatSolver,
    threads: u32,
) -> Result<(), TourError> {
    let answer = solver.set_num_threads(threads);
    println!(rt; "set_num_threads {threads}: {answer:?}")?;
    Ok(())
}

/// The number of threads is set before all else.
pub fn show_settings<R: Print + AllocGlobal + Threads + Sync>(rt: &R) -> Result<(), TourError> {
    println!(rt; "# The number of threads")?;
    let mut solver = SatSolver::new(rt.alloc());
    for threads in [0, 65, 64, 2] {
        set_num_threads(rt, &mut solver, threads)?;
    }
    let (all, more) = (solver.new_vars(16_777_215), solver.new_vars(1));
    println!(rt; "new_vars: {all:?}, {more:?}")?;
    for threads in [0, 2] {
        set_num_threads(rt, &mut solver, threads)?;
    }
    println!(rt; "n_vars: {}", solver.n_vars())?;
    let mut asked = SatSolver::new(rt.alloc());
    solve(rt, &mut asked, &[])?;
    set_num_threads(rt, &mut asked, 2)
}

/// Asks under assumptions, and tells the answer.
fn solve<R: Print + Threads + Sync>(
    rt: &R,
    solver: &mut SatSolver,
    assumptions: &[Lit],
) -> Result<(), TourError> {
    if assumptions.len() > 100 {
        return Ok(());
    }
    match solver.solve(rt, assumptions, &mut Silent::new()) {
        Ok(Answer::Sat) => println!(rt; "solve: Sat")?,
        Ok(Answer::Unsat) => println!(rt; "solve: Unsat")?,
        Ok(Answer::Unknown(_)) => println!(rt; "solve: Unknown")?,
        Err(error) => println!(rt; "solve: Err({error:?})")?,
    }
    let (model, conflict) = (solver.get_model(), solver.get_conflict());
    println!(rt; "  get_model {model:?}")?;
    println!(rt; "  get_conflict {conflict:?}, okay {}", solver.okay())?;
    Ok(())
}

/// Whether no clause stands twice.
fn are_different(entries: &[Shared]) -> bool {
    entries.iter().enumerate().all(|(place, entry)| {
        let before = entries.iter().take(place);
        before
            .filter(|other| other.clause.as_slice() == entry.clause.as_slice())
            .count()
            == 0
    })
}

/// Questions to some threads, of clauses with one model, and then of a parity more.
pub fn show_questions<R: Print + AllocGlobal + Threads + Sync>(
    rt: &R,
    threads: u32,
) -> Result<(), TourError> {
    println!(rt; "# Questions to {threads} threads")?;
    let mut solver = SatSolver::new(rt.alloc());
    solver.set_num_threads(threads)?;
    solver.new_vars(2)?;
    for clause in [[lit(1), lit(2)], [lit(-1), lit(2)], [lit(1), lit(-2)]] {
        solver.add_clause(&clause)?;
    }
    let refused: Result<(), ApiError> = solver.add_clause(&[lit(3)]);
    println!(rt; "add_clause of a third variable: {refused:?}")?;
    solve(rt, &mut solver, &[lit(-1)])?;
    solve(rt, &mut solver, &[])?;
    solve(rt, &mut solver, &[lit(3)])?;
    solver.add_xor_clause(&[Var(0), Var(1)], true)?;
    println!(rt; "get_model {:?}", solver.get_model())?;
    solve(rt, &mut solver, &[])?;
    println!(rt; "given up: {}", solver.given_up())?;
    let shared = solver.shared();
    let is_given = shared.iter().all(|entry| entry.solver < threads);
    println!(rt;
        "shared by these threads: {is_given}, each once: {}",
        are_different(shared)
    )?;
    Ok(())
}
