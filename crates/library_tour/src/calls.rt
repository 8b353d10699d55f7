//! Calls of a solver, each written with what it answers.

ghost use Rattle.std.specs.Prelude.{◌≤◌, length};

use crate::error::TourError;
use sat_api::{Answer, Cause, SatSolver};
use sat_lits::{Lit, Var};
use sat_ports::{Alarm, Silent};
use std::thread::Threads;

/// Adds variables.
pub fn new_vars<R: Print>(rt: &R, solver: &mut SatSolver, by: u32) -> Result<(), TourError> {
    let answer = solver.new_vars(by);
    println!(rt; "new_vars {by}: {answer:?}")?;
    Ok(())
}

/// Adds the clause of these numbers.
pub fn add_clause<R: Print + AllocGlobal>(
    rt: &R,
    solver: &mut SatSolver,
    numbers: &[i32],
) -> Result<(), TourError> {
    let lits: Vec<Lit> = numbers
        .iter()
        .map(|number| lit(*number))
        .collect(rt.alloc())?;
    let answer = solver.add_clause(&lits);
    println!(rt; "add_clause {numbers:?}: {answer:?}")?;
    Ok(())
}

/// Adds the parity of the variables of these numbers.
pub fn add_xor_clause<R: Print + AllocGlobal>(
    rt: &R,
    solver: &mut SatSolver,
    numbers: &[u32],
    rhs: bool,
) -> Result<(), TourError> {
    let vars: Vec<Var> = numbers
        .iter()
        .map(|number| var(*number))
        .collect(rt.alloc())?;
    let answer = solver.add_xor_clause(&vars, rhs);
    println!(rt; "add_xor_clause {numbers:?} {rhs}: {answer:?}")?;
    Ok(())
}

/// The variable of a number that is not 0.
pub fn var(number: u32) -> Var {
    Var(number.saturating_sub(1))
}

/// Adds a clause that has the first variable so often.
pub fn add_long_clause<R: Print + AllocGlobal>(
    rt: &R,
    solver: &mut SatSolver,
    count: usize,
) -> Result<(), TourError> {
    let lits = vec![in rt.alloc(); lit(1); count]?;
    let answer = solver.add_clause(&lits);
    println!(rt; "add_clause of {count} literals: {answer:?}")?;
    Ok(())
}

/// The literal of a number that is not 0.
pub fn lit(number: i32) -> Lit {
    Lit {
        var: var(number.unsigned_abs()),
        negative: number < 0,
    }
}

/// Sets the conflict limit.
pub fn set_max_confl<R: Print>(
    rt: &R,
    solver: &mut SatSolver,
    limit: Option<u64>,
) -> Result<(), TourError> {
    solver.set_max_confl(limit);
    println!(rt; "set_max_confl {limit:?}")?;
    Ok(())
}

/// Asks under no assumption.
pub fn ask<R: Print + Threads + Sync>(rt: &R, solver: &mut SatSolver) -> Result<(), TourError> {
    ask_beside(rt, solver, &mut Silent::new())
}

/// Asks under no assumption, beside an alarm.
pub fn ask_beside<R: Print + Threads + Sync, A: Alarm + Send>(
    rt: &R,
    solver: &mut SatSolver,
    alarm: &mut A,
) -> Result<(), TourError> {
    match solver.solve(rt, &[], alarm)? {
        Answer::Sat => println!(rt; "solve: Sat")?,
        Answer::Unsat => println!(rt; "solve: Unsat")?,
        Answer::Unknown(Cause::Limit { counts }) => {
            let counts = counts.as_slice();
            println!(rt; "solve: Unknown, at {counts:?} conflicts")?;
        }
        Answer::Unknown(Cause::Alarm) => println!(rt; "solve: Unknown, by the alarm")?,
    }
    Ok(())
}

/// Asks under the assumptions of these numbers.
pub fn ask_under<R: Print + AllocGlobal + Threads + Sync>(
    rt: &R,
    solver: &mut SatSolver,
    numbers: &[i32],
) -> Result<(), TourError>
    requires { length numbers.now ≤ 100 }
{
    let lits: Vec<Lit> = numbers
        .iter()
        .map(|number| lit(*number))
        .collect(rt.alloc())?;
    match solver.solve(rt, &lits, &mut Silent::new()) {
        Ok(Answer::Sat) => println!(rt; "solve {numbers:?}: Sat")?,
        Ok(Answer::Unsat) => println!(rt; "solve {numbers:?}: Unsat")?,
        Ok(Answer::Unknown(_)) => println!(rt; "solve {numbers:?}: Unknown")?,
        Err(error) => println!(rt; "solve {numbers:?}: Err({error:?})")?,
    }
    Ok(())
}

/// Reads whether the clauses may have a model still.
pub fn read_okay<R: Print>(rt: &R, solver: &SatSolver) -> Result<(), TourError> {
    println!(rt; "okay: {}", solver.okay())?;
    Ok(())
}

/// Reads what the latest answer left.
pub fn read<R: Print>(rt: &R, solver: &SatSolver) -> Result<(), TourError> {
    let (model, conflict) = (solver.get_model(), solver.get_conflict());
    println!(rt; "get_model: {model:?}")?;
    println!(rt; "get_conflict: {conflict:?}")?;
    Ok(())
}
