//! Parities, with the number of assignments that satisfy each.

ghost use Rattle.std.specs.Prelude.{◌≤◌};

use crate::calls::{lit, var};
use crate::error::TourError;
use sat_api::{Answer, SatSolver};
use sat_lits::{Lit, Var};
use sat_ports::Silent;
use std::thread::Threads;

/// Counts the models of parities: of none and of up to nine variables, with repeats, and with
/// variables that a clause of one literal fixed before.
pub fn count_all<R: Print + AllocGlobal + Threads + Sync>(rt: &R) -> Result<(), TourError> {
    show_count(rt, 1, &[], &[], false)?;
    show_count(rt, 1, &[], &[], true)?;
    show_count(rt, 1, &[], &[1], true)?;
    show_count(rt, 1, &[], &[1, 1], true)?;
    show_count(rt, 2, &[], &[1, 2], false)?;
    show_count(rt, 3, &[], &[1, 1, 2], true)?;
    show_count(rt, 3, &[], &[3, 1, 3, 3], false)?;
    show_count(rt, 4, &[], &[4, 2, 1, 3], true)?;
    show_count(rt, 5, &[], &[1, 2, 3, 4, 5], true)?;
    show_count(rt, 6, &[], &[6, 5, 4, 3, 2, 1], false)?;
    show_count(rt, 7, &[-2], &[1, 2, 3, 4, 5, 6, 7], true)?;
    show_count(rt, 7, &[2, 7], &[1, 2, 3, 4, 5, 6, 7], true)?;
    show_count(rt, 3, &[1, -2, 3], &[1, 2, 3], false)?;
    show_count(rt, 3, &[1, -2, 3], &[1, 2, 3], true)?;
    show_count(rt, 8, &[-1], &[1, 2, 3, 4, 5, 6, 7, 8, 1, 8], false)?;
    show_count(rt, 9, &[], &[1, 2, 3, 4, 5, 6, 7, 8, 9], true)?;
    show_count(rt, 9, &[9], &[9, 8, 7, 6, 5, 4, 3, 2, 1, 5], false)
}

/// Shows how many models a parity has, over this many variables, some of which are fixed.
fn show_count<R: Print + AllocGlobal + Threads + Sync>(
    rt: &R,
    vars: u32,
    fixed: &[i32],
    numbers: &[u32],
    rhs: bool,
) -> Result<(), TourError>
    requires { vars ≤ 9 }
{
    let mut solver = SatSolver::new(rt.alloc());
    take(rt, &mut solver, vars, fixed, numbers, rhs)?;
    let count = count_models(rt, &mut solver, vars)?;
    println!(rt; "models of x{numbers:?} {rhs} with {fixed:?} over {vars} variables: {count}")?;
    Ok(())
}

/// Takes clauses of one literal, which a question fixes, and a parity.
fn take<R: AllocGlobal + Threads + Sync>(
    rt: &R,
    solver: &mut SatSolver,
    vars: u32,
    fixed: &[i32],
    numbers: &[u32],
    rhs: bool,
) -> Result<(), TourError> {
    solver.new_vars(vars)?;
    for number in fixed {
        solver.add_clause(&[lit(*number)])?;
    }
    solver.solve(rt, &[], &mut Silent::new())?;
    let named: Vec<Var> = numbers
        .iter()
        .map(|number| var(*number))
        .collect(rt.alloc())?;
    solver.add_xor_clause(&named, rhs)?;
    Ok(())
}

/// How many assignments of so many variables are models, found by a question under each.
fn count_models<R: Threads + Sync>(
    rt: &R,
    solver: &mut SatSolver,
    vars: u32,
) -> Result<u32, TourError>
    requires { vars ≤ 9 }
{
    let mut count = 0_u32;
    for choice in 0..1_u32.wrapping_shl(vars) {
        if is_model(rt, solver, vars, choice)? {
            count = count.saturating_add(1);
        }
    }
    Ok(count)
}

/// Whether the assignment whose values are the bits of a number is a model.
fn is_model<R: Threads + Sync>(
    rt: &R,
    solver: &mut SatSolver,
    vars: u32,
    choice: u32,
) -> Result<bool, TourError>
    requires { vars ≤ 9 }
{
    let mut lits = [lit(1); 9];
    for place in 0..9_u32 {
        lits[place as usize] = Lit {
            var: Var(place),
            negative: choice.wrapping_shr(place) % 2 == 0,
        };
    }
    let answer = solver.solve(rt, &lits[..vars as usize], &mut Silent::new())?;
    Ok(matches!(answer, Answer::Sat))
}
