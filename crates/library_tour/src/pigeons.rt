use crate::error::TourError;
use sat_api::SatSolver;
use sat_lits::{Lit, Var};

/// Adds that so many pigeons sit in so many holes, no two in one.
pub fn add_pigeons<R: Print + AllocGlobal>(
    rt: &R,
    solver: &mut SatSolver,
    pigeons: u8,
    holes: u8,
) -> Result<(), TourError> {
    solver.new_vars(u32::from(pigeons) * u32::from(holes))?;
    for pigeon in 0..pigeons {
        add_some_hole(rt, solver, holes, pigeon)?;
        for other in 0..pigeon {
            add_no_common_hole(solver, holes, pigeon, other)?;
        }
    }
    println!(rt; "{pigeons} pigeons in {holes} holes")?;
    Ok(())
}

/// Adds that a pigeon sits in some hole.
fn add_some_hole<R: AllocGlobal>(
    rt: &R,
    solver: &mut SatSolver,
    holes: u8,
    pigeon: u8,
) -> Result<(), TourError> {
    let mut lits = Vec::new(rt.alloc());
    for hole in 0..holes {
        lits.push(sits(holes, pigeon, hole, false))?;
    }
    solver.add_clause(&lits)?;
    Ok(())
}

/// Adds that two pigeons sit in no common hole.
fn add_no_common_hole(
    solver: &mut SatSolver,
    holes: u8,
    pigeon: u8,
    other: u8,
) -> Result<(), TourError> {
    for hole in 0..holes {
        let lits = [
            sits(holes, pigeon, hole, true),
            sits(holes, other, hole, true),
        ];
        solver.add_clause(&lits)?;
    }
    Ok(())
}

/// The literal that says that a pigeon sits in a hole, or that it does not.
fn sits(holes: u8, pigeon: u8, hole: u8, negative: bool) -> Lit {
    Lit {
        var: Var(u32::from(pigeon) * u32::from(holes) + u32::from(hole)),
        negative,
    }
}
