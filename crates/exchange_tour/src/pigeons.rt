use crate::error::TourError;
use sat_lits::{Formula, Limits, Lit, Var};
use std::alloc::Global;

/// The formula that so many pigeons sit in so many holes, no two in one.
pub fn pigeons_in(alloc: Global, pigeons: u8, holes: u8) -> Result<Formula, TourError> {
    let mut formula = Formula::new(alloc, Limits::standard());
    formula.grow(u32::from(pigeons) * u32::from(holes))?;
    for pigeon in 0..pigeons {
        add_some_hole(alloc, &mut formula, holes, pigeon)?;
        for other in 0..pigeon {
            add_no_common_hole(&mut formula, holes, pigeon, other)?;
        }
    }
    Ok(formula)
}

/// Adds that a pigeon sits in some hole.
fn add_some_hole(
    alloc: Global,
    formula: &mut Formula,
    holes: u8,
    pigeon: u8,
) -> Result<(), TourError> {
    let mut lits = Vec::new(alloc);
    for hole in 0..holes {
        lits.push(sits(holes, pigeon, hole, false))?;
    }
    formula.push_clause(&lits)?;
    Ok(())
}

/// Adds that two pigeons sit in no common hole.
fn add_no_common_hole(
    formula: &mut Formula,
    holes: u8,
    pigeon: u8,
    other: u8,
) -> Result<(), TourError> {
    for hole in 0..holes {
        let lits = [
            sits(holes, pigeon, hole, true),
            sits(holes, other, hole, true),
        ];
        formula.push_clause(&lits)?;
    }
    Ok(())
}

/// The literal that says that a pigeon sits in a hole, or that it does not.
fn sits(holes: u8, pigeon: u8, hole: u8, negative: bool) -> Lit {
    Lit {
        var: Var(u32::from(pigeon) * u32::from(holes) + u32::from(hole)),
        negative,
    }
}
