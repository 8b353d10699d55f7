//! Pigeons in holes, no two in one.

use crate::error::TourError;
use std::alloc::Global;

/// The number of the variable that says that a pigeon sits in a hole.
fn place(holes: i32, pigeon: i32, hole: i32) -> i32 {
    pigeon
        .wrapping_mul(holes)
        .wrapping_add(hole)
        .wrapping_add(1)
}

/// Writes that a pigeon sits in some hole.
fn write_pigeon(text: &mut String, holes: i32, pigeon: i32) -> Result<(), TourError> {
    for hole in 0..holes {
        write!(text, "{} ", place(holes, pigeon, hole))?;
    }
    writeln!(text, "0")?;
    Ok(())
}

/// Writes that a pigeon sits in no hole with one before it.
fn write_pairs(text: &mut String, holes: i32, pigeon: i32) -> Result<(), TourError> {
    for hole in 0..holes {
        for other in 0..pigeon {
            let (first, second) = (place(holes, other, hole), place(holes, pigeon, hole));
            writeln!(text, "-{first} -{second} 0")?;
        }
    }
    Ok(())
}

/// The text that so many pigeons sit in so many holes.
pub fn pigeons_in(alloc: Global, pigeons: i32, holes: i32) -> Result<String, TourError> {
    let mut text = String::new(alloc);
    for pigeon in 0..pigeons {
        write_pigeon(&mut text, holes, pigeon)?;
        write_pairs(&mut text, holes, pigeon)?;
    }
    Ok(text)
}

/// The literals that an assignment of 16 variables, one for each of its bits, makes true.
pub fn literals_of(alloc: Global, bits: u32) -> Result<Vec<i64>, TourError> {
    let mut literals = Vec::new(alloc);
    let mut rest = bits;
    for number in 1i64..=16 {
        literals.push(if rest % 2 == 1 {
            number
        } else {
            number.wrapping_neg()
        })?;
        rest /= 2;
    }
    Ok(literals)
}

/// Whether an assignment puts four pigeons into four holes: each into one at least, and no two into
/// one.
pub fn fits_four(bits: u32) -> bool {
    let (first, second, third, fourth) = (
        bits & 15,
        (bits >> 4) & 15,
        (bits >> 8) & 15,
        bits >> 12,
    );
    let each_sits = first != 0 && second != 0 && third != 0 && fourth != 0;
    let all = first | second | third | fourth;
    let meets = (first & second) | (first & third) | (first & fourth);
    let others = (second & third) | (second & fourth) | (third & fourth);
    each_sits && all <= 15 && meets == 0 && others == 0
}
