use sat_lits::{FormulaError, NoMemory};
use std::alloc::AllocError;
use std::io;
use thiserror::Error;

/// What ends the tour early.
#[derive(Debug, Drop, Error)]
pub enum TourError {
    #[error("a formula refused a call: {0}")]
    Formula(#[from] FormulaError),
    #[error("a line could not be written")]
    Print(#[from] io::Error),
    #[error("memory ran out")]
    Memory(#[from(alloc)] AllocError),
}

impl From<NoMemory> for TourError {
    ghost use Rattle.std.specs.Prelude.{◌≡◌};

    fn from(_error: NoMemory) -> TourError {
        TourError::Memory(AllocError)
    }
}
