use sat_lits::NoMemory;
use std::io;
use thiserror::Error;

/// What ends the tour early.
#[derive(Debug, Drop, Error)]
pub enum TourError {
    #[error("a line could not be written")]
    Print(#[from] io::Error),
    #[error("memory ran out")]
    Memory,
}

impl From<NoMemory> for TourError {
    fn from(_error: NoMemory) -> TourError {
        TourError::Memory
    }
}
