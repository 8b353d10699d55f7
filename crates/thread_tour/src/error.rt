use sat_api::ApiError;
use sat_lits::NoMemory;
use std::alloc::AllocError;
use std::io;
use thiserror::Error;

/// What ends the tour early.
#[derive(Debug, Drop, Error)]
pub enum TourError {
    #[error("a call of the library was refused: {0}")]
    Call(#[from] ApiError),
    #[error("a line could not be written")]
    Print(#[from] io::Error),
    #[error("memory ran out")]
    Memory(#[from(alloc)] AllocError),
    #[error("memory ran out for what a run writes")]
    Output,
}

impl From<NoMemory> for TourError {
    fn from(_error: NoMemory) -> TourError {
        TourError::Output
    }
}
