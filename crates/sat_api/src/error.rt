use sat_lits::{FormulaError, NoMemory};
use thiserror::Error;

/// A call on a solver was refused.
#[derive(Clone, Copy, Debug, PartialEq, Eq, Error)]
pub enum ApiError {
    /// A variable is not there; `var` is the number of the first such.
    #[error("NoSuchVar {var}")]
    NoSuchVar { var: u32 },
    /// There would be more variables than the limit.
    #[error("TooManyVars")]
    TooManyVars,
    /// There would be more literals than the limit.
    #[error("TooManyLits")]
    TooManyLits,
    /// The number of threads was to be set once there was a variable or an item, or a question was
    /// asked.
    #[error("TooLate")]
    TooLate,
    /// There is no thread in this number, or more than the limit.
    #[error("BadCount")]
    BadCount,
    /// Memory ran out.
    #[error("Memory")]
    Memory,
}

impl From<FormulaError> for ApiError {
    ghost use Rattle.std.specs.Prelude.{◌≡◌};
    ghost use Rattle.sat_api.specs.Errors.{api_error};

    ghost from_gives = { λ refused error. error ≡ api_error refused };

    fn from(refused: FormulaError) -> ApiError {
        match refused {
            FormulaError::NoSuchVar { var } => ApiError::NoSuchVar { var },
            FormulaError::TooManyVars => ApiError::TooManyVars,
            FormulaError::TooManyLits => ApiError::TooManyLits,
            FormulaError::Memory => ApiError::Memory,
        }
    }
}

impl From<NoMemory> for ApiError {
    ghost use Rattle.std.specs.Prelude.{◌≡◌};
    ghost use Rattle.sat_api.specs.declared.error.ApiError.TheVariants.{Memory};

    ghost from_gives = { λ _ error. error ≡ Memory };

    fn from(_error: NoMemory) -> ApiError {
        ApiError::Memory
    }
}
