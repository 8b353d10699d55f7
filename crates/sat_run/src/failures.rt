ghost use Rattle.std.specs.Prelude.{◌≡◌};
ghost use Rattle.sat_run.specs.Runs.{status_at};

use crate::status::{OUT_OF_MEMORY, READ_FAILED, REFUSED, WRITE_FAILED};
use sat_lits::NoMemory;
use sat_ports::Failed;

/// Why a block was not written whole.
#[derive(Clone, Copy, Debug, PartialEq, Eq)]
pub enum Halt {
    /// A write failed.
    Write,
    /// Memory ran out before anything of it was written.
    Memory,
}

impl From<Failed> for Halt {
    ghost use Rattle.std.specs.Prelude.{◌≡◌};
    ghost use Rattle.sat_run.specs.declared.failures.Halt.TheVariants.{Write};

    ghost from_gives = { λ _ halt. halt ≡ Write };

    fn from(_failed: Failed) -> Halt {
        Halt::Write
    }
}

impl From<NoMemory> for Halt {
    ghost use Rattle.std.specs.Prelude.{◌≡◌};
    ghost use Rattle.sat_run.specs.declared.failures.Halt.TheVariants.{Memory};

    ghost from_gives = { λ _ halt. halt ≡ Memory };

    fn from(_error: NoMemory) -> Halt {
        Halt::Memory
    }
}

/// Why a run stopped before all questions were answered.
#[derive(Clone, Copy, Debug, PartialEq, Eq)]
pub enum Stop {
    /// The text is refused, and its refusal is written.
    Refused,
    /// A read failed.
    Read,
    /// A write failed.
    Write,
    /// Memory ran out.
    Memory,
}

impl Stop {
    /// The status of the program.
    pub fn status(self) -> u8
        ensures { result ≡ status_at self }
    {
        match self {
            Stop::Refused => REFUSED,
            Stop::Read => READ_FAILED,
            Stop::Write => WRITE_FAILED,
            Stop::Memory => OUT_OF_MEMORY,
        }
    }
}

impl From<Failed> for Stop {
    ghost use Rattle.std.specs.Prelude.{◌≡◌};
    ghost use Rattle.sat_run.specs.declared.failures.Stop.TheVariants.{Read};

    ghost from_gives = { λ _ stop. stop ≡ Read };

    fn from(_failed: Failed) -> Stop {
        Stop::Read
    }
}

impl From<Halt> for Stop {
    ghost use Rattle.std.specs.Prelude.{◌≡◌};
    ghost use Rattle.sat_run.specs.Errors.{halted};

    ghost from_gives = { λ halt stop. stop ≡ halted halt };

    fn from(halt: Halt) -> Stop {
        match halt {
            Halt::Write => Stop::Write,
            Halt::Memory => Stop::Memory,
        }
    }
}
