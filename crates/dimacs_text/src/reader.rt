ghost use Rattle.std.specs.Prelude.{◌≡◌, ◌++◌, ℕ, List, [], true, IsOk, OnOk};
ghost use Rattle.sat_lits.specs.Limits.{LimitNumbers};
ghost use Rattle.dimacs_text.specs.declared.command.Command.{Command};
ghost use Rattle.dimacs_text.specs.declared.refusal.Refusal.{Refusal};
ghost use Rattle.dimacs_text.specs.declared.refusal.ReadError.{ReadError};
ghost use Rattle.dimacs_text.specs.declared.state.Stage.TheVariants.{Open};
ghost use Rattle.dimacs_text.specs.Lists.{Ended, Refused};
ghost use Rattle.dimacs_text.specs.Grammar.{reading_of, ends_within};
ghost use Rattle.dimacs_text.specs.Reads.{HasRead, Gives, Refuses, RunsOut, Concludes, HasEnded, HasFailed};

use crate::command::Commands;
use crate::refusal::{ReadError, Refusal};
use crate::state::{Stage, State};
use sat_lits::Limits;
use std::alloc::Global;

/// Reads a text that comes in any pieces. It keeps the literals of the open clause, parity or
/// command alone, and no text.
#[derive(Drop)]
pub struct Reader {
    state: State,
}

impl Reader {
    /// A reader that has read nothing. It takes no memory.
    pub fn new(alloc: Global, limits: Limits) -> Reader
        ensures { HasRead limits [] [] result }
    {
        Reader {
            state: State::new(alloc, limits),
        }
    }

    /// Reads the next piece of the text, and appends the commands that the text so far decides.
    ///
    /// `Refused` comes where the text is refused within the piece, however it goes on; the commands
    /// before that place are appended. After an error the reader answers that error from then on.
    /// Behind a `%` that ends the formula it takes nothing and answers Ok.
    pub fn feed(&mut self, piece: &[u8], to: &mut Commands) -> Result<(), ReadError>
        ensures ok { OnOk result (Gives self.old self.new piece.now to.old to.new) }
        ensures refused { (why : Refusal)
            → result ≡ Err (ReadError.Refused why)
            → Refuses self.old piece.now to.old to.new why }
        ensures memory { result ≡ Err ReadError.Memory → RunsOut self.old piece.now to.old to.new }

        // What comes after an error, and after the end of the text.
        ensures latched { (error : ReadError) → result ≡ Err error → HasFailed self.new error }
        ensures again { (error : ReadError)
            → HasFailed self.old error
            → (result ≡ Err error) × (self.new ≡ self.old) × (to.new ≡ to.old) }
        ensures after_end { HasEnded self.old
            → IsOk result × (self.new ≡ self.old) × (to.new ≡ to.old) }
    {
        match self.state.stage {
            Stage::Open => self.take_piece(piece, to),
            Stage::Ended | Stage::Finished => Ok(()),
            Stage::Failed(error) => Err(error),
        }
    }

    /// The text ends here. Appends the commands that only its end decides.
    ///
    /// `Refused` comes where the whole text is refused. Later calls append nothing, and answer Ok
    /// after an Ok, and the error after an error.
    pub fn finish(&mut self, to: &mut Commands) -> Result<(), ReadError>
        ensures ok { OnOk result (Concludes self.old to.old to.new Ended) }
        ensures refused { (why : Refusal)
            → result ≡ Err (ReadError.Refused why)
            → Concludes self.old to.old to.new (Refused why) }
        ensures memory { result ≡ Err ReadError.Memory → to.new ≡ to.old }

        // What comes after an error, and after the end of the text.
        ensures ended { OnOk result (HasEnded self.new) }
        ensures latched { (error : ReadError) → result ≡ Err error → HasFailed self.new error }
        ensures again { (error : ReadError)
            → HasFailed self.old error
            → (result ≡ Err error) × (self.new ≡ self.old) × (to.new ≡ to.old) }
        ensures after_end { HasEnded self.old
            → IsOk result × (self.new ≡ self.old) × (to.new ≡ to.old) }
    {
        match self.state.stage {
            Stage::Open => self.take_end(to),
            Stage::Ended | Stage::Finished => Ok(()),
            Stage::Failed(error) => Err(error),
        }
    }

    /// Whether a `%` has ended the text.
    pub fn ended(&self) -> bool
        ensures told { (limits : LimitNumbers) (text : List ℕ) (given : List Command)
            → HasRead limits text given self.now
            → result ≡ ends_within limits text }
        ensures settled { result ≡ true
            → (limits : LimitNumbers) (text : List ℕ) (given : List Command)
            → HasRead limits text given self.now
            → (rest : List ℕ)
            → reading_of limits (text ++ rest) ≡ record { commands = given; end = Ended } }
    {
        self.state.has_ended()
    }

    /// A piece comes.
    fn take_piece(&mut self, piece: &[u8], to: &mut Commands) -> Result<(), ReadError>
        ensures ok { OnOk result (Gives self.old self.new piece.now to.old to.new) }
        ensures refused { (why : Refusal)
            → result ≡ Err (ReadError.Refused why)
            → Refuses self.old piece.now to.old to.new why }
        ensures memory { result ≡ Err ReadError.Memory → RunsOut self.old piece.now to.old to.new }
        ensures latched { (error : ReadError) → result ≡ Err error → HasFailed self.new error }
    {
        for byte in piece {
            if self.state.has_ended() {
                return Ok(());
            }
            if let Err(error) = self.state.byte_step(*byte, to) {
                self.state.stage = Stage::Failed(error);
                return Err(error);
            }
        }
        Ok(())
    }

    /// The text ends, and the reading with it.
    fn take_end(&mut self, to: &mut Commands) -> Result<(), ReadError>
        requires { self.old.state.stage ≡ Open }
        ensures ok { OnOk result (Concludes self.old to.old to.new Ended) }
        ensures refused { (why : Refusal)
            → result ≡ Err (ReadError.Refused why)
            → Concludes self.old to.old to.new (Refused why) }
        ensures memory { result ≡ Err ReadError.Memory → to.new ≡ to.old }
        ensures ended { OnOk result (HasEnded self.new) }
        ensures latched { (error : ReadError) → result ≡ Err error → HasFailed self.new error }
    {
        match self.state.end_step(to) {
            Ok(()) => {
                self.state.stage = Stage::Finished;
                Ok(())
            }
            Err(error) => {
                self.state.stage = Stage::Failed(error);
                Err(error)
            }
        }
    }
}

#[cfg(test)]
mod tests {
    use super::*;
    use crate::command::Command;
    use std::alloc::AllocError;
    use std::test::Fail;

    /// A text in two pieces, the limit on literals, and what is read of it.
    const ROWS: [(&str, &str, u64, &str); 5] = [
        ("1 2", " 0", 9, "clause of 2, end"),
        ("1 2 0 1 ", "2 0", 3, "clause of 2, TooManyLits at 8"),
        ("x-", "1 2 0", 9, "parity of 2, false, end"),
        (
            "p cnf 4 1\nc Solver::solve",
            "( 1 )",
            9,
            "4 variables, question under 1, end",
        ),
        (
            "c Solver::new_vars( 3 )\n%",
            "1 a 0",
            9,
            "3 variables, % and end",
        ),
    ];

    fn read_pieces(
        reader: &mut Reader,
        pieces: &[&str],
        to: &mut Commands,
    ) -> Result<(), ReadError> {
        for piece in pieces {
            reader.feed(piece.as_bytes(), to)?;
        }
        reader.finish(to)
    }

    fn tell_command(text: &mut String, command: &Command) -> Result<(), AllocError> {
        match command {
            Command::Clause(lits) => write!(text, "clause of {}, ", lits.as_slice().len()),
            Command::Parity { vars, rhs } => {
                write!(text, "parity of {}, {rhs}, ", vars.as_slice().len())
            }
            Command::Grow { to } => write!(text, "{to} variables, "),
            Command::Solve(lits) => write!(text, "question under {}, ", lits.as_slice().len()),
        }
    }

    fn tell_end(text: &mut String, end: Result<(), ReadError>) -> Result<(), AllocError> {
        match end {
            Ok(()) => text.push_str("end"),
            Err(ReadError::Refused(Refusal::TooManyLits { place })) => {
                write!(text, "TooManyLits at {place}")
            }
            Err(_) => text.push_str("another error"),
        }
    }

    /// The commands that came of the pieces, and how the reading ended.
    fn read(alloc: Global, limits: Limits, pieces: &[&str]) -> Result<String, AllocError> {
        let mut text = String::new(alloc);
        let mut reader = Reader::new(alloc, limits);
        let mut commands = Commands::new(alloc);
        let end = read_pieces(&mut reader, pieces, &mut commands);
        while let Some(command) = commands.take_first() {
            tell_command(&mut text, &command)?;
        }
        if reader.ended() {
            text.push_str("% and ")?;
        }
        tell_end(&mut text, end)?;
        Ok(text)
    }

    #[test]
    fn reads_each_command(rt: HostRuntime) -> Result<(), Fail> {
        for (first, second, lits, expected) in &ROWS {
            let limits = Limits::new(16_777_215, *lits, 1, 2_147_483_648).ok_or("limits")?;
            let text = read(rt.alloc(), limits, &[*first, *second])?;
            assert_eq!(rt; text.as_str(), *expected);
        }
        Ok(())
    }
}
