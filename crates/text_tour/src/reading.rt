//! What is read of a text, in words.

ghost use Rattle.std.specs.Prelude.{◌≤◌, length};

use dimacs_text::{Command, Commands, ReadError, Reader, Refusal};
use sat_lits::{Limits, Lit, Var};
use std::alloc::{AllocError, Global};

/// What is read of a text that comes in two pieces, of which the first has this many bytes.
pub fn read_cut(alloc: Global, limits: Limits, text: &[u8], at: usize) -> Result<String, AllocError>
    requires { at ≤ length text.now }
{
    let mut reader = Reader::new(alloc, limits);
    let mut commands = Commands::new(alloc);
    let end = feed_pieces(&mut reader, &text[..at], &text[at..], &mut commands);
    tell(alloc, &reader, &mut commands, end)
}

/// What is read of a text that comes byte by byte.
pub fn read_bytes(alloc: Global, limits: Limits, text: &[u8]) -> Result<String, AllocError> {
    let mut reader = Reader::new(alloc, limits);
    let mut commands = Commands::new(alloc);
    let end = feed_bytes(&mut reader, text, &mut commands);
    tell(alloc, &reader, &mut commands, end)
}

fn feed_pieces(
    reader: &mut Reader,
    first: &[u8],
    second: &[u8],
    to: &mut Commands,
) -> Result<(), ReadError> {
    reader.feed(first, to)?;
    reader.feed(second, to)?;
    reader.finish(to)
}

fn feed_bytes(reader: &mut Reader, text: &[u8], to: &mut Commands) -> Result<(), ReadError> {
    for byte in text {
        reader.feed(&[*byte], to)?;
    }
    reader.finish(to)
}

/// A line for each command, and one for the end.
fn tell(
    alloc: Global,
    reader: &Reader,
    commands: &mut Commands,
    end: Result<(), ReadError>,
) -> Result<String, AllocError> {
    let mut told = String::new(alloc);
    while let Some(command) = commands.take_first() {
        told.push_str("  ")?;
        tell_command(&mut told, &command)?;
        told.push_str("\n")?;
    }
    told.push_str("  ")?;
    match end {
        Ok(()) => told.push_str(if reader.ended() { "end by %" } else { "end" })?,
        Err(error) => tell_error(&mut told, error)?,
    }
    Ok(told)
}

fn tell_command(told: &mut String, command: &Command) -> Result<(), AllocError> {
    match command {
        Command::Clause(lits) => {
            told.push_str("clause")?;
            tell_literals(told, lits.as_slice())
        }
        Command::Parity { vars, rhs } => {
            told.push_str("parity")?;
            tell_variables(told, vars.as_slice())?;
            write!(told, " is {rhs}")
        }
        Command::Grow { to } => write!(told, "variables: {to}"),
        Command::Solve(lits) => {
            let lits = lits.as_slice();
            told.push_str(if lits.is_empty() {
                "question"
            } else {
                "question under"
            })?;
            tell_literals(told, lits)
        }
    }
}

/// Literals as in a text, where variables are counted from 1.
fn tell_literals(told: &mut String, lits: &[Lit]) -> Result<(), AllocError> {
    for lit in lits {
        let sign = if lit.negative { "-" } else { "" };
        write!(told, " {sign}{}", lit.var.0 as u64 + 1)?;
    }
    Ok(())
}

fn tell_variables(told: &mut String, vars: &[Var]) -> Result<(), AllocError> {
    for var in vars {
        write!(told, " {}", var.0 as u64 + 1)?;
    }
    Ok(())
}

fn tell_error(told: &mut String, error: ReadError) -> Result<(), AllocError> {
    match error {
        ReadError::Refused(refusal) => {
            write!(told, "{} at {}", kind_of(refusal), refusal.place())
        }
        ReadError::Memory => told.push_str("memory ran out"),
    }
}

fn kind_of(refusal: Refusal) -> &'static str {
    match refusal {
        Refusal::BadToken { .. } => "BadToken",
        Refusal::VarTooLarge { .. } => "VarTooLarge",
        Refusal::TooManyLits { .. } => "TooManyLits",
        Refusal::Truncated { .. } => "Truncated",
        Refusal::TooLong { .. } => "TooLong",
    }
}
