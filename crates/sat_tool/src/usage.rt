//! The usage line.

use clap::{Arg, ArgAction, Command};
use std::alloc::{AllocError, Global};

/// The options that a number follows.
const NUMBERED: [&str; 3] = ["threads", "maxconfl", "max-input"];

/// The option that no number follows.
const PRINT_SHARED: &str = "print-shared";

/// An option that a number follows.
fn numbered<'a>(alloc: Global, name: &'a str) -> Arg<'a> {
    Arg::new(alloc, name)
        .long(name)
        .value_name("N")
        .action(ArgAction::Set)
}

/// The option that asks for the shared clauses.
fn print_shared<'a>(alloc: Global) -> Arg<'a> {
    Arg::new(alloc, PRINT_SHARED)
        .long(PRINT_SHARED)
        .action(ArgAction::SetTrue)
}

/// The program's command, with all options.
fn command<'a>(alloc: Global) -> Result<Command<'a>, AllocError> {
    let mut command = Command::new(alloc, "torimbava").disable_help_flag(true);
    for name in NUMBERED {
        command = command.arg(numbered(alloc, name))?;
    }
    command.arg(print_shared(alloc))
}

/// The usage line: how the program is called, and each option. The only error is want of memory.
pub fn usage(alloc: Global) -> Result<String, AllocError> {
    let mut line = command(alloc)?.render_usage()?;
    line.push_str(" < FILE, with the options ")?;
    for name in NUMBERED {
        write!(line, "{}, ", numbered(alloc, name))?;
    }
    write!(line, "--{PRINT_SHARED}")?;
    Ok(line)
}

#[cfg(test)]
mod tests {
    use super::*;
    use std::test::Fail;

    #[test]
    fn the_usage_names_each_option(rt: HostRuntime) -> Result<(), Fail> {
        let line = usage(rt.alloc())?;
        assert_eq!(rt;
            line.as_str(),
            "Usage: torimbava [OPTIONS] < FILE, with the options --threads <N>, --maxconfl <N>, --max-input <N>, --print-shared"
        );
        Ok(())
    }
}
