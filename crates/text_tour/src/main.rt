//! A tour of the texts that are read: the commands of each, and how it ends. A line more would tell
//! where a text that is cut into pieces is read in another way.
#![tactic(auto)]

mod error;
mod reading;
mod texts;

use error::TourError;
use reading::{read_bytes, read_cut};
use sat_lits::Limits;

fn main(rt: HostRuntime) -> Result<(), TourError> {
    let all = Limits::standard();
    show_all(
        &rt,
        "Clauses, over lines and with other blanks",
        &texts::CLAUSES,
        all,
    )?;
    show_all(&rt, "Parities", &texts::PARITIES, all)?;
    show_all(&rt, "Headers", &texts::HEADERS, all)?;
    show_all(&rt, "Comments that say nothing", &texts::COMMENTS, all)?;
    show_all(&rt, "Commands in comments", &texts::COMMANDS, all)?;
    show_all(
        &rt,
        "Texts that end with a percent sign",
        &texts::ENDED,
        all,
    )?;
    show_all(&rt, "Bad tokens", &texts::BAD_TOKENS, all)?;
    show_all(&rt, "Bad commands", &texts::BAD_COMMANDS, all)?;
    show_all(
        &rt,
        "Variables that are too large",
        &texts::LARGE_VARIABLES,
        all,
    )?;
    show_all(&rt, "Texts that end too early", &texts::TRUNCATED, all)?;
    let few = limits(5, 3, all.input());
    show_all(
        &rt,
        "At most 5 variables and 3 literals",
        &texts::FEW_LITERALS,
        few,
    )?;
    let short = limits(all.vars(), all.lits(), 4);
    show_all(&rt, "At most 4 bytes", &texts::FOUR_BYTES, short)?;
    let none = limits(all.vars(), all.lits(), 0);
    show_all(&rt, "No bytes", &texts::NO_BYTES, none)
}

/// Limits of these numbers, or the standard ones where a number is too great.
fn limits(vars: u32, lits: u64, input: u64) -> Limits {
    match Limits::new(vars, lits, 1, input) {
        Some(limits) => limits,
        None => Limits::standard(),
    }
}

/// Shows texts under one title.
fn show_all<R: Print + AllocGlobal>(
    rt: &R,
    title: &str,
    texts: &[&str],
    limits: Limits,
) -> Result<(), TourError> {
    println!(rt; "# {title}")?;
    for text in texts {
        show(rt, *text, limits)?;
    }
    Ok(())
}

/// Shows a text and what is read of it in one piece, and then each way to cut it by which another
/// thing is read.
fn show<R: Print + AllocGlobal>(rt: &R, text: &str, limits: Limits) -> Result<(), TourError> {
    let bytes = text.as_bytes();
    let whole = read_cut(rt.alloc(), limits, bytes, bytes.len())?;
    println!(rt; "{text:?}\n{whole}")?;
    for at in 0..bytes.len() {
        let cut = read_cut(rt.alloc(), limits, bytes, at)?;
        if cut != whole {
            println!(rt; "  but cut at {at}:\n{cut}")?;
        }
    }
    let single = read_bytes(rt.alloc(), limits, bytes)?;
    if single != whole {
        println!(rt; "  but byte by byte:\n{single}")?;
    }
    Ok(())
}
