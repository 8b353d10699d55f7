//! A tour of runs: what the program writes for a text, and the status that it ends with.
//!
//! Where several models are right, the tour tells how many variables the one has that was written.
#![tactic(auto)]

mod error;
mod running;
mod texts;

use error::TourError;
use running::{Outcome, run_beside_alarm, run_on_pieces, run_on_text, run_with_room};
use std::thread::Threads;
use texts::{CIRCUIT, ONE_MODEL, TWO_QUESTIONS, TWO_UNITS};

/// Room for all that a run of the tour writes.
const WIDE: usize = 1000;

/// Words for one thread and for four.
const THREADS: [&[&str]; 2] = [&["--threads=1"], &["--threads=4"]];

/// A conflict limit that is enough for two variables, for one thread and for four.
const ENOUGH: [&[&str]; 2] = [&["--maxconfl=109"], &["--threads", "4", "--maxconfl=109"]];

/// A limit of 4 bytes, for one thread and for four.
const FOUR_BYTES: [&[&str]; 2] = [&["--max-input", "4"], &["--max-input=4", "--threads=4"]];

fn main(rt: HostRuntime) -> Result<(), TourError> {
    println!(rt; "# Texts with one right output")?;
    for text in texts::SURE {
        show(&rt, &[], text, Models::Written)?;
    }
    println!(rt; "# Texts with several models")?;
    for text in texts::OPEN {
        show(&rt, &[], text, Models::Counted)?;
    }
    println!(rt; "# Refused texts")?;
    for text in texts::REFUSED {
        show(&rt, &[], text, Models::Written)?;
    }
    show_limits(&rt)?;
    show_interrupts(&rt)?;
    show_fronts(&rt)?;
    show_failed_reads(&rt)?;
    show_failed_writes(&rt)
}

/// Shows limits on conflicts and on input, for one thread and for four.
fn show_limits<R: Print + AllocGlobal + Threads + Sync>(rt: &R) -> Result<(), TourError> {
    println!(rt; "# A conflict limit that is enough, for 1 thread and for 4")?;
    for words in ENOUGH {
        show(rt, words, texts::NO_MODEL, Models::Written)?;
    }
    println!(rt; "# At most 4 bytes of input, for 1 thread and for 4, and as many as there are")?;
    for words in FOUR_BYTES {
        show(rt, words, TWO_UNITS, Models::Written)?;
    }
    let words = ["--maxconfl", "109", "--max-input=8"];
    show(rt, &words, TWO_UNITS, Models::Written)
}

/// How a model is shown.
#[derive(Clone, Copy)]
enum Models {
    /// As it was written.
    Written,
    /// By the number of its variables.
    Counted,
}

/// Shows a text, what is written for it and the status.
fn show<R: Print + AllocGlobal + Threads + Sync>(
    rt: &R,
    words: &[&str],
    text: &str,
    models: Models,
) -> Result<(), TourError> {
    let outcome = run_on_text(rt, words, text.as_bytes(), WIDE)?;
    show_outcome(rt, text, &outcome, models)
}

fn show_outcome<R: Print>(
    rt: &R,
    text: &str,
    outcome: &Outcome,
    models: Models,
) -> Result<(), TourError> {
    println!(rt; "{text:?}")?;
    for line in outcome.text().lines() {
        show_line(rt, line, models)?;
    }
    println!(rt; "  status {}", outcome.status)?;
    Ok(())
}

fn show_line<R: Print>(rt: &R, line: &str, models: Models) -> Result<(), TourError> {
    match (models, line.strip_prefix("v ")) {
        (Models::Counted, Some(literals)) => {
            let count = literals.split(' ').filter(|word| *word != "0").count();
            println!(rt; "  v of {count} variables")?;
        }
        _ => println!(rt; "  {line}")?,
    }
    Ok(())
}

/// Shows that the first question is not answered where the alarm asks for a stop, and the next one is.
fn show_interrupts<R: Print + AllocGlobal + Threads + Sync>(rt: &R) -> Result<(), TourError> {
    println!(rt; "# An alarm at the first poll")?;
    for text in ["1 2 0\n", TWO_QUESTIONS] {
        let outcome = run_beside_alarm(rt, text.as_bytes(), &[0])?;
        show_outcome(rt, text, &outcome, Models::Written)?;
    }
    Ok(())
}

/// Shows each front of a text with a question, by its status and the line of its refusal.
fn show_fronts<R: Print + AllocGlobal + Threads + Sync>(rt: &R) -> Result<(), TourError> {
    println!(rt; "# Each front of a text")?;
    let text = TWO_QUESTIONS.as_bytes();
    for length in 0..=text.len() {
        let outcome = run_on_text(rt, &[], &text[..length], WIDE)?;
        show_end(rt, length, &outcome)?;
    }
    Ok(())
}

fn show_end<R: Print>(rt: &R, length: usize, outcome: &Outcome) -> Result<(), TourError> {
    let last = outcome.text().lines().last().unwrap_or("");
    if last.starts_with("c refused") {
        println!(rt; "  {length}: {last}, status {}", outcome.status)?;
    } else {
        println!(rt; "  {length}: status {}", outcome.status)?;
    }
    Ok(())
}

/// Shows how many questions are answered where one read fails: those that the bytes before it hold.
fn show_failed_reads<R: Print + AllocGlobal + Threads + Sync>(rt: &R) -> Result<(), TourError> {
    println!(rt; "# Pieces of 7 bytes, and one read that fails")?;
    for failing in 0..16 {
        let outcome = run_on_pieces(rt, &[], CIRCUIT.as_bytes(), 7, failing)?;
        let blocks = outcome
            .text()
            .lines()
            .filter(|line| line.starts_with("s "))
            .count();
        println!(rt; "  {failing}: {blocks} answered, status {}", outcome.status)?;
    }
    println!(rt; "# Pieces of 23 bytes, and the second read fails, for 1 thread and for 4")?;
    for words in THREADS {
        let outcome = run_on_pieces(rt, words, ONE_MODEL.as_bytes(), 23, 1)?;
        println!(rt; "  {:?}, status {}", outcome.text(), outcome.status)?;
    }
    Ok(())
}

/// Shows what is written to a sink with too little room, up to as much as is needed.
fn show_failed_writes<R: Print + AllocGlobal + Threads + Sync>(rt: &R) -> Result<(), TourError> {
    println!(rt; "# Sinks with room for some bytes")?;
    for room in 0..53 {
        let outcome = run_on_text(rt, &[], TWO_QUESTIONS.as_bytes(), room)?;
        println!(rt; "  {room}: {:?}, status {}", outcome.text(), outcome.status)?;
    }
    println!(rt; "# A sink whose first write fails, for 1 thread and for 4")?;
    for words in THREADS {
        let outcome = run_with_room(rt, words, texts::CONTRADICTION.as_bytes(), WIDE, &[0])?;
        println!(rt; "  {:?}, status {}", outcome.text(), outcome.status)?;
    }
    Ok(())
}
