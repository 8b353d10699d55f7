//! A tour of threads: what is written, and what calls answer, whatever the order of the threads'
//! steps.
//!
//! Where several outputs are right, the tour tells that the one that was written is among them.
#![tactic(auto)]

mod error;
mod library;
mod listing;
mod pigeons;
mod running;
mod texts;

use error::TourError;
use library::{show_questions, show_settings};
use listing::{are_all_read, are_different, are_formed, are_true_in_model, listed};
use pigeons::{fits_four, literals_of, pigeons_in};
use running::{Outcome, run_on_text};
use std::alloc::Global;
use std::thread::Threads;

fn main(rt: HostRuntime) -> Result<(), TourError> {
    show_settings(&rt)?;
    for threads in [1, 4] {
        show_questions(&rt, threads)?;
    }
    show_refused_words(&rt)?;
    show_same_output(&rt)?;
    show_limit(&rt)?;
    show_listed(&rt)?;
    show_all_models(&rt)
}

/// Words that are not taken.
fn show_refused_words<R: Print + AllocGlobal + Threads + Sync>(rt: &R) -> Result<(), TourError> {
    println!(rt; "# Words that are not taken")?;
    for words in texts::REFUSED_WORDS {
        let outcome = run_on_text(rt, words, texts::NO_MODEL)?;
        println!(rt;
            "{words:?}: {:?}, status {}",
            outcome.text(),
            outcome.status
        )?;
    }
    Ok(())
}

/// Texts to one thread and to four, and to four that list what they share: the same lines, but for the
/// values of models that are not the only ones, and for the shared clauses.
fn show_same_output<R: Print + AllocGlobal + Threads + Sync>(rt: &R) -> Result<(), TourError> {
    println!(rt; "# The same lines by 1 and by 4 threads")?;
    for text in texts::SURE {
        let one = run_on_text(rt, &["--threads", "1"], text)?;
        let four = run_on_text(rt, &["--threads=4"], text)?;
        let same = one.text() == four.text() && one.status == four.status;
        println!(rt; "{text:?}: {same}")?;
    }
    for text in texts::OPEN {
        let one = run_on_text(rt, &["--threads", "1"], text)?;
        let four = run_on_text(rt, &["--threads=4", "--print-shared"], text)?;
        let (lines, others) = (
            sure_lines(rt.alloc(), &one)?,
            sure_lines(rt.alloc(), &four)?,
        );
        let same = lines.as_slice() == others.as_slice() && one.status == four.status;
        println!(rt; "{text:?}: {same}")?;
    }
    Ok(())
}

/// The lines that every right output has.
fn sure_lines(alloc: Global, outcome: &Outcome) -> Result<Vec<&str>, TourError> {
    let mut lines = Vec::new(alloc);
    for line in outcome.text().lines() {
        if !line.starts_with("v ") && !line.starts_with("c shared ") {
            lines.push(line)?;
        }
    }
    Ok(lines)
}

/// A limit of no conflicts to two threads: the verdict, or a count for each thread.
fn show_limit<R: Print + AllocGlobal + Threads + Sync>(rt: &R) -> Result<(), TourError> {
    println!(rt; "# No conflict for each of 2 threads")?;
    let words = ["--threads", "2", "--maxconfl", "0"];
    let outcome = run_on_text(rt, &words, texts::NO_MODEL)?;
    let is_right = match outcome.status {
        20 => outcome.text() == "s UNSATISFIABLE\nc failed 0\n",
        15 => outcome.text() == "s INDETERMINATE\nc limit 0 0\n",
        _ => false,
    };
    println!(rt; "one of the right outputs: {is_right}")?;
    Ok(())
}

/// Shared clauses behind a verdict.
fn show_listed<R: Print + AllocGlobal + Threads + Sync>(rt: &R) -> Result<(), TourError> {
    println!(rt; "# Shared clauses")?;
    let outcome = run_on_text(rt, &["--print-shared"], texts::ONE_UNIT)?;
    println!(rt; "{:?}, status {}", outcome.text(), outcome.status)?;
    for words in [
        ["--print-shared", "--threads=1"],
        ["--print-shared", "--threads=4"],
    ] {
        println!(rt; "{words:?}")?;
        show_entries(rt, &words, texts::LONG_PARITY, 10)?;
        let text = pigeons_in(rt.alloc(), 5, 4)?;
        show_entries(rt, &words, text.as_str(), 20)?;
    }
    Ok(())
}

/// Shows a verdict, and that the lines of shared clauses behind it are such as they should be.
fn show_entries<R: Print + AllocGlobal + Threads + Sync>(
    rt: &R,
    words: &[&str],
    text: &str,
    vars: i64,
) -> Result<(), TourError> {
    let outcome = run_on_text(rt, words, text)?;
    let entries = listed(rt.alloc(), &outcome)?;
    let front = outcome.text().lines().take(2);
    for line in front {
        println!(rt; "  {line}")?;
    }
    println!(rt; "  status {}", outcome.status)?;
    let is_formed = are_all_read(&outcome, &entries) && are_formed(&entries, 4, vars);
    println!(rt;
        "  well formed: {is_formed}, each once: {}",
        are_different(&entries)
    )?;
    if outcome.status == 10 {
        let is_true = are_true_in_model(rt.alloc(), &outcome, &entries)?;
        println!(rt;
            "  some: {}, true in the model: {is_true}",
            !entries.is_empty()
        )?;
    }
    Ok(())
}

/// Shared clauses of a formula with 24 models, each of which makes all of them true.
fn show_all_models<R: Print + AllocGlobal + Threads + Sync>(rt: &R) -> Result<(), TourError> {
    println!(rt; "# Shared clauses and all models")?;
    let text = pigeons_in(rt.alloc(), 4, 4)?;
    let words = ["--threads=4", "--print-shared", "--maxconfl=1000000"];
    let outcome = run_on_text(rt, &words, text.as_str())?;
    let entries = listed(rt.alloc(), &outcome)?;
    let (mut models, mut written, mut is_true) = (0u32, 0u32, true);
    for bits in 0u32..65536 {
        if fits_four(bits) {
            let model = literals_of(rt.alloc(), bits)?;
            models = models.wrapping_add(1);
            is_true &= entries.iter().all(|entry| entry.is_true(&model));
            let values = listing::read_model(rt.alloc(), &outcome)?;
            if values.as_slice() == model.as_slice() {
                written = written.wrapping_add(1);
            }
        }
    }
    println!(rt; "status {}, models: {models}", outcome.status)?;
    println!(rt; "models that are the one written: {written}")?;
    let is_formed = are_all_read(&outcome, &entries) && are_formed(&entries, 4, 16);
    println!(rt; "shared clauses well formed: {is_formed}, true in each model: {is_true}")?;
    Ok(())
}
