//! The shared clauses that a run lists, read back from what it wrote.

use crate::error::TourError;
use crate::running::Outcome;
use std::alloc::Global;

/// A clause that a run listed.
#[derive(Debug, Drop)]
pub struct Entry {
    solver: i64,
    after: i64,
    literals: Vec<i64>,
}

/// The numbers among words.
fn numbers_of(alloc: Global, words: &str) -> Result<Vec<i64>, TourError> {
    let mut numbers = Vec::new(alloc);
    for word in words.split(' ') {
        if let Ok(number) = word.parse::<i64>() {
            numbers.push(number)?;
        }
    }
    Ok(numbers)
}

/// The clause of a line, behind its first two words.
fn read_entry(alloc: Global, words: &str) -> Result<Option<Entry>, TourError> {
    let mut literals = numbers_of(alloc, words)?;
    match (literals.pop(), literals.is_empty()) {
        (Some(0), false) => {}
        _ => return Ok(None),
    }
    literals.reverse();
    match (literals.pop(), literals.pop()) {
        (Some(solver), Some(after)) => {
            literals.reverse();
            Ok(Some(Entry {
                solver,
                after,
                literals,
            }))
        }
        _ => Ok(None),
    }
}

/// The shared clauses that a run listed, in order. A line that is none is left out.
pub fn listed(alloc: Global, outcome: &Outcome) -> Result<Vec<Entry>, TourError> {
    let mut entries = Vec::new(alloc);
    for line in outcome.text().lines() {
        if let Some(words) = line.strip_prefix("c shared ") {
            if let Some(entry) = read_entry(alloc, words)? {
                entries.push(entry)?;
            }
        }
    }
    Ok(entries)
}

/// Whether there is an entry for each line of a shared clause.
pub fn are_all_read(outcome: &Outcome, entries: &[Entry]) -> bool {
    let lines = outcome.text().lines();
    lines.filter(|line| line.starts_with("c shared")).count() == entries.len()
}

impl Entry {
    /// Whether one of some threads gave the clause, which stands at this place and names earlier ones,
    /// and has one or two literals of different variables among so many, in rising order.
    fn is_formed(&self, place: usize, threads: i64, vars: i64) -> bool {
        let is_early = 0 <= self.after && usize::try_from(self.after).is_ok_and(|at| at <= place);
        let is_given = 0 <= self.solver && self.solver < threads;
        let is_rising = match self.literals.as_slice() {
            [one] => is_literal(*one, vars),
            [one, other] => {
                is_literal(*one, vars)
                    && is_literal(*other, vars)
                    && one.unsigned_abs() < other.unsigned_abs()
            }
            _ => false,
        };
        is_early && is_given && is_rising
    }

    /// Whether a literal of the clause is among those that are true.
    pub fn is_true(&self, model: &[i64]) -> bool {
        self.literals.iter().any(|literal| model.contains(literal))
    }
}

/// Whether a number is a literal of one of so many variables.
fn is_literal(number: i64, vars: i64) -> bool {
    number != 0 && number <= vars && vars.wrapping_neg() <= number
}

/// Whether each entry is of the form of a shared clause.
pub fn are_formed(entries: &[Entry], threads: i64, vars: i64) -> bool {
    entries
        .iter()
        .enumerate()
        .all(|(place, entry)| entry.is_formed(place, threads, vars))
}

/// Whether no clause stands twice.
pub fn are_different(entries: &[Entry]) -> bool {
    entries.iter().enumerate().all(|(place, entry)| {
        let before = entries.iter().take(place);
        before
            .filter(|other| other.literals == entry.literals)
            .count()
            == 0
    })
}

/// The literals that the model makes true which the run wrote last.
pub fn read_model(alloc: Global, outcome: &Outcome) -> Result<Vec<i64>, TourError> {
    let mut model = numbers_of(alloc, outcome.model())?;
    model.pop();
    Ok(model)
}

/// Whether each clause is true in the model that the run wrote last.
pub fn are_true_in_model(
    alloc: Global,
    outcome: &Outcome,
    entries: &[Entry],
) -> Result<bool, TourError> {
    let model = read_model(alloc, outcome)?;
    Ok(entries.iter().all(|entry| entry.is_true(&model)))
}
