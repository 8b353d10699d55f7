//! A tour of races: what solvers that run at the same time answer, and what they leave.
//!
//! Threads differ from run to run, so the tour shows what every order of their steps comes to.
#![tactic(auto)]

mod clauses;
mod error;
mod gates;
mod pigeons;
mod racing;
mod showing;

use clauses::formula_of;
use error::TourError;
use gates::Alternating;
use pigeons::pigeons_in;
use race::RaceAnswer;
use racing::{Racers, race_alarmed_at, race_new, race_without_alarm};
use sat_lits::Formula;
use sat_ports::Silent;
use showing::{has_verdict, show, show_values};
use std::thread::Threads;

/// How often the same race is run.
const RUNS: u32 = 50;

fn main(rt: HostRuntime) -> Result<(), TourError> {
    show_all(&rt)
}

/// Shows every topic of the tour.
fn show_all<R: Print + AllocGlobal + Threads + Sync>(rt: &R) -> Result<(), TourError> {
    println!(rt; "# An exchange during the race")?;
    exchange(rt)?;
    println!(rt; "# 4 pigeons in 4 holes")?;
    let as_many = pigeons_in(rt.alloc(), 4, 4)?;
    count_pigeons(rt, &as_many)?;
    println!(rt; "# 4 pigeons in 3 holes")?;
    let one_too_many = pigeons_in(rt.alloc(), 4, 3)?;
    count_pigeons(rt, &one_too_many)?;
    println!(rt; "# Alarms")?;
    let hard = pigeons_in(rt.alloc(), 6, 5)?;
    interrupt(rt, &hard)?;
    println!(rt; "# Conflict limits")?;
    spend(rt, &hard)?;
    println!(rt; "# The same race again and again")?;
    repeat(rt, &one_too_many)
}

/// Two solvers that give and take clauses during the race: a gate lets neither go on before.
fn exchange<R: Print + AllocGlobal + Threads + Sync>(rt: &R) -> Result<(), TourError> {
    let formula = formula_of(rt.alloc(), 2, &[&[1], &[-1, 2]])?;
    let gate = Alternating::new();
    let run = race_new(rt, &formula, Racers::all(2), &mut Silent::new(), &gate)?;
    show(rt, "2 solvers", &formula, &run)?;
    show_values(rt, &run)?;
    println!(rt; "the second solver gave a clause: {}", gate.gave())?;
    println!(rt; "the first solver took a clause: {}", gate.took())?;
    println!(rt; "a solver was held to the end: {}", gate.was_vain())?;
    Ok(())
}

/// The same pigeons and holes by one, two and four solvers.
fn count_pigeons<R: Print + AllocGlobal + Threads + Sync>(
    rt: &R,
    formula: &Formula,
) -> Result<(), TourError> {
    let run = race_without_alarm(rt, formula, Racers::all(1))?;
    show(rt, "1 solver", formula, &run)?;
    let run = race_without_alarm(rt, formula, Racers::all(2))?;
    show(rt, "2 solvers", formula, &run)?;
    let run = race_without_alarm(rt, formula, Racers::all(4))?;
    show(rt, "4 solvers", formula, &run)
}

/// Alarms that ask at one poll. They end the race of one solver, and the race of three unless another
/// solver was faster.
fn interrupt<R: Print + AllocGlobal + Threads + Sync>(
    rt: &R,
    formula: &Formula,
) -> Result<(), TourError> {
    for (poll, name) in [(0, "at poll 0, 1 solver"), (3, "at poll 3, 1 solver")] {
        let alone = race_alarmed_at(rt, formula, 1, poll)?;
        show(rt, name, formula, &alone)?;
        let three = race_alarmed_at(rt, formula, 3, poll)?;
        let interrupted = matches!(three.answer, RaceAnswer::Interrupted);
        let right = interrupted || has_verdict(formula, &three, false);
        println!(rt; "at poll {poll}, 3 solvers: interrupted or right: {right}")?;
    }
    Ok(())
}

/// Three solvers under limits that are spent, and under one that is not.
fn spend<R: Print + AllocGlobal + Threads + Sync>(rt: &R, hard: &Formula) -> Result<(), TourError> {
    for limit in [0, 1, 2] {
        let run = race_without_alarm(rt, hard, Racers::within(3, limit))?;
        show(rt, "6 in 5", hard, &run)?;
    }
    let easy = formula_of(rt.alloc(), 2, &[&[1], &[-1, 2]])?;
    let run = race_without_alarm(rt, &easy, Racers::within(3, 1))?;
    show(rt, "no conflict is needed", &easy, &run)
}

/// Runs the same race often, and shows how often its verdict was right.
fn repeat<R: Print + AllocGlobal + Threads + Sync>(
    rt: &R,
    formula: &Formula,
) -> Result<(), TourError> {
    let mut right = 0u32;
    for _ in 0..RUNS {
        let run = race_without_alarm(rt, formula, Racers::all(4))?;
        right = right.saturating_add(u32::from(has_verdict(formula, &run, false)));
    }
    println!(rt; "4 in 3: right in {right} of {RUNS} races of 4 solvers")?;
    Ok(())
}
