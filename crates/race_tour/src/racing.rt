ghost use Rattle.std.specs.Prelude.{◌≡◌, ◌<◌, List, vec_len, IfOk};
ghost use Rattle.sat_lits.specs.Meaning.{Problem};
ghost use Rattle.sat_lits.specs.declared.shared.Shared.{Shared};
ghost use Rattle.race.specs.Homes.{EachPlace, IsEntrant};

use crate::error::TourError;
use one_solver::OneSolver;
use race::{RaceAnswer, race};
use sat_lits::Formula;
use sat_ports::{Alarm, AtPolls, Gate, OpenGate, Silent};
use share_store::Store;
use std::alloc::Global;
use std::thread::Threads;

/// How many solvers race, and how many conflicts each may make.
#[derive(Clone, Copy)]
pub struct Racers {
    pub count: u32,
    pub limit: Option<u64>,
}

impl Racers {
    /// So many solvers, without a limit.
    pub fn all(count: u32) -> Racers
        ensures { result.count ≡ count }
    {
        Racers { count, limit: None }
    }

    /// So many solvers, each within so many conflicts.
    pub fn within(count: u32, limit: u64) -> Racers
        ensures { result.count ≡ count }
    {
        Racers {
            count,
            limit: Some(limit),
        }
    }
}

/// What a race of new solvers came to.
#[derive(Drop)]
pub struct Run {
    pub answer: RaceAnswer,
    /// Each solver took the whole formula.
    pub whole: bool,
}

/// Lets new solvers race over an empty store.
#[tactic(auto, using(share_turn::specs::Laws::none_is_legal))]
pub fn race_new<R: AllocGlobal + Threads + Sync, A: Alarm + Send, G: Gate + Sync>(
    rt: &R,
    formula: &Formula,
    racers: Racers,
    alarm: &mut A,
    gate: &G,
) -> Result<Run, TourError>
    requires { 0 < racers.count }
{
    let alloc = rt.alloc();
    let mut solvers = new_solvers(alloc, racers.count)?;
    let mut store = Store::new(alloc);
    let answer = race(
        rt,
        alloc,
        formula,
        &[],
        racers.limit,
        &mut solvers,
        &mut store,
        alarm,
        gate,
    );
    let items = formula.items().len();
    let whole = solvers.iter().all(|solver| solver.taken() == items);
    Ok(Run { answer, whole })
}

/// A race of new solvers that nothing holds or ends.
pub fn race_without_alarm<R: AllocGlobal + Threads + Sync>(
    rt: &R,
    formula: &Formula,
    racers: Racers,
) -> Result<Run, TourError>
    requires { 0 < racers.count }
{
    race_new(rt, formula, racers, &mut Silent::new(), &OpenGate::new())
}

/// A race of new solvers, under an alarm that asks at one poll.
pub fn race_alarmed_at<R: AllocGlobal + Threads + Sync>(
    rt: &R,
    formula: &Formula,
    count: u32,
    poll: u64,
) -> Result<Run, TourError>
    requires { 0 < count }
{
    race_new(
        rt,
        formula,
        Racers::all(count),
        &mut AtPolls::new(&[poll]),
        &OpenGate::new(),
    )
}

/// So many new solvers, each with the number of its place.
fn new_solvers(alloc: Global, count: u32) -> Result<Vec<OneSolver>, TourError>
    ensures count { IfOk result (λ solvers. vec_len solvers ≡ count) }
    ensures entrants { IfOk result (λ solvers. (f : Problem) (log : List Shared) → EachPlace (IsEntrant f log) solvers.items) }
{
    let mut solvers = Vec::new(alloc);
    'solvers: for number in 0..count {
        solvers.push(OneSolver::new(alloc, number))?;
    }
    Ok(solvers)
}
