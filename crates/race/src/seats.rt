ghost use Rattle.std.specs.Prelude.{◌≡◌, ◌+◌, ◌<◌, ℕ, length, slice_index_or, vec_len, IfOk, OnOk, OnErr};
ghost use Rattle.std.specs.declared.option.Option.{Option};
ghost use Rattle.one_solver.specs.Parts.{Parts};
ghost use Rattle.race.specs.Homes.{IsEntrant};
ghost use Rattle.race.specs.Seating.{IsLeading, IsSeatOf, IsNewAt, SplitOff};

use crate::runner::Runner;
use one_solver::OneSolver;
use sat_lits::NoMemory;
use sat_ports::Silent;
use share_turn::{Exchange, Pass};
use std::alloc::Global;
use std::mem;

/// Takes the solvers but the first from their places, each with a pass of its own. New ones stand in
/// their places meanwhile. The only error is want of memory, and nothing changes then.
pub(crate) fn seat_others<'a>(
    alloc: Global,
    exchange: &'a Exchange,
    first: &mut Pass,
    solvers: &mut [OneSolver],
) -> Result<Vec<Runner<'a, Silent>>, NoMemory>
    requires some { 0 < length solvers.old }
    requires all { length solvers.old ≡ first.old.view.question.solvers }
    requires first { IsLeading first.old.view.question exchange.now first.old }
    requires entrants { (k : ℕ) (d : Parts) → 0 < k → k < length solvers.old → IsEntrant first.old.view.question.formula.problem first.old.view.seen k (slice_index_or solvers.old k d) }
    ensures count { IfOk result (λ runners. vec_len runners + 1 ≡ length solvers.old) }
    ensures seats { IfOk result (λ runners. (limit : Option ℕ) (k : ℕ) (d : _) → k < vec_len runners
        → IsSeatOf limit first.old.view.question exchange.now k (slice_index_or runners.items k d).solver (slice_index_or runners.items k d).watch.pass) }
    ensures left { OnOk result ((k : ℕ) (d : Parts) → 0 < k → k < length solvers.old → IsNewAt k (slice_index_or solvers.new k d)) }
    ensures lead { (d : Parts) → slice_index_or solvers.new 0 d ≡ slice_index_or solvers.old 0 d }
    ensures first { IfOk result (λ runners. SplitOff first.old first.new (vec_len runners)) }
    ensures err { OnErr result ((solvers.new ≡ solvers.old) × (first.new ≡ first.old)) }
{
    let mut runners = Vec::with_capacity(alloc, solvers.len() - 1)?;
    'seats: for place in 1..solvers.len() {
        let solver = &mut solvers[place];
        runners.push_reserved(seat(alloc, exchange, first, solver));
    }
    Ok(runners)
}

/// Takes a solver from its place, with a pass of its own. A new one stands in its place.
fn seat<'a>(
    alloc: Global,
    exchange: &'a Exchange,
    first: &mut Pass,
    solver: &mut OneSolver,
) -> Runner<'a, Silent>
    requires first { IsLeading first.old.view.question exchange.now first.old }
    requires known { solver.old.number < first.old.view.question.solvers }
    requires later { 0 < solver.old.number }
    requires entrant { IsEntrant first.old.view.question.formula.problem first.old.view.seen solver.old.number solver.old }
    ensures seat { (limit : Option ℕ) (k : ℕ) → solver.old.number ≡ k + 1 → IsSeatOf limit first.old.view.question exchange.now k result.solver result.watch.pass }
    ensures left { IsNewAt solver.old.number solver.new }
    ensures first { SplitOff first.old first.new 1 }
{
    let pass = exchange.split(first);
    let number = solver.number();
    let taken = mem::replace(solver, OneSolver::new(alloc, number));
    Runner::new(taken, exchange, pass, Silent::new())
}
