ghost use Rattle.std.specs.Prelude.{◌≡◌, ◌⊎◌, ◌+◌, ◌<◌, ◌≤◌, ℕ, List, false, length, slice_index_or, vec_len};
ghost use Rattle.sat_lits.specs.Formulas.{Extends};
ghost use Rattle.sat_lits.specs.declared.shared.Shared.{Shared};
ghost use Rattle.share_store.specs.Log.{StartsWith};
ghost use Rattle.one_solver.specs.Parts.{Parts, problem_in};
ghost use Rattle.one_solver.specs.InStep.{IsInStep};
ghost use Rattle.race.specs.Homes.{EachPlace, IsFront, IsHome, Absorbs};
ghost use Rattle.race.specs.Running.{IsSpent, IsSeated, HasEnded, RunEnded, IsFound, IsLate};
ghost use Rattle.race.specs.Seating.{IsLeading, IsDone, ComesHome, JoinedOne};
ghost use Rattle.race.specs.Watching.{KnowsOutcome};

use crate::ending::Ending;
use crate::runner::Runner;
use crate::task::Task;
use crate::watch::Watch;
use one_solver::OneSolver;
use sat_lits::{Formula, NoMemory};
use sat_ports::Silent;
use share_turn::{Exchange, Pass};
use std::alloc::Global;

/// Each solver takes the whole formula. A new one stands in the place of one that runs out of memory.
pub(crate) fn absorb_all(alloc: Global, formula: &Formula, solvers: &mut [OneSolver])
    requires fronts { EachPlace (IsFront formula.now.problem) solvers.old }
    ensures { (k : ℕ) (d : Parts) → k < length solvers.old → Absorbs formula.now.problem k (slice_index_or solvers.old k d) (slice_index_or solvers.new k d) }
{
    'solvers: for place in 0..solvers.len() {
        let solver = &mut solvers[place];
        absorb(alloc, formula, solver);
    }
}

/// A solver takes the whole formula. A new one stands in its place where it runs out of memory.
fn absorb(alloc: Global, formula: &Formula, solver: &mut OneSolver)
    requires front { Extends (problem_in solver.old) formula.now.problem }
    ensures { Absorbs formula.now.problem solver.old.number solver.old solver.new }
{
    if let Err(NoMemory) = solver.absorb(formula) {
        *solver = OneSolver::new(alloc, solver.number());
    }
}

/// Joins all passes into the first one, and brings the solvers home. The answer is how their runs
/// ended together.
pub(crate) fn bring_home<G>(
    task: &Task<G>,
    exchange: &Exchange,
    first: &mut Pass,
    solvers: &mut [OneSolver],
    mut runners: Vec<Runner<Silent>>,
) -> Ending
    requires formula { first.old.view.question.formula ≡ task.now.formula.now }
    requires leading { IsLeading first.old.view.question exchange.now first.old }
    requires count { vec_len runners + 1 ≡ length solvers.old }
    requires homes { (k : ℕ) (d : Parts) → 0 < k → k < length solvers.old → IsHome task.now.limit task.now.formula.now.problem first.old.view.seen k (slice_index_or solvers.old k d) }
    requires done { (k : ℕ) (d : _) → k < vec_len runners → IsDone task.now.limit first.old.view.question exchange.now k (slice_index_or runners.items k d).solver
        (slice_index_or runners.items k d).watch.pass (slice_index_or runners.items k d).ending }
    ensures leading { IsLeading first.old.view.question exchange.now first.new }
    ensures alarmed { first.new.view.alarmed ≡ first.old.view.alarmed }
    ensures splits { first.new.view.splits ≡ first.old.view.splits }
    ensures joins { first.new.view.joins ≡ first.old.view.joins + vec_len runners.entry }
    ensures seen { StartsWith first.new.view.seen first.old.view.seen }
    ensures outcome { KnowsOutcome first.old.view → KnowsOutcome first.new.view }
    ensures homes { (k : ℕ) (d : Parts) → 0 < k → k < length solvers.old → IsHome task.now.limit task.now.formula.now.problem first.new.view.seen k (slice_index_or solvers.new k d) }
    ensures lead { (d : Parts) → slice_index_or solvers.new 0 d ≡ slice_index_or solvers.old 0 d }
    ensures ended { HasEnded first.old.view.question first.new.view ((k : ℕ) (d : Parts) → 0 < k → k < length solvers.old
        → IsSpent task.now.limit task.now.formula.now.problem (slice_index_or solvers.new k d).conflicts) result }
    ensures found { (k : ℕ) (d : _) → k < vec_len runners.entry → IsFound (slice_index_or runners.entry.items k d).ending → IsFound result }
    ensures late { (k : ℕ) (d : _) → k < vec_len runners.entry → IsLate (slice_index_or runners.entry.items k d).ending → IsLate result }
{
    let mut ended = Ending::Spent;
    'homes: while let Some(runner) = runners.pop() {
        let home = &mut solvers[runners.len() + 1];
        ended = ended.with(bring_one(task, exchange, first, home, runner));
    }
    runners.destroy_empty();
    ended
}

/// Joins a pass, and brings its solver home. The answer is how its run ended.
#[tactic(auto, using(crate::proofs::Outing::longer_one))]
fn bring_one<G>(
    task: &Task<G>,
    exchange: &Exchange,
    first: &mut Pass,
    home: &mut OneSolver,
    runner: Runner<Silent>,
) -> Ending
    requires leading { IsLeading first.old.view.question exchange.now first.old }
    requires formula { first.old.view.question.formula ≡ task.now.formula.now }
    requires other { (runner.watch.pass.table ≡ exchange.now) × (runner.watch.pass.view.first ≡ false) × (runner.watch.pass.view.question ≡ first.old.view.question) }
    requires seated { IsSeated task.now.limit runner.solver runner.watch.pass.view }
    requires ended { RunEnded task.now.limit runner.solver runner.watch.pass.view runner.ending }
    requires home { IsHome task.now.limit task.now.formula.now.problem first.old.view.seen runner.solver.number home.old }
    ensures joined { JoinedOne first.old first.new runner.entry.watch.pass }
    ensures home { IsHome task.now.limit task.now.formula.now.problem first.new.view.seen runner.entry.solver.number home.new }
    ensures ended { HasEnded first.old.view.question first.new.view (IsSpent task.now.limit task.now.formula.now.problem home.new.conflicts) result }
    ensures found { IsFound runner.entry.ending → IsFound result }
    ensures late { IsLate runner.entry.ending → IsLate result }
{
    let Runner {
        solver,
        watch,
        ending,
        taken: _,
        given: _,
    } = runner;
    let Watch {
        exchange: _,
        pass,
        alarm: _,
        stopped: _,
    } = watch;
    exchange.join(first, pass);
    come_home(task.formula, solver, ending, home)
}

/// Puts a solver into its place, with the whole formula taken. The new one that stands there stays
/// where the solver ran out of memory or does so now. The answer is how its run ended.
pub(crate) fn come_home(
    formula: &Formula,
    mut solver: OneSolver,
    ending: Ending,
    home: &mut OneSolver,
) -> Ending
    requires front { Extends (problem_in solver) formula.now.problem }
    ensures home { ComesHome formula.now.problem solver home.old home.new }
    ensures in_step { (log : List Shared) → IsInStep solver log → IsInStep home.old log → IsInStep home.new log }
    ensures ending { (result ≡ ending) ⊎ (result ≡ Ending.Memory) }
    ensures found { IsFound ending → result ≡ ending }
    ensures spent { result ≡ Ending.Spent → home.new.conflicts ≡ solver.conflicts }
{
    if matches!(ending, Ending::Memory) {
        return ending;
    }
    if let Err(NoMemory) = solver.absorb(formula) {
        return ending.without_solver();
    }
    *home = solver;
    ending
}
