ghost use Rattle.std.specs.Prelude.{◌≡◌, ◌+◌, ◌<◌, ◌≤◌, ℕ, true, false, length, slice_index_or, vec_len, All};
ghost use Rattle.sat_ports.specs.Causes.{Rose};
ghost use Rattle.share_store.specs.Log.{StartsWith};
ghost use Rattle.one_solver.specs.Parts.{Parts};
ghost use Rattle.race.specs.Homes.{EachPlace, IsEntrant, IsHome};
ghost use Rattle.race.specs.Running.{IsSpent, IsAskedOf, IsSeated, HasEnded, RunEnded, IsFound, IsLate, StaysFirst, KeepsOther};
ghost use Rattle.race.specs.Seating.{IsLeading, IsSeatOf, IsNewAt, IsDone};

use crate::ending::Ending;
use crate::home::{absorb_all, bring_home, come_home};
use crate::runner::Runner;
use crate::seats::seat_others;
use crate::task::Task;
use crate::threads::run_all;
use crate::watch::{Lent, Watch};
use one_solver::OneSolver;
use sat_lits::NoMemory;
use sat_ports::{Alarm, Gate, Silent};
use share_turn::{Exchange, Pass};
use std::alloc::Global;
use std::mem;
use std::thread::Threads;

/// The first pass, with all others joined into it, and how the runs ended together.
pub(crate) struct Gathered {
    pub(crate) pass: Pass,
    pub(crate) ending: Ending,
}

/// Gives each solver a pass and runs all of them, if there is memory for the list.
pub(crate) fn run_field<'a, 'b, R: Threads + Sync, A: Alarm + Send, G: Gate + Sync>(
    rt: &R,
    alloc: Global,
    task: &Task<'a, G>,
    exchange: &'a Exchange,
    mut first: Pass,
    solvers: &mut [OneSolver],
    alarm: &'b mut A,
) -> Gathered
    requires some { 0 < length solvers.old }
    requires leading { IsLeading first.view.question exchange.now first }
    requires calm { first.view.alarmed ≡ false }
    requires even { first.view.splits ≡ first.view.joins }
    requires asked { IsAskedOf first.view.question task.now.formula.now task.now.assumptions.now }
    requires all { length solvers.old ≡ first.view.question.solvers }
    requires entrants { EachPlace (IsEntrant task.now.formula.now.problem first.view.seen) solvers.old }
    ensures leading { IsLeading first.view.question exchange.now result.pass }
    ensures seen { StartsWith result.pass.view.seen first.view.seen }
    ensures even { result.pass.view.splits ≡ result.pass.view.joins }
    ensures homes { EachPlace (IsHome task.now.limit task.now.formula.now.problem result.pass.view.seen) solvers.new }
    ensures ended { HasEnded first.view.question result.pass.view (All (λ s. IsSpent task.now.limit task.now.formula.now.problem s.conflicts) solvers.new) result.ending }
    ensures alarmed { result.pass.view.alarmed ≡ true → Rose (A.raises alarm.old) (A.raises alarm.new) }
    ensures later { A.raises alarm.old ≤ A.raises alarm.new }
{
    match seat_others(alloc, exchange, &mut first, solvers) {
        Err(NoMemory) => {
            absorb_all(alloc, task.formula, solvers);
            Gathered {
                pass: first,
                ending: Ending::Memory,
            }
        }
        Ok(others) => run_seated(rt, alloc, task, exchange, first, solvers, others, alarm),
    }
}

/// Runs the first solver with the others, and brings all of them home.
#[tactic(auto, using(share_store::specs::Laws::starts_trans))]
fn run_seated<'a, 'b, R: Threads + Sync, A: Alarm + Send, G: Gate + Sync>(
    rt: &R,
    alloc: Global,
    task: &Task<'a, G>,
    exchange: &'a Exchange,
    first: Pass,
    solvers: &mut [OneSolver],
    mut others: Vec<Runner<'a, Silent>>,
    alarm: &'b mut A,
) -> Gathered
    requires leading { IsLeading first.view.question exchange.now first }
    requires calm { first.view.alarmed ≡ false }
    requires asked { IsAskedOf first.view.question task.now.formula.now task.now.assumptions.now }
    requires count { vec_len others + 1 ≡ length solvers.old }
    requires all { length solvers.old ≡ first.view.question.solvers }
    requires lead { (d : Parts) → IsEntrant task.now.formula.now.problem first.view.seen 0 (slice_index_or solvers.old 0 d) }
    requires left { (k : ℕ) (d : Parts) → 0 < k → k < length solvers.old → IsNewAt k (slice_index_or solvers.old k d) }
    requires seats { (k : ℕ) (d : _) → k < vec_len others → IsSeatOf task.now.limit first.view.question exchange.now k (slice_index_or others.items k d).solver
        (slice_index_or others.items k d).watch.pass }
    ensures leading { IsLeading first.view.question exchange.now result.pass }
    ensures seen { StartsWith result.pass.view.seen first.view.seen }
    ensures splits { result.pass.view.splits ≡ first.view.splits }
    ensures joins { result.pass.view.joins + 1 ≡ first.view.joins + length solvers.old }
    ensures homes { EachPlace (IsHome task.now.limit task.now.formula.now.problem result.pass.view.seen) solvers.new }
    ensures ended { HasEnded first.view.question result.pass.view (All (λ s. IsSpent task.now.limit task.now.formula.now.problem s.conflicts) solvers.new) result.ending }
    ensures alarmed { result.pass.view.alarmed ≡ true → Rose (A.raises alarm.old) (A.raises alarm.new) }
    ensures later { A.raises alarm.old ≤ A.raises alarm.new }
{
    let solver = mem::replace(&mut solvers[0], OneSolver::new(alloc, 0));
    let led = run_led(
        rt,
        task,
        exchange,
        first,
        solver,
        others.as_mut_slice(),
        alarm,
    );
    gather(task, exchange, led, solvers, others)
}

/// The first solver after its run, with its pass.
struct Led {
    solver: OneSolver,
    pass: Pass,
    ending: Ending,
}

/// Brings all solvers home after their runs, and joins all passes into the first one.
fn gather<G>(
    task: &Task<G>,
    exchange: &Exchange,
    led: Led,
    solvers: &mut [OneSolver],
    others: Vec<Runner<Silent>>,
) -> Gathered
    requires formula { led.pass.view.question.formula ≡ task.now.formula.now }
    requires leading { IsLeading led.pass.view.question exchange.now led.pass }
    requires first_seated { IsSeated task.now.limit led.solver led.pass.view }
    requires first_ended { RunEnded task.now.limit led.solver led.pass.view led.ending }
    requires first_number { led.solver.number ≡ 0 }
    requires count { vec_len others + 1 ≡ length solvers.old }
    requires homes { EachPlace (IsHome task.now.limit task.now.formula.now.problem led.pass.view.seen) solvers.old }
    requires done { (k : ℕ) (d : _) → k < vec_len others → IsDone task.now.limit led.pass.view.question exchange.now k (slice_index_or others.items k d).solver
        (slice_index_or others.items k d).watch.pass (slice_index_or others.items k d).ending }
    ensures leading { IsLeading led.pass.view.question exchange.now result.pass }
    ensures alarmed { result.pass.view.alarmed ≡ led.pass.view.alarmed }
    ensures seen { StartsWith result.pass.view.seen led.pass.view.seen }
    ensures splits { result.pass.view.splits ≡ led.pass.view.splits }
    ensures joins { result.pass.view.joins + 1 ≡ led.pass.view.joins + length solvers.old }
    ensures homes { EachPlace (IsHome task.now.limit task.now.formula.now.problem result.pass.view.seen) solvers.new }
    ensures ended { HasEnded led.pass.view.question result.pass.view (All (λ s. IsSpent task.now.limit task.now.formula.now.problem s.conflicts) solvers.new) result.ending }
    ensures found_first { IsFound led.ending → IsFound result.ending }
    ensures found_others { (k : ℕ) (d : _) → k < vec_len others.entry → IsFound (slice_index_or others.entry.items k d).ending → IsFound result.ending }
    ensures late_first { IsLate led.ending → IsLate result.ending }
    ensures late_others { (k : ℕ) (d : _) → k < vec_len others.entry → IsLate (slice_index_or others.entry.items k d).ending → IsLate result.ending }
{
    let Led {
        solver,
        mut pass,
        ending,
    } = led;
    let others_ended = bring_home(task, exchange, &mut pass, solvers, others);
    let ended = come_home(task.formula, solver, ending, &mut solvers[0]);
    Gathered {
        pass,
        ending: ended.with(others_ended),
    }
}

/// Runs all solvers side by side, the first one under the alarm.
fn run_led<'a, 'b, R: Threads + Sync, A: Alarm + Send, G: Gate + Sync>(
    rt: &R,
    task: &Task<'a, G>,
    exchange: &'a Exchange,
    first: Pass,
    solver: OneSolver,
    others: &mut [Runner<'a, Silent>],
    alarm: &'b mut A,
) -> Led
    requires own { first.table ≡ exchange.now }
    requires first_asked { IsAskedOf first.view.question task.now.formula.now task.now.assumptions.now }
    requires first_seated { IsSeated task.now.limit solver first.view }
    requires first { first.view.first ≡ true }
    requires calm { first.view.alarmed ≡ false }
    requires asked { All (λ r. IsAskedOf r.watch.pass.view.question task.now.formula.now task.now.assumptions.now) others.old }
    requires seated { All (λ r. IsSeated task.now.limit r.solver r.watch.pass.view) others.old }

    ensures first_seated { IsSeated task.now.limit result.solver result.pass.view }
    ensures first_ended { RunEnded task.now.limit result.solver result.pass.view result.ending }
    ensures first_number { result.solver.number ≡ solver.number }
    ensures first_pass { StaysFirst first result.pass }
    ensures alarmed { result.pass.view.alarmed ≡ true → Rose (A.raises alarm.old) (A.raises alarm.new) }
    ensures later { A.raises alarm.old ≤ A.raises alarm.new }

    ensures seated { All (λ r. IsSeated task.now.limit r.solver r.watch.pass.view) others.new }
    ensures ended { All (λ r. RunEnded task.now.limit r.solver r.watch.pass.view r.ending) others.new }
    ensures kept { (k : ℕ) (d : _) → k < length others.old → KeepsOther (slice_index_or others.old k d).solver (slice_index_or others.new k d).solver
        (slice_index_or others.old k d).watch.pass (slice_index_or others.new k d).watch.pass }
{
    let mut lead = Runner::new(solver, exchange, first, Lent { alarm });
    run_all(rt, task, &mut lead, others);
    let Runner {
        solver,
        watch,
        ending,
        taken: _,
        given: _,
    } = lead;
    let Watch {
        exchange: _,
        pass,
        alarm,
        stopped: _,
    } = watch;
    let Lent { alarm: _alarm } = alarm;
    Led {
        solver,
        pass,
        ending,
    }
}
