ghost use Rattle.std.specs.Prelude.{◌≡◌, ◌<◌, ◌≤◌, ◌^◌, false, All, Any, length, IfSome, IsTrue};
ghost use Rattle.sat_lits.specs.Formulas.{names_known};
ghost use Rattle.sat_lits.specs.declared.formula.Item.TheVariants.{Clause};
ghost use Rattle.sat_ports.specs.Causes.{Rose};
ghost use Rattle.share_store.specs.Log.{StartsWith};
ghost use Rattle.share_turn.specs.Views.{question, IsLegalFor};
ghost use Rattle.race.specs.Homes.{EachPlace, IsEntrant, IsHome, IsSettledHome};
ghost use Rattle.race.specs.Running.{IsAskedOf, IsWithin};
ghost use Rattle.race.specs.Answers.{OutcomeRight, RacesRight, Finished, IsEnoughFor, IsDecided, IsVerdict};

use crate::answer::RaceAnswer;
use crate::choice::choose;
use crate::ending::Ending;
use crate::field::{Gathered, run_field};
use crate::home::absorb_all;
use crate::rounds::settle;
use crate::task::Task;
use one_solver::OneSolver;
use sat_lits::{Formula, Lit};
use sat_ports::{Alarm, Gate};
use share_store::Store;
use share_turn::{BeginRefused, Closed, Exchange, Outcome};
use std::alloc::Global;
use std::mem;
use std::thread::Threads;

/// Lets solvers race for the answer to one question: the first one in this thread, under the alarm,
/// and each other one in a thread of its own. They exchange clauses by the store during the race, and
/// catch up with it in turn afterwards, until a whole round adds nothing.
///
/// A verdict is right. `Interrupted` comes only where the alarm's count rose, and `Spent` only where
/// every solver made as many conflicts as the limit allows, which are fewer than enough. So where the
/// limit is enough and the alarm's count did not rise, the answer is a verdict or want of memory.
///
/// Afterwards each solver took the whole formula and is settled with the store, or it ran out of
/// memory and a new one with its number stands in its place. A gate may hold solvers, each for
/// 4194304 questions at a time at most.
pub fn race<R: Threads + Sync, A: Alarm + Send, G: Gate + Sync>(
    rt: &R,
    alloc: Global,
    formula: &Formula,
    assumptions: &[Lit],
    limit: Option<u64>,
    solvers: &mut [OneSolver],
    store: &mut Store,
    alarm: &mut A,
    gate: &G,
) -> RaceAnswer
    requires some { 0 < length solvers.old }
    requires few { length solvers.old < 2 ^ 32 }
    requires few_assumptions { length assumptions.now < 2 ^ 32 }
    requires known { IsTrue (names_known formula.now.problem.vars (Clause assumptions.now)) }
    requires legal { IsLegalFor (question formula.now assumptions.now (length solvers.old)) store.old }
    requires entrants { EachPlace (IsEntrant formula.now.problem store.old) solvers.old }

    ensures right { RacesRight formula.now.problem assumptions.now limit (A.raises alarm.old) (A.raises alarm.new) solvers.new result }
    ensures decides { IsEnoughFor limit formula.now.problem → (Rose (A.raises alarm.old) (A.raises alarm.new) → ⊥) → IsDecided result }
    ensures refuted { Any (λ s. s.kernel.okay ≡ false) solvers.new → IsVerdict result }

    ensures legal { IsLegalFor (question formula.now assumptions.now (length solvers.old)) store.new }
    ensures grows { StartsWith store.new store.old }
    ensures solvers { EachPlace (IsSettledHome limit formula.now.problem store.new) solvers.new }
    ensures later { A.raises alarm.old ≤ A.raises alarm.new }
{
    let task = Task {
        formula,
        assumptions,
        limit,
        gate,
    };
    let Finish { outcome, ending } = compete(rt, alloc, &task, solvers, store, alarm);
    let stay = settle(alloc, &task, solvers, store);
    let ending = if stay {
        ending
    } else {
        ending.without_solver()
    };
    choose(alloc, &task, solvers, outcome, ending)
}

/// What a race came to before its rounds.
struct Finish {
    /// The outcome that was posted, if one was.
    outcome: Option<Outcome>,
    /// How the runs ended together.
    ending: Ending,
}

/// Lets all solvers compete over the store, and brings them home.
fn compete<R: Threads + Sync, A: Alarm + Send, G: Gate + Sync>(
    rt: &R,
    alloc: Global,
    task: &Task<G>,
    solvers: &mut [OneSolver],
    store: &mut Store,
    alarm: &mut A,
) -> Finish
    requires some { 0 < length solvers.old }
    requires few { length solvers.old < 2 ^ 32 }
    requires asked { IsAskedOf (question task.now.formula.now task.now.assumptions.now (length solvers.old)) task.now.formula.now task.now.assumptions.now }
    requires legal { IsLegalFor (question task.now.formula.now task.now.assumptions.now (length solvers.old)) store.old }
    requires entrants { EachPlace (IsEntrant task.now.formula.now.problem store.old) solvers.old }
    ensures legal { IsLegalFor (question task.now.formula.now task.now.assumptions.now (length solvers.old)) store.new }
    ensures grows { StartsWith store.new store.old }
    ensures homes { EachPlace (IsHome task.now.limit task.now.formula.now.problem store.new) solvers.new }
    ensures outcome { IfSome result.outcome (OutcomeRight task.now.formula.now.problem task.now.assumptions.now (A.raises alarm.old) (A.raises alarm.new)) }
    ensures finished { Finished task.now.formula.now.problem task.now.assumptions.now task.now.limit solvers.new result.outcome result.ending }
    ensures later { A.raises alarm.old ≤ A.raises alarm.new }
{
    let count = solvers.len() as u32;
    let given = mem::replace(store, Store::new(alloc));
    match Exchange::begin(alloc, task.formula, task.assumptions, count, given) {
        Err(BeginRefused { store: given }) => {
            *store = given;
            absorb_all(alloc, task.formula, solvers);
            Finish {
                outcome: None,
                ending: Ending::Memory,
            }
        }
        Ok((exchange, first)) => {
            // This task lives as long as the exchange does, and not longer.
            let task = Task {
                formula: task.formula,
                assumptions: task.assumptions,
                limit: task.limit,
                gate: task.gate,
            };
            let Gathered { pass, ending } = run_field(
                rt, alloc, &task, &exchange, first, solvers, alarm,
            );
            let Closed {
                store: closed,
                outcome,
            } = exchange.close(pass);
            *store = closed.unwrap();
            Finish { outcome, ending }
        }
    }
}
