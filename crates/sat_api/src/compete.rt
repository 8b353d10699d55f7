ghost use Rattle.std.specs.Prelude.{◌≡◌, ◌+◌, ◌*◌, ◌<◌, ◌≤◌, ◌^◌, length, IfSome, IsTrue};
ghost use Rattle.sat_lits.specs.Formulas.{names_known};
ghost use Rattle.sat_lits.specs.declared.formula.Item.TheVariants.{Clause};
ghost use Rattle.share_store.specs.Log.{StartsWith};
ghost use Rattle.share_turn.specs.Views.{question, IsLegalFor};
ghost use Rattle.race.specs.Homes.{EachPlace, IsEntrant};
ghost use Rattle.sat_api.specs.Answers.{AreSettled};
ghost use Rattle.sat_api.specs.Decisions.{IsFound};

use crate::solvers::pour_all;
use analyze::Tally;
use one_solver::OneSolver;
use race::{RaceAnswer, race};
use sat_lits::{Formula, Lit};
use sat_ports::{Alarm, OpenGate};
use share_store::Store;
use std::alloc::Global;
use std::thread::Threads;

/// Lets the solvers race for the answer, and pours their conflicts into a tally. Each made no conflict
/// that was not poured, before and after.
///
/// A verdict is right, and `Spent` has a count for each solver, each of which is the limit and was
/// poured. No solver makes more conflicts than the limit, whatever the answer.
pub fn compete<R: Threads + Sync, A: Alarm + Send>(
    rt: &R,
    alloc: Global,
    formula: &Formula,
    assumptions: &[Lit],
    limit: Option<u64>,
    solvers: &mut [OneSolver],
    store: &mut Store,
    tally: &mut Tally,
    alarm: &mut A,
) -> RaceAnswer
    requires some { 0 < length solvers.old }
    requires few { length solvers.old < 2 ^ 32 }
    requires few_assumptions { length assumptions.now < 2 ^ 32 }
    requires known { IsTrue (names_known formula.now.problem.vars (Clause assumptions.now)) }
    requires legal { IsLegalFor (question formula.now assumptions.now (length solvers.old)) store.old }
    requires entrants { EachPlace (IsEntrant formula.now.problem store.old) solvers.old }

    ensures found { IsFound formula.now.problem assumptions.now limit (length solvers.old) tally.old tally.new (A.raises alarm.old) (A.raises alarm.new) result }
    ensures counted { tally.old ≤ tally.new }
    ensures limited { IfSome limit (λ most. tally.new ≤ tally.old + length solvers.old * most) }
    ensures legal { IsLegalFor (question formula.now assumptions.now (length solvers.old)) store.new }
    ensures grows { StartsWith store.new store.old }
    ensures settled { AreSettled limit formula.now.problem store.new solvers.new }
    ensures entrants { EachPlace (IsEntrant formula.now.problem store.new) solvers.new }
    ensures later { A.raises alarm.old ≤ A.raises alarm.new }
{
    let gate = OpenGate::new();
    let answer = race(
        rt,
        alloc,
        formula,
        assumptions,
        limit,
        solvers,
        store,
        alarm,
        &gate,
    );
    pour_all(solvers, tally);
    answer
}
