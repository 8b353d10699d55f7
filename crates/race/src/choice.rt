ghost use Rattle.std.specs.Prelude.{◌≡◌, ◌<◌, ℕ, List, Some, true, false, map, All, Any, IfOk, IfSome};
ghost use Rattle.sat_lits.specs.Logs.{IsLegalLog};
ghost use Rattle.sat_lits.specs.declared.shared.Shared.{Shared};
ghost use Rattle.one_solver.specs.Steps.{HasNoModel};
ghost use Rattle.race.specs.Homes.{EachPlace, IsHome};
ghost use Rattle.race.specs.Running.{IsFound};
ghost use Rattle.race.specs.Answers.{OutcomeRight, RacesRight, Finished, IsVerdict, IsOutcome};

use crate::answer::RaceAnswer;
use crate::ending::Ending;
use crate::task::Task;
use one_solver::OneSolver;
use sat_lits::{Formula, List, NoMemory, Verdict};
use share_turn::Outcome;
use std::alloc::Global;

/// Chooses the answer of a race: a verdict before all, then that it was halted, then want of memory,
/// and else that each solver spent the limit.
pub(crate) fn choose<G>(
    alloc: Global,
    task: &Task<G>,
    solvers: &[OneSolver],
    outcome: Option<Outcome>,
    ending: Ending,
) -> RaceAnswer
    requires homes { (log : List Shared) × IsLegalLog task.now.formula.now.problem log × EachPlace (IsHome task.now.limit task.now.formula.now.problem log) solvers.now }
    requires finished { Finished task.now.formula.now.problem task.now.assumptions.now task.now.limit solvers.now outcome ending }
    ensures right { (before now : ℕ) → IfSome outcome (OutcomeRight task.now.formula.now.problem task.now.assumptions.now before now)
        → RacesRight task.now.formula.now.problem task.now.assumptions.now task.now.limit before now solvers.now result }
    ensures posted { IfSome outcome (λ o. (verdict : _) → o ≡ Outcome.Verdict verdict → IsVerdict result) }
    ensures late { (verdict : _) → ending ≡ Ending.Late verdict → IsVerdict result }
    ensures refuted { Any (λ s. s.kernel.okay ≡ false) solvers.now → IsVerdict result }
    ensures found { IsFound ending → IsOutcome result }
{
    match (outcome, ending) {
        (Some(Outcome::Verdict(verdict)), _) => RaceAnswer::Verdict(verdict),
        (_, Ending::Late(verdict)) => RaceAnswer::Verdict(verdict),
        _ if is_refuted(task.formula, solvers) => {
            RaceAnswer::Verdict(Verdict::Unsat(List::new(alloc)))
        }
        (Some(Outcome::Halted), _) => RaceAnswer::Interrupted,
        (None, Ending::Over) => unreachable!(),
        (None, Ending::Memory) => RaceAnswer::Memory,
        (None, Ending::Spent) => match counts_of(alloc, solvers) {
            Ok(counts) => RaceAnswer::Spent { counts },
            Err(NoMemory) => RaceAnswer::Memory,
        },
    }
}

/// Whether some solver found that the formula has no model.
fn is_refuted(formula: &Formula, solvers: &[OneSolver]) -> bool
    requires { (log : List Shared) × (limit : _) × IsLegalLog formula.now.problem log × EachPlace (IsHome limit formula.now.problem log) solvers.now }
    ensures yes { result ≡ true → HasNoModel formula.now.problem }
    ensures no { result ≡ false → All (λ s. s.kernel.okay ≡ true) solvers.now }
{
    'solvers: for solver in solvers {
        if !solver.okay() {
            return true;
        }
    }
    false
}

/// The conflicts of each solver, in order. The only error is want of memory.
fn counts_of(alloc: Global, solvers: &[OneSolver]) -> Result<List<u64>, NoMemory>
    ensures { IfOk result (λ counts. counts ≡ map (λ s. s.conflicts) solvers.now) }
{
    let mut counts = List::new(alloc);
    'solvers: for solver in solvers {
        counts.push(solver.conflicts())?;
    }
    Ok(counts)
}
